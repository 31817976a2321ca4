// The register map, and which register an access reaches.
#![tactic(auto)]

pub mod register;
