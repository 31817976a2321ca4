// What an interrupt has besides its identifier.
#![tactic(auto)]

pub mod attributes;
