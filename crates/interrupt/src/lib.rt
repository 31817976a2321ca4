// One interrupt's record with all its operations: what the Distributor stands on.
#![tactic(auto)]

pub mod interrupt;
