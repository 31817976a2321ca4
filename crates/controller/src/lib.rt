// The settings of a Distributor, and the registers that have no INTID.
#![tactic(auto)]

pub mod controller;
pub mod identity;
