// The calls as numbers, run on a Distributor (docs/ORACLE.md, "The calls").
#![tactic(auto)]

pub mod create;
pub mod run;
