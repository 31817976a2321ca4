// The calls as numbers, and what is seen of them as numbers (docs/ORACLE.md, "The calls"). No Distributor is in here.
#![tactic(auto)]

pub mod answer;
pub mod call;
pub mod guest;
pub mod identifier;
pub mod number;
pub mod packed;
pub mod question;
