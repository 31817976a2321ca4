// The calls as numbers, run through the C face on an image, and held against what the core did (docs/ORACLE.md, "The list, replayed").
// No Distributor is in here.
#![tactic(auto)]

pub mod apart;
pub mod beside;
