// The two line calls on one lent record.
#![tactic(auto)]

pub mod lent;
