// The operations that change a record, as values.
#![tactic(auto)]

pub mod operation;
