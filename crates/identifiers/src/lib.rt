// Identifiers, their makers, and the refusals.
#![tactic(auto)]

pub mod error;
pub mod types;
