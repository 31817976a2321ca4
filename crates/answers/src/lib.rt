// What the guest is answered.
#![tactic(auto)]

pub mod answer;
