// The life of one interrupt: its six flags, and what happens to them.
#![tactic(auto)]

pub mod life;
