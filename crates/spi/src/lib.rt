// One SPI as the host sees it: what a change answers, and what he asks about it, named.
#![tactic(auto)]

pub mod change;
pub mod question;
