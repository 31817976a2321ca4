// Whose an SPI is: the host's claim, the fixed mark, and what an SPI that is not the guest's shows.
#![tactic(auto)]

pub mod ownership;
