// What the host does to one SPI, named, and what becomes of its record, its claim and its fixed mark.
#![tactic(auto)]

pub mod change;
