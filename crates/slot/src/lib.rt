// One SPI: its record, whether it is claimed and whether its route is fixed; what guest and host do to it.
#![tactic(auto)]

pub mod effect;
pub mod slot;
