// The host's calls on one SPI, a line each over `DistributorState::change`.
#![tactic(auto)]

pub mod host;
