// The GICv3 Distributor by value: its table of SPIs, the guest's accesses, and the host's calls.
#![tactic(auto)]

pub mod access;
pub mod create;
pub mod distributor;
pub mod host;
