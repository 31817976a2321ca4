// The lent image: the bytes that a Distributor is kept in, and what they mean. No calls are in here.
#![tactic(auto)]

pub mod bytes;
pub mod header;
pub mod kept;
pub mod records;
