// The face: the Distributor's calls on a lent image, for programs in C and in Rust. A call loads the records that it names, and a call that
// may change them stores them again; nothing else of the image is copied.
#![tactic(auto)]

pub mod calls;
pub mod create;
pub mod face;
pub mod guest;
pub mod sweeps;
