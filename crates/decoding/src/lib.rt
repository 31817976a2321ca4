// How an access to the frame is decoded: refused, in the order of the refusals, or the register that it reaches. Of a bank it reaches
// some fields.
#![tactic(auto)]

pub mod decode;
pub mod fields;
