// The Distributor for programs in other languages: calls as bytes in, what is seen of them as bytes out (docs/ORACLE.md, "At scale").
#![tactic(auto)]

pub mod bench;
pub mod sequence;
