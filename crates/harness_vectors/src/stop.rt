// Why a run ends without a count, and what the program writes of it.
use crate::compare::What;
use harness_face::apart::{Apart, Part};
use std::fmt;

#[derive(Clone, Copy, Debug, PartialEq, Eq)]
pub enum Stop {
    Unread,
    NoCall,
    // With the line's number.
    Bad(u64),
    Differs(u64, Apart<What>),
    Apart(u64, Apart<Part>),
}

// A stop, and whose list it is in, to be written where a line differs.
#[derive(Clone, Copy, Debug, PartialEq, Eq)]
pub struct In<'a>(pub &'a str, pub Stop);

impl fmt::Display for In<'_> {
    fn fmt<W: fmt::Write>(&self, f: &mut fmt::Formatter<W>) -> fmt::Result {
        let In(whose, stop) = self;
        match stop {
            Stop::Unread => f.write_str("the list cannot be read"),
            Stop::NoCall => f.write_str("no call: this is no list"),
            Stop::Bad(line) => write!(f, "bad line {line}"),
            Stop::Differs(line, apart) => write!(f, "difference in {whose}line {line}: {apart}"),
            Stop::Apart(line, apart) => write!(f, "difference in {whose}line {line}: {apart}"),
        }
    }
}
