// What a call answered, as words.
use identifiers::error::Refusal;
use spi::question::Value;
use std::fmt;

// An answer: what the call hands out, or the refusal.
#[derive(Drop)]
pub struct Shown<T>(pub Result<T, Refusal>);

// A register's value.
#[derive(Drop)]
pub struct Hex(pub u64);

// How many candidates a write lists.
#[derive(Drop)]
pub struct Lists(pub usize);

// What a question is answered. The examples ask for flags alone.
#[derive(Drop)]
pub struct Asked(pub Value);

impl<T: fmt::Display> fmt::Display for Shown<T> {
    fn fmt<W: fmt::Write>(&self, f: &mut fmt::Formatter<W>) -> fmt::Result {
        match &self.0 {
            Ok(handed_out) => write!(f, " {handed_out}"),
            Err(refusal) => write!(f, " refused {refusal}"),
        }
    }
}

impl fmt::Display for Hex {
    fn fmt<W: fmt::Write>(&self, f: &mut fmt::Formatter<W>) -> fmt::Result {
        write!(f, "{:#x}", self.0)
    }
}

impl fmt::Display for Lists {
    fn fmt<W: fmt::Write>(&self, f: &mut fmt::Formatter<W>) -> fmt::Result {
        write!(f, "done, lists {}", self.0)
    }
}

impl fmt::Display for Asked {
    fn fmt<W: fmt::Write>(&self, f: &mut fmt::Formatter<W>) -> fmt::Result {
        match self.0 {
            Value::Flag(on) => write!(f, "{}", u8::from(on)),
            _ => Ok(()),
        }
    }
}
