// What the face told of a call and left in its list, held against the core's.
use harness_numbers::answer::Answer;
use harness_numbers::guest::PLACES;
use image::bytes::load;
use image_model::told::Told;
use std::fmt;

// The bytes of the most places that a write is lent, and how many pairs they are.
pub const LIST: usize = 4 * PLACES;

const PAIRS: usize = PLACES / 2;

// The number that the face answers, `out`, two places of its list from one on, or 8 bytes of its image from one on.
#[derive(Clone, Copy, Debug, PartialEq, Eq)]
pub enum Part {
    Number,
    Out,
    Places(usize),
    Image(usize),
}

impl fmt::Display for Part {
    fn fmt<W: fmt::Write>(&self, f: &mut fmt::Formatter<W>) -> fmt::Result {
        match *self {
            Part::Number => f.write_str("the face's number"),
            Part::Out => f.write_str("the face's out"),
            Part::Places(at) => write!(f, "the face's list from place {at}"),
            Part::Image(at) => write!(f, "the face's image from byte {at}"),
        }
    }
}

// Something that two sides have, and what the sides are called.
pub trait Compared: fmt::Display {
    const ONE: &'static str;

    const OTHER: &'static str;
}

impl Compared for Part {
    const ONE: &'static str = "the core";

    const OTHER: &'static str = "the face";
}

// Where two sides differ, and what each of them has.
#[derive(Clone, Copy, Debug, PartialEq, Eq)]
pub struct Apart<P> {
    pub part: P,
    pub one: u64,
    pub other: u64,
}

impl<P: Drop> Apart<P> {
    // None where they have the same.
    pub fn between(part: P, one: u64, other: u64) -> Option<Self> {
        (one != other).then_some(Apart { part, one, other })
    }
}

impl<P: Compared> fmt::Display for Apart<P> {
    fn fmt<W: fmt::Write>(&self, f: &mut fmt::Formatter<W>) -> fmt::Result {
        let Apart { part, one, other } = self;
        write!(
            f,
            "{part}\n    {} {one:x}\n    {} {other:x}",
            P::ONE,
            P::OTHER
        )
    }
}

// The face answers the kind. `out` is the payload, or how many candidates are listed: one of the two is 0.
pub fn in_answer(answer: Answer, told: Told) -> Option<Apart<Part>> {
    let out = answer.payload.wrapping_add(answer.count as u64);
    Apart::between(Part::Number, answer.kind, told.number as u64).or_else(|| Apart::between(
        Part::Out,
        out,
        told.out,
    ))
}

// The face's list has the core's places, 4 bytes each. Two are compared at a time.
pub fn in_list(list: &[u32; PLACES], bytes: &[u8; LIST]) -> Option<Apart<Part>> {
    (0..PAIRS).find_map(|i| {
        let core = list[2 * i] as u64 | (list[2 * i + 1] as u64) << 32;
        Apart::between(Part::Places(2 * i), core, load(bytes, 8 * i))
    })
}
