// All that is seen of a call, held against its line: the answer, the switch, every place of the lent list and every slot.
use crate::line::Line;
use harness_face::apart::{Apart, Compared};
use harness_numbers::answer::Answer;
use harness_numbers::guest::{PLACES, UNTOUCHED};
use image::kept::word_of;
use place::place::SPIS;
use slot::slot::Slot;
use std::fmt;

#[derive(Clone, Copy, Debug, PartialEq, Eq)]
pub enum What {
    Kind,
    Payload,
    Count,
    Switch,
    // A place of the lent list.
    Place(usize),
    // The slot of a place of the table.
    Slot(usize),
}

impl fmt::Display for What {
    fn fmt<W: fmt::Write>(&self, f: &mut fmt::Formatter<W>) -> fmt::Result {
        match *self {
            What::Kind => f.write_str("kind"),
            What::Payload => f.write_str("payload"),
            What::Count => f.write_str("number of candidates"),
            What::Switch => f.write_str("switch"),
            What::Place(at) => write!(f, "place of the lent list {at}"),
            What::Slot(at) => write!(f, "slot of place {at}"),
        }
    }
}

impl Compared for What {
    const ONE: &'static str = "in the list";

    const OTHER: &'static str = "here       ";
}

// The first difference there is. `slots` are what the lines so far give.
pub fn in_call(
    line: &Line,
    slots: &[u64; SPIS],
    answer: Answer,
    switch: bool,
    list: &[u32; PLACES],
    table: &[Slot; SPIS],
) -> Option<Apart<What>> {
    in_answer(line, answer, switch)
        .or(in_list(line.candidates, list))
        .or(in_table(slots, table))
}

fn in_answer(line: &Line, answer: Answer, switch: bool) -> Option<Apart<What>> {
    let candidates = line.candidates.len() as u64;
    Apart::between(What::Kind, line.kind, answer.kind)
        .or(Apart::between(What::Payload, line.payload, answer.payload))
        .or(Apart::between(What::Count, candidates, answer.count as u64))
        .or(Apart::between(What::Switch, line.switch as u64, switch as u64))
}

// The first places hold the line's candidates, and the others are untouched.
fn in_list(candidates: &[u64], list: &[u32; PLACES]) -> Option<Apart<What>> {
    list.iter().enumerate().find_map(|(at, here)| {
        let listed = candidates.get(at).copied().unwrap_or(UNTOUCHED as u64);
        Apart::between(What::Place(at), listed, *here as u64)
    })
}

// Every slot of the table, those past the last SPI too: they stay fresh.
fn in_table(slots: &[u64; SPIS], table: &[Slot; SPIS]) -> Option<Apart<What>> {
    slots.iter().zip(table).enumerate().find_map(|(at, (listed, slot))| {
        Apart::between(What::Slot(at), *listed, word_of(*slot))
    })
}
