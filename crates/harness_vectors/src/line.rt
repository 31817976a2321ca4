// A line of a list, by its words: the call, and what was seen of it.
use harness_numbers::call;
use harness_numbers::call::{Call, Family};

// The most words of a line: ten, a candidate for each of 988 SPIs, and a place and a slot for each, fit.
pub const WORDS: usize = 4096;

#[derive(Clone, Copy, Debug, PartialEq, Eq)]
pub struct Line<'a> {
    pub call: Call,
    // A number, which is held against an answer's.
    pub kind: u64,
    pub payload: u64,
    pub candidates: &'a [u64],
    pub switch: bool,
    // The slots that changed: a place and a slot each.
    pub changes: &'a [[u64; 2]],
}

impl<'a> Line<'a> {
    // None where the words are no line. It has ten, one more for a candidate, and two more for a changed slot.
    pub fn of(words: &'a [u64]) -> Option<Self> {
        let &[op, a, b, c, d, kind, payload, count, ref rest @ ..] = words else {
            return None;
        };
        let (candidates, rest) = rest.split_at_checked(count as usize)?;
        let &[switch, changed, ref rest @ ..] = rest else {
            return None;
        };
        let (changes, odd) = rest.as_chunks();
        let whole = odd.is_empty() && changes.len() as u64 == changed && switch <= 1;
        whole.then_some(Line {
            call: Call { op, a, b, c, d },
            kind,
            payload,
            candidates,
            switch: switch == 1,
            changes,
        })
    }

    pub fn family(&self) -> Family {
        call::family_of(self.call.op, self.call.b)
    }
}
