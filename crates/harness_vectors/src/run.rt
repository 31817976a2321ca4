// A list, line by line: the state as its lines give it, and how many calls were compared.
//
// The slots that the lines list are gathered, so that after each call the whole Distributor can be held against them.
use crate::counts::Counts;
use crate::line::Line;
use crate::stop::Stop;
use crate::{arguments, compare};
use harness_face::beside;
use harness_face::beside::{Head, IMAGE};
use harness_numbers::answer::Answer;
use harness_numbers::call::{Call, Family};
use harness_numbers::guest::PLACES;
use image::kept::FRESH;
use place::place::SPIS;
use slot::slot::Slot;

#[derive(Clone, Copy, Debug, PartialEq, Eq)]
pub struct Run {
    // The last creation, and of how many SPIs it made the list's Distributor: None where there is none.
    creation: Call,
    spis: Option<u64>,
    // The slots as the lines so far give them, a place for each SPI.
    slots: [u64; SPIS],
    // The face's image.
    image: [u8; IMAGE],
    counts: Counts,
}

impl Run {
    // At the beginning of a list.
    pub fn new() -> Self {
        Run {
            creation: Call {
                op: 0,
                a: 0,
                b: 0,
                c: 0,
                d: 0,
            },
            spis: None,
            slots: [FRESH; SPIS],
            image: [0; IMAGE],
            counts: Counts::default(),
        }
    }

    // The number of the line that is read.
    pub fn line_number(&self) -> u64 {
        self.counts.calls.wrapping_add(1)
    }

    // Holds the line's call to what it can be, and takes over the slots that it lists. A creation starts from fresh ones, and a
    // refused one leaves no Distributor.
    pub fn take_over(&mut self, line: &Line) -> Result<(), Stop> {
        if line.family() == Family::Creation {
            self.creation = line.call;
            self.spis = (line.kind == 0).then_some(line.call.a);
            self.slots = [FRESH; SPIS];
        }
        let bad = Stop::Bad(self.line_number());
        if !arguments::are_proper(line, self.spis) {
            return Err(bad);
        }
        change(&mut self.slots, self.spis.unwrap_or(0), line.changes).ok_or(bad)
    }

    // The line's call was run. Its answer, its list and the table are held against the line, and then the face against all of them.
    pub fn compare(
        &mut self,
        line: &Line,
        answer: Answer,
        switch: bool,
        list: &[u32; PLACES],
        table: &[Slot; SPIS],
    ) -> Result<(), Stop> {
        let number = self.line_number();
        let difference = compare::in_call(line, &self.slots, answer, switch, list, table);
        if let Some(difference) = difference {
            return Err(Stop::Differs(number, difference));
        }
        let head = Head::new(self.creation, self.spis.is_some(), switch);
        let faced = beside::follow(
            &mut self.image,
            head,
            line.call,
            answer,
            list,
            &self.slots,
        ).map_err(|apart| Stop::Apart(number, apart))?;
        self.counts.add(line.family(), faced);
        Ok(())
    }

    // The list is at its end.
    pub fn ended(&self) -> Result<Counts, Stop> {
        if self.counts.calls == 0 {
            return Err(Stop::NoCall);
        }
        Ok(self.counts)
    }
}

// Puts the slots that a line lists into their places. None where the places do not ascend, one is no SPI's or a slot is not changed.
fn change(slots: &mut [u64; SPIS], spis: u64, changes: &[[u64; 2]]) -> Option<()> {
    // The least place that can come next.
    let mut least = 0;
    for &[place, slot] in changes {
        let held = slots.get_mut(place as usize)?;
        if place < least || spis <= place || *held == slot {
            return None;
        }
        *held = slot;
        least = place + 1;
    }
    Some(())
}
