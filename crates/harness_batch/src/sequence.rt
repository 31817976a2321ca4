// A sequence of calls as bytes, and for each call what is seen of it. The layout, with the bytes of each number:
//
//     op 1, a 8, b 8, c 8, d 8
//     kind 1, payload 8, count 4, switch 1, places 4, as many places of 4, n 4, as many slots of 8
//
// The places are those of the lent list as the call leaves it, and the slots all those of the table. Each number has its lowest byte
// first.
ghost use Rattle.std.specs.Prelude.{◌≤◌};
ghost use Rattle.harness_numbers.specs.declared.guest.TheConstants.{PLACES};

use distributor::distributor::DistributorState;
use harness_calls::{create, run};
use harness_numbers::answer::Answer;
use harness_numbers::call::{Call, Family};
use harness_numbers::guest::{PLACES, UNTOUCHED};
use harness_numbers::number::{low_byte, low_word};
use harness_numbers::{call, guest};
use image::kept::word_of;
use slot::slot::Slot;

// The bytes of a call.
pub const CALL: usize = 33;

// Runs the calls from a Distributor with no SPIs, and puts what is seen of them into `seen`. Answers how many bytes that takes; those
// past the end of `seen` are left out.
#[unsafe(no_mangle)]
pub extern "C" fn batch_run(calls: &[u8], seen: &mut [u8]) -> usize {
    let (calls, _) = calls.as_chunks();
    let mut d = create::nothing();
    let mut seen = Seen { bytes: seen, at: 0 };
    for bytes in calls {
        let call = call_of(bytes);
        let mut list = [UNTOUCHED; PLACES];
        let ran = run::run(d, call, &mut list);
        d = ran.state;
        let slots = &d.slots()[..d.size() as usize];
        seen.put_call(ran.answer, d.is_switched_on(), &list[..lent(call)], slots);
    }
    seen.at
}

// The call of these bytes.
pub(crate) fn call_of(bytes: &[u8; CALL]) -> Call {
    let (arguments, _) = bytes[1..].as_chunks();
    Call {
        op: bytes[0] as u64,
        a: u64::from_le_bytes(arguments[0]),
        b: u64::from_le_bytes(arguments[1]),
        c: u64::from_le_bytes(arguments[2]),
        d: u64::from_le_bytes(arguments[3]),
    }
}

// Only a write is lent a list.
fn lent(call: Call) -> usize
    ensures { result ≤ PLACES }
{
    if call::family_of(call.op, call.b) == Family::Write {
        guest::lent(call.d, PLACES)
    } else {
        0
    }
}

// Where what is seen is put, and how many bytes it has taken so far.
#[derive(Drop)]
struct Seen<'a> {
    bytes: &'a mut [u8],
    at: usize,
}

impl Seen<'_> {
    // What is seen of a call: its answer, and the switch, the lent list and the table as it left them.
    fn put_call(&mut self, answer: Answer, switch: bool, list: &[u32], slots: &[Slot]) {
        self.put([low_byte(answer.kind)]);
        self.put(answer.payload.to_le_bytes());
        self.put_word(answer.count);
        self.put([switch as u8]);
        self.put_word(list.len());
        for place in list {
            self.put(place.to_le_bytes());
        }
        self.put_word(slots.len());
        for slot in slots {
            self.put(word_of(*slot).to_le_bytes());
        }
    }

    fn put_word(&mut self, n: usize) {
        self.put(low_word(n as u64).to_le_bytes());
    }

    // The bytes of a number. Those past the end are counted and left out.
    fn put<const N: usize>(&mut self, number: [u8; N]) {
        for byte in number {
            if self.at < self.bytes.len() {
                self.bytes[self.at] = byte;
            }
            self.at = self.at.wrapping_add(1);
        }
    }
}
