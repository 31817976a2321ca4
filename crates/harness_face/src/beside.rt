// The face beside the core: an image that every call of a list is also run on, if the face has it. There it has to answer and to leave
// what the core does. For any other call the image gets the bytes of the core's state.
ghost use Rattle.std.specs.Prelude.{◌≤◌};
ghost use Rattle.harness_face.specs.declared.beside.TheConstants.{NUMBERS};

use crate::apart;
use crate::apart::{Apart, LIST, Part};
use changes::change::Change;
use face::face::{
    dhunglebi_claim_physical, dhunglebi_claim_software, dhunglebi_create, dhunglebi_pulse,
    dhunglebi_read, dhunglebi_release, dhunglebi_set_level, dhunglebi_write,
};
use harness_numbers::answer::Answer;
use harness_numbers::call::{Call, Family};
use harness_numbers::guest::PLACES;
use harness_numbers::number::low_word;
use harness_numbers::{call, guest};
use image::bytes::{load, store};
use image_model::told::Told;
use operation::operation::Operation;
use place::place::SPIS;

// An image of 988 SPIs has so many numbers of 8 bytes: 3 of the header, and one an SPI. One of fewer SPIs is lent the first of them.
const NUMBERS: usize = 3 + SPIS;

// Their bytes.
pub const IMAGE: usize = 8 * NUMBERS;

// What stands in every byte of an image that a creation is lent, and of a list.
const UNTOUCHED: u8 = 0xff;

// What `out` has before a call. Every call writes it.
const UNWRITTEN: u64 = 0x5a5a_5a5a_5a5a_5a5a;

// The core's state but for the slots, as its image has it.
#[derive(Clone, Copy, Debug, PartialEq, Eq)]
pub struct Head {
    // How many numbers of 8 bytes the image has.
    numbers: usize,
    // The header's three. None where there is no Distributor: the last creation was refused, and has left its image untouched.
    header: Option<[u64; 3]>,
    ghost within: { numbers ≤ NUMBERS },
}

impl Head {
    // By the last creation, whether it was done, and the switch. A creation's settings have the ownership in bit 0, and then the four
    // flags. One of more SPIs than there can be is lent all the bytes.
    pub fn new(creation: Call, made: bool, switch: bool) -> Self {
        let Call {
            a: count,
            b: settings,
            c: frame_size,
            d: lpi_limit,
            ..
        } = creation;
        let first = switch as u64 | (settings % 2) << 8 | (settings / 2) << 16 | count << 32;
        Head {
            numbers: count.min(SPIS as u64) as usize + 3,
            header: made.then_some([first, lpi_limit, frame_size]),
        }
    }

    // A number of the image: of the header, or the slot of an SPI.
    fn number(self, slots: &[u64; SPIS], i: usize) -> u64 {
        let Some(header) = self.header else {
            return u64::MAX;
        };
        if i < 3 {
            header[i]
        } else {
            slots.get(i - 3).copied().unwrap_or(0)
        }
    }
}

// The image gets the bytes of the core's state.
fn lay_out(image: &mut [u8; IMAGE], head: Head, slots: &[u64; SPIS]) {
    for i in 0..head.numbers {
        store::<8>(image, 8 * i, head.number(slots, i));
    }
}

// The image has the bytes of the core's state.
fn in_image(image: &[u8; IMAGE], head: Head, slots: &[u64; SPIS]) -> Option<Apart<Part>> {
    (0..head.numbers).find_map(|i| {
        Apart::between(
            Part::Image(8 * i),
            head.number(slots, i),
            load(image, 8 * i),
        )
    })
}

// The core has run the call and answered so, with these places in its list and these slots. Whether the face has run it too.
pub fn follow(
    image: &mut [u8; IMAGE],
    head: Head,
    call: Call,
    answer: Answer,
    list: &[u32; PLACES],
    slots: &[u64; SPIS],
) -> Result<bool, Apart<Part>> {
    let family = call::family_of(call.op, call.b);
    if family == Family::Creation {
        *image = [UNTOUCHED; IMAGE];
    }
    let mut bytes = [UNTOUCHED; LIST];
    let places = guest::lent(call.d, PLACES);
    let told = through_face(
        &mut image[..8 * head.numbers],
        &mut bytes[..4 * places],
        call,
        family,
    );
    let Some(told) = told else {
        lay_out(image, head, slots);
        return Ok(false);
    };
    let apart = apart::in_answer(answer, told)
        .or_else(|| apart::in_list(list, &bytes))
        .or_else(|| in_image(image, head, slots));
    match apart {
        Some(apart) => Err(apart),
        None => Ok(true),
    }
}

// Runs a call on an image, and on a list of as many places as it is lent. None where the face has no such call.
fn through_face(image: &mut [u8], list: &mut [u8], call: Call, family: Family) -> Option<Told> {
    let Call { a, b, c, d, .. } = call;
    let low_a = low_word(a);
    let low_b = low_word(b);
    let mut out = UNWRITTEN;
    let number = match family {
        Family::Creation => {
            dhunglebi_create(image, low_a, low_b % 2, low_b / 2, low_word(d), c, &mut out)
        }
        Family::Read => dhunglebi_read(image, a, low_b, &mut out),
        Family::Write => dhunglebi_write(image, list, a, low_b, c, &mut out),
        Family::Change(Change::Claim) => dhunglebi_claim_software(image, low_a, &mut out),
        Family::Change(Change::ClaimTo(_)) => dhunglebi_claim_physical(image, low_a, b, &mut out),
        Family::Change(Change::Release) => dhunglebi_release(image, low_a, &mut out),
        Family::Change(Change::Operate(Operation::SetLevel(_))) => {
            dhunglebi_set_level(image, low_a, low_b, &mut out)
        }
        Family::Change(Change::Operate(Operation::Pulse)) => {
            dhunglebi_pulse(image, low_a, &mut out)
        }
        _ => return None,
    };
    Some(Told { number, out })
}
