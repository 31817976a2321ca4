// What the arguments of a call may be (docs/ORACLE.md, "The calls"), and how many candidates it may list.
use crate::line::Line;
use harness_numbers::call::{Call, Family};
use registers::register::AccessWidth;

const ANY: u64 = u64::MAX;

const WORD: u64 = u32::MAX as u64;

// Whether there is such a call, each argument is one that it can have, and it lists no more candidates than it can. `spis` says
// of how many SPIs the Distributor is, if there is one; only the identifiers and a creation do without.
pub fn are_proper(line: &Line, spis: Option<u64>) -> bool {
    let Call { op, a, b, c, d } = line.call;
    let family = line.family();
    let count = spis.unwrap_or(0);
    (spis.is_some() || matches!(family, Family::Identifier | Family::Creation))
        && family != Family::Unknown
        && a <= largest_a(op)
        && b <= largest_b(op)
        && c <= largest_c(op)
        && d <= largest_d(op, count)
        && is_width(family, b)
        && line.candidates.len() as u64 <= most_candidates(line, count)
}

// Only a write that is done lists candidates, and each of them is an SPI and takes a place of the lent list.
fn most_candidates(line: &Line, spis: u64) -> u64 {
    if line.family() == Family::Write && line.kind == 0 {
        spis.min(line.call.d)
    } else {
        0
    }
}

// Only a read and a write have a width.
fn is_width(family: Family, bytes: u64) -> bool {
    !matches!(family, Family::Read | Family::Write) || AccessWidth::try_from(bytes).is_ok()
}

// The largest arguments, a row for each number of a call, as that page has them.
fn largest_a(op: u64) -> u64 {
    match op {
        // A byte.
        0x01 | 0x02 => 0xff,
        // An affinity or an offset.
        0x06 | 0x07 | 0x11 | 0x12 => ANY,
        // None.
        0x13 => 0,
        // A bit.
        0x14 => 1,
        // A number, N or an SPI.
        _ => WORD,
    }
}

fn largest_b(op: u64) -> u64 {
    match op {
        // A bit or a trigger.
        0x08 | 0x22 | 0x24 | 0x26 | 0x2f | 0x33 | 0x37 => 1,
        // A state.
        0x28 | 0x2c => 3,
        // A width.
        0x11 | 0x12 => 8,
        // Settings.
        0x10 => 0x1f,
        // A mask or a priority.
        0x18 | 0x31 => 0xff,
        // An affinity.
        0x16 | 0x35 => ANY,
        // None.
        _ => 0,
    }
}

fn largest_c(op: u64) -> u64 {
    match op {
        // A frame size, or a value.
        0x10 | 0x12 => ANY,
        // None.
        _ => 0,
    }
}

fn largest_d(op: u64, spis: u64) -> u64 {
    match op {
        // The LPI limit.
        0x10 => WORD,
        // Places: 8 more than there are SPIs.
        0x12 => spis.wrapping_add(8),
        // None.
        _ => 0,
    }
}
