// What the guest's writes answer, in numbers; widths and places by number.
ghost use Rattle.std.specs.Prelude.{◌≡◌, min};
ghost use Rattle.answers.specs.Answers.{told_write};
ghost use Rattle.harness_numbers.specs.Numbers.{width_by, listed};

use crate::answer::Answer;
use identifiers::error::Refusal;
use registers::register::AccessWidth;

// The most places that a write is lent: 8 more than a table can have.
pub const PLACES: usize = 996;

// What stands in each place of the list when it is lent. It is no INTID.
pub const UNTOUCHED: u32 = 0xffff_ffff;

pub fn written(answer: Result<usize, Refusal>) -> Answer
    ensures { result ≡ listed (told_write answer) }
{
    answer.map_or_else(Answer::refused, Answer::listed)
}

// How many places a write is lent: as many as the call says, or all that there are.
pub fn lent(places: u64, room: usize) -> usize
    ensures { result ≡ min places room }
{
    places.min(room as u64) as usize
}

// A number of bytes that no width has counts as 8.
pub fn width(bytes: u64) -> AccessWidth
    ensures { result ≡ width_by bytes }
{
    AccessWidth::try_from(bytes).unwrap_or(AccessWidth::Qword)
}
