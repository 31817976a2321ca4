// Places in the table of SPIs. An INTID is none: `new` makes its place, or refuses; `nearest` takes any number to a place, for loops
// whose bounds already say that the table has the INTID.
ghost use Rattle.std.specs.Prelude.{◌≡◌, ◌+◌, ◌-◌, min, max};
ghost use Rattle.place.specs.Table.{capacity, create_answer, created_count, told_create, table_size, in_table, beyond_table, told_place, place_answer, span_of};

use identifiers::error::Refusal;
use std::marker::Model;

// How many SPIs a table has room for: INTIDs 32 to 1019.
pub const SPIS: usize = 988;

#[derive(Clone, Copy, Debug, PartialEq, Eq, PartialOrd, Ord)]
pub struct Place(usize);

impl Model for Place {
    ghost use Rattle.std.specs.Prelude.{ℕ, ◌<◌};

    ghost Value = { ℕ };

    ghost view = { λ p. p.0 };

    // The table has room for it.
    ghost invariant = { λ p. p.0 < 988 };

    ghost inverse = { λ n. record { 0 = n } };
}

// Those of some INTIDs that the table has: from `first` up to below `end`.
#[derive(Clone, Copy, Debug, PartialEq, Eq)]
pub struct Span {
    pub first: u32,
    pub end: u32,
}

// More SPIs than a table has room for are refused, carrying 1020, the first INTID past the SPIs.
pub fn create_answer(spi_count: u32) -> Result<(), Refusal>
    ensures { told_create result ≡ create_answer spi_count }
{
    if spi_count <= SPIS as u32 {
        Ok(())
    } else {
        Err(Refusal::InvalidIntId(1020))
    }
}

// How many SPIs a creation makes: none where it is refused.
pub fn created_count(spi_count: u32) -> u32
    ensures { result ≡ created_count spi_count }
{
    if spi_count <= SPIS as u32 {
        spi_count
    } else {
        0
    }
}

// How many SPIs there are in a table that was made for so many: never more than it has room for.
pub fn table_size(count: u32) -> u32
    ensures { result ≡ table_size count }
{
    count.min(SPIS as u32)
}

// Whether that table has INTID i.
fn in_table(count: u32, i: u32) -> bool
    ensures { result ≡ in_table (table_size count) i }
{
    (32 <= i) & (i < 32 + table_size(count))
}

// With explicit claims, an INTID that could be an SPI's and is not in a table of n SPIs.
pub fn is_beyond(explicit: bool, n: u32, i: u64) -> bool
    ensures { result ≡ beyond_table explicit n i }
{
    explicit & ((32 + n as u64 <= i) & (i < 1020))
}

impl Span {
    // Those of the m INTIDs from lo on.
    pub fn new(count: u32, lo: u32, m: u32) -> Self
        ensures { result ≡ span_of (table_size count) lo m }
    {
        let past = 32 + table_size(count);
        Span {
            first: lo.max(32),
            end: lo.saturating_add(m).min(past),
        }
    }
}

impl Place {
    // The place of INTID i, or refusal 1.
    pub fn new(count: u32, i: u32) -> Result<Self, Refusal>
        ensures { told_place result ≡ place_answer (table_size count) i }
    {
        if in_table(count, i) {
            Ok(Place((i - 32) as usize))
        } else {
            Err(Refusal::InvalidIntId(i))
        }
    }

    // The place of INTID i, of which is known that the table has it. (An INTID that is no SPI's is taken to the nearest that is.)
    pub fn nearest(i: u32) -> Self
        ensures { result ≡ min (i - 32) (capacity - 1) }
    {
        // Two tests, and not `max` and `min`: a compiler leaves both out of a loop whose bounds answer them.
        if i < 32 {
            Place(0)
        } else if i - 32 < SPIS as u32 {
            Place((i - 32) as usize)
        } else {
            Place(SPIS - 1)
        }
    }

    pub fn index(self) -> usize
        ensures { result ≡ self }
    {
        self.0
    }
}
