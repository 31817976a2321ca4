// The registers of the Distributor's frame, by Arm's names, and which of them an access reaches. The map is the same, row by row, as
// the one in specs/Registers.antt.
ghost use Rattle.std.specs.Prelude.{◌≡◌, ◌+◌, ◌≤◌, ◌<◌};
ghost use Rattle.std.specs.Result.{result_ok};
ghost use Rattle.registers.specs.Registers.{bytes_of, width_of, takes, widths_for, map, holds, register_at, row_access, lookup};

use bank::bank::{Bank, Field, Flag};
use identifiers::error::Refusal;

// How many bytes an access covers: 1, 2, 4 or 8.
#[derive(Clone, Copy, Debug, PartialEq, Eq)]
pub enum AccessWidth {
    Byte,
    Word,
    Dword,
    Qword,
}

#[derive(Clone, Copy, Debug, PartialEq, Eq)]
pub enum Direction {
    Reading,
    Writing,
}

// What an access reaches.
#[derive(Clone, Copy, Debug, PartialEq, Eq)]
pub enum Register {
    // One of the twelve identification registers, counted from 0.
    Identification(u32),
    Ctlr,
    Typer,
    Iidr,
    // The fields of a bank, from an INTID on, and how many.
    Fields(Bank, u32, u32),
    // All else: reads 0, and ignores writes.
    Reserved,
}

// An access is legal, or refused.
pub type Access = Result<Register, Refusal>;

impl AccessWidth {
    pub fn size(self) -> u64
        ensures { result ≡ bytes_of self }
    {
        match self {
            AccessWidth::Byte => 1,
            AccessWidth::Word => 2,
            AccessWidth::Dword => 4,
            AccessWidth::Qword => 8,
        }
    }
}

// A number of bytes that no width has.
#[derive(Clone, Copy, Debug, PartialEq, Eq)]
pub struct NoWidth;

impl TryFrom<u64> for AccessWidth {
    type Error = NoWidth;

    ghost try_from_gives = { λ bytes r. result_ok r ≡ width_of bytes };

    fn try_from(bytes: u64) -> Result<Self, NoWidth> {
        match bytes {
            1 => Ok(AccessWidth::Byte),
            2 => Ok(AccessWidth::Word),
            4 => Ok(AccessWidth::Dword),
            8 => Ok(AccessWidth::Qword),
            _ => Err(NoWidth),
        }
    }
}

impl TryFrom<u32> for AccessWidth {
    type Error = NoWidth;

    ghost try_from_gives = { λ bytes r. result_ok r ≡ width_of bytes };

    fn try_from(bytes: u32) -> Result<Self, NoWidth> {
        AccessWidth::try_from(u64::from(bytes))
    }
}

// What lies at a row.
#[derive(Clone, Copy, Debug, PartialEq, Eq)]
pub enum Kind {
    Identification,
    Ctlr,
    Typer,
    Iidr,
    Bank(Bank),
}

// A row of the map: the registers at every `every` bytes from `from` up to below `end`; the width that a read needs and the one that a
// write needs, where they need one; and what lies there.
#[derive(Clone, Copy, Debug, PartialEq, Eq)]
pub struct Row {
    pub from: u64,
    pub end: u64,
    pub every: u64,
    pub reads: Option<AccessWidth>,
    pub writes: Option<AccessWidth>,
    pub kind: Kind,
}

// The width that is needed, as the map names it.
const DWORD: Option<AccessWidth> = Some(AccessWidth::Dword);

const QWORD: Option<AccessWidth> = Some(AccessWidth::Qword);

const ANY: Option<AccessWidth> = None;

// A row of the map on one line.
macro_rules! row {
    ($from:literal, $end:literal, $every:literal, $reads:expr, $writes:expr => $kind:expr) => {
        Row { from: $from, end: $end, every: $every, reads: $reads, writes: $writes, kind: $kind }
    };
}

// The map. The first row that holds an offset decides; an offset that no row holds is reserved.
const MAP: [Row; 14] = [
    row!(0xffd0, 0x10000, 4, DWORD, DWORD => Kind::Identification),
    row!(0x0000, 0x0001, 1, DWORD, DWORD => Kind::Ctlr),
    row!(0x0004, 0x0005, 1, DWORD, ANY => Kind::Typer),
    row!(0x0008, 0x0009, 1, DWORD, ANY => Kind::Iidr),
    row!(0x0080, 0x0100, 4, DWORD, ANY => Kind::Bank(Bank::Replace(Field::Group))),
    row!(0x0100, 0x0180, 4, DWORD, DWORD => Kind::Bank(Bank::Set(Flag::Enabled))),
    row!(0x0180, 0x0200, 4, DWORD, DWORD => Kind::Bank(Bank::Clear(Flag::Enabled))),
    row!(0x0200, 0x0280, 4, DWORD, DWORD => Kind::Bank(Bank::Set(Flag::Pending))),
    row!(0x0280, 0x0300, 4, DWORD, DWORD => Kind::Bank(Bank::Clear(Flag::Pending))),
    row!(0x0300, 0x0380, 4, DWORD, DWORD => Kind::Bank(Bank::Set(Flag::Active))),
    row!(0x0380, 0x0400, 4, DWORD, DWORD => Kind::Bank(Bank::Clear(Flag::Active))),
    row!(0x0400, 0x07fc, 1, ANY, ANY => Kind::Bank(Bank::Replace(Field::Priority))),
    row!(0x0c00, 0x0d00, 4, DWORD, DWORD => Kind::Bank(Bank::Replace(Field::Configuration))),
    row!(0x6000, 0x7fe0, 1, QWORD, QWORD => Kind::Bank(Bank::Replace(Field::Route))),
];

impl Kind {
    // What an access reaches, `at` bytes from where its row starts.
    fn register_at(self, at: u64, width: AccessWidth) -> Register
        requires { at < 0x2000 }
        ensures { result ≡ register_at self at width }
    {
        match self {
            Kind::Identification => Register::Identification((at / 4) as u32),
            Kind::Ctlr => Register::Ctlr,
            Kind::Typer => Register::Typer,
            Kind::Iidr => Register::Iidr,
            Kind::Bank(bank) => {
                let bits = bank.bits();
                let first = at * 8 / bits;
                let count = width.size() * 8 / bits;
                Register::Fields(bank, first as u32, count as u32)
            }
        }
    }
}

impl Row {
    fn holds(self, offset: u64) -> bool
        ensures { result ≡ holds self offset }
    {
        self.from <= offset && offset < self.end && (offset - self.from).is_multiple_of(self.every)
    }

    // The width that an access needs, if it needs one.
    fn needed_for(self, direction: Direction) -> Option<AccessWidth>
        ensures { result ≡ widths_for direction self.reads self.writes }
    {
        match direction {
            Direction::Reading => self.reads,
            Direction::Writing => self.writes,
        }
    }

    fn takes(self, direction: Direction, width: AccessWidth) -> bool
        ensures { result ≡ takes (widths_for direction self.reads self.writes) width }
    {
        match self.needed_for(direction) {
            Some(needed) => needed == width,
            None => true,
        }
    }

    // Refusal 4: the row takes another width.
    fn access(self, direction: Direction, offset: u64, width: AccessWidth) -> Access
        requires low { self.from ≤ offset }
        requires high { offset < self.from + 0x2000 }
        ensures { result ≡ row_access direction self offset width }
    {
        if !self.takes(direction, width) {
            return Err(Refusal::InvalidWidth);
        }
        Ok(self.kind.register_at(offset - self.from, width))
    }
}

// The first row that holds the offset decides.
pub fn find(direction: Direction, offset: u64, width: AccessWidth) -> Access
    ensures { result ≡ lookup direction map offset width }
{
    for row in &MAP {
        if row.holds(offset) {
            return row.access(direction, offset, width);
        }
    }
    Ok(Register::Reserved)
}
