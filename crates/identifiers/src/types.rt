// Bounded identifiers. Only a maker makes one, so none is out of its range. The paper asks for a type and one checked
// maker a kind, so their makers stay apart.
ghost use Rattle.std.specs.Prelude.{◌≡◌, ◌+◌, min};
ghost use Rattle.identifiers.specs.Answer.{id_answer, int_id_answer, told_sgi, told_ppi, told_spi, told_lpi, told_int_id, raw_of, sgi};

use crate::error::Refusal;

// The first INTID of an LPI.
pub const LPI_INTID_BASE: u32 = 8192;
// The last INTID of an LPI.
pub const LPI_INTID_MAX: u32 = 0x00ff_ffff;

// A software-generated interrupt, INTIDs 0 to 15.
#[derive(Clone, Copy, Debug, PartialEq, Eq, PartialOrd, Ord)]
pub struct SgiId(u8);

// A private peripheral interrupt, INTIDs 16 to 31.
#[derive(Clone, Copy, Debug, PartialEq, Eq, PartialOrd, Ord)]
pub struct PpiId(u8);

// A shared peripheral interrupt, INTIDs 32 to 1019.
#[derive(Clone, Copy, Debug, PartialEq, Eq, PartialOrd, Ord)]
pub struct SpiId(u32);

// A locality-specific peripheral interrupt, INTIDs 8192 to 0xffffff.
#[derive(Clone, Copy, Debug, PartialEq, Eq, PartialOrd, Ord)]
pub struct LpiId(u32);

impl SgiId {
    pub fn new(raw: u8) -> Result<Self, Refusal>
        ensures { told_sgi result ≡ id_answer 0 16 raw }
    {
        if raw < 16 {
            Ok(SgiId(raw))
        } else {
            Err(Refusal::InvalidIntId(raw as u32))
        }
    }

    pub fn raw(self) -> u8
        ensures { result ≡ self.0 }
    {
        self.0
    }
}

impl PpiId {
    pub fn new(raw: u8) -> Result<Self, Refusal>
        ensures { told_ppi result ≡ id_answer 16 32 raw }
    {
        if (16 <= raw) & (raw < 32) {
            Ok(PpiId(raw))
        } else {
            Err(Refusal::InvalidIntId(raw as u32))
        }
    }

    pub fn raw(self) -> u8
        ensures { result ≡ self.0 }
    {
        self.0
    }
}

impl SpiId {
    // The k-th, counted from 0; past the last, the last.
    pub fn nth(k: u32) -> Self
        ensures { result.0 ≡ min (32 + k) 1019 }
    {
        if k < 1019 - 32 {
            SpiId(32 + k)
        } else {
            SpiId(1019)
        }
    }

    pub fn new(raw: u32) -> Result<Self, Refusal>
        ensures { told_spi result ≡ id_answer 32 1020 raw }
    {
        if (32 <= raw) & (raw < 1020) {
            Ok(SpiId(raw))
        } else {
            Err(Refusal::InvalidIntId(raw))
        }
    }

    pub fn raw(self) -> u32
        ensures { result ≡ self.0 }
    {
        self.0
    }
}

impl LpiId {
    pub fn new(raw: u32) -> Result<Self, Refusal>
        ensures { told_lpi result ≡ id_answer 8192 0x1000000 raw }
    {
        if (LPI_INTID_BASE <= raw) & (raw <= LPI_INTID_MAX) {
            Ok(LpiId(raw))
        } else {
            Err(Refusal::InvalidIntId(raw))
        }
    }

    pub fn raw(self) -> u32
        ensures { result ≡ self.0 }
    {
        self.0
    }
}

// An INTID of any kind that is not reserved.
#[derive(Clone, Copy, Debug, PartialEq, Eq, PartialOrd, Ord)]
pub enum IntId {
    Sgi(SgiId),
    Ppi(PpiId),
    Spi(SpiId),
    Lpi(LpiId),
}

impl IntId {
    // INTIDs 1020 to 8191 and those past the last LPI are reserved.
    pub fn new(raw: u32) -> Result<Self, Refusal>
        ensures { told_int_id result ≡ int_id_answer raw }
    {
        match raw {
            0..=15 => Ok(IntId::Sgi(SgiId(raw as u8))),
            16..=31 => Ok(IntId::Ppi(PpiId(raw as u8))),
            32..=1019 => Ok(IntId::Spi(SpiId(raw))),
            LPI_INTID_BASE..=LPI_INTID_MAX => Ok(IntId::Lpi(LpiId(raw))),
            _ => Err(Refusal::InvalidIntId(raw)),
        }
    }

    pub fn raw(self) -> u32
        ensures { result ≡ raw_of self }
    {
        match self {
            IntId::Sgi(id) => id.raw() as u32,
            IntId::Ppi(id) => id.raw() as u32,
            IntId::Spi(id) => id.raw(),
            IntId::Lpi(id) => id.raw(),
        }
    }

    pub fn is_sgi(self) -> bool
        ensures { result ≡ sgi self }
    {
        matches!(self, IntId::Sgi(_))
    }
}
