// The refusals. specs/Answer.antt gives the number of each, and what it carries.
ghost use Rattle.std.specs.Prelude.{◌≡◌, ◌∷◌, [], Some, option_to_list};
ghost use Rattle.identifiers.specs.Answer.{number_of, carried_by, refusal_text};

use std::error::Error;
use std::fmt;

#[derive(Clone, Copy, Debug, PartialEq, Eq)]
pub enum Refusal {
    // 1: an INTID that is outside its range or outside the table.
    InvalidIntId(u32),
    // 2: a claim of an SPI that is claimed already.
    ResourceConflict,
    // 3: an access that leaves the frame or is not aligned.
    InvalidAccess,
    // 4: an access by another width than its register needs.
    InvalidWidth,
    // 5: a lent candidate list with too few places.
    ShortList,
}

impl Refusal {
    // Its number in the paper.
    pub fn number(self) -> u32
        ensures { result ≡ number_of self }
    {
        match self {
            Refusal::InvalidIntId(_) => 1,
            Refusal::ResourceConflict => 2,
            Refusal::InvalidAccess => 3,
            Refusal::InvalidWidth => 4,
            Refusal::ShortList => 5,
        }
    }

    // The raw number that refusal 1 carries. The others carry nothing.
    pub fn carried(self) -> Option<u32>
        ensures { option_to_list result ≡ carried_by self }
    {
        match self {
            Refusal::InvalidIntId(raw) => Some(raw),
            _ => None,
        }
    }
}

// The number, and in parentheses what it carries.
impl fmt::Display for Refusal {
    ghost output = { λ f. Some (refusal_text f) };

    fn fmt<W: fmt::Write>(&self, f: &mut fmt::Formatter<W>) -> fmt::Result {
        match self.carried() {
            Some(raw) => write!(f, "{} ({raw})", self.number()),
            None => write!(f, "{}", self.number()),
        }
    }
}

impl Error for Refusal {}
