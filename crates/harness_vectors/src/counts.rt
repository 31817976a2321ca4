// How many calls were compared.
use harness_numbers::call::Family;
use std::fmt;

#[derive(Clone, Copy, Debug, Default, PartialEq, Eq)]
pub struct Counts {
    pub calls: u64,
    identifiers: u64,
    creations: u64,
    guest: u64,
    host: u64,
    // How many of them the face has run too.
    pub faced: u64,
}

impl Counts {
    // One more call, which the face has run too or not.
    pub fn add(&mut self, family: Family, faced: bool) {
        next(&mut self.calls);
        next(match family {
            Family::Identifier => &mut self.identifiers,
            Family::Creation => &mut self.creations,
            Family::Read | Family::Write => &mut self.guest,
            _ => &mut self.host,
        });
        if faced {
            next(&mut self.faced);
        }
    }
}

// A run never gets to the last number.
fn next(count: &mut u64) {
    *count = count.wrapping_add(1);
}

impl fmt::Display for Counts {
    fn fmt<W: fmt::Write>(&self, f: &mut fmt::Formatter<W>) -> fmt::Result {
        let Counts {
            calls,
            identifiers,
            creations,
            guest,
            host,
            faced,
        } = *self;
        write!(
            f,
            "calls compared: {calls}\n    on identifiers: {identifiers}\n    creations: {creations}\n    \
             by the guest: {guest}\n    by the host: {host}\n    through the face as well: {faced}"
        )
    }
}
