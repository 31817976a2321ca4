// Whether the guest owns an SPI, and what it sees of one. No record is in here.
ghost use Rattle.std.specs.Prelude.{◌≡◌, ◌≤◌};
ghost use Rattle.ownership.specs.Owned.{owned, visible};

#[derive(Clone, Copy, Debug, PartialEq, Eq)]
pub struct Ownership {
    // The host has claimed the SPI for the guest.
    pub explicitly_owned: bool,
    // The claim was physical: the guest cannot move the route.
    pub fixed_route: bool,
}

impl Ownership {
    // With all guest-owned every SPI counts as owned; otherwise the claim decides.
    pub fn is_owned(self, explicit: bool) -> bool
        ensures { result ≡ owned explicit self }
    {
        !explicit | self.explicitly_owned
    }

    // What the guest sees of a field: 0 where the SPI is not owned.
    pub fn visible(self, explicit: bool, field: u64) -> u64
        ensures { (result ≡ visible explicit self field) × (result ≤ field) }
    {
        if self.is_owned(explicit) { field } else { 0 }
    }
}
