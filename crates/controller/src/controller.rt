// The settings of a Distributor, fixed when it is made.
ghost use Rattle.std.specs.Prelude.{◌≡◌};
ghost use Rattle.controller.specs.Modes.{explicit, ownership_of};

// Which SPIs count as the guest's.
#[derive(Clone, Copy, Debug, PartialEq, Eq)]
pub enum GicV3SpiOwnership {
    // All of them.
    AllGuestOwned,
    // Those that the host has claimed.
    Explicit,
}

impl GicV3SpiOwnership {
    // Whether claims decide.
    pub fn of(explicit: bool) -> Self
        ensures { result ≡ ownership_of explicit }
    {
        if explicit {
            GicV3SpiOwnership::Explicit
        } else {
            GicV3SpiOwnership::AllGuestOwned
        }
    }

    pub fn is_explicit(self) -> bool
        ensures { result ≡ explicit self }
    {
        matches!(self, GicV3SpiOwnership::Explicit)
    }
}

#[derive(Clone, Copy, Debug, PartialEq, Eq)]
pub struct ControllerConfig {
    pub spi_ownership: GicV3SpiOwnership,
    // The size of the register frame in bytes.
    pub distributor_size: u64,
    // LPIs are shown to the guest: TYPER bit 17.
    pub exposes_guest_lpis: bool,
    // There is an ITS, and LPIs up to lpi_limit.
    pub its: bool,
    pub lpi_limit: u32,
    // Affinity level 3 may be other than 0: TYPER bit 24.
    pub affinity_level_3: bool,
    // SGIs can be sent to cores beyond the first 16 of a cluster: TYPER bit 26.
    pub range_selector: bool,
}
