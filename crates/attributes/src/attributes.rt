// What an interrupt has besides its identifier: affinity, priority, trigger and state.
ghost use Rattle.std.specs.Prelude.{◌≡◌};
ghost use Rattle.std.proofs.Common.{rules};
ghost use Rattle.std.specs.Cmp.{po};
ghost use Rattle.std.specs.Cmp.Rules.{comparing};
ghost use Rattle.std.specs.Ordering.{as_partial_cmp};
ghost use Rattle.attributes.specs.Affinity.{affinity, from_mpidr, mpidr_of, by_levels};
ghost use Rattle.attributes.specs.AffinityLaws.{by_levels_total};
ghost use Rattle.attributes.specs.States.{pending_of, active_of, state_of, state_number, level_of, trigger_of};

use std::cmp::Ordering;

// A core's address in four levels of one byte, in the order in which an image has them.
#[derive(Clone, Copy, Debug, PartialEq, Eq)]
pub struct GicAffinity {
    aff0: u8,
    aff1: u8,
    aff2: u8,
    aff3: u8,
}

// Level 3 decides first, as in the Rust and in MPIDR. A derived order would go by the fields as they stand, and so by level 0 first.
impl Ord for GicAffinity {
    ghost cmp = { by_levels };

    ghost total = { by_levels_total };

    ghost matches_partial_cmp = { Prim.search (comparing, rules) };

    ghost matches_eq = { Prim.search (comparing, rules) };

    fn cmp(&self, other: &GicAffinity) -> Ordering {
        self.aff3
            .cmp(&other.aff3)
            .then(self.aff2.cmp(&other.aff2))
            .then(self.aff1.cmp(&other.aff1))
            .then(self.aff0.cmp(&other.aff0))
    }
}

impl PartialOrd for GicAffinity {
    ghost partial_cmp = { as_partial_cmp by_levels };

    ghost laws = { po by_levels_total (Prim.search (comparing, rules)) };

    fn partial_cmp(&self, other: &GicAffinity) -> Option<Ordering> {
        Some(self.cmp(other))
    }
}

impl GicAffinity {
    pub fn new(aff3: u8, aff2: u8, aff1: u8, aff0: u8) -> Self
        ensures { result ≡ affinity aff3 aff2 aff1 aff0 }
    {
        GicAffinity {
            aff3,
            aff2,
            aff1,
            aff0,
        }
    }

    // MPIDR and IROUTER hold level 3 in bits 39..32 and levels 2 to 0 in bits 23..0.
    pub fn from_mpidr(mpidr: u64) -> Self
        ensures { result ≡ from_mpidr mpidr }
    {
        GicAffinity::new(
            (mpidr / 0x1_0000_0000 % 256) as u8,
            (mpidr / 0x1_0000 % 256) as u8,
            (mpidr / 0x100 % 256) as u8,
            (mpidr % 256) as u8,
        )
    }

    pub fn mpidr(self) -> u64
        ensures { result ≡ mpidr_of self }
    {
        (self.aff3 as u64) * 0x1_0000_0000
            + (self.aff2 as u64) * 0x1_0000
            + (self.aff1 as u64) * 0x100
            + (self.aff0 as u64)
    }

    pub fn aff3(self) -> u8
        ensures { result ≡ self.aff3 }
    {
        self.aff3
    }

    pub fn aff2(self) -> u8
        ensures { result ≡ self.aff2 }
    {
        self.aff2
    }

    pub fn aff1(self) -> u8
        ensures { result ≡ self.aff1 }
    {
        self.aff1
    }

    pub fn aff0(self) -> u8
        ensures { result ≡ self.aff0 }
    {
        self.aff0
    }
}

// A priority: the lower the number, the sooner the interrupt is taken.
#[derive(Clone, Copy, Debug, PartialEq, Eq, PartialOrd, Ord)]
pub struct Priority(u8);

impl Priority {
    pub const DEFAULT: Priority = Priority(0x80);

    pub fn new(raw: u8) -> Self
        ensures { result.0 ≡ raw }
    {
        Priority(raw)
    }

    pub fn raw(self) -> u8
        ensures { result ≡ self.0 }
    {
        self.0
    }
}

// How the line of a wired interrupt speaks.
#[derive(Clone, Copy, Debug, PartialEq, Eq)]
pub enum TriggerMode {
    Edge,
    Level,
}

impl TriggerMode {
    // Edge-triggered, or level-sensitive.
    pub fn of(edge: bool) -> Self
        ensures { result ≡ trigger_of edge }
    {
        if edge {
            TriggerMode::Edge
        } else {
            TriggerMode::Level
        }
    }

    pub fn is_level(self) -> bool
        ensures { result ≡ level_of self }
    {
        matches!(self, TriggerMode::Level)
    }
}

// Where an interrupt stands in its life, as Arm's document names it.
#[derive(Clone, Copy, Debug, PartialEq, Eq)]
pub enum InterruptState {
    Inactive,
    Pending,
    Active,
    ActivePending,
}

impl InterruptState {
    pub fn of(pending: bool, active: bool) -> Self
        ensures { result ≡ state_of pending active }
    {
        match (pending, active) {
            (false, false) => InterruptState::Inactive,
            (true, false) => InterruptState::Pending,
            (false, true) => InterruptState::Active,
            (true, true) => InterruptState::ActivePending,
        }
    }

    pub fn is_pending(self) -> bool
        ensures { result ≡ pending_of self }
    {
        matches!(
            self,
            InterruptState::Pending | InterruptState::ActivePending
        )
    }

    pub fn is_active(self) -> bool
        ensures { result ≡ active_of self }
    {
        matches!(self, InterruptState::Active | InterruptState::ActivePending)
    }

    // Its number where numbers are told: 1 where it is pending, and 2 more where it is active.
    pub fn number(self) -> u64
        ensures { result ≡ state_number self }
    {
        self as u64
    }
}
