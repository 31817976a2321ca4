// The changes of the host, and what each makes of a record, and of the claim and the fixed mark. They are values, as
// operations are, since the theorems on order speak of sequences of calls.
ghost use Rattle.std.specs.Prelude.{◌≡◌};
ghost use Rattle.changes.specs.Changes.{happens, ownership_after, record_after};

use attributes::attributes::{GicAffinity, InterruptState, TriggerMode};
use interrupt::interrupt::InterruptRecord;
use operation::operation::{Operation, apply};
use ownership::ownership::Ownership;

#[derive(Clone, Copy, Debug, PartialEq, Eq)]
pub enum Change {
    // By software.
    Claim,
    // Physically, with the route that is then fixed.
    ClaimTo(GicAffinity),
    Release,
    SetCpuTargetMask(u8),
    SynchronizeInflight(InterruptState),
    Operate(Operation),
}

impl Change {
    // A claim of a claimed SPI changes nothing, nor does a target mask where the route is fixed.
    pub fn happens(self, ownership: Ownership) -> bool
        ensures { result ≡ happens self ownership }
    {
        match self {
            Change::Claim | Change::ClaimTo(_) => !ownership.explicitly_owned,
            Change::SetCpuTargetMask(_) => !ownership.fixed_route,
            Change::Release | Change::SynchronizeInflight(_) | Change::Operate(_) => true,
        }
    }

    // A physical claim fixes the route. Release drops claim and mark.
    pub fn ownership_after(self, ownership: Ownership) -> Ownership
        ensures { result ≡ ownership_after self ownership }
    {
        match self {
            Change::Claim => Ownership {
                explicitly_owned: true,
                fixed_route: false,
            },
            Change::ClaimTo(_) => Ownership {
                explicitly_owned: true,
                fixed_route: true,
            },
            Change::Release => Ownership {
                explicitly_owned: false,
                fixed_route: false,
            },
            Change::SetCpuTargetMask(_) | Change::SynchronizeInflight(_) | Change::Operate(_) => {
                ownership
            }
        }
    }

    // By software a claim leaves the record, physically it sets the route. Release drops the route and makes the SPI
    // level-sensitive; the rest of the record stays.
    pub fn record_after(self, interrupt: InterruptRecord) -> InterruptRecord
        ensures { result ≡ record_after self interrupt }
    {
        match self {
            Change::Claim => interrupt,
            Change::ClaimTo(affinity) => interrupt.set_route(affinity),
            Change::Release => interrupt.clear_route().set_trigger(TriggerMode::Level),
            Change::SetCpuTargetMask(mask) => interrupt.set_cpu_target_mask(mask),
            Change::SynchronizeInflight(state) => interrupt.synchronize_inflight(state).interrupt,
            Change::Operate(operation) => apply(interrupt, operation),
        }
    }
}
