// The operations that only change a record, as values: a caller names one, and `apply` does it. Two are not among them: a
// synchronisation also answers a state, and a target mask depends on whether the SPI's route is fixed, which no record knows.
ghost use Rattle.std.specs.Prelude.{◌≡◌};
ghost use Rattle.operation.specs.Operation.{applied};

use attributes::attributes::{GicAffinity, InterruptState, Priority, TriggerMode};
use interrupt::interrupt::InterruptRecord;

#[derive(Clone, Copy, Debug, PartialEq, Eq)]
pub enum Operation {
    SetEnabled(bool),
    SetPending(bool),
    SetActive(bool),
    SetState(InterruptState),
    ClearDeliveryState,
    MarkInflight,
    CancelInflight,
    FinishInflight,
    DeactivateInflight(bool),
    SetPriority(Priority),
    SetTrigger(TriggerMode),
    SetRoute(GicAffinity),
    ClearRoute,
    SetLevel(bool),
    Pulse,
    Complete,
}

pub fn apply(interrupt: InterruptRecord, operation: Operation) -> InterruptRecord
    ensures { result ≡ applied operation interrupt }
{
    match operation {
        Operation::SetEnabled(on) => interrupt.set_enabled(on),
        Operation::SetPending(on) => interrupt.set_pending(on),
        Operation::SetActive(on) => interrupt.set_active(on),
        Operation::SetState(state) => interrupt.set_state(state),
        Operation::ClearDeliveryState => interrupt.clear_delivery_state(),
        Operation::MarkInflight => interrupt.mark_inflight(),
        Operation::CancelInflight => interrupt.cancel_inflight(),
        Operation::FinishInflight => interrupt.finish_inflight(),
        Operation::DeactivateInflight(pending) => interrupt.deactivate_inflight(pending),
        Operation::SetPriority(priority) => interrupt.set_priority(priority),
        Operation::SetTrigger(trigger) => interrupt.set_trigger(trigger),
        Operation::SetRoute(route) => interrupt.set_route(route),
        Operation::ClearRoute => interrupt.clear_route(),
        Operation::SetLevel(asserted) => interrupt.set_level(asserted),
        Operation::Pulse => interrupt.pulse(),
        Operation::Complete => interrupt.complete(),
    }
}
