// What the host asks about an SPI, as a value that a sequence of calls can hold, and what is answered.
ghost use Rattle.std.specs.Prelude.{◌≡◌};
ghost use Rattle.spi.specs.Questions.{value_of};

use attributes::attributes::{GicAffinity, InterruptState, Priority, TriggerMode};
use slot::slot::Slot;

#[derive(Clone, Copy, Debug, PartialEq, Eq)]
pub enum Question {
    Intid,
    Enabled,
    Pending,
    Active,
    State,
    HasDeliveryState,
    Priority,
    Trigger,
    Route,
    CpuTargetMask,
    Deliverable,
    IsClaimed,
    HasFixedRoute,
}

// What a question is answered with.
#[derive(Clone, Copy, Debug, PartialEq, Eq)]
pub enum Value {
    Intid(u32),
    Flag(bool),
    State(InterruptState),
    Priority(Priority),
    Trigger(TriggerMode),
    Route(Option<GicAffinity>),
    Mask(u8),
}

pub fn value_of(slot: Slot, question: Question) -> Value
    ensures { result ≡ value_of question slot }
{
    let interrupt = slot.interrupt();
    match question {
        Question::Intid => Value::Intid(interrupt.intid().raw()),
        Question::Enabled => Value::Flag(interrupt.enabled()),
        Question::Pending => Value::Flag(interrupt.pending()),
        Question::Active => Value::Flag(interrupt.active()),
        Question::State => Value::State(interrupt.state()),
        Question::HasDeliveryState => Value::Flag(interrupt.has_delivery_state()),
        Question::Priority => Value::Priority(interrupt.priority()),
        Question::Trigger => Value::Trigger(interrupt.trigger()),
        Question::Route => Value::Route(interrupt.route()),
        // Where there is no target mask, core 0 is the target.
        Question::CpuTargetMask => Value::Mask(interrupt.cpu_target_mask().unwrap_or(1)),
        Question::Deliverable => Value::Flag(interrupt.deliverable()),
        Question::IsClaimed => Value::Flag(slot.ownership().explicitly_owned),
        Question::HasFixedRoute => Value::Flag(slot.ownership().fixed_route),
    }
}
