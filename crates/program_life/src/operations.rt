// What can happen to a record, with its arguments.
use crate::flags::trigger_name;
use attributes::attributes::{GicAffinity, InterruptState, Priority, TriggerMode};
use interrupt::interrupt::InterruptRecord;
use operation::operation::{Operation, apply};
use std::fmt;

// A named operation, or one of the two that are none.
#[derive(Clone, Copy, Debug, PartialEq, Eq)]
pub enum Action {
    Operate(Operation),
    SynchronizeInflight(InterruptState),
    SetCpuTargetMask(u8),
}

// All that can happen, in the order of the lines. The settings' arguments are one example each: no flag rests on them.
pub(crate) fn actions() -> [Action; 30] {
    [
        Action::Operate(Operation::SetEnabled(false)),
        Action::Operate(Operation::SetEnabled(true)),
        Action::Operate(Operation::SetPending(false)),
        Action::Operate(Operation::SetPending(true)),
        Action::Operate(Operation::SetActive(false)),
        Action::Operate(Operation::SetActive(true)),
        Action::Operate(Operation::SetState(InterruptState::Inactive)),
        Action::Operate(Operation::SetState(InterruptState::Pending)),
        Action::Operate(Operation::SetState(InterruptState::Active)),
        Action::Operate(Operation::SetState(InterruptState::ActivePending)),
        Action::Operate(Operation::ClearDeliveryState),
        Action::Operate(Operation::MarkInflight),
        Action::SynchronizeInflight(InterruptState::Inactive),
        Action::SynchronizeInflight(InterruptState::Pending),
        Action::SynchronizeInflight(InterruptState::Active),
        Action::SynchronizeInflight(InterruptState::ActivePending),
        Action::Operate(Operation::CancelInflight),
        Action::Operate(Operation::FinishInflight),
        Action::Operate(Operation::DeactivateInflight(false)),
        Action::Operate(Operation::DeactivateInflight(true)),
        Action::Operate(Operation::SetPriority(Priority::DEFAULT)),
        Action::Operate(Operation::SetTrigger(TriggerMode::Level)),
        Action::Operate(Operation::SetTrigger(TriggerMode::Edge)),
        Action::Operate(Operation::SetRoute(GicAffinity::new(0, 0, 0, 1))),
        Action::Operate(Operation::ClearRoute),
        Action::SetCpuTargetMask(1),
        Action::Operate(Operation::SetLevel(false)),
        Action::Operate(Operation::SetLevel(true)),
        Action::Operate(Operation::Pulse),
        Action::Operate(Operation::Complete),
    ]
}

impl Action {
    pub fn on(self, interrupt: InterruptRecord) -> InterruptRecord {
        match self {
            Action::Operate(operation) => apply(interrupt, operation),
            Action::SynchronizeInflight(state) => interrupt.synchronize_inflight(state).interrupt,
            Action::SetCpuTargetMask(mask) => interrupt.set_cpu_target_mask(mask),
        }
    }
}

// By its name in the code, and with its argument where a flag may rest on it.
impl fmt::Display for Action {
    fn fmt<W: fmt::Write>(&self, f: &mut fmt::Formatter<W>) -> fmt::Result {
        match *self {
            Action::Operate(operation) => write_operation(f, operation),
            Action::SynchronizeInflight(state) => {
                write!(f, "synchronize_inflight {}", state_name(state))
            }
            Action::SetCpuTargetMask(_) => f.write_str("set_cpu_target_mask"),
        }
    }
}

// These are this page's words: they leave out the arguments that no flag rests on, so they are no `Display` of the operation.
fn write_operation<W: fmt::Write>(f: &mut fmt::Formatter<W>, operation: Operation) -> fmt::Result {
    match operation {
        Operation::SetEnabled(on) => write!(f, "set_enabled {}", u8::from(on)),
        Operation::SetPending(on) => write!(f, "set_pending {}", u8::from(on)),
        Operation::SetActive(on) => write!(f, "set_active {}", u8::from(on)),
        Operation::SetState(state) => write!(f, "set_state {}", state_name(state)),
        Operation::ClearDeliveryState => f.write_str("clear_delivery_state"),
        Operation::MarkInflight => f.write_str("mark_inflight"),
        Operation::CancelInflight => f.write_str("cancel_inflight"),
        Operation::FinishInflight => f.write_str("finish_inflight"),
        Operation::DeactivateInflight(pending) => {
            write!(f, "deactivate_inflight {}", u8::from(pending))
        }
        Operation::SetPriority(_) => f.write_str("set_priority"),
        Operation::SetTrigger(trigger) => write!(f, "set_trigger {}", trigger_name(trigger)),
        Operation::SetRoute(_) => f.write_str("set_route"),
        Operation::ClearRoute => f.write_str("clear_route"),
        Operation::SetLevel(asserted) => write!(f, "set_level {}", u8::from(asserted)),
        Operation::Pulse => f.write_str("pulse"),
        Operation::Complete => f.write_str("complete"),
    }
}

fn state_name(state: InterruptState) -> &'static str {
    match state {
        InterruptState::Inactive => "inactive",
        InterruptState::Pending => "pending",
        InterruptState::Active => "active",
        InterruptState::ActivePending => "active-pending",
    }
}
