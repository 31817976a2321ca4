// The calls by number, as a list and the Rust name them.
ghost use Rattle.std.specs.Prelude.{◌≡◌};
ghost use Rattle.harness_numbers.specs.Numbers.{family_of};

use crate::number::{low_byte, odd, state, trigger};
use attributes::attributes::{GicAffinity, Priority};
use changes::change::Change;
use operation::operation::Operation;
use spi::question::Question;

#[derive(Clone, Copy, Debug, PartialEq, Eq)]
pub struct Call {
    pub op: u64,
    pub a: u64,
    pub b: u64,
    pub c: u64,
    pub d: u64,
}

// What a call is about. Those of one family are run by one function.
#[derive(Clone, Copy, Debug, PartialEq, Eq)]
pub enum Family {
    Identifier,
    Creation,
    Read,
    Write,
    Switch,
    Rollback,
    // By SPI: what changes one, and what asks about one.
    Change(Change),
    Asking(Question),
    Unknown,
}

fn operate(operation: Operation) -> Family
    ensures { result ≡ Family.Change (Change.Operate operation) }
{
    Family::Change(Change::Operate(operation))
}

// The call of a number, with its argument b. The rows are the same as in specs/Numbers.antt.
pub fn family_of(op: u64, b: u64) -> Family
    ensures { result ≡ family_of op b }
{
    let on = odd(b);
    let byte = low_byte(b);
    let priority = Priority::new(byte);
    let state = state(b);
    let trigger = trigger(b);
    let affinity = GicAffinity::from_mpidr(b);
    match op {
        0x01..=0x08 => Family::Identifier,
        0x10 => Family::Creation,
        0x11 => Family::Read,
        0x12 => Family::Write,
        0x13 => Family::Switch,
        0x14 => Family::Rollback,
        0x15 => Family::Change(Change::Claim),
        0x16 => Family::Change(Change::ClaimTo(affinity)),
        0x17 => Family::Change(Change::Release),
        0x18 => Family::Change(Change::SetCpuTargetMask(byte)),
        0x19 => Family::Asking(Question::CpuTargetMask),
        0x20 => Family::Asking(Question::Intid),
        0x21 => Family::Asking(Question::Enabled),
        0x22 => operate(Operation::SetEnabled(on)),
        0x23 => Family::Asking(Question::Pending),
        0x24 => operate(Operation::SetPending(on)),
        0x25 => Family::Asking(Question::Active),
        0x26 => operate(Operation::SetActive(on)),
        0x27 => Family::Asking(Question::State),
        0x28 => operate(Operation::SetState(state)),
        0x29 => Family::Asking(Question::HasDeliveryState),
        0x2a => operate(Operation::ClearDeliveryState),
        0x2b => operate(Operation::MarkInflight),
        0x2c => Family::Change(Change::SynchronizeInflight(state)),
        0x2d => operate(Operation::CancelInflight),
        0x2e => operate(Operation::FinishInflight),
        0x2f => operate(Operation::DeactivateInflight(on)),
        0x30 => Family::Asking(Question::Priority),
        0x31 => operate(Operation::SetPriority(priority)),
        0x32 => Family::Asking(Question::Trigger),
        0x33 => operate(Operation::SetTrigger(trigger)),
        0x34 => Family::Asking(Question::Route),
        0x35 => operate(Operation::SetRoute(affinity)),
        0x36 => operate(Operation::ClearRoute),
        0x37 => operate(Operation::SetLevel(on)),
        0x38 => operate(Operation::Pulse),
        0x39 => operate(Operation::Complete),
        0x3a => Family::Asking(Question::Deliverable),
        _ => Family::Unknown,
    }
}
