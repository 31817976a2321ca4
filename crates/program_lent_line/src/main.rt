// A level SPI that a core is handling: its line falls, and a pulse comes. The pulse came in flight, so it is kept as one more
// delivery, and the interrupt is pending again once the core has finished.
#![tactic(auto)]

ghost use Rattle.std.specs.Prelude.{◌≡◌, false};
ghost use Rattle.interrupt.specs.Records.{line_to, line_pulsed};

use attributes::attributes::{InterruptState, TriggerMode};
use identifiers::types::IntId;
use interrupt::interrupt::InterruptRecord;
use lent::lent::{pulse_in_place, pulse_lent, set_level_in_place, set_level_lent};
use std::io;

// Holds the record and lends it to both line calls.
fn falls_then_pulse(start: InterruptRecord) -> InterruptRecord
    ensures { result ≡ line_pulsed (line_to false start) }
{
    let mut held = start;
    set_level_in_place(&mut held, false);
    pulse_in_place(&mut held);
    held
}

// Enabled, raised, taken by a core, and active there.
fn handled(intid: IntId) -> InterruptRecord {
    InterruptRecord::new(intid, TriggerMode::Level)
        .set_enabled(true)
        .set_level(true)
        .mark_inflight()
        .set_state(InterruptState::Active)
}

fn print_record(rt: &impl Print, when: &str, r: InterruptRecord) -> io::Result<()> {
    let pending = u8::from(r.pending());
    let active = u8::from(r.active());
    let deliverable = u8::from(r.deliverable());
    println!(rt; "{when}: pending {pending}, active {active}, deliverable {deliverable}")
}

fn main(rt: HostRuntime) -> io::Result<()> {
    let Ok(intid) = IntId::new(33) else {
        return Ok(());
    };
    let start = handled(intid);
    print_record(&rt, "handled", start)?;
    print_record(&rt, "pulse", pulse_lent(start))?;
    let fallen = set_level_lent(start, false);
    print_record(&rt, "line low", fallen)?;
    print_record(&rt, "line low, finished", fallen.finish_inflight())?;
    let both = falls_then_pulse(start);
    print_record(&rt, "line low, pulse", both)?;
    print_record(&rt, "line low, pulse, finished", both.finish_inflight())
}
