// A record's life, walked: from each combination of flags that a record can have, where each operation leads. A line reads
// `from: operation: to`; what is printed is held to the file stdout beside src/, and tools/life draws docs/life.svg from it.
// Where an operation leads rests on the flags and the trigger alone (`flags-after` and `synchronized-flags` in
// crates/operation/specs/Laws.antt), so one record stands for all that have its combination.
#![tactic(auto)]

mod flags;
mod operations;

use attributes::attributes::TriggerMode;
use flags::Shown;
use interrupt::interrupt::InterruptRecord;
use std::io;

// Where each operation leads from a record: a line each.
fn walk(rt: &impl Print, from: InterruptRecord) -> io::Result<()> {
    for action in operations::actions() {
        println!(rt; "{}: {action}: {}", Shown(from), Shown(action.on(from)))?;
    }
    Ok(())
}

// Every combination of the flags, with both triggers. One that no record was made with is passed over. That none is missed shows
// in the lines: each that is led to is walked too.
fn main(rt: HostRuntime) -> io::Result<()> {
    for wanted in flags::combinations() {
        for trigger in [TriggerMode::Edge, TriggerMode::Level] {
            let from = flags::made(wanted, trigger);
            if from.life() == wanted {
                walk(&rt, from)?;
            }
        }
    }
    Ok(())
}
