// The stories of docs/LESSONS.md, run: five lines that an apprentice crosses, and why order binds the calls on one SPI.
use crate::{ask, k, read, read_byte, spi, write};
use attributes::attributes::{InterruptState, TriggerMode};
use changes::change::Change;
use distributor::distributor::DistributorState;
use operation::operation::Operation;
use registers::register::AccessWidth;
use spi::question::Question;
use std::io;

fn host(d: DistributorState, raw: u32, operation: Operation) -> DistributorState {
    d.change(spi(raw), Change::Operate(operation)).state
}

// Enabled, and a pulse comes.
fn waiting(raw: u32) -> DistributorState {
    let enabled = host(k(), raw, Operation::SetEnabled(true));
    host(enabled, raw, Operation::Pulse)
}

fn pending(rt: &impl Print, d: DistributorState, raw: u32) -> io::Result<()> {
    ask(rt, d, raw, Question::Pending)
}

fn lessons_1_to_4(rt: &impl Print) -> io::Result<()> {
    // The write's bits run past the table, and 64 waits to be delivered.
    print!(rt; "lesson 1:")?;
    let mut d = write(rt, waiting(64), 0x108, AccessWidth::Dword, 0x1ff)?;
    read(rt, d, 0x108)?;
    // 35 is nobody's, and it waits.
    print!(rt; "\nlesson 2:")?;
    d = waiting(35);
    read(rt, d, 0x204)?;
    write(rt, d, 0x0, AccessWidth::Dword, 2)?;
    print!(rt; "\nlesson 3:")?;
    d = k();
    read_byte(rt, d, 0x100)?;
    read_byte(rt, d, 0x101)?;
    print!(rt; "\nlesson 4:")?;
    d = released(waiting(33));
    read(rt, d, 0x84)?;
    ask(rt, d, 33, Question::Enabled)?;
    pending(rt, d, 33)
}

fn released(d: DistributorState) -> DistributorState {
    d.change(spi(33), Change::Release).state
}

fn active(d: DistributorState) -> DistributorState {
    d.change(spi(33), Change::SynchronizeInflight(InterruptState::Active))
        .state
}

fn high(d: DistributorState) -> DistributorState {
    host(d, 33, Operation::SetLevel(true))
}

// Whether 33 pends again once the core has finished.
fn finished(rt: &impl Print, d: DistributorState) -> io::Result<()> {
    pending(rt, host(d, 33, Operation::FinishInflight), 33)
}

// 33, edge-triggered, in flight.
fn redelivery(rt: &impl Print) -> io::Result<()> {
    print!(rt; "\nlesson 5:")?;
    let edge = host(k(), 33, Operation::SetTrigger(TriggerMode::Edge));
    let d = host(edge, 33, Operation::MarkInflight);
    // The line is still high, or rises, while a core has 33 active.
    finished(rt, high(active(high(d))))?;
    finished(rt, high(active(d)))?;
    // The line rises, or a pulse comes, before that.
    pending(rt, active(high(d)), 33)?;
    pending(rt, active(host(d, 33, Operation::Pulse)), 33)
}

fn cleared(d: DistributorState, raw: u32) -> DistributorState {
    host(d, raw, Operation::SetPending(false))
}

// 33's line rises and this SPI is cleared, in either order.
fn either_order(rt: &impl Print, raw: u32) -> io::Result<()> {
    let d = waiting(64);
    pending(rt, cleared(high(d), raw), raw)?;
    pending(rt, high(cleared(d, raw)), raw)
}

pub fn run(rt: &impl Print) -> io::Result<()> {
    lessons_1_to_4(rt)?;
    redelivery(rt)?;
    print!(rt; "\nlesson 6:")?;
    either_order(rt, 33)?;
    either_order(rt, 64)?;
    println!(rt;)
}
