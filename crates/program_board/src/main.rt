// The board's examples, run on the code: the twelve cases on K, those that are run besides, and the lessons. What is printed is held
// to the file stdout beside src/.
#![tactic(auto)]

use attributes::attributes::GicAffinity;
use controller::controller::{ControllerConfig, GicV3SpiOwnership};
use distributor::distributor::DistributorState;
use host::host::{
    claim_physical_spi, claim_software_spi, pulse, release_spi_claim, set_enabled, set_level,
};
use identifiers::types::SpiId;
use registers::register::AccessWidth;
use spi::question::Question;
use std::io;

mod lessons;
mod show;

use crate::show::{Asked, Hex, Lists, Shown};

// Frame 0x10000, no ITS, the flags clear.
fn plain(spi_ownership: GicV3SpiOwnership) -> ControllerConfig {
    ControllerConfig {
        spi_ownership,
        distributor_size: 0x1_0000,
        exposes_guest_lpis: false,
        its: false,
        lpi_limit: 0,
        affinity_level_3: false,
        range_selector: false,
    }
}

fn spi(raw: u32) -> SpiId {
    SpiId::nth(raw.wrapping_sub(32))
}

fn made(config: ControllerConfig, spi_count: u32) -> DistributorState {
    DistributorState::new(config, spi_count).state
}

// With explicit claims.
fn explicit(spi_count: u32) -> DistributorState {
    made(plain(GicV3SpiOwnership::Explicit), spi_count)
}

// 40 SPIs, explicit claims; 33 and 64 claimed by software, 65 physically with affinity 0.0.0.1.
fn k() -> DistributorState {
    let mut d = explicit(40);
    d = claim_software_spi(d, spi(33)).state;
    d = claim_software_spi(d, spi(64)).state;
    claim_physical_spi(d, spi(65), GicAffinity::new(0, 0, 0, 1)).state
}

fn create(rt: &impl Print, spi_count: u32) -> io::Result<()> {
    let created = DistributorState::new(plain(GicV3SpiOwnership::Explicit), spi_count);
    print!(rt; "{}", Shown(created.answer.map(|()| "made")))
}

fn ask(rt: &impl Print, d: DistributorState, raw: u32, question: Question) -> io::Result<()> {
    print!(rt; "{}", Shown(d.ask(spi(raw), question).map(Asked)))
}

fn read_at(
    rt: &impl Print,
    d: DistributorState,
    offset: u64,
    width: AccessWidth,
) -> io::Result<()> {
    print!(rt; "{}", Shown(d.read(offset, width).map(Hex)))
}

fn read(rt: &impl Print, d: DistributorState, offset: u64) -> io::Result<()> {
    read_at(rt, d, offset, AccessWidth::Dword)
}

fn read_byte(rt: &impl Print, d: DistributorState, offset: u64) -> io::Result<()> {
    read_at(rt, d, offset, AccessWidth::Byte)
}

// A write on K's list of 40 places, each 9 before.
fn write(
    rt: &impl Print,
    d: DistributorState,
    offset: u64,
    width: AccessWidth,
    value: u64,
) -> io::Result<DistributorState> {
    let mut list = [9; 40];
    let wrote = d.write(offset, width, value, &mut list);
    print!(rt;
        "{}, list {} {}",
        Shown(wrote.answer.map(Lists)),
        list[0],
        list[1]
    )?;
    Ok(wrote.state)
}

fn cases_1_to_5(rt: &impl Print) -> io::Result<()> {
    print!(rt; "1:")?;
    create(rt, 988)?;
    create(rt, 989)?;
    let d = k();
    print!(rt; "\n2:")?;
    read(rt, d, 0xffe8)?;
    read_byte(rt, d, 0xffe8)?;
    print!(rt; "\n3:")?;
    read_byte(rt, d, 0xffe9)?;
    read(rt, d, 0x102)?;
    print!(rt; "\n4:")?;
    read(rt, d, 0xffff_ffff_ffff_fffc)?;
    print!(rt; "\n5:")?;
    read(rt, d, 0x4)
}

fn cases_6_to_9(rt: &impl Print) -> io::Result<()> {
    print!(rt; "\n6:")?;
    let mut d = write(rt, k(), 0x108, AccessWidth::Dword, 0x1ff)?;
    print!(rt; ", enabled")?;
    read(rt, d, 0x108)?;
    print!(rt; "\n7:")?;
    d = write(rt, k(), 0x17c, AccessWidth::Dword, 0xf000_0000)?;
    print!(rt; ", enabled")?;
    read(rt, d, 0x104)?;
    read(rt, d, 0x108)?;
    print!(rt; "\n8:")?;
    d = write(rt, k(), 0x6108, AccessWidth::Qword, 0x1_8002_0304)?;
    read_at(rt, d, 0x6108, AccessWidth::Qword)?;
    print!(rt; "\n9:")?;
    d = write(rt, k(), 0x6208, AccessWidth::Qword, 2)?;
    read_at(rt, d, 0x6208, AccessWidth::Qword)
}

fn cases_10_and_11(rt: &impl Print) -> io::Result<()> {
    print!(rt; "\n10:")?;
    let mut d = set_level(k(), spi(33), true).state;
    d = write(rt, d, 0x284, AccessWidth::Dword, 2)?;
    print!(rt; ", 33 pending")?;
    ask(rt, d, 33, Question::Pending)?;
    print!(rt; "\n11:")?;
    d = set_enabled(k(), spi(33), true).state;
    d = pulse(d, spi(33)).state;
    d = release_spi_claim(d, spi(33)).state;
    write(rt, d, 0x0, AccessWidth::Dword, 2)?;
    Ok(())
}

fn case_12(rt: &impl Print) -> io::Result<()> {
    print!(rt; "\n12:")?;
    let d = made(plain(GicV3SpiOwnership::AllGuestOwned), 988);
    let wrote = d.write(
        0x7f8,
        AccessWidth::Qword,
        0x8877_6655_4433_2211,
        &mut [9; 988],
    );
    print!(rt; "{}", Shown(wrote.answer.map(Lists)))?;
    read_at(rt, wrote.state, 0x7f8, AccessWidth::Qword)
}

// TYPER's id field, in bits 23..19.
fn id_field(rt: &impl Print, lpi_limit: u32) -> io::Result<()> {
    let config = ControllerConfig {
        its: true,
        lpi_limit,
        ..plain(GicV3SpiOwnership::AllGuestOwned)
    };
    let typer = made(config, 0).read(0x4, AccessWidth::Dword);
    print!(rt; "{}", Shown(typer.map(|typer| typer / 0x8_0000 % 32)))
}

fn run_also(rt: &impl Print) -> io::Result<()> {
    print!(rt; "\nTYPER at 0 and 988:")?;
    read(rt, explicit(0), 0x4)?;
    read(rt, explicit(988), 0x4)?;
    print!(rt; "\nid field at 65535 and 65536:")?;
    id_field(rt, 65535)?;
    id_field(rt, 65536)?;
    print!(rt; "\nIGROUPR at 0x84:")?;
    read(rt, k(), 0x84)?;
    println!(rt;)
}

fn main(rt: HostRuntime) -> io::Result<()> {
    cases_1_to_5(&rt)?;
    cases_6_to_9(&rt)?;
    cases_10_and_11(&rt)?;
    case_12(&rt)?;
    run_also(&rt)?;
    lessons::run(&rt)
}
