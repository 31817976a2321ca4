// What the registers that have no INTID read as.
ghost use Rattle.std.specs.Prelude.{◌≡◌, ◌-◌, ◌≤◌, max, get_or};
ghost use Rattle.std.specs.Int.Count.{count_leading_zeros};
ghost use Rattle.place.specs.Table.{capacity, table_size};
ghost use Rattle.controller.specs.Identity.{component_id, switch_bit, ctlr_value, largest_int_id, typer_value};

use crate::controller::ControllerConfig;
use place::place::table_size;

// PIDR4 to PIDR7, PIDR0 to PIDR3 and CIDR0 to CIDR3, at 0xffd0 to 0xfffc.
const COMPONENT_IDS: [u8; 12] = [
    0x44, 0x00, 0x00, 0x00, 0x92, 0xb4, 0x3b, 0x00, 0x0d, 0xf0, 0x05, 0xb1,
];

pub fn component_id(k: u32) -> u64
    ensures { result ≡ get_or component_id k 0 }
{
    match COMPONENT_IDS.get(k as usize) {
        Some(id) => *id as u64,
        None => 0,
    }
}

// Arm is the implementer.
pub const IIDR: u64 = 0x43b;

// The switch is bit 1 of what is written to CTLR.
pub fn switch_bit(value: u64) -> bool
    ensures { result ≡ switch_bit value }
{
    value / 2 % 2 == 1
}

// Affinity routing is on, and bit 1 is the switch.
pub fn ctlr(enabled: bool) -> u64
    ensures { result ≡ ctlr_value enabled }
{
    0x10 + 2 * (enabled as u64)
}

fn largest_intid(config: ControllerConfig, n: u32) -> u32
    requires { n ≤ capacity }
    ensures { result ≡ largest_int_id config n }
{
    if config.its { config.lpi_limit } else { 31 + n }
}

// The binary digits that the largest INTID needs, at least 16.
fn id_bits(largest: u32) -> u32
    ensures { result ≡ max (32 - count_leading_zeros 32 largest) 16 }
{
    let digits = 32 - largest.leading_zeros();
    digits.max(16)
}

fn typer_value(config: ControllerConfig, n: u32) -> u64
    requires { n ≤ capacity }
    ensures { result ≡ typer_value config n }
{
    let lines = (32 + n + 31) / 32 - 1;
    let bits = id_bits(largest_intid(config, n));
    (lines as u64)
        + (config.exposes_guest_lpis as u64) * 0x2_0000
        + ((bits - 1) as u64) * 0x8_0000
        + (config.affinity_level_3 as u64) * 0x100_0000
        + (config.range_selector as u64) * 0x400_0000
}

// TYPER of a Distributor that was made for so many SPIs.
pub fn typer(config: ControllerConfig, count: u32) -> u64
    ensures { result ≡ typer_value config (table_size count) }
{
    typer_value(config, table_size(count))
}
