// The banks of registers: what each shows of a record, which written fields act, whether a write lists, and what is refused beyond
// the table. No table is in here.
ghost use Rattle.std.specs.Prelude.{◌≡◌, cond, ◌&&◌, ◌+◌, ◌-◌, ◌*◌, ◌/◌, ◌%◌, ◌^◌, ◌<◌};
ghost use Rattle.theory.specs.Lists.{passing};
ghost use Rattle.place.specs.Table.{beyond_table};
ghost use Rattle.bank.specs.Banks.{rule, rule_of, bits_of, idle_fields, route_bits, flag_in, field_in, shown, acts, trigger_in, edge_field, set_lists, clear_lists, lists, read_refuses, ignores_beyond, write_refuses, refused_over, told_beyond, lists_unless, first_of};

use attributes::attributes::{GicAffinity, TriggerMode};
use interrupt::interrupt::InterruptRecord;
use place::place::is_beyond;

// A flag of an interrupt. Two banks show it: a write to the one sets it, to the other clears it.
#[derive(Clone, Copy, Debug, PartialEq, Eq)]
pub enum Flag {
    Enabled,
    Pending,
    Active,
}

// What a bank with one field for each INTID holds.
#[derive(Clone, Copy, Debug, PartialEq, Eq)]
pub enum Field {
    Group,
    Priority,
    Configuration,
    Route,
}

// What holds of a field, whoever's it is.
#[derive(Clone, Copy, Debug, PartialEq, Eq)]
pub struct FieldRule {
    // The bits for each INTID.
    bits: u64,
    takes_writes: bool,
    // A write lists the SPIs that it touched.
    lists: bool,
    // Beyond the table a read is refused.
    refuses_reads: bool,
    // Beyond the table a write is ignored.
    ignores_beyond: bool,
}

// A bank holds a field of the same width for each INTID. Arm's names for them:
#[derive(Clone, Copy, Debug, PartialEq, Eq)]
pub enum Bank {
    // ISENABLER, ISPENDR, ISACTIVER: writing 1 sets the flag.
    Set(Flag),
    // ICENABLER, ICPENDR, ICACTIVER: writing 1 clears it.
    Clear(Flag),
    // IGROUPR, IPRIORITYR, ICFGR, IROUTER: a write replaces the field.
    Replace(Field),
}

// The lowest of the m INTIDs from lo on over which a write of the value is refused, field by field.
fn first_beyond(explicit: bool, n: u32, bank: Bank, value: u64, lo: u32, m: u32) -> Option<u32>
    ensures { told_beyond result ≡ first_of (passing (refused_over explicit n bank value lo) lo m) }
{
    let mut v = value;
    for j in 0..m {
        let i = lo as u64 + j as u64;
        if bank.write_refuses(bank.low_field(v)) & is_beyond(explicit, n, i) {
            return Some(i as u32);
        }
        v = bank.above(v);
    }
    None
}

// The lowest of the m INTIDs from lo on over which a write of the value is refused: none where all are in the table.
pub fn write_beyond(explicit: bool, n: u32, bank: Bank, value: u64, lo: u32, m: u32) -> Option<u32>
    ensures { told_beyond result ≡ first_of (passing (refused_over explicit n bank value lo) lo m) }
{
    if !explicit | (lo as u64 + m as u64 <= 32 + n as u64) {
        None
    } else {
        first_beyond(explicit, n, bank, value, lo, m)
    }
}

// The lowest of the m INTIDs from lo on over which a read is refused.
pub fn read_beyond(explicit: bool, n: u32, bank: Bank, lo: u32, m: u32) -> Option<u32>
    ensures { told_beyond result ≡ first_of (passing (λ i. read_refuses bank && beyond_table explicit n i) lo m) }
{
    if bank.read_refuses() {
        write_beyond(explicit, n, bank, 0, lo, m)
    } else {
        None
    }
}

fn route_value(route: Option<GicAffinity>) -> u64
    ensures { result ≡ route_bits route }
{
    match route {
        Some(affinity) => affinity.mpidr(),
        None => 0,
    }
}

// ICFGR: the upper bit of the two says edge.
pub fn trigger_in(field: u64) -> TriggerMode
    ensures { result ≡ trigger_in field }
{
    TriggerMode::of(2 <= field)
}

fn edge_value(trigger: TriggerMode) -> u64
    ensures { result ≡ edge_field trigger }
{
    match trigger {
        TriggerMode::Edge => 2,
        TriggerMode::Level => 0,
    }
}

// A write that is refused beyond the table lists no candidate.
pub fn lists_unless(beyond: Option<u32>) -> bool
    ensures { result ≡ lists_unless beyond }
{
    beyond.is_none()
}

impl Flag {
    // All three are read first: the choice is then between values, and a compiler need not keep the record in memory for it.
    fn of(self, interrupt: InterruptRecord) -> bool
        ensures { result ≡ flag_in self interrupt }
    {
        let enabled = interrupt.enabled();
        let pending = interrupt.pending();
        let active = interrupt.active();
        match self {
            Flag::Enabled => enabled,
            Flag::Pending => pending,
            Flag::Active => active,
        }
    }

    // Whether setting it lists.
    fn set_lists(self) -> bool
        ensures { result ≡ set_lists self }
    {
        matches!(self, Flag::Enabled | Flag::Pending)
    }

    // Whether clearing it lists: an interrupt that is no longer active may be delivered again.
    fn clear_lists(self) -> bool
        ensures { result ≡ clear_lists self }
    {
        matches!(self, Flag::Active)
    }
}

impl Field {
    // One row for each field, as in specs/Banks.antt.
    fn rule(self) -> FieldRule
        ensures { result ≡ rule_of self }
    {
        match self {
            Field::Group => FieldRule::new(1, false, false, false, false),
            Field::Priority => FieldRule::new(8, true, false, true, false),
            Field::Configuration => FieldRule::new(2, true, false, true, false),
            Field::Route => FieldRule::new(64, true, true, false, true),
        }
    }

    // IGROUPR shows that the SPI is owned.
    fn of(self, interrupt: InterruptRecord) -> u64
        ensures { (result ≡ field_in self interrupt) × (result < 2 ^ (rule_of self).bits) }
    {
        match self {
            Field::Group => 1,
            Field::Priority => interrupt.priority().raw() as u64,
            Field::Configuration => edge_value(interrupt.trigger()),
            Field::Route => route_value(interrupt.route()),
        }
    }

    // Every field acts, or none does.
    fn idle(self) -> u32
        ensures { result ≡ cond (rule_of self).takes_writes 0 64 }
    {
        if self.rule().takes_writes { 0 } else { 64 }
    }
}

impl FieldRule {
    fn new(
        bits: u64,
        takes_writes: bool,
        lists: bool,
        refuses_reads: bool,
        ignores_beyond: bool,
    ) -> Self
        ensures { result ≡ rule bits takes_writes lists refuses_reads ignores_beyond }
    {
        FieldRule {
            bits,
            takes_writes,
            lists,
            refuses_reads,
            ignores_beyond,
        }
    }
}

impl Bank {
    // The bits that it has for each INTID.
    pub fn bits(self) -> u64
        ensures { result ≡ bits_of self }
    {
        match self {
            Bank::Set(_) | Bank::Clear(_) => 1,
            Bank::Replace(field) => field.rule().bits,
        }
    }

    // What an owned SPI shows.
    pub fn shown(self, interrupt: InterruptRecord) -> u64
        ensures { (result ≡ shown self interrupt) × (result < 2 ^ bits_of self) }
    {
        match self {
            Bank::Set(flag) | Bank::Clear(flag) => flag.of(interrupt) as u64,
            Bank::Replace(field) => field.of(interrupt),
        }
    }

    // Whether a written field acts.
    pub fn acts(self, field: u64) -> bool
        ensures { result ≡ acts self field }
    {
        match self {
            Bank::Set(_) | Bank::Clear(_) => field == 1,
            Bank::Replace(kept) => kept.rule().takes_writes,
        }
    }

    // Whether a write lists the SPIs that it touched.
    pub fn lists(self) -> bool
        ensures { result ≡ lists self }
    {
        match self {
            Bank::Set(flag) => flag.set_lists(),
            Bank::Clear(flag) => flag.clear_lists(),
            Bank::Replace(field) => field.rule().lists,
        }
    }

    // Whether a read is refused beyond the table.
    fn read_refuses(self) -> bool
        ensures { result ≡ read_refuses self }
    {
        matches!(self, Bank::Replace(field) if field.rule().refuses_reads)
    }

    fn ignores_beyond(self) -> bool
        ensures { result ≡ ignores_beyond self }
    {
        matches!(self, Bank::Replace(field) if field.rule().ignores_beyond)
    }

    // Whether a written field is refused beyond the table.
    fn write_refuses(self, field: u64) -> bool
        ensures { result ≡ write_refuses self field }
    {
        !self.ignores_beyond() & self.acts(field)
    }

    // The lowest field of a value.
    pub fn low_field(self, value: u64) -> u64
        ensures { result ≡ value % 2 ^ bits_of self }
    {
        let bits = self.bits();
        if bits < 64 {
            value - (value >> bits << bits)
        } else {
            value
        }
    }

    // The fields above the lowest.
    pub fn above(self, value: u64) -> u64
        ensures { result ≡ value / 2 ^ bits_of self }
    {
        let bits = self.bits();
        if bits < 64 { value >> bits } else { 0 }
    }

    // The fields from the k-th on, counted from 0.
    pub fn from_field(self, value: u64, k: u32) -> u64
        ensures { result ≡ value / (2 ^ bits_of self) ^ k }
    {
        let shift = self.bits() * k as u64;
        if shift < 64 { value >> shift } else { 0 }
    }

    // How many of a value's lowest fields do not act: of flags, the zeros below the lowest 1.
    pub fn idle(self, value: u64) -> u32
        ensures { result ≡ idle_fields self value }
    {
        match self {
            Bank::Set(_) | Bank::Clear(_) => value.trailing_zeros(),
            Bank::Replace(field) => field.idle(),
        }
    }

    // A field put below others. What 64 bits have no room for is dropped.
    pub fn put_below(self, above: u64, field: u64) -> u64
        ensures { result ≡ above % 2 ^ (64 - bits_of self) * 2 ^ bits_of self + field % 2 ^ bits_of self }
    {
        let bits = self.bits();
        if bits < 64 {
            (above << bits) + (field - (field >> bits << bits))
        } else {
            field
        }
    }
}
