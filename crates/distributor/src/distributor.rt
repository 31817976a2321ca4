// The Distributor: its table of SPIs, and the loops over it. A call reaches a slot by a `Place` alone.
ghost use Rattle.std.specs.Prelude.{◌≡◌, true, cond, ◌&&◌, ◌+◌, ◌≤◌, ◌<◌, length, set};
ghost use Rattle.theory.specs.Lists.{map_at, passing};
ghost use Rattle.place.specs.Table.{table_size};
ghost use Rattle.controller.specs.Modes.{explicit};
ghost use Rattle.slot.specs.BankRule.{bank_value, bank_slot, candidate};
ghost use Rattle.model.specs.Calls.{deliverable_at};
ghost use Rattle.distributor.specs.Loops.{with_slots, LaidOut};

use controller::controller::ControllerConfig;
use decoding::fields::Fields;
use identifiers::error::Refusal;
use place::place::{Place, SPIS, table_size};
use slot::slot::Slot;

// Only this crate makes one or changes its fields: a claim cannot be forged, and nothing but a call changes an SPI.
#[derive(Clone, Copy, Debug, PartialEq, Eq)]
pub struct DistributorState {
    pub(crate) config: ControllerConfig,
    // The master switch, CTLR bit 1.
    pub(crate) enabled: bool,
    // How many SPIs it was made for: those of INTIDs 32 to 31 + spi_count, in the first places of the table.
    pub(crate) spi_count: u32,
    pub(crate) slots: [Slot; SPIS],
}

// The Distributor after a call, and what the call answered.
#[derive(Clone, Copy, Debug, PartialEq, Eq)]
pub struct After<T> {
    pub state: DistributorState,
    pub answer: Result<T, Refusal>,
}

// Where a write stands: the state, and how many candidates are listed.
#[derive(Clone, Copy, Debug, PartialEq, Eq)]
pub(crate) struct Listed {
    pub(crate) state: DistributorState,
    pub(crate) count: usize,
}

impl DistributorState {
    // How many SPIs there are.
    pub fn size(self) -> u32
        ensures { result ≡ table_size self.spi_count }
    {
        table_size(self.spi_count)
    }

    // Whether claims decide what is the guest's.
    pub fn is_explicit(self) -> bool
        ensures { result ≡ explicit self.config.spi_ownership }
    {
        self.config.spi_ownership.is_explicit()
    }

    // A copy of all slots, INTID 32's first.
    pub fn slots(self) -> [Slot; SPIS]
        ensures { result ≡ self.slots }
    {
        self.slots
    }
}

// The list gets one candidate more, or none. The list and its count are the paper's form; the face's list is bytes.
fn list_if(on: bool, list: &mut [u32], count: usize, intid: u32) -> usize
    requires { on ≡ true → count < length list.old }
    ensures { (list.new ≡ cond on (set list.old count intid) list.old) × (result ≡ cond on (count + 1) count) }
{
    if on {
        list[count] = intid;
        return count + 1;
    }
    count
}

// The fields of a bank, read from the highest down. An INTID that is not in the table shows 0.
pub(crate) fn read_fields(d: DistributorState, fields: Fields) -> u64
    requires { fields.first < 32 → fields.first + fields.count ≤ 32 }
    ensures { result ≡ bank_value (explicit d.config.spi_ownership) (table_size d.spi_count) fields.bank fields.first fields.count d.slots }
{
    let explicit = d.is_explicit();
    let bank = fields.bank;
    let span = fields.span(d.spi_count);
    let mut value = 0;
    for i in (span.first..span.end).rev() {
        let p = Place::nearest(i).index();
        value = bank.put_below(value, d.slots[p].showing(explicit, bank));
    }
    value
}

// Writes the fields of a value to a bank, the lowest first. `tells` says whether candidates are listed.
pub(crate) fn write_fields(
    mut d: DistributorState,
    fields: Fields,
    value: u64,
    tells: bool,
    list: &mut [u32],
) -> Listed
    requires { table_size d.spi_count ≤ length list.old }
    ensures { (result.state ≡ with_slots d (map_at (λ p. bank_slot (explicit d.config.spi_ownership) (table_size d.spi_count) fields.bank value fields.first fields.count (32 + p)) d.slots)) × LaidOut (passing (λ i. tells && candidate (explicit d.config.spi_ownership) (table_size d.spi_count) fields.bank value fields.first fields.count d.slots i) fields.first fields.count) list.old list.new result.count }
{
    let explicit = d.is_explicit();
    let bank = fields.bank;
    let span = fields.span(d.spi_count);
    let mut v = bank.from_field(value, span.first - fields.first);
    let mut count = 0;
    for i in span.first..span.end {
        let p = Place::nearest(i).index();
        let w = d.slots[p].write_field(explicit, bank, bank.low_field(v));
        d.slots[p] = w.slot;
        count = list_if(tells & w.listed, list, count, i);
        v = bank.above(v);
    }
    Listed { state: d, count }
}

// Lists every deliverable SPI of the table.
pub(crate) fn list_deliverable(d: DistributorState, list: &mut [u32]) -> usize
    requires { table_size d.spi_count ≤ length list.old }
    ensures { LaidOut (passing (deliverable_at d.slots) 32 (table_size d.spi_count)) list.old list.new result }
{
    let mut count = 0;
    for i in 32..32 + d.size() {
        let p = Place::nearest(i).index();
        count = list_if(d.slots[p].is_deliverable(), list, count, i);
    }
    count
}
