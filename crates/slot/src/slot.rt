// One SPI: what a bank shows of it, what a written field does to it, and what the host makes of it. No table is in here.
ghost use Rattle.std.specs.Prelude.{◌≡◌, ◌^◌, ◌<◌};
ghost use Rattle.bank.specs.Banks.{bits_of};
ghost use Rattle.interrupt.specs.Records.{deliverable_in};
ghost use Rattle.slot.specs.Slots.{fresh_spi, showing, field_written, field_listed, changed};

use crate::effect::after_field;
use attributes::attributes::TriggerMode;
use bank::bank::Bank;
use changes::change::Change;
use identifiers::types::{IntId, SpiId};
use interrupt::interrupt::InterruptRecord;
use ownership::ownership::Ownership;

// Only the functions below make a slot or change one. Nothing puts one into a Distributor by value from outside; on a lent image the
// bytes decide, and `image` makes its slots from them.
#[derive(Clone, Copy, Debug, PartialEq, Eq)]
pub struct Slot {
    interrupt: InterruptRecord,
    ownership: Ownership,
}

// What a written field leaves of an SPI, and whether the SPI is listed.
#[derive(Clone, Copy, Debug, PartialEq, Eq)]
pub struct FieldWritten {
    pub slot: Slot,
    pub listed: bool,
}

impl Slot {
    // An SPI is made level-sensitive, and unclaimed.
    pub fn fresh(spi: SpiId) -> Self
        ensures { result ≡ fresh_spi spi.0 }
    {
        Slot {
            interrupt: InterruptRecord::new(IntId::Spi(spi), TriggerMode::Level),
            ownership: Ownership {
                explicitly_owned: false,
                fixed_route: false,
            },
        }
    }

    // An SPI that was kept elsewhere, part by part.
    pub fn restored(interrupt: InterruptRecord, ownership: Ownership) -> Self
        ensures { (result.interrupt ≡ interrupt) × (result.ownership ≡ ownership) }
    {
        Slot {
            interrupt,
            ownership,
        }
    }

    pub fn interrupt(self) -> InterruptRecord
        ensures { result ≡ self.interrupt }
    {
        self.interrupt
    }

    pub fn ownership(self) -> Ownership
        ensures { result ≡ self.ownership }
    {
        self.ownership
    }

    // What an SPI shows: nothing where it is not owned.
    pub fn showing(self, explicit: bool, bank: Bank) -> u64
        ensures { (result ≡ showing explicit bank self) × (result < 2 ^ bits_of bank) }
    {
        self.ownership.visible(explicit, bank.shown(self.interrupt))
    }

    // Enabled and pending, owned or not.
    pub fn is_deliverable(self) -> bool
        ensures { result ≡ deliverable_in self.interrupt }
    {
        self.interrupt.deliverable()
    }

    // A field is written to an SPI of the table: nothing happens unless the field acts and the SPI is owned.
    pub fn write_field(self, explicit: bool, bank: Bank, field: u64) -> FieldWritten
        ensures { (result.slot ≡ field_written explicit bank field self) × (result.listed ≡ field_listed explicit bank field self) }
    {
        let ownership = self.ownership;
        if bank.acts(field) & ownership.is_owned(explicit) {
            let next = after_field(self.interrupt, ownership.fixed_route, bank, field);
            FieldWritten {
                slot: Slot {
                    interrupt: next,
                    ownership,
                },
                listed: bank.lists() & next.deliverable(),
            }
        } else {
            FieldWritten {
                slot: self,
                listed: false,
            }
        }
    }

    // The host changes an SPI of the table.
    pub fn changed(self, change: Change) -> Self
        ensures { result ≡ changed change self }
    {
        if change.happens(self.ownership) {
            Slot {
                interrupt: change.record_after(self.interrupt),
                ownership: change.ownership_after(self.ownership),
            }
        } else {
            self
        }
    }
}
