// The fields of a bank that an access covers.
ghost use Rattle.std.specs.Prelude.{◌≡◌, ◌&&◌};
ghost use Rattle.theory.specs.Lists.{passing};
ghost use Rattle.place.specs.Table.{table_size, beyond_table, span_of};
ghost use Rattle.bank.specs.Banks.{bits_of, read_refuses, refused_over, told_beyond, first_of};
ghost use Rattle.registers.specs.declared.register.Register.{Register};
ghost use Rattle.decoding.specs.Bounds.{Bounded};

use bank::bank::{Bank, read_beyond, write_beyond};
use place::place::Span;

// Those of a bank from the INTID `first` on, and how many.
#[derive(Clone, Copy, Debug, PartialEq, Eq)]
pub struct Fields {
    pub bank: Bank,
    pub first: u32,
    pub count: u32,
    // Their INTIDs are under 0x10000, and they fit 64 bits.
    pub ghost bounded: { Bounded (Register.Fields bank first count) },
}

impl Fields {
    // Those of the same INTIDs in a bank that is as wide.
    pub fn in_bank(self, bank: Bank) -> Self
        requires { bits_of bank ≡ bits_of self.bank }
        ensures { (result.bank ≡ bank) × (result.first ≡ self.first) × (result.count ≡ self.count) }
    {
        Fields {
            bank,
            first: self.first,
            count: self.count,
        }
    }

    // Those of their INTIDs that a table made for so many SPIs has.
    pub fn span(self, spi_count: u32) -> Span
        ensures { result ≡ span_of (table_size spi_count) self.first self.count }
    {
        Span::new(spi_count, self.first, self.count)
    }

    // The lowest of their INTIDs over which a read is refused, in a table of n SPIs.
    pub fn read_beyond(self, explicit: bool, n: u32) -> Option<u32>
        ensures { told_beyond result ≡ first_of (passing (λ i. read_refuses self.bank && beyond_table explicit n i) self.first self.count) }
    {
        read_beyond(explicit, n, self.bank, self.first, self.count)
    }

    // The lowest of their INTIDs over which a write of the value is refused.
    pub fn write_beyond(self, explicit: bool, n: u32, value: u64) -> Option<u32>
        ensures { told_beyond result ≡ first_of (passing (refused_over explicit n self.bank value self.first) self.first self.count) }
    {
        write_beyond(explicit, n, self.bank, value, self.first, self.count)
    }
}
