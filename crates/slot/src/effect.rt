// What a written field does to the record of an SPI.
ghost use Rattle.std.specs.Prelude.{◌≡◌};
ghost use Rattle.operation.specs.Operation.{applied};
ghost use Rattle.slot.specs.Effects.{flag_to, effect_of};
ghost use Rattle.slot.specs.Slots.{after_effect};

use attributes::attributes::{GicAffinity, Priority};
use bank::bank::{Bank, Field, Flag, trigger_in};
use interrupt::interrupt::InterruptRecord;

// ISENABLER, ISPENDR and ISACTIVER set the flag; ICENABLER, ICPENDR and ICACTIVER clear it.
fn after_flag(interrupt: InterruptRecord, flag: Flag, on: bool) -> InterruptRecord
    ensures { result ≡ applied (flag_to flag on) interrupt }
{
    match flag {
        Flag::Enabled => interrupt.set_enabled(on),
        Flag::Pending => interrupt.set_pending(on),
        Flag::Active => if on {
            interrupt.set_active(true)
        } else {
            interrupt.complete()
        },
    }
}

// One row for each bank, as in specs/Effects.antt. An operation is called by its name here, and not made a value for `apply`: a record
// that is loaded from an image then stays in the processor's registers until it is stored again.
pub fn after_field(
    interrupt: InterruptRecord,
    fixed_route: bool,
    bank: Bank,
    field: u64,
) -> InterruptRecord
    ensures { result ≡ after_effect (effect_of fixed_route bank field) interrupt }
{
    match bank {
        Bank::Set(flag) => after_flag(interrupt, flag, true),
        Bank::Clear(flag) => after_flag(interrupt, flag, false),
        Bank::Replace(kept) => match kept {
            Field::Group => interrupt,
            Field::Priority => interrupt.set_priority(Priority::new((field % 256) as u8)),
            Field::Configuration => interrupt.set_trigger(trigger_in(field)),
            Field::Route => if fixed_route {
                interrupt
            } else {
                interrupt.set_route(GicAffinity::from_mpidr(field))
            },
        },
    }
}
