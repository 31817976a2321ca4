// The two line calls on a record where it lies. `set_level_in_place` and `pulse_in_place` copy the lent record out, call the
// method on the copy, and store what it hands back: at exit the reference holds what the method makes of the record that was
// there at entry. `set_level_lent` and `pulse_lent` take the record by value, lend it and hand it back.
ghost use Rattle.std.specs.Prelude.{◌≡◌};
ghost use Rattle.interrupt.specs.Records.{line_to, line_pulsed};

use interrupt::interrupt::InterruptRecord;

pub fn set_level_in_place(r: &mut InterruptRecord, asserted: bool)
    ensures { r.new ≡ line_to asserted r.old }
{
    *r = r.set_level(asserted);
}

pub fn pulse_in_place(r: &mut InterruptRecord)
    ensures { r.new ≡ line_pulsed r.old }
{
    *r = r.pulse();
}

pub fn set_level_lent(mut interrupt: InterruptRecord, asserted: bool) -> InterruptRecord
    ensures { result ≡ line_to asserted interrupt }
{
    set_level_in_place(&mut interrupt, asserted);
    interrupt
}

pub fn pulse_lent(mut interrupt: InterruptRecord) -> InterruptRecord
    ensures { result ≡ line_pulsed interrupt }
{
    pulse_in_place(&mut interrupt);
    interrupt
}
