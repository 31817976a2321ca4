// The flags of a record, and its trigger.
use attributes::attributes::{InterruptState, TriggerMode};
use identifiers::types::{IntId, SpiId};
use interrupt::interrupt::InterruptRecord;
use life::life::Life;
use std::{array, fmt};

// Every combination of the flags: the n-th has a flag for each bit of n.
pub(crate) fn combinations() -> [Life; 64] {
    array::from_fn(|n| Life {
        enabled: n & 0b10_0000 != 0,
        pending: n & 0b01_0000 != 0,
        active: n & 0b00_1000 != 0,
        inflight: n & 0b00_0100 != 0,
        redelivery_pending: n & 0b00_0010 != 0,
        line_asserted: n & 0b00_0001 != 0,
    })
}

// An SPI's record from its creation on: the line, taken by a core, a pulse, the state. It has these flags, unless the mark is
// wanted of a record that is not in flight.
pub fn made(wanted: Life, trigger: TriggerMode) -> InterruptRecord {
    let mut irq = InterruptRecord::new(IntId::Spi(SpiId::nth(0)), trigger).set_level(
        wanted.line_asserted,
    );
    if wanted.inflight {
        irq = irq.mark_inflight();
    }
    if wanted.redelivery_pending {
        irq = irq.pulse();
    }
    irq.set_enabled(wanted.enabled)
        .set_state(InterruptState::of(wanted.pending, wanted.active))
}

// A record as a line shows it: a letter for each flag that is on (enabled, pending, active, in flight, redelivery, line), then the
// trigger.
#[derive(Clone, Copy, Debug, PartialEq, Eq)]
pub struct Shown(pub InterruptRecord);

impl fmt::Display for Shown {
    fn fmt<W: fmt::Write>(&self, f: &mut fmt::Formatter<W>) -> fmt::Result {
        let life = self.0.life();
        for (on, letter) in [
            (life.enabled, 'e'),
            (life.pending, 'p'),
            (life.active, 'a'),
            (life.inflight, 'f'),
            (life.redelivery_pending, 'r'),
            (life.line_asserted, 'l'),
        ] {
            f.write_char(if on { letter } else { '-' })?;
        }
        write!(f, " {}", trigger_name(self.0.trigger()))
    }
}

pub(crate) fn trigger_name(trigger: TriggerMode) -> &'static str {
    match trigger {
        TriggerMode::Edge => "edge",
        TriggerMode::Level => "level",
    }
}
