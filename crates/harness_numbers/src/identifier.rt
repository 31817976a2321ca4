// The calls on identifiers and affinities, by number.
use crate::answer::Answer;
use crate::call::Call;
use crate::number::{low_byte, low_word, trigger};
use crate::packed;
use attributes::attributes::GicAffinity;
use identifiers::error::Refusal;
use identifiers::types::{IntId, LpiId, PpiId, SgiId, SpiId};
use interrupt::interrupt::InterruptRecord;

pub fn run(call: Call) -> Answer {
    Answer::seen(number_of(call))
}

fn number_of(call: Call) -> Result<u64, Refusal> {
    let Call { op, a, b, .. } = call;
    Ok(match op {
        0x01 => SgiId::new(low_byte(a))?.raw() as u64,
        0x02 => PpiId::new(low_byte(a))?.raw() as u64,
        0x03 => SpiId::new(low_word(a))?.raw() as u64,
        0x04 => LpiId::new(low_word(a))?.raw() as u64,
        0x05 => {
            let id = IntId::new(low_word(a))?;
            kind(id) << 32 | id.raw() as u64
        }
        0x06 => GicAffinity::from_mpidr(a).mpidr(),
        0x07 => packed::levels(GicAffinity::from_mpidr(a)),
        // 0x08
        _ => packed::record(InterruptRecord::new(IntId::new(low_word(a))?, trigger(b))),
    })
}

fn kind(id: IntId) -> u64 {
    match id {
        IntId::Sgi(_) => 0,
        IntId::Ppi(_) => 1,
        IntId::Spi(_) => 2,
        IntId::Lpi(_) => 3,
    }
}
