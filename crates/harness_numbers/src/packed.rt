// Records and affinities as numbers (docs/ORACLE.md, "The list"). A slot is the number that an image keeps it as.
use attributes::attributes::GicAffinity;
use image::kept::word_of;
use interrupt::interrupt::InterruptRecord;
use ownership::ownership::Ownership;
use slot::slot::Slot;

// The slot of a record, without claim and fixed mark.
pub fn record(irq: InterruptRecord) -> u64 {
    word_of(Slot::restored(
        irq,
        Ownership {
            explicitly_owned: false,
            fixed_route: false,
        },
    ))
}

// The levels of an affinity, a byte each, level 0 lowest.
pub fn levels(affinity: GicAffinity) -> u64 {
    u32::from_le_bytes([
        affinity.aff0(),
        affinity.aff1(),
        affinity.aff2(),
        affinity.aff3(),
    ]) as u64
}
