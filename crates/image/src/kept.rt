// An SPI as it is kept: 8 bytes, read as one number whose lowest byte is byte 0. From bit 0 up byte 0 holds enabled, pending, active, in
// flight, redelivery, line, edge and claimed; byte 1 fixed, route present and mask present; byte 2 the priority, 3 the target mask, and
// 4 to 7 the affinity levels 0 to 3. What is absent is 0, and so are the five other bits.
ghost use Rattle.std.specs.Prelude.{◌≡◌, cond, ◌%◌, ◌^◌, ◌≤◌, ◌<◌};
ghost use Rattle.image.specs.Kept.{routed_in, masked_in, good_word, life_in, trigger_in, route_in_word, mask_in_word, ownership_in, slot_in, life_word, edge_bit, route_word, mask_word, word_of};

use attributes::attributes::{GicAffinity, Priority, TriggerMode};
use identifiers::types::{IntId, SpiId};
use interrupt::interrupt::InterruptRecord;
use life::life::Life;
use ownership::ownership::Ownership;
use slot::slot::Slot;

// A fresh SPI: the default priority, and nothing else.
pub const FRESH: u64 = 0x80_0000;

fn routed_in(word: u64) -> bool
    ensures { result ≡ routed_in word }
{
    word / 0x200 % 2 == 1
}

fn masked_in(word: u64) -> bool
    ensures { result ≡ masked_in word }
{
    word / 0x400 % 2 == 1
}

// The number without its affinity, if a route is present.
fn below_route(word: u64) -> u64
    ensures { result ≡ cond (routed_in word) (word % 2 ^ 32) word }
{
    if routed_in(word) {
        word % 0x1_0000_0000
    } else {
        word
    }
}

// Where a number ends that has no affinity: above the target mask, or above the priority if no mask is present.
fn mask_end(word: u64) -> u64
    ensures { result ≡ cond (masked_in word) (2 ^ 32) (2 ^ 24) }
{
    if masked_in(word) {
        0x1_0000_0000
    } else {
        0x100_0000
    }
}

// Whether a number is one that an SPI is kept as. Byte 1 is under 6: it has no other bit, and not both a route and a target mask. Bits 7 and
// 8 are not 2: what is fixed is claimed. And nothing stands where a value is absent.
pub fn is_good(word: u64) -> bool
    ensures { result ≡ good_word word }
{
    (word % 0x1_0000 < 0x600) & (word / 0x80 % 4 != 2) & (below_route(word) < mask_end(word))
}

fn life_in(word: u64) -> Life
    ensures { result ≡ life_in word }
{
    Life {
        enabled: word % 2 == 1,
        pending: word / 2 % 2 == 1,
        active: word / 4 % 2 == 1,
        inflight: word / 8 % 2 == 1,
        redelivery_pending: word / 16 % 2 == 1,
        line_asserted: word / 32 % 2 == 1,
    }
}

fn trigger_in(word: u64) -> TriggerMode
    ensures { result ≡ trigger_in word }
{
    TriggerMode::of(word / 0x40 % 2 == 1)
}

fn route_in(word: u64) -> Option<GicAffinity>
    ensures { result ≡ route_in_word word }
{
    let [_, _, _, _, aff0, aff1, aff2, aff3] = word.to_le_bytes();
    routed_in(word).then_some(GicAffinity::new(aff3, aff2, aff1, aff0))
}

fn mask_in(word: u64) -> Option<u8>
    ensures { result ≡ mask_in_word word }
{
    masked_in(word).then_some((word / 0x100_0000 % 256) as u8)
}

fn ownership_in(word: u64) -> Ownership
    ensures { result ≡ ownership_in word }
{
    Ownership {
        explicitly_owned: word / 0x80 % 2 == 1,
        fixed_route: word / 0x100 % 2 == 1,
    }
}

// The SPI that is kept as this number.
#[tactic(auto, unfolding(crate::specs::Kept::slot_in))]
pub fn slot_in(spi: SpiId, word: u64) -> Slot
    ensures { result ≡ slot_in spi.0 word }
{
    Slot::restored(
        InterruptRecord::restored(
            IntId::Spi(spi),
            life_in(word),
            Priority::new((word / 0x1_0000 % 256) as u8),
            trigger_in(word),
            route_in(word),
            mask_in(word),
        ),
        ownership_in(word),
    )
}

fn life_word(life: Life) -> u64
    ensures { (result ≡ life_word life) × (result < 64) }
{
    life.enabled as u64
        + 2 * life.pending as u64
        + 4 * life.active as u64
        + 8 * life.inflight as u64
        + 16 * life.redelivery_pending as u64
        + 32 * life.line_asserted as u64
}

fn edge_bit(trigger: TriggerMode) -> u64
    ensures { (result ≡ edge_bit trigger) × (result < 2) }
{
    match trigger {
        TriggerMode::Edge => 1,
        TriggerMode::Level => 0,
    }
}

fn route_word(route: Option<GicAffinity>) -> u64
    ensures { (result ≡ route_word route) × (result ≤ 0xffff_ffff_0000_0200) }
{
    route.map_or(0, |a| {
        0x200 + u64::from_le_bytes([0, 0, 0, 0, a.aff0(), a.aff1(), a.aff2(), a.aff3()])
    })
}

fn mask_word(mask: Option<u8>) -> u64
    ensures { (result ≡ mask_word mask) × (result ≤ 0xff00_0400) }
{
    mask.map_or(0, |cores| 0x400 + 0x100_0000 * cores as u64)
}

// The number that an SPI is kept as.
#[tactic(auto, unfolding(crate::specs::Kept::word_of))]
pub fn word_of(slot: Slot) -> u64
    ensures { result ≡ word_of slot }
{
    let interrupt = slot.interrupt();
    let ownership = slot.ownership();
    life_word(interrupt.life())
        + 64 * edge_bit(interrupt.trigger())
        + 128 * ownership.explicitly_owned as u64
        + 256 * ownership.fixed_route as u64
        + 0x1_0000 * interrupt.priority().raw() as u64
        + mask_word(interrupt.cpu_target_mask())
        + route_word(interrupt.route())
}
