// The records of an image: one SPI's bytes loaded and stored. A record is reached by a `Place` alone.
ghost use Rattle.std.specs.Prelude.{◌≡◌, ◌+◌, ◌*◌, ◌≤◌, ◌<◌, length};
ghost use Rattle.std.proofs.lemmas.List.Edits.{sets};
ghost use Rattle.image.specs.Bytes.{bytes_of};
ghost use Rattle.image.specs.Kept.{slot_in, word_of};
ghost use Rattle.image.specs.Meaning.{record_at};

use crate::bytes::{load, store};
use crate::header::HEADER;
use crate::kept::{slot_in, word_of};
use identifiers::types::SpiId;
use place::place::Place;
use slot::slot::Slot;

// The number that stands at a place.
pub fn word_at(image: &[u8], place: Place) -> u64
    requires { 24 + 8 * place + 8 ≤ length image.now }
    ensures { result ≡ record_at image.now place }
{
    load(image, HEADER + 8 * place.index())
}

// The SPI of a place that is kept as this number.
pub fn slot_at(place: Place, word: u64) -> Slot
    ensures { result ≡ slot_in (32 + place) word }
{
    slot_in(SpiId::nth(place.index() as u32), word)
}

// Puts an SPI into its place.
pub fn put(image: &mut [u8], place: Place, slot: Slot)
    requires { 24 + 8 * place + 8 ≤ length image.old }
    ensures { image.new ≡ sets image.old (24 + 8 * place) (bytes_of 8 (word_of slot)) }
{
    store::<8>(image, HEADER + 8 * place.index(), word_of(slot));
}
