// The host's calls on one SPI of an image.
ghost use Rattle.std.specs.Prelude.{◌≡◌, [], ◌+◌, ◌*◌, ◌≤◌, ◌<◌, length};
ghost use Rattle.place.specs.Table.{capacity};
ghost use Rattle.image_model.specs.Face.{host, seen};
ghost use Rattle.face.specs.Host.{change_seen};

use changes::change::Change;
use image::header::read_header;
use image::kept::is_good;
use image::records::{put, slot_at, word_at};
use image_model::told::Told;
use place::place::Place;
use spi::change::change_answer;

// A change of the SPI of a place, if its record is good.
fn change_at(image: &mut [u8], place: Place, what: Change) -> Told
    requires { 24 + 8 * place + 8 ≤ length image.old }
    ensures { record { told = result; image = image.new; list = [] } ≡ change_seen what place image.old }
{
    let word = word_at(image, place);
    if !is_good(word) {
        return Told::BAD_IMAGE;
    }
    let old = slot_at(place, word);
    put(image, place, old.changed(what));
    Told::of(change_answer(old, what))
}

// A change of one SPI. Refusals 6, 1, 6 and 2, in this order.
pub fn change_image(image: &mut [u8], intid: u32, what: Change) -> Told
    ensures { record { told = result; image = image.new; list = [] } ≡ seen (host what intid) image.old [] }
{
    let Some(header) = read_header(image) else {
        return Told::BAD_IMAGE;
    };
    match Place::new(header.spi_count, intid) {
        Ok(place) => change_at(image, place, what),
        Err(refusal) => Told::refused(refusal),
    }
}
