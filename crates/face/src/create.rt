// Creation of an image.
ghost use Rattle.std.specs.Prelude.{◌≡◌, [], ◌+◌, ◌*◌, ◌≤◌, length};
ghost use Rattle.place.specs.Table.{capacity};
ghost use Rattle.model.specs.Calls.{created};
ghost use Rattle.image.specs.Meaning.{image_of};
ghost use Rattle.image_model.specs.Create.{settings, create_seen};
ghost use Rattle.face.specs.Sweeps.{Sized};

use controller::controller::{ControllerConfig, GicV3SpiOwnership};
use image::bytes::store;
use image::header::{HEADER, first_word};
use image::kept::FRESH;
use image_model::told::Told;
use place::place::create_answer;

fn settings_of(ownership: u32, flags: u32, lpi_limit: u32, frame_size: u64) -> ControllerConfig
    ensures { result ≡ settings ownership flags lpi_limit frame_size }
{
    ControllerConfig {
        spi_ownership: GicV3SpiOwnership::of(ownership == 1),
        distributor_size: frame_size,
        exposes_guest_lpis: flags % 2 == 1,
        its: flags / 2 % 2 == 1,
        lpi_limit,
        affinity_level_3: flags / 4 % 2 == 1,
        range_selector: flags / 8 % 2 == 1,
    }
}

// Fills an image: the header, the switch off, and every SPI fresh.
fn fill(image: &mut [u8], config: ControllerConfig, count: u32)
    requires { Sized count image.old }
    ensures { image.new ≡ image_of (created config count) }
{
    store::<8>(image, 0, first_word(config, false, count));
    store::<8>(image, 8, config.lpi_limit as u64);
    store::<8>(image, 16, config.distributor_size);
    for p in 0..count as usize {
        store::<8>(image, HEADER + 8 * p, FRESH);
    }
}

// Makes the image of a Distributor. Refusal 1, and then 6 for the image's length and the settings.
pub fn create_image(
    image: &mut [u8],
    count: u32,
    ownership: u32,
    flags: u32,
    lpi_limit: u32,
    frame_size: u64,
) -> Told
    ensures { record { told = result; image = image.new; list = [] } ≡ create_seen count ownership flags lpi_limit frame_size image.old }
{
    if let Err(refusal) = create_answer(count) {
        return Told::refused(refusal);
    }
    if (image.len() != HEADER + 8 * count as usize) | (ownership > 1) | (flags > 15) {
        return Told::BAD_IMAGE;
    }
    fill(
        image,
        settings_of(ownership, flags, lpi_limit, frame_size),
        count,
    );
    Told::done(0)
}
