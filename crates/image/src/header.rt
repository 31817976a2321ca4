// The header of an image, 24 bytes: byte 0 is the switch; 1 the ownership, 0 all guest-owned and 1 explicit; 2 the LPI, ITS, level-3 and
// range flags in bits 0 to 3; 4 and 5 the count; 8 to 11 the LPI limit; 16 to 23 the frame size. The other bytes are 0.
ghost use Rattle.std.specs.Prelude.{◌≡◌};
ghost use Rattle.image.specs.Header.{good_header, header_in, header_answer, first_word};

use crate::bytes::load;
use controller::controller::{ControllerConfig, GicV3SpiOwnership};
use place::place::SPIS;

pub const HEADER: usize = 24;

// What the header of a good image says.
#[derive(Clone, Copy, Debug, PartialEq, Eq)]
pub struct Header {
    pub config: ControllerConfig,
    pub enabled: bool,
    pub spi_count: u32,
}

#[tactic(auto, unfolding(crate::specs::Header::good_header))]
fn is_good(first: u64, second: u64) -> bool
    ensures { result ≡ good_header first second }
{
    (first % 256 <= 1)
        & (first / 0x100 % 256 <= 1)
        & (first / 0x1_0000 % 256 <= 15)
        & (first / 0x100_0000 % 256 == 0)
        & (first / 0x1_0000_0000 <= SPIS as u64)
        & (second / 0x1_0000_0000 == 0)
}

// What the header's three numbers say, where they are good.
#[tactic(auto, unfolding(crate::specs::Header::header_in))]
fn header_in(first: u64, second: u64, third: u64) -> Header
    ensures { result ≡ header_in first second third }
{
    Header {
        config: ControllerConfig {
            spi_ownership: GicV3SpiOwnership::of(first / 0x100 % 256 == 1),
            distributor_size: third,
            exposes_guest_lpis: first / 0x1_0000 % 2 == 1,
            its: first / 0x2_0000 % 2 == 1,
            lpi_limit: (second % 0x1_0000_0000) as u32,
            affinity_level_3: first / 0x4_0000 % 2 == 1,
            range_selector: first / 0x8_0000 % 2 == 1,
        },
        enabled: first % 256 == 1,
        spi_count: (first / 0x1_0000_0000 % 0x1_0000_0000) as u32,
    }
}

// The first number of a header: switch, settings and count.
#[tactic(auto, unfolding(crate::specs::Header::first_word))]
pub fn first_word(config: ControllerConfig, enabled: bool, spi_count: u32) -> u64
    ensures { result ≡ first_word config enabled spi_count }
{
    enabled as u64
        + 0x100 * config.spi_ownership.is_explicit() as u64
        + 0x1_0000 * config.exposes_guest_lpis as u64
        + 0x2_0000 * config.its as u64
        + 0x4_0000 * config.affinity_level_3 as u64
        + 0x8_0000 * config.range_selector as u64
        + 0x1_0000_0000 * spi_count as u64
}

// The image's length and header: what a good one says.
#[tactic(auto, unfolding(crate::specs::Header::good_image))]
pub fn read_header(image: &[u8]) -> Option<Header>
    ensures { result ≡ header_answer image.now }
{
    if image.len() < HEADER {
        return None;
    }
    let (first, second) = (load(image, 0), load(image, 8));
    if is_good(first, second) && image.len() as u64 == HEADER as u64 + 8 * (first / 0x1_0000_0000) {
        Some(header_in(first, second, load(image, 16)))
    } else {
        None
    }
}
