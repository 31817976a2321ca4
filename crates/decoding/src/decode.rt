// How an access to the frame is decoded. The refusals come in this order: 5, 3, 4.
ghost use Rattle.std.specs.Prelude.{◌≡◌};
ghost use Rattle.decoding.specs.Decoding.{legal, decode, write_access};

use identifiers::error::Refusal;
use registers::register::{Access, AccessWidth, Direction, find};

// The access ends within the frame, and its offset is a multiple of its width.
fn is_legal(frame: u64, offset: u64, width: AccessWidth) -> bool
    ensures { result ≡ legal frame offset width }
{
    let bytes = width.size();
    bytes <= frame && offset <= frame - bytes && offset % bytes == 0
}

// Refusals 3 and 4, in this order, or the register that the access reaches.
#[tactic(auto, unfolding(crate::specs::Decoding::decode))]
pub fn decode(direction: Direction, frame: u64, offset: u64, width: AccessWidth) -> Access
    ensures { result ≡ decode direction frame offset width }
{
    if !is_legal(frame, offset, width) {
        return Err(Refusal::InvalidAccess);
    }
    find(direction, offset, width)
}

// What a write reaches. Refusal 5 comes first: a lent list with fewer places than the table has SPIs.
pub fn write_access(places: usize, spis: u32, frame: u64, offset: u64, width: AccessWidth) -> Access
    ensures { result ≡ write_access places spis frame offset width }
{
    if places < spis as usize {
        return Err(Refusal::ShortList);
    }
    decode(Direction::Writing, frame, offset, width)
}
