// The functions that C and Rust link. include/dhunglebi.h declares them. Each calls the function of its name in crate face, and promises what
// that promises.
#![tactic(auto)]

ghost use Rattle.std.specs.Prelude.{◌≡◌, not, [], eqb};
ghost use Rattle.attributes.specs.Affinity.{from_mpidr};
ghost use Rattle.image_model.specs.Face.{read, write, host, seen};
ghost use Rattle.image_model.specs.Create.{create_seen};

use changes::change::Change;
use operation::operation::Operation;

#[unsafe(no_mangle)]
pub extern "C" fn dhunglebi_create(
    image: &mut [u8],
    count: u32,
    ownership: u32,
    flags: u32,
    lpi_limit: u32,
    frame_size: u64,
    out: &mut u64,
) -> u32
    ensures { record { told = record { number = result; out = out.new }; image = image.new; list = [] } ≡ create_seen count ownership flags lpi_limit frame_size image.old }
{
    face::face::dhunglebi_create(image, count, ownership, flags, lpi_limit, frame_size, out)
}

#[unsafe(no_mangle)]
pub extern "C" fn dhunglebi_read(image: &[u8], offset: u64, width: u32, out: &mut u64) -> u32
    ensures { record { number = result; out = out.new } ≡ (seen (read offset width) image.now []).told }
{
    face::face::dhunglebi_read(image, offset, width, out)
}

#[unsafe(no_mangle)]
pub extern "C" fn dhunglebi_write(
    image: &mut [u8],
    list: &mut [u8],
    offset: u64,
    width: u32,
    value: u64,
    out: &mut u64,
) -> u32
    ensures { record { told = record { number = result; out = out.new }; image = image.new; list = list.new } ≡ seen (write offset width value) image.old list.old }
{
    face::face::dhunglebi_write(image, list, offset, width, value, out)
}

#[unsafe(no_mangle)]
pub extern "C" fn dhunglebi_claim_software(image: &mut [u8], intid: u32, out: &mut u64) -> u32
    ensures { record { told = record { number = result; out = out.new }; image = image.new; list = [] } ≡ seen (host Change.Claim intid) image.old [] }
{
    face::face::dhunglebi_claim_software(image, intid, out)
}

#[unsafe(no_mangle)]
pub extern "C" fn dhunglebi_claim_physical(
    image: &mut [u8],
    intid: u32,
    affinity: u64,
    out: &mut u64,
) -> u32
    ensures { record { told = record { number = result; out = out.new }; image = image.new; list = [] } ≡ seen (host (Change.ClaimTo (from_mpidr affinity)) intid) image.old [] }
{
    face::face::dhunglebi_claim_physical(image, intid, affinity, out)
}

#[unsafe(no_mangle)]
pub extern "C" fn dhunglebi_release(image: &mut [u8], intid: u32, out: &mut u64) -> u32
    ensures { record { told = record { number = result; out = out.new }; image = image.new; list = [] } ≡ seen (host Change.Release intid) image.old [] }
{
    face::face::dhunglebi_release(image, intid, out)
}

#[unsafe(no_mangle)]
pub extern "C" fn dhunglebi_set_level(
    image: &mut [u8],
    intid: u32,
    level: u32,
    out: &mut u64,
) -> u32
    ensures { record { told = record { number = result; out = out.new }; image = image.new; list = [] } ≡ seen (host (Change.Operate (Operation.SetLevel (not (eqb level 0)))) intid) image.old [] }
{
    face::face::dhunglebi_set_level(image, intid, level, out)
}

#[unsafe(no_mangle)]
pub extern "C" fn dhunglebi_pulse(image: &mut [u8], intid: u32, out: &mut u64) -> u32
    ensures { record { told = record { number = result; out = out.new }; image = image.new; list = [] } ≡ seen (host (Change.Operate Operation.Pulse) intid) image.old [] }
{
    face::face::dhunglebi_pulse(image, intid, out)
}
