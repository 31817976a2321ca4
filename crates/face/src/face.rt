// The calls on an image. Crate face_c exports them to C and Rust, and include/dhunglebi.h declares them.
ghost use Rattle.std.specs.Prelude.{◌≡◌, not, [], eqb};
ghost use Rattle.attributes.specs.Affinity.{from_mpidr};
ghost use Rattle.image_model.specs.Face.{read, write, host, seen};
ghost use Rattle.image_model.specs.Create.{create_seen};

use crate::calls::change_image;
use crate::create::create_image;
use crate::guest::{read_image, write_image};
use attributes::attributes::GicAffinity;
use changes::change::Change;
use operation::operation::Operation;

pub fn dhunglebi_create(
    image: &mut [u8],
    count: u32,
    ownership: u32,
    flags: u32,
    lpi_limit: u32,
    frame_size: u64,
    out: &mut u64,
) -> u32
    ensures { record { told = record { number = result; out = out.new }; image = image.new; list = [] } ≡ create_seen count ownership flags lpi_limit frame_size image.old }
{
    create_image(image, count, ownership, flags, lpi_limit, frame_size).tell(out)
}

pub fn dhunglebi_read(image: &[u8], offset: u64, width: u32, out: &mut u64) -> u32
    ensures { record { number = result; out = out.new } ≡ (seen (read offset width) image.now []).told }
{
    read_image(image, offset, width).tell(out)
}

pub fn dhunglebi_write(
    image: &mut [u8],
    list: &mut [u8],
    offset: u64,
    width: u32,
    value: u64,
    out: &mut u64,
) -> u32
    ensures { record { told = record { number = result; out = out.new }; image = image.new; list = list.new } ≡ seen (write offset width value) image.old list.old }
{
    write_image(image, list, offset, width, value).tell(out)
}

pub fn dhunglebi_claim_software(image: &mut [u8], intid: u32, out: &mut u64) -> u32
    ensures { record { told = record { number = result; out = out.new }; image = image.new; list = [] } ≡ seen (host Change.Claim intid) image.old [] }
{
    change_image(image, intid, Change::Claim).tell(out)
}

pub fn dhunglebi_claim_physical(image: &mut [u8], intid: u32, affinity: u64, out: &mut u64) -> u32
    ensures { record { told = record { number = result; out = out.new }; image = image.new; list = [] } ≡ seen (host (Change.ClaimTo (from_mpidr affinity)) intid) image.old [] }
{
    let route = GicAffinity::from_mpidr(affinity);
    change_image(image, intid, Change::ClaimTo(route)).tell(out)
}

pub fn dhunglebi_release(image: &mut [u8], intid: u32, out: &mut u64) -> u32
    ensures { record { told = record { number = result; out = out.new }; image = image.new; list = [] } ≡ seen (host Change.Release intid) image.old [] }
{
    change_image(image, intid, Change::Release).tell(out)
}

pub fn dhunglebi_set_level(image: &mut [u8], intid: u32, level: u32, out: &mut u64) -> u32
    ensures { record { told = record { number = result; out = out.new }; image = image.new; list = [] } ≡ seen (host (Change.Operate (Operation.SetLevel (not (eqb level 0)))) intid) image.old [] }
{
    let operation = Operation::SetLevel(level != 0);
    change_image(image, intid, Change::Operate(operation)).tell(out)
}

pub fn dhunglebi_pulse(image: &mut [u8], intid: u32, out: &mut u64) -> u32
    ensures { record { told = record { number = result; out = out.new }; image = image.new; list = [] } ≡ seen (host (Change.Operate Operation.Pulse) intid) image.old [] }
{
    change_image(image, intid, Change::Operate(Operation::Pulse)).tell(out)
}
