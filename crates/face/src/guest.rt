// The guest's reads and writes, on an image: what distributor's access.rt does by value is done in place here.
ghost use Rattle.std.specs.Prelude.{◌≡◌, [], ◌+◌, ◌*◌, ◌≤◌, ◌<◌, length};
ghost use Rattle.decoding.specs.Bounds.{Bounded, Whole};
ghost use Rattle.controller.specs.Modes.{explicit};
ghost use Rattle.image_model.specs.Face.{read, write, seen};
ghost use Rattle.face.specs.Guest.{Headed, decode_in, write_access_in, read_told, write_seen};

use crate::sweeps::{all_good, are_good, list_deliverable, read_fields, write_fields};
use answers::answer::unless_beyond;
use bank::bank::lists_unless;
use controller::identity::{IIDR, component_id, ctlr, switch_bit, typer};
use decoding::decode::{decode, write_access};
use decoding::fields::Fields;
use image::header::{Header, read_header};
use image_model::told::Told;
use registers::register::{AccessWidth, Direction, Register};

fn read_bank(image: &[u8], header: Header, fields: Fields) -> Told
    requires { Headed header image.now × (fields.first < 32 → fields.first + fields.count ≤ 32) }
    ensures { result ≡ read_told image.now (Ok (Register.Fields fields.bank fields.first fields.count)) }
{
    let explicit = header.config.spi_ownership.is_explicit();
    let count = header.spi_count;
    let Some(value) = read_fields(image, explicit, count, fields) else {
        return Told::BAD_IMAGE;
    };
    let beyond = fields.read_beyond(explicit, count);
    Told::of(unless_beyond(beyond, value))
}

fn read_register(image: &[u8], header: Header, register: Register) -> Told
    requires { Headed header image.now × Bounded register × Whole register }
    ensures { result ≡ read_told image.now (Ok register) }
{
    match register {
        Register::Identification(k) => Told::done(component_id(k)),
        Register::Ctlr => Told::done(ctlr(header.enabled)),
        Register::Typer => Told::done(typer(header.config, header.spi_count)),
        Register::Iidr => Told::done(IIDR),
        Register::Fields(bank, first, count) => read_bank(
            image,
            header,
            Fields { bank, first, count },
        ),
        Register::Reserved => Told::done(0),
    }
}

fn read_at(image: &[u8], header: Header, offset: u64, width: AccessWidth) -> Told
    requires { Headed header image.now }
    ensures { result ≡ read_told image.now (decode_in header offset width) }
{
    let frame = header.config.distributor_size;
    match decode(Direction::Reading, frame, offset, width) {
        Ok(register) => read_register(image, header, register),
        Err(refusal) => Told::refused(refusal),
    }
}

// A guest read. Refusals 6, 7, 3, 4, 6 and 1, in this order: the first 6 is for the image's length and header, the second for a record
// that the read names.
pub fn read_image(image: &[u8], offset: u64, width: u32) -> Told
    ensures { result ≡ (seen (read offset width) image.now []).told }
{
    let Some(header) = read_header(image) else {
        return Told::BAD_IMAGE;
    };
    let Ok(width) = AccessWidth::try_from(width) else {
        return Told::BAD_WIDTH;
    };
    read_at(image, header, offset, width)
}

// Refused 1 or not, the fields inside the table are written.
fn write_bank(image: &mut [u8], list: &mut [u8], header: Header, fields: Fields, value: u64) -> Told
    requires { Headed header image.old × (4 * header.spi_count ≤ length list.old) }
    ensures { record { told = result; image = image.new; list = list.new } ≡ write_seen image.old list.old (Ok (Register.Fields fields.bank fields.first fields.count)) value }
{
    let explicit = header.config.spi_ownership.is_explicit();
    let count = header.spi_count;
    if !are_good(image, count, fields, value) {
        return Told::BAD_IMAGE;
    }
    let beyond = fields.write_beyond(explicit, count, value);
    let listed = write_fields(
        image,
        list,
        explicit,
        count,
        fields,
        value,
        lists_unless(beyond),
    );
    Told::of(unless_beyond(beyond, listed))
}

// Turned on, the switch lists what is deliverable, and so names every SPI.
fn write_ctlr(image: &mut [u8], list: &mut [u8], header: Header, value: u64) -> Told
    requires { Headed header image.old × (4 * header.spi_count ≤ length list.old) }
    ensures { record { told = result; image = image.new; list = list.new } ≡ write_seen image.old list.old (Ok Register.Ctlr) value }
{
    if !switch_bit(value) {
        image[0] = 0;
        return Told::done(0);
    }
    if !all_good(image, header.spi_count) {
        return Told::BAD_IMAGE;
    }
    let listed = list_deliverable(image, list, header.spi_count);
    image[0] = 1;
    Told::done(listed as u64)
}

fn write_register(
    image: &mut [u8],
    list: &mut [u8],
    header: Header,
    register: Register,
    value: u64,
) -> Told
    requires { Headed header image.old × Bounded register × (4 * header.spi_count ≤ length list.old) }
    ensures { record { told = result; image = image.new; list = list.new } ≡ write_seen image.old list.old (Ok register) value }
{
    match register {
        Register::Ctlr => write_ctlr(image, list, header, value),
        Register::Fields(bank, first, count) => write_bank(
            image,
            list,
            header,
            Fields { bank, first, count },
            value,
        ),
        // Nothing else takes a write.
        Register::Identification(_) | Register::Typer | Register::Iidr | Register::Reserved => {
            Told::done(0)
        }
    }
}

fn write_at(
    image: &mut [u8],
    list: &mut [u8],
    header: Header,
    offset: u64,
    width: AccessWidth,
    value: u64,
) -> Told
    requires { Headed header image.old }
    ensures { record { told = result; image = image.new; list = list.new } ≡ write_seen image.old list.old (write_access_in header (length list.old) offset width) value }
{
    let places = list.len() / 4;
    let frame = header.config.distributor_size;
    match write_access(places, header.spi_count, frame, offset, width) {
        Ok(register) => write_register(image, list, header, register, value),
        Err(refusal) => Told::refused(refusal),
    }
}

// A guest write. Refusals 6, 7, 5, 3, 4, 6 and 1, in this order. Refused 1, it has done its work inside the table and listed nothing.
pub fn write_image(image: &mut [u8], list: &mut [u8], offset: u64, width: u32, value: u64) -> Told
    ensures { record { told = result; image = image.new; list = list.new } ≡ seen (write offset width value) image.old list.old }
{
    let Some(header) = read_header(image) else {
        return Told::BAD_IMAGE;
    };
    let Ok(width) = AccessWidth::try_from(width) else {
        return Told::BAD_WIDTH;
    };
    write_at(image, list, header, offset, width, value)
}
