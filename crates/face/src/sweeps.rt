// The loops over the records of an image. Each loads a record and does with its slot what the core does; one stores it again.
ghost use Rattle.std.specs.Prelude.{◌≡◌, true, false, cond, ◌&&◌, ◌+◌, ◌*◌, ◌≤◌, ◌<◌, length};
ghost use Rattle.std.proofs.lemmas.List.Edits.{sets};
ghost use Rattle.theory.specs.Lists.{passing};
ghost use Rattle.place.specs.Table.{capacity};
ghost use Rattle.bank.specs.Banks.{acts, field};
ghost use Rattle.slot.specs.Slots.{field_written, field_listed};
ghost use Rattle.slot.specs.BankRule.{covers, bank_value, candidate};
ghost use Rattle.model.specs.Calls.{deliverable_at};
ghost use Rattle.image.specs.Bytes.{bytes_of};
ghost use Rattle.image.specs.Kept.{slot_in, word_of};
ghost use Rattle.image.specs.Meaning.{record_at, meant_at, table};
ghost use Rattle.image_model.specs.Face.{good_where};
ghost use Rattle.face.specs.Sweeps.{Sized, LaidOut, Put, read_answer};

use bank::bank::Bank;
use decoding::fields::Fields;
use image::bytes::store;
use image::kept::is_good;
use image::records::{put, slot_at, word_at};
use place::place::Place;

// The fields of a bank, read from the highest down. Every record that is read is tested first. Inline, so that each arm of `read_fields`
// has a loop of its own.
#[inline(always)]
fn gather(image: &[u8], explicit: bool, count: u32, fields: Fields) -> Option<u64>
    requires { Sized count image.now × (fields.first < 32 → fields.first + fields.count ≤ 32) }
    ensures { result ≡ read_answer (good_where (covers count fields.first fields.count) count image.now) (bank_value explicit count fields.bank fields.first fields.count (table (meant_at count image.now))) }
{
    let bank = fields.bank;
    let span = fields.span(count);
    let mut value = 0;
    for i in (span.first..span.end).rev() {
        let place = Place::nearest(i);
        let word = word_at(image, place);
        if !is_good(word) {
            return None;
        }
        value = bank.put_below(value, slot_at(place, word).showing(explicit, bank));
    }
    Some(value)
}

// The same, by the kind of bank: a compiler then makes a loop for flags and one for fields, and neither asks in every turn which it is. The
// two banks of a flag show the same.
pub(crate) fn read_fields(image: &[u8], explicit: bool, count: u32, fields: Fields) -> Option<u64>
    requires { Sized count image.now × (fields.first < 32 → fields.first + fields.count ≤ 32) }
    ensures { result ≡ read_answer (good_where (covers count fields.first fields.count) count image.now) (bank_value explicit count fields.bank fields.first fields.count (table (meant_at count image.now))) }
{
    match fields.bank {
        Bank::Set(flag) | Bank::Clear(flag) => gather(
            image,
            explicit,
            count,
            fields.in_bank(Bank::Set(flag)),
        ),
        Bank::Replace(field) => gather(
            image,
            explicit,
            count,
            fields.in_bank(Bank::Replace(field)),
        ),
    }
}

// Whether every record that a write of the value to the fields names is good: those whose field acts.
pub(crate) fn are_good(image: &[u8], count: u32, fields: Fields, value: u64) -> bool
    requires { Sized count image.now }
    ensures { result ≡ good_where (λ i. covers count fields.first fields.count i && acts fields.bank (field fields.bank value fields.first i)) count image.now }
{
    let bank = fields.bank;
    let span = fields.span(count);
    let end = span.end;
    let mut i = span.first;
    let mut v = bank.from_field(value, i - fields.first);
    // No `for`: a turn jumps over the fields that do not act, so a write of one bit touches one record.
    while i < end {
        let idle = bank.idle(v);
        if end - i <= idle {
            return true;
        }
        i += idle;
        v = bank.above(bank.from_field(v, idle));
        if !is_good(word_at(image, Place::nearest(i))) {
            return false;
        }
        i += 1;
    }
    true
}

// Writes a field to the SPI of a place. Answers whether the SPI is listed.
fn write_field(image: &mut [u8], place: Place, explicit: bool, bank: Bank, value: u64) -> bool
    requires { 24 + 8 * place + 8 ≤ length image.old }
    ensures { (image.new ≡ sets image.old (24 + 8 * place) (bytes_of 8 (word_of (field_written explicit bank value (slot_in (32 + place) (record_at image.old place)))))) × (result ≡ field_listed explicit bank value (slot_in (32 + place) (record_at image.old place))) }
{
    let old = slot_at(place, word_at(image, place));
    let w = old.write_field(explicit, bank, value);
    put(image, place, w.slot);
    w.listed
}

// The list gets one candidate more, or none: 4 bytes, where the Distributor's `list_if` puts a number.
fn list_if(on: bool, list: &mut [u8], count: usize, intid: u32) -> usize
    requires { (on ≡ true → 4 * count + 4 ≤ length list.old) × (count < 0x10000) }
    ensures { (list.new ≡ cond on (sets list.old (4 * count) (bytes_of 4 intid)) list.old) × (result ≡ cond on (count + 1) count) }
{
    if on {
        store::<4>(list, 4 * count, intid as u64);
        return count + 1;
    }
    count
}

// Writes the fields of a value to a bank, the lowest first. `tells` says whether candidates are listed.
pub(crate) fn write_fields(
    image: &mut [u8],
    list: &mut [u8],
    explicit: bool,
    count: u32,
    fields: Fields,
    value: u64,
    tells: bool,
) -> usize
    requires { Sized count image.old × (4 * count ≤ length list.old) × (good_where (λ i. covers count fields.first fields.count i && acts fields.bank (field fields.bank value fields.first i)) count image.old ≡ true) }
    ensures image { Put (λ i. covers count fields.first fields.count i && acts fields.bank (field fields.bank value fields.first i)) (λ i. field_written explicit fields.bank (field fields.bank value fields.first i)) count image.old image.new }
    ensures list { LaidOut (passing (λ i. tells && candidate explicit count fields.bank value fields.first fields.count (table (meant_at count image.old)) i) fields.first fields.count) list.old list.new result }
{
    let bank = fields.bank;
    let span = fields.span(count);
    let end = span.end;
    let mut i = span.first;
    let mut v = bank.from_field(value, i - fields.first);
    let mut listed: usize = 0;
    // No `for`: a turn jumps over the fields that do not act, so a write of one bit touches one record.
    while i < end {
        let idle = bank.idle(v);
        if end - i <= idle {
            return listed;
        }
        i += idle;
        v = bank.from_field(v, idle);
        let on = write_field(image, Place::nearest(i), explicit, bank, bank.low_field(v));
        listed = list_if(tells & on, list, listed, i);
        v = bank.above(v);
        i += 1;
    }
    listed
}

// Whether all records are good.
pub(crate) fn all_good(image: &[u8], count: u32) -> bool
    requires { Sized count image.now }
    ensures { result ≡ good_where (λ i. true) count image.now }
{
    for i in 32..32 + count {
        if !is_good(word_at(image, Place::nearest(i))) {
            return false;
        }
    }
    true
}

// Lists every deliverable SPI.
pub(crate) fn list_deliverable(image: &[u8], list: &mut [u8], count: u32) -> usize
    requires { Sized count image.now × (4 * count ≤ length list.old) × (good_where (λ i. true) count image.now ≡ true) }
    ensures { LaidOut (passing (deliverable_at (table (meant_at count image.now))) 32 count) list.old list.new result }
{
    let mut listed = 0;
    for i in 32..32 + count {
        let place = Place::nearest(i);
        let s = slot_at(place, word_at(image, place));
        listed = list_if(s.is_deliverable(), list, listed, i);
    }
    listed
}
