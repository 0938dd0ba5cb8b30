// One record read, or written, its values in lent memory: of each field a number, a coordinate, a length and sixty bytes of text, side by
// side in four arrays, as the C interface lends them. Each is put where it will stay, and taken where it lies.
ghost use Rattle.std.specs.Prelude.{◌≡◌, ◌&&◌, ℕ, ◌<◌, ◌≤◌, ltb, length};
ghost use Rattle.record.specs.Table.{most_fields, which_of};
ghost use Rattle.codec.specs.Values.{values_in};
ghost use Rattle.canopyrail.specs.Lent.{roomy, Holds, Reads, is_lent, lent_values, WritesLent, text_room};
ghost use Rattle.canopyrail.specs.Answers.{answer_word};

use crate::answer::refusal;
use codec::held::Held;
use codec::read::{answer_in, coordinate_as, length_as, number_as, put_words};
use codec::values::Refusal;
use codec::write::write_held;
use field::words::put_text;
use record::cut::{field, record_bytes};
use record::kind::{Kind, MOST_FIELDS, WIDEST, kind_of};
use record::reason::Reason;

// The texts of all fields, one after another.
const TEXTS: usize = MOST_FIELDS * WIDEST;

// Puts the values of a record's bytes, fourteen of each, into lent memory.
fn lend_record(
    rec: &[u8],
    k: Kind,
    numbers: &mut [u64],
    coordinates: &mut [i64],
    lengths: &mut [usize],
    texts: &mut [u8],
)
    requires { (most_fields ≤ length numbers.old) × (most_fields ≤ length coordinates.old) × (most_fields ≤ length lengths.old) × (text_room ≤ length texts.old) }
    ensures { Holds (values_in rec.now k) numbers.old coordinates.old lengths.old texts.old numbers.new coordinates.new lengths.new texts.new }
{
    let n = k.fields();
    let none = [0u8; 1];
    for i in 0..MOST_FIELDS {
        let from = WIDEST * i;
        let next = from + WIDEST;
        if i < n {
            let f = i + 1;
            let form = k.form(f);
            let t = field(rec, k, f);
            let len = length_as(form, t);
            numbers[i] = number_as(form, t);
            coordinates[i] = coordinate_as(form, t, rec, k, i);
            lengths[i] = len;
            put_words(&mut texts[from..next], form, t, len);
        } else {
            numbers[i] = 0;
            coordinates[i] = 0;
            lengths[i] = 0;
            put_text(&mut texts[from..next], &none, 0);
        }
    }
}

fn has_room(numbers: usize, coordinates: usize, lengths: usize, texts: usize) -> bool
    ensures { result ≡ roomy numbers coordinates lengths texts }
{
    numbers >= MOST_FIELDS && coordinates >= MOST_FIELDS && lengths >= MOST_FIELDS && texts >= TEXTS
}

// Reads record n, counted from 1, of the bytes of a file of the kind.
fn read_in(
    k: Kind,
    bytes: &[u8],
    n: usize,
    numbers: &mut [u64],
    coordinates: &mut [i64],
    lengths: &mut [usize],
    texts: &mut [u8],
) -> u64
    ensures { (file : ℕ) → which_of file ≡ Some k → Reads file bytes.now n numbers.old coordinates.old lengths.old texts.old result numbers.new coordinates.new lengths.new texts.new }
{
    match answer_in(bytes, k, n) {
        Err(r) => refusal(r.reason, r.field),
        Ok(()) => {
            if has_room(numbers.len(), coordinates.len(), lengths.len(), texts.len()) {
                let rec = record_bytes(bytes, k, n - 1);
                lend_record(rec, k, numbers, coordinates, lengths, texts);
                0
            } else {
                refusal(Reason::ShortRoom61, 0)
            }
        }
    }
}

// Reads record n, counted from 1, of the bytes of the file with the number; a refusal leaves the lent memory as it was.
pub fn canopyrail_read(
    file: usize,
    bytes: &[u8],
    n: usize,
    numbers: &mut [u64],
    coordinates: &mut [i64],
    lengths: &mut [usize],
    texts: &mut [u8],
) -> u64
    ensures { Reads file bytes.now n numbers.old coordinates.old lengths.old texts.old result numbers.new coordinates.new lengths.new texts.new }
{
    match kind_of(file) {
        None => refusal(Reason::NoFile60, 0),
        Some(k) => read_in(k, bytes, n, numbers, coordinates, lengths, texts),
    }
}

// How many fields all four arrays, of these lengths, reach. Past the end of a shorter array every value is missing: a length without its
// number says nothing.
fn reach(numbers: usize, coordinates: usize, lengths: usize, texts: usize) -> usize
    ensures { (result ≤ lengths) × ((i : ℕ) → ltb i result ≡ is_lent numbers coordinates lengths texts i) }
{
    numbers.min(coordinates).min(lengths).min(texts / WIDEST)
}

fn answer_word(a: Result<(), Refusal>) -> u64
    ensures { result ≡ answer_word a }
{
    match a {
        Ok(()) => 0,
        Err(r) => refusal(r.reason, r.field),
    }
}

// Writes one record of the file with the number at the start of the room, or refuses and leaves the room as it was.
pub fn canopyrail_write(
    file: usize,
    numbers: &[u64],
    coordinates: &[i64],
    lengths: &[usize],
    texts: &[u8],
    room: &mut [u8],
) -> u64
    ensures { WritesLent file (lent_values numbers.now coordinates.now lengths.now texts.now) room.old result room.new }
{
    let n = reach(numbers.len(), coordinates.len(), lengths.len(), texts.len());
    let held = Held {
        numbers,
        coordinates,
        lengths: &lengths[..n],
        texts,
    };
    answer_word(write_held(file, &held, room))
}
