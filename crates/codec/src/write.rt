// One record written from values, which four arrays hold (held.rt): nothing is copied but what is put into the record.
ghost use Rattle.std.specs.Prelude.{◌≡◌, not, List, [], ◌∷◌, ◌++◌, ℕ, ◌+◌, ◌*◌, ◌<◌, ◌≤◌, eqb, length, take, drop};
ghost use Rattle.laws.specs.Row.{pick};
ghost use Rattle.field.specs.Bytes.{blanks};
ghost use Rattle.field.specs.Digits.{digits};
ghost use Rattle.record.specs.Table.{fields_of, most_fields, widest, width_at, length_of, which_of};
ghost use Rattle.record.specs.Says.{missing};
ghost use Rattle.codec.specs.Values.{said_by, values_say};
ghost use Rattle.codec.specs.Writes.{bytes_as, field_bytes, encode};
ghost use Rattle.codec.specs.Calls.{Writes, answer_in, room_after};
ghost use Rattle.codec.specs.machinery.Held.{value_by, held_at, held, say_by, held_length, SaySame};

use crate::held::Held;
use crate::refuse::check_values;
use crate::values::{Refusal, Value, Values};
use field::number::{magnitude, put_number, sign_byte};
use field::words::put_text;
use record::kind::{Form, Kind, MOST_FIELDS, WIDEST, kind_of};
use record::reason::Reason;

// The texts of all fields, one after another.
const TEXTS: usize = MOST_FIELDS * WIDEST;

fn put_blanks(part: &mut [u8])
    ensures { part.new ≡ blanks (length part.old) }
{
    let none = [0u8; 1];
    put_text(part, &none, 0);
}

// The sign of a coordinate, or a blank where it is missing.
fn put_sign(part: &mut [u8], len: usize, coordinate: i64)
    ensures { part.new ≡ bytes_as Form.Sign (length part.old) missing (said_by Form.Size (value_by 0 coordinate len [])) }
{
    if len == 0 {
        put_blanks(part);
    } else {
        let sign = [sign_byte(coordinate); 1];
        put_text(part, &sign, 1);
    }
}

// A number, or blanks where it is missing.
fn put_digits(part: &mut [u8], len: usize, n: u64)
    ensures { part.new ≡ pick (not (eqb len 0)) (digits (length part.old) n) (blanks (length part.old)) }
{
    if len == 0 {
        put_blanks(part);
    } else {
        put_number(part, n);
    }
}

// Fills the part with field f, which has the form.
fn put_field(part: &mut [u8], form: Form, h: &Held<'_>, f: usize)
    requires { f < 256 }
    ensures { part.new ≡ bytes_as form (length part.old) (said_by form (held h.now f)) (said_by Form.Size (held h.now (f + 1))) }
{
    match form {
        Form::Sign => put_sign(part, h.length(f + 1), h.coordinate(f + 1)),
        Form::Number => put_digits(part, h.length(f), h.number(f)),
        Form::Size => put_digits(part, h.length(f), magnitude(h.coordinate(f))),
        _ => put_text(part, h.text(f), h.length(f)),
    }
}

fn end_byte(last: bool) -> u8
    ensures { result ≡ pick last 13 124 }
{
    if last { 13 } else { 124 }
}

// Writes field f and the byte after it at its place: those before stay.
fn put_next(buf: &mut [u8], at: usize, k: Kind, h: &Held<'_>, f: usize) -> usize
    requires { (f < 256) × (at + width_at k f < length buf.old) }
    ensures { (result ≡ at + width_at k f + 1) × (take result buf.new ≡ take at buf.old ++ (field_bytes k (say_by k (held h.now)) f ++ (pick (eqb f (fields_of k)) 13 124 ∷ []))) }
{
    let next = at + k.width(f);
    put_field(&mut buf[at..next], k.form(f), h, f);
    buf[next] = end_byte(f == k.fields());
    next + 1
}

// Fills the part, which has the record's length, with the record's bytes.
fn put_record(buf: &mut [u8], k: Kind, h: &Held<'_>)
    requires { length buf.old ≡ length_of k }
    ensures { buf.new ≡ encode k (say_by k (held h.now)) }
{
    let n = k.fields();
    let mut at = 0;
    for f in 0..n {
        at = put_next(buf, at, k, h, f + 1);
    }
    buf[at] = 10;
}

// Writes one record of the kind at the start of the room: once all fields are judged, each byte where it will stay.
fn write_in(k: Kind, h: &Held<'_>, room: &mut [u8]) -> Result<(), Refusal>
    ensures { (v : Values) → SaySame k (say_by k (held h.now)) (values_say k v) → (result ≡ answer_in k v (length room.old)) × (room.new ≡ room_after k v room.old result) }
{
    let n = k.length();
    if room.len() < n {
        return Err(Refusal {
            reason: Reason::ShortRoom61,
            field: 0,
        });
    }
    check_values(k, h)?;
    put_record(&mut room[..n], k, h);
    Ok(())
}

// Writes one record of the file with the number from what the arrays hold, or refuses and leaves the room as it is: what `write` does with
// values that say the same.
pub fn write_held(file: usize, h: &Held<'_>, room: &mut [u8]) -> Result<(), Refusal>
    ensures { (v : Values) → ((k : Kind) → which_of file ≡ Some k → SaySame k (say_by k (held h.now)) (values_say k v)) → Writes file v room.old result room.new }
{
    match kind_of(file) {
        None => Err(Refusal {
            reason: Reason::NoFile60,
            field: 0,
        }),
        Some(k) => write_in(k, h, room),
    }
}

// The length of a value in a field of the form: a text's own, and 1 of a number or a coordinate that is given.
fn held_length(form: Form, v: Value) -> usize
    ensures { result ≡ held_length form v }
{
    match form {
        Form::Words => v.len,
        Form::Code => v.len,
        _ => { if v.given { 1 } else { 0 } }
    }
}

// Lays the values of a record of the kind into the four arrays.
fn hold(
    k: Kind,
    v: Values,
    numbers: &mut [u64],
    coordinates: &mut [i64],
    lengths: &mut [usize],
    texts: &mut [u8],
)
    requires { (length numbers.old ≡ most_fields) × (length coordinates.old ≡ most_fields) × (length lengths.old ≡ most_fields) × (length texts.old ≡ most_fields * widest) }
    ensures { SaySame k (say_by k (held_at numbers.new coordinates.new lengths.new texts.new)) (values_say k v) }
{
    for i in 0..MOST_FIELDS {
        let f = i + 1;
        let x = v.get(f);
        let number = x.number;
        let coordinate = x.coordinate;
        let text = x.text;
        numbers[i] = number;
        coordinates[i] = coordinate;
        lengths[i] = held_length(k.form(f), x);
        let from = WIDEST * i;
        let next = from + WIDEST;
        put_text(&mut texts[from..next], &text, WIDEST);
    }
}

// Writes one record of the kind from a struct of values.
fn write_values(k: Kind, v: Values, room: &mut [u8]) -> Result<(), Refusal>
    ensures { (result ≡ answer_in k v (length room.old)) × (room.new ≡ room_after k v room.old result) }
{
    let mut numbers = [0u64; MOST_FIELDS];
    let mut coordinates = [0i64; MOST_FIELDS];
    let mut lengths = [0usize; MOST_FIELDS];
    let mut texts = [32u8; TEXTS];
    hold(
        k,
        v,
        &mut numbers,
        &mut coordinates,
        &mut lengths,
        &mut texts,
    );
    let h = Held {
        numbers: &numbers,
        coordinates: &coordinates,
        lengths: &lengths,
        texts: &texts,
    };
    write_in(k, &h, room)
}

// Writes one record of the file with the number at the start of the room, or refuses and leaves the room as it is.
pub fn write(file: usize, v: Values, room: &mut [u8]) -> Result<(), Refusal>
    ensures { Writes file v room.old result room.new }
{
    match kind_of(file) {
        None => Err(Refusal {
            reason: Reason::NoFile60,
            field: 0,
        }),
        Some(k) => write_values(k, v, room),
    }
}
