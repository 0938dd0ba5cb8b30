// One record read as values.
ghost use Rattle.std.specs.Prelude.{◌≡◌, List, ℕ, ◌+◌, ◌<◌, ◌≤◌, length};
ghost use Rattle.laws.specs.Row.{row};
ghost use Rattle.field.specs.Texts.{padded, first_bytes};
ghost use Rattle.record.specs.Table.{most_fields};
ghost use Rattle.record.specs.Cut.{text_of};
ghost use Rattle.record.specs.Says.{said_as, said_in};
ghost use Rattle.codec.specs.Values.{value_of, values_in};
ghost use Rattle.codec.specs.Calls.{answer_read, read_in, read_of};
ghost use Rattle.codec.specs.machinery.Held.{held_length, words_length, words_of};

use crate::values::{Refusal, Value, Values, missing_value};
use field::class::Class;
use field::number::{get_coordinate, number_in};
use field::words::{put_text, trimmed_len};
use record::check::check_record;
use record::cut::{field, record_bytes, records};
use record::kind::{Form, Kind, MOST_FIELDS, WIDEST, kind_of};
use record::reason::Reason;

// A FIELD of the form, by its bytes t and those of the field before it: its value, part by part, so that each can be put where it will stay.
// Nothing is looked at twice: the number of a field of blanks is 0, which is also what a missing one has.
pub fn number_as(form: Form, t: &[u8]) -> u64
    ensures { (b : List ℕ) → result ≡ (value_of (said_as form t.now b)).number }
{
    match form {
        Form::Number => number_in(t),
        _ => 0,
    }
}

// The sign is field i of the record.
pub fn coordinate_as(form: Form, t: &[u8], rec: &[u8], k: Kind, i: usize) -> i64
    ensures { result ≡ (value_of (said_as form t.now (text_of rec.now k i))).coordinate }
{
    match form {
        Form::Size => get_coordinate(field(rec, k, i), t),
        _ => 0,
    }
}

// A text's bytes without the blanks that follow; 1 of a number or a coordinate, 0 of what is missing.
pub fn length_as(form: Form, t: &[u8]) -> usize
    ensures { (b : List ℕ) → result ≡ held_length form (value_of (said_as form t.now b)) }
{
    match form {
        Form::Words => trimmed_len(t),
        Form::Code => trimmed_len(t),
        Form::Sign => 0,
        _ => { if Class::Blank.all(t) { 0 } else { 1 } }
    }
}

// The length of a text, of that under which a value is held.
fn words_len(form: Form, held: usize) -> usize
    ensures { result ≡ words_length form held }
{
    match form {
        Form::Words => held,
        Form::Code => held,
        _ => 0,
    }
}

// Fills the part with the first len bytes of a text, then blanks; with blanks alone where the form is another.
pub fn put_words(part: &mut [u8], form: Form, t: &[u8], len: usize)
    ensures { part.new ≡ padded (length part.old) (words_of form (first_bytes len t.now)) }
{
    match form {
        Form::Words => put_text(part, t, len),
        Form::Code => put_text(part, t, len),
        _ => put_text(part, t, 0),
    }
}

// The value of field i + 1 of a record's bytes.
fn value_in(rec: &[u8], k: Kind, i: usize) -> Value
    requires { i < most_fields }
    ensures { result ≡ value_of (said_in rec.now k (i + 1)) }
{
    let f = i + 1;
    let form = k.form(f);
    let t = field(rec, k, f);
    let held = length_as(form, t);
    let number = number_as(form, t);
    let coordinate = coordinate_as(form, t, rec, k, i);
    let mut text = [32u8; WIDEST];
    put_words(&mut text, form, t, held);
    Value {
        given: held != 0,
        number,
        coordinate,
        len: words_len(form, held),
        text,
    }
}

// The values of a record's bytes.
fn values_in(rec: &[u8], k: Kind) -> Values
    ensures { result ≡ values_in rec.now k }
{
    let mut at = [missing_value(); MOST_FIELDS];
    for i in 0..MOST_FIELDS {
        at[i] = value_in(rec, k, i);
    }
    Values { at }
}

// What the reading of one record, counted from 1, of a file's bytes answers.
pub fn answer_in(bytes: &[u8], k: Kind, n: usize) -> Result<(), Refusal>
    ensures { result ≡ answer_read (read_in bytes.now k n) }
{
    if (n == 0) | (records(bytes, k) < n) {
        return Err(Refusal {
            reason: Reason::NoSuchRecord66,
            field: 0,
        });
    }
    check_record(record_bytes(bytes, k, n - 1), k, n)?;
    Ok(())
}

// Reads one record, counted from 1, of a file's bytes.
fn read_in(bytes: &[u8], k: Kind, n: usize) -> Result<Values, Refusal>
    ensures { result ≡ read_in bytes.now k n }
{
    answer_in(bytes, k, n)?;
    Ok(values_in(record_bytes(bytes, k, n - 1), k))
}

// Reads one record, counted from 1, of the bytes of the file with the number.
pub fn read(file: usize, bytes: &[u8], n: usize) -> Result<Values, Refusal>
    ensures { result ≡ read_of file bytes.now n }
{
    match kind_of(file) {
        None => Err(Refusal {
            reason: Reason::NoFile60,
            field: 0,
        }),
        Some(k) => read_in(bytes, k, n),
    }
}
