// What the records of a file say, for the layers above: the count, and of a record (counted from 0) and a field whether it is
// missing, the number, the text's first byte, and what is said as one number. Past the last record and field nothing is said.
ghost use Rattle.std.specs.Prelude.{◌≡◌, true, [], ℕ, ◌+◌, ◌<◌, ◌≤◌, ◌^◌, ◌-◌};
ghost use Rattle.record.specs.Table.{form_at, is_n, limit};
ghost use Rattle.record.specs.Cut.{text_of};
ghost use Rattle.record.specs.Says.{said_in, said_as, table_of, is_missing, number_in, key_in, letter_in, place_in};

use crate::cut::{field, record_bytes, records};
use crate::kind::{Form, Kind, LIMIT};
use field::class::{Class, byte};
use field::number;
use field::words::word;

// What is said in a field of a form, by its bytes. Only of a coordinate's size the bytes before it matter, which are its sign.
fn is_missing_in(form: Form, t: &[u8]) -> bool
    ensures { result ≡ is_missing (said_as form t.now []) }
{
    match form {
        Form::Sign => true,
        _ => Class::Blank.all(t),
    }
}

pub fn number_in(form: Form, t: &[u8]) -> u64
    ensures value { result ≡ number_in (said_as form t.now []) }
    ensures small { result < 2 ^ 38 }
{
    match form {
        Form::Number => number::number_in(t),
        _ => 0,
    }
}

// What is said as one number, and 0 where nothing is, as the definition key_in has it: so no Option.
pub fn key_in(form: Form, t: &[u8]) -> u64
    ensures value { result ≡ key_in (said_as form t.now []) }
    ensures narrow { is_n form ≡ true → result ≤ 2 ^ 38 }
{
    if is_missing_in(form, t) {
        return 0;
    }
    match form {
        Form::Number => number::number_in(t) + 1,
        Form::Sign | Form::Size => 0,
        Form::Words | Form::Code => word(t),
    }
}

pub fn letter_in(form: Form, t: &[u8]) -> u8
    ensures { result ≡ letter_in (said_as form t.now []) }
{
    if is_missing_in(form, t) {
        return 0;
    }
    match form {
        Form::Sign | Form::Number | Form::Size => 0,
        Form::Words | Form::Code => byte(t, 0),
    }
}

// The coordinate as one number, by which places are compared.
pub fn place_in(form: Form, t: &[u8], b: &[u8]) -> u64
    ensures value { result ≡ place_in (said_as form t.now b.now) }
    ensures narrow { result < 2 ^ 40 }
{
    if is_missing_in(form, t) {
        return 0;
    }
    match form {
        Form::Size => {
            let n = number::number_in(t);
            if (byte(b, 0) == 45) & (n != 0) {
                n + n
            } else {
                n + n + 1
            }
        }
        _ => 0,
    }
}

// The field before, and nothing before the first.
fn field_before(rec: &[u8], k: Kind, f: usize) -> &[u8]
    ensures { result.now ≡ text_of rec.now k (f - 1) }
{
    field(rec, k, f.saturating_sub(1))
}

pub fn is_missing(s: &[u8], k: Kind, i: usize, f: usize) -> bool
    ensures { result ≡ is_missing ((table_of s.now k).says i f) }
{
    is_missing_in(k.form(f), field(record_bytes(s, k, i), k, f))
}

pub fn number(s: &[u8], k: Kind, i: usize, f: usize) -> u64
    ensures value { result ≡ number_in ((table_of s.now k).says i f) }
    ensures small { result < 2 ^ 38 }
{
    number_in(k.form(f), field(record_bytes(s, k, i), k, f))
}

// What is said as one number, by which keys and references are compared.
pub fn key(s: &[u8], k: Kind, i: usize, f: usize) -> u64
    ensures value { result ≡ key_in ((table_of s.now k).says i f) }
    ensures narrow { is_n (form_at k f) ≡ true → result ≤ 2 ^ 38 }
{
    key_in(k.form(f), field(record_bytes(s, k, i), k, f))
}

pub fn place(s: &[u8], k: Kind, i: usize, f: usize) -> u64
    ensures value { result ≡ place_in ((table_of s.now k).says i f) }
    ensures narrow { result < 2 ^ 40 }
{
    let rec = record_bytes(s, k, i);
    place_in(k.form(f), field(rec, k, f), field_before(rec, k, f))
}

// The first byte of the text.
pub fn letter(s: &[u8], k: Kind, i: usize, f: usize) -> u8
    ensures { result ≡ letter_in ((table_of s.now k).says i f) }
{
    letter_in(k.form(f), field(record_bytes(s, k, i), k, f))
}

// How many records the file's table has: its whole records, up to the limit.
pub fn rows(s: &[u8], k: Kind) -> usize
    ensures value { result ≡ (table_of s.now k).count }
    ensures small { result ≤ limit }
{
    records(s, k).min(LIMIT)
}
