// Values of one record: one struct for all files, by field.
ghost use Rattle.std.specs.Prelude.{◌≡◌, List, ℕ, ◌<◌, ◌≤◌, length};
ghost use Rattle.record.specs.Says.{number, coordinate};
ghost use Rattle.codec.specs.Values.{no_value, value_of, text_value, value_at};
ghost use Rattle.codec.specs.Calls.{refusal_of};

use field::words::put_text;
use record::kind::{MOST_FIELDS, WIDEST};
use record::reason::{Break, Reason};

// One field's value. Of a number, given and number count; of a coordinate (at the number's field), given and coordinate; of a
// text, len and the first len bytes of text. A text of no bytes is missing, and so is what isn't given.
#[derive(Clone, Copy)]
pub struct Value {
    pub given: bool,
    pub number: u64,
    pub coordinate: i64,
    pub len: usize,
    pub text: [u8; WIDEST],
}

// One record's values: that of field f, counted from 1, is at[f - 1]. Those of signs and past the kind's last field are not looked at.
#[derive(Clone, Copy)]
pub struct Values {
    pub at: [Value; MOST_FIELDS],
}

// Why a call on one record is refused: a reason and a field.
#[derive(Clone, Copy)]
pub struct Refusal {
    pub reason: Reason,
    pub field: usize,
}

// The record's number is known to the caller, and so is the file's.
impl From<Break> for Refusal {
    ghost from_gives = { λ b r. r ≡ refusal_of b };

    fn from(b: Break) -> Refusal {
        Refusal {
            reason: b.reason,
            field: b.field,
        }
    }
}

pub fn missing_value() -> Value
    ensures { result ≡ no_value }
{
    Value {
        given: false,
        number: 0,
        coordinate: 0,
        len: 0,
        text: [32u8; WIDEST],
    }
}

pub fn number_value(n: u64) -> Value
    ensures { result ≡ value_of (number n) }
{
    Value {
        given: true,
        number: n,
        coordinate: 0,
        len: 0,
        text: [32u8; WIDEST],
    }
}

pub fn coordinate_value(z: i64) -> Value
    ensures { result ≡ value_of (coordinate z) }
{
    Value {
        given: true,
        number: 0,
        coordinate: z,
        len: 0,
        text: [32u8; WIDEST],
    }
}

// A text; of one that is longer than sixty bytes len tells, and writing refuses it.
pub fn text_value(t: &[u8]) -> Value
    ensures { result ≡ text_value t.now }
{
    let mut text = [32u8; WIDEST];
    let len = t.len();
    put_text(&mut text, t, len);
    Value {
        given: len != 0,
        number: 0,
        coordinate: 0,
        len,
        text,
    }
}

impl Values {
    // The value of a field, counted from 1; of any other number a missing one.
    pub fn get(self, f: usize) -> Value
        ensures { result ≡ value_at self f }
    {
        if f < 1 {
            return missing_value();
        }
        if MOST_FIELDS < f {
            return missing_value();
        }
        let i = f - 1;
        self.at[i]
    }
}
