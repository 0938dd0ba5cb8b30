// The answer of a call is one number, as the C interface has it: 0 where nothing is wrong, else the reason and its place in decimal
// digits, as the verdict program's line has them. So an answer needs no lent memory, and a refused call has none to leave alone.
ghost use Rattle.std.specs.Prelude.{◌≡◌, ◌<◌, ◌/◌, ◌%◌};
ghost use Rattle.record.specs.Breaks.{number_of};
ghost use Rattle.canopyrail.specs.Answers.{other_of, answer_number, refusal_word, break_word, finding_word, reason_in, file_in, record_in, field_in, other_in};

use record::reason::{Break, Reason};

// What a reason carries besides its place: the earlier record (30, 54) or the letter that the code is catalogued under (41).
fn other_of(reason: Reason) -> u64
    ensures { result ≡ other_of reason }
{
    match reason {
        Reason::SameKey30(earlier) => earlier as u64,
        Reason::OtherType41(letter) => letter as u64,
        Reason::SamePlace54(earlier) => earlier as u64,
        _ => 0,
    }
}

// Reason, file, record, field and other in 2, 2, 5, 2 and 5 digits.
fn word_of(reason: u64, file: u64, rec: u64, field: u64, other: u64) -> u64
    requires { reason < 256 }
    ensures { result ≡ answer_number reason file rec field other }
{
    let to_file = reason * 100 + file % 100;
    let to_record = to_file * 100000 + rec % 100000;
    let to_field = to_record * 100 + field % 100;
    to_field * 100000 + other % 100000
}

// A refusal of a call on one record.
pub(crate) fn refusal(reason: Reason, field: usize) -> u64
    ensures { result ≡ refusal_word reason field }
{
    word_of(reason.number() as u64, 0, 0, field as u64, 0)
}

pub(crate) fn break_word(b: Break) -> u64
    ensures { result ≡ break_word b }
{
    let reason = b.reason;
    word_of(
        reason.number() as u64,
        b.file as u64,
        b.record as u64,
        b.field as u64,
        other_of(reason),
    )
}

pub(crate) fn finding_word(v: Result<(), Break>) -> u64
    ensures { result ≡ finding_word v }
{
    match v {
        Ok(()) => 0,
        Err(b) => break_word(b),
    }
}

// The reason's number in an answer; 0 where nothing is wrong.
pub fn canopyrail_reason(answer: u64) -> u64
    ensures { result ≡ reason_in answer }
{
    answer / 100000000000000
}

// The file's number.
pub fn canopyrail_file(answer: u64) -> u64
    ensures { result ≡ file_in answer }
{
    answer / 1000000000000 % 100
}

// The record's number.
pub fn canopyrail_record(answer: u64) -> u64
    ensures { result ≡ record_in answer }
{
    answer / 10000000 % 100000
}

// The field's number.
pub fn canopyrail_field(answer: u64) -> u64
    ensures { result ≡ field_in answer }
{
    answer / 100000 % 100
}

// The earlier record's number, or the letter.
pub fn canopyrail_other(answer: u64) -> u64
    ensures { result ≡ other_in answer }
{
    answer % 100000
}
