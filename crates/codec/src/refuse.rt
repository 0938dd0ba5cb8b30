// What writing refuses, reasons 62 to 65: a test for each, true where the value is refused. Values are taken as four arrays hold them
// (held.rt). What a test doesn't look at its contract leaves open.
ghost use Rattle.std.specs.Prelude.{◌≡◌, ◌&&◌, ◌||◌, not, List, [], ℕ, ◌+◌, ◌-◌, ◌<◌, ◌≤◌, ℤ, pos, length, get_or};
ghost use Rattle.laws.specs.Nest.{run};
ghost use Rattle.field.specs.Texts.{first_bytes};
ghost use Rattle.record.specs.Table.{required, must_at};
ghost use Rattle.record.specs.Breaks.{finding_of, at_place};
ghost use Rattle.codec.specs.Values.{text_by};
ghost use Rattle.codec.specs.Refusals.{bad_text, bad_said, blank_at, partners_missing, outside_said, sixties, sixty_reasons, values_finding};
ghost use Rattle.codec.specs.machinery.Held.{value_by, held_at, held, say_by};

use crate::held::{Held, held_in};
use field::class::Class;
use field::number::{has_digits, magnitude};
use field::words::{edged_by, not_given};
use record::check::{break_of, first_true};
use record::cut::part;
use record::kind::{Domain, Form, Kind};
use record::reason::{Break, Reason};

// Whether the first len bytes are no text of w bytes. Past the end of the slice bytes count as 0, which is no text's.
fn bad_text(w: usize, text: &[u8], len: usize) -> bool
    ensures { result ≡ bad_text w (first_bytes len text.now) }
{
    if w < len {
        return true;
    }
    if text.len() < len {
        return true;
    }
    !Class::Text.all(part(text, 0, len)) | edged_by(32, text, len) | edged_by(160, text, len)
}

// 63: a bad text; one of no bytes is missing.
fn bad_words(w: usize, text: &[u8], len: usize) -> bool
    ensures { result ≡ bad_said w (text_by (value_by 0 (pos 0) len text.now)) }
{
    if len == 0 {
        false
    } else {
        bad_text(w, text, len)
    }
}

// 65, of a text.
fn unfit_words(domain: Domain, text: &[u8], len: usize) -> bool
    ensures { result ≡ outside_said domain (text_by (value_by 0 (pos 0) len text.now)) }
{
    if len == 0 {
        false
    } else {
        !domain.has_word(part(text, 0, len))
    }
}

// Whether a field is written blank: a sign with its coordinate.
fn blank_at(k: Kind, lengths: &[usize], f: usize) -> bool
    requires { f < 256 }
    ensures { (n : List ℕ) (z : List ℤ) (t : List ℕ) → result ≡ blank_at k (say_by k (held_at n z lengths.now t)) f }
{
    match k.form(f) {
        Form::Sign => held_in(lengths, f + 1, 0) == 0,
        _ => held_in(lengths, f, 0) == 0,
    }
}

// Whether a field and its partners are all written blank.
fn partners_missing(k: Kind, lengths: &[usize], f: usize) -> bool
    requires { f < 256 - 100 }
    ensures { (n : List ℕ) (z : List ℤ) (t : List ℕ) → result ≡ partners_missing k (say_by k (held_at n z lengths.now t)) f }
{
    let from = f.saturating_sub(k.back(f));
    let n = k.back(f) + k.ahead(f) + 1;
    for j in 0..n {
        if !blank_at(k, lengths, from + j) {
            return false;
        }
    }
    true
}

// 64: gone where it may not be, or while a partner isn't.
fn lacking(k: Kind, lengths: &[usize], f: usize, gone: bool) -> bool
    requires { f < 256 - 100 }
    ensures { (n : List ℕ) (z : List ℤ) (t : List ℕ) → result ≡ (gone && (required (must_at k f) || not (partners_missing k (say_by k (held_at n z lengths.now t)) f))) }
{
    if gone {
        k.must(f) | !partners_missing(k, lengths, f)
    } else {
        false
    }
}

// The tests of reasons 62 to 65 of a field, by its form: a coordinate is too large at its number and missing at its sign, a CODIGO is
// missing also as NA and ND.
fn tests(k: Kind, h: &Held<'_>, f: usize) -> [bool; 4]
    requires { f < 256 - 100 }
    ensures { result ≡ sixties k (say_by k (held h.now)) f }
{
    let form = k.form(f);
    match form {
        Form::Sign => {
            let next = h.length(f + 1);
            [false, false, lacking(k, h.lengths, f, next == 0), false]
        }
        Form::Number => {
            let len = h.length(f);
            let number = h.number(f);
            [
                (len != 0) & !has_digits(number, k.width(f)),
                false,
                lacking(k, h.lengths, f, len == 0),
                (len != 0) & !k.domain(f).has_number(number),
            ]
        }
        Form::Size => {
            let len = h.length(f);
            let size = magnitude(h.coordinate(f));
            [
                (len != 0) & !has_digits(size, k.width(f)),
                false,
                false,
                false,
            ]
        }
        _ => {
            let len = h.length(f);
            let text = h.text(f);
            let gone = (len == 0) | (form.is_code() & not_given(text, len));
            [
                false,
                bad_words(k.width(f), text, len),
                lacking(k, h.lengths, f, gone),
                unfit_words(k.domain(f), text, len),
            ]
        }
    }
}

fn sixty_reason(j: usize) -> Reason
    ensures { result ≡ get_or sixty_reasons j Reason.LongFile10 }
{
    match j {
        0 => Reason::TooLarge62,
        1 => Reason::BadText63,
        2 => Reason::Missing64,
        3 => Reason::Outside65,
        _ => Reason::LongFile10,
    }
}

fn check_value(k: Kind, h: &Held<'_>, f: usize) -> Result<(), Break>
    requires { f < 256 - 100 }
    ensures { result ≡ finding_of (run (at_place (sixties k (say_by k (held h.now)) f) sixty_reasons k 0 f)) }
{
    let tests = tests(k, h, f);
    let j = first_true(&tests);
    if j < 4 {
        Err(break_of(sixty_reason(j), k, 0, f))
    } else {
        Ok(())
    }
}

// The first refusal by field and reason.
pub(crate) fn check_values(k: Kind, h: &Held<'_>) -> Result<(), Break>
    ensures { result ≡ values_finding k (say_by k (held h.now)) }
{
    for f in 0..k.fields() + 1 {
        check_value(k, h, f)?;
    }
    Ok(())
}
