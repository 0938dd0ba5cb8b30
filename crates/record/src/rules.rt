// The rules of a record's fields, reasons 20 to 25: a test for each, true where the rule is broken.
ghost use Rattle.std.specs.Prelude.{◌≡◌, ◌&&◌, ◌||◌, not, ◌+◌, ◌-◌, ◌<◌, eqb, get_or};
ghost use Rattle.field.specs.Bytes.{all_of};
ghost use Rattle.field.specs.Texts.{trimmed, not_given};
ghost use Rattle.record.specs.Table.{required, must_at, domain_at, is_n, is_code, is_sign};
ghost use Rattle.record.specs.Cut.{text_of};
ghost use Rattle.record.specs.Rules.{breaks20, breaks21, not_text, partners_blank, is_sign_byte, word_within, number_within, in_domain, outside, twenties};

use crate::cut::field;
use crate::kind::{Domain, Form, Kind};
use field::class::{Class, byte};
use field::number::get_number;
use field::words::{lawful_text, not_given, trimmed_len};

// 20: the record doesn't end in 0D 0A.
fn bad_end(rec: &[u8], k: Kind, f: usize) -> bool
    ensures { result ≡ breaks20 rec.now k f }
{
    if f == 0 {
        let n = k.length();
        !((byte(rec, n - 2) == 13) & (byte(rec, n - 1) == 10))
    } else {
        false
    }
}

// 21: no bar after a field.
fn no_bar(rec: &[u8], k: Kind, f: usize) -> bool
    ensures { result ≡ breaks21 rec.now k f }
{
    let e = k.offset(f) + k.width(f);
    (0 < f) & (f < k.fields()) & (byte(rec, e) != 124)
}

// 22: an N field is neither all digits nor all blanks.
fn not_number(form: Form, t: &[u8], blank: bool) -> bool
    ensures { result ≡ (is_n form && not blank && not (all_of Class.Digit t.now)) }
{
    if form.is_n() & !blank {
        !Class::Digit.all(t)
    } else {
        false
    }
}

// 23: an A field breaks the A rule.
fn not_text(form: Form, t: &[u8]) -> bool
    ensures { result ≡ not_text form t.now }
{
    if form.is_n() { false } else { !lawful_text(t) }
}

// CODIGO says NA or ND.
fn says_not_given(form: Form, t: &[u8]) -> bool
    ensures { result ≡ (is_code form && not_given (trimmed t.now)) }
{
    if form.is_code() {
        not_given(t, trimmed_len(t))
    } else {
        false
    }
}

fn blank_field(rec: &[u8], k: Kind, f: usize) -> bool
    ensures { result ≡ all_of Class.Blank (text_of rec.now k f) }
{
    Class::Blank.all(field(rec, k, f))
}

// Whether a field and its partners are all blank.
fn partners_blank(rec: &[u8], k: Kind, f: usize) -> bool
    requires { f < 256 }
    ensures { result ≡ partners_blank rec.now k f }
{
    let from = f.saturating_sub(k.back(f));
    for j in 0..=k.back(f) + k.ahead(f) {
        if !blank_field(rec, k, from + j) {
            return false;
        }
    }
    true
}

// 24: gone where it may not be, or while a partner isn't blank. Of a field without partners it is known whether it is blank, and its
// bytes are not read again.
fn lacking(rec: &[u8], k: Kind, f: usize, gone: bool, blank: bool) -> bool
    requires f_bound { f < 256 }
    requires known { blank ≡ all_of Class.Blank (text_of rec.now k f) }
    ensures { result ≡ (gone && (required (must_at k f) || not (partners_blank rec.now k f))) }
{
    if gone {
        if k.must(f) {
            true
        } else if k.back(f) + k.ahead(f) == 0 {
            !blank
        } else {
            !partners_blank(rec, k, f)
        }
    } else {
        false
    }
}

fn is_sign_byte(b: u8) -> bool
    ensures { result ≡ is_sign_byte b }
{
    (b == 43) | (b == 45)
}

impl Domain {
    // Whether a word is within the domain,
    pub fn has_word(self, t: &[u8]) -> bool
        ensures { result ≡ word_within self t.now }
    {
        let b = byte(t, 0);
        match self {
            Domain::Any => true,
            Domain::ObjectType => (b == 80) | (b == 88) | (b == 76) | (b == 84) | (b == 67),
            Domain::PlusMinus => is_sign_byte(b),
            Domain::NodeType => (b == 65) | (b == 67) | (b == 69) | (b == 73) | (b == 72),
            Domain::Orientation => true,
            Domain::Justification => true,
        }
    }

    // whether a number is,
    pub fn has_number(self, n: u64) -> bool
        ensures { result ≡ number_within self n }
    {
        match self {
            Domain::Any => true,
            Domain::ObjectType => true,
            Domain::PlusMinus => true,
            Domain::NodeType => true,
            Domain::Orientation => (n < 36000) & (n % 100 < 60),
            Domain::Justification => (0 < n) & (n < 10),
        }
    }

    // and whether a field's bytes are.
    pub(crate) fn has(self, form: Form, t: &[u8]) -> bool
        ensures { result ≡ in_domain form self t.now }
    {
        if form.is_n() {
            self.has_number(get_number(t))
        } else {
            self.has_word(t)
        }
    }
}

// Whether - stands before zero; the next field is cut for a sign alone.
fn minus_zero(rec: &[u8], k: Kind, f: usize, form: Form, t: &[u8]) -> bool
    requires { f < 256 }
    ensures { result ≡ (is_sign form && (eqb (get_or t.now 0 0) 45 && all_of Class.Zero (text_of rec.now k (f + 1)))) }
{
    match form {
        Form::Sign => (byte(t, 0) == 45) & Class::Zero.all(field(rec, k, f + 1)),
        _ => false,
    }
}

// 25: outside its domain, of a field that is sound: not damaged, not missing.
fn unfit(rec: &[u8], k: Kind, f: usize, form: Form, t: &[u8], sound: bool) -> bool
    requires { f < 256 }
    ensures { result ≡ (sound && outside form (domain_at k f) t.now (text_of rec.now k (f + 1))) }
{
    if sound {
        !k.domain(f).has(form, t) | minus_zero(rec, k, f, form, t)
    } else {
        false
    }
}

// The tests of reasons 20 to 25 at a place of a record.
pub(crate) fn tests(rec: &[u8], k: Kind, f: usize) -> [bool; 6]
    requires { f < 256 }
    ensures { result ≡ twenties rec.now k f }
{
    let form = k.form(f);
    let t = field(rec, k, f);
    let blank = Class::Blank.all(t);
    let no_number = not_number(form, t, blank);
    let no_text = not_text(form, t);
    let gone = blank | says_not_given(form, t);
    [
        bad_end(rec, k, f),
        no_bar(rec, k, f),
        no_number,
        no_text,
        lacking(rec, k, f, gone, blank),
        unfit(rec, k, f, form, t, !no_number & !no_text & !gone),
    ]
}
