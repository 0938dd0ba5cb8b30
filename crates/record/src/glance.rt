// A glance at a record: it tells of most lawful records that nothing is broken in them, and of the others the rules are asked, place by
// place. Each kind has a function of its own, which asks for the record's length first and has the places of its fields written out: so
// the compiler knows every width, and reads several bytes at a step. The tests are joined without a branch, since whether a field that
// may be blank is so can't be guessed.
ghost use Rattle.std.specs.Prelude.{◌≡◌, true, ℕ, ◌+◌, ◌<◌};
ghost use Rattle.laws.specs.Row.{pick};
ghost use Rattle.record.specs.Table.{is_n};
ghost use Rattle.record.specs.Breaks.{record_finding};
ghost use Rattle.record.specs.machinery.Glance.{bar_at, full, full_or_blank, full_in, in_or_blank, need_at, may_at, need_in_at, may_in_at, code_at, sign_in, signed_at, gone_at, position_at, nowhere_at, end_at};

use crate::cut::part;
use crate::kind::{Domain, Form, Kind};
use crate::reason::Break;
use field::class::{Class, byte};

fn has_bar(rec: &[u8], o: usize) -> bool
    ensures { result ≡ bar_at rec.now o }
{
    byte(rec, o) == 124
}

// Whether the bytes are of the class, and the first is no blank; so there is a first.
fn is_full(class: Class, t: &[u8]) -> bool
    ensures { result ≡ full class t.now }
{
    (32 < byte(t, 0)) & class.every(t)
}

fn is_full_or_blank(class: Class, t: &[u8]) -> bool
    ensures { result ≡ full_or_blank class t.now }
{
    is_full(class, t) | Class::Blank.every(t)
}

// The class of a form's bytes.
fn class_of(form: Form) -> Class
    ensures { result ≡ pick (is_n form) Class.Digit Class.Plain }
{
    if form.is_n() {
        Class::Digit
    } else {
        Class::Plain
    }
}

fn is_full_in(form: Form, domain: Domain, t: &[u8]) -> bool
    ensures { result ≡ full_in form domain t.now }
{
    is_full(class_of(form), t) & domain.has(form, t)
}

fn is_in_or_blank(form: Form, domain: Domain, t: &[u8]) -> bool
    ensures { result ≡ in_or_blank form domain t.now }
{
    is_full_in(form, domain, t) | Class::Blank.every(t)
}

// A field of w bytes from o on and the bar after it. (A function for each: one that took the field's test as a closure would be as long at
// every place, and its contract would say less.) A number that may not be missing,
fn need(rec: &[u8], o: usize, w: usize) -> bool
    requires { o + w < 256 }
    ensures { result ≡ need_at rec.now o w }
{
    is_full(Class::Digit, part(rec, o, w)) & has_bar(rec, o + w)
}

// a field that may be,
fn may(class: Class, rec: &[u8], o: usize, w: usize) -> bool
    requires { o + w < 256 }
    ensures { result ≡ may_at class rec.now o w }
{
    is_full_or_blank(class, part(rec, o, w)) & has_bar(rec, o + w)
}

// the same of a field with a domain,
fn need_in(form: Form, domain: Domain, rec: &[u8], o: usize, w: usize) -> bool
    requires { o + w < 256 }
    ensures { result ≡ need_in_at form domain rec.now o w }
{
    is_full_in(form, domain, part(rec, o, w)) & has_bar(rec, o + w)
}

fn may_in(form: Form, domain: Domain, rec: &[u8], o: usize, w: usize) -> bool
    requires { o + w < 256 }
    ensures { result ≡ may_in_at form domain rec.now o w }
{
    is_in_or_blank(form, domain, part(rec, o, w)) & has_bar(rec, o + w)
}

// a CODIGO that doesn't begin with N, as NA and ND do, or is longer than they are: its third byte is no blank.
fn code(rec: &[u8], o: usize) -> bool
    requires { o < 248 }
    ensures { result ≡ code_at rec.now o 7 }
{
    let t = part(rec, o, 7);
    is_full(Class::Plain, t) & ((byte(t, 0) != 78) | (byte(t, 2) != 32)) & has_bar(rec, o + 7)
}

// A sign; next is the number's text, which isn't zero after a minus.
fn is_sign(t: &[u8], next: &[u8]) -> bool
    ensures { result ≡ sign_in t.now next.now }
{
    let b = byte(t, 0);
    is_full(Class::Plain, t) & ((b == 43) | ((b == 45) & !Class::Zero.every(next)))
}

// A sign, a bar and a number of w digits,
fn signed(rec: &[u8], o: usize, w: usize) -> bool
    requires { o < 248 }
    ensures { result ≡ signed_at rec.now o w }
{
    let n = part(rec, o + 2, w);
    is_sign(part(rec, o, 1), n) & has_bar(rec, o + 1) & is_full(Class::Digit, n)
}

// and blanks for both.
fn gone(rec: &[u8], o: usize, w: usize) -> bool
    requires { o < 248 }
    ensures { result ≡ gone_at rec.now o w }
{
    Class::Blank.every(part(rec, o, 1))
        & has_bar(rec, o + 1)
        & Class::Blank.every(part(rec, o + 2, w))
}

// X, Y and Z, whose 35 bytes stand at o; Z may be blank.
fn position(rec: &[u8], o: usize) -> bool
    ensures { result ≡ true → position_at rec.now o ≡ true }
{
    let t = part(rec, o, 35);
    if t.len() != 35 {
        return false;
    }
    signed(t, 0, 9)
        & has_bar(t, 11)
        & signed(t, 12, 10)
        & has_bar(t, 24)
        & (signed(t, 25, 8) | gone(t, 25, 8))
}

// Blanks for all three.
fn nowhere(rec: &[u8], o: usize) -> bool
    ensures { result ≡ true → nowhere_at rec.now o ≡ true }
{
    let t = part(rec, o, 35);
    if t.len() != 35 {
        return false;
    }
    gone(t, 0, 9) & has_bar(t, 11) & gone(t, 12, 10) & has_bar(t, 24) & gone(t, 25, 8)
}

// The record's last two bytes, from o on.
fn ends(rec: &[u8], o: usize) -> bool
    requires { o < 256 }
    ensures { result ≡ end_at rec.now o }
{
    (byte(rec, o) == 13) & (byte(rec, o + 1) == 10)
}

fn catalogo(rec: &[u8]) -> bool
    ensures { result ≡ true → (i : ℕ) → record_finding rec.now Kind.Catalogo i ≡ Ok tt }
{
    if rec.len() != 133 {
        return false;
    }
    ends(rec, 131)
        & code(rec, 0)
        & need_in(Form::Words, Domain::ObjectType, rec, 8, 1)
        & may(Class::Plain, rec, 10, 60)
        & is_full_or_blank(Class::Plain, part(rec, 71, 60))
}

fn ob_pun(rec: &[u8]) -> bool
    ensures { result ≡ true → (i : ℕ) → record_finding rec.now Kind.ObPun i ≡ Ok tt }
{
    if rec.len() != 149 {
        return false;
    }
    ends(rec, 147)
        & need(rec, 0, 10)
        & may(Class::Digit, rec, 11, 10)
        & may(Class::Digit, rec, 22, 10)
        & code(rec, 33)
        & may(Class::Plain, rec, 41, 60)
        & may_in(Form::Number, Domain::Orientation, rec, 102, 5)
        & may(Class::Digit, rec, 108, 3)
        & position(rec, 112)
}

fn ob_tex(rec: &[u8]) -> bool
    ensures { result ≡ true → (i : ℕ) → record_finding rec.now Kind.ObTex i ≡ Ok tt }
{
    if rec.len() != 144 {
        return false;
    }
    ends(rec, 142)
        & need(rec, 0, 10)
        & may(Class::Digit, rec, 11, 10)
        & code(rec, 22)
        & may(Class::Plain, rec, 30, 60)
        & need(rec, 91, 3)
        & may(Class::Digit, rec, 95, 3)
        & may_in(Form::Number, Domain::Orientation, rec, 99, 5)
        & need_in(Form::Number, Domain::Justification, rec, 105, 1)
        & position(rec, 107)
}

fn ob_lin(rec: &[u8]) -> bool
    ensures { result ≡ true → (i : ℕ) → record_finding rec.now Kind.ObLin i ≡ Ok tt }
{
    if rec.len() != 128 {
        return false;
    }
    ends(rec, 126)
        & need(rec, 0, 10)
        & may(Class::Digit, rec, 11, 10)
        & code(rec, 22)
        & may(Class::Plain, rec, 30, 60)
        & (position(rec, 91) | nowhere(rec, 91))
}

fn tramo(rec: &[u8]) -> bool
    ensures { result ≡ true → (i : ℕ) → record_finding rec.now Kind.Tramo i ≡ Ok tt }
{
    if rec.len() != 77 {
        return false;
    }
    ends(rec, 75)
        & need(rec, 0, 10)
        & need(rec, 11, 10)
        & may(Class::Digit, rec, 22, 10)
        & may(Class::Digit, rec, 33, 10)
        & code(rec, 44)
        & need(rec, 52, 10)
        & need(rec, 63, 10)
        & is_in_or_blank(Form::Words, Domain::PlusMinus, part(rec, 74, 1))
}

fn vertice(rec: &[u8]) -> bool
    ensures { result ≡ true → (i : ℕ) → record_finding rec.now Kind.Vertice i ≡ Ok tt }
{
    if rec.len() != 54 {
        return false;
    }
    ends(rec, 52) & need(rec, 0, 10) & need(rec, 11, 5) & position(rec, 17)
}

fn nodo(rec: &[u8]) -> bool
    ensures { result ≡ true → (i : ℕ) → record_finding rec.now Kind.Nodo i ≡ Ok tt }
{
    if rec.len() != 50 {
        return false;
    }
    ends(rec, 48)
        & need(rec, 0, 10)
        & may_in(Form::Words, Domain::NodeType, rec, 11, 1)
        & position(rec, 13)
}

fn ob_comp(rec: &[u8]) -> bool
    ensures { result ≡ true → (i : ℕ) → record_finding rec.now Kind.ObComp i ≡ Ok tt }
{
    if rec.len() != 117 {
        return false;
    }
    ends(rec, 115)
        & need(rec, 0, 10)
        & code(rec, 11)
        & may(Class::Plain, rec, 19, 60)
        & (position(rec, 80) | nowhere(rec, 80))
}

// Whether a glance tells that nothing is broken in a record.
pub(crate) fn plainly_lawful(rec: &[u8], k: Kind) -> bool
    ensures { result ≡ true → (i : ℕ) → record_finding rec.now k i ≡ Ok tt }
{
    match k {
        Kind::Catalogo => catalogo(rec),
        Kind::ObPun => ob_pun(rec),
        Kind::ObTex => ob_tex(rec),
        Kind::ObLin => ob_lin(rec),
        Kind::Tramo => tramo(rec),
        Kind::Vertice => vertice(rec),
        Kind::Nodo => nodo(rec),
        Kind::ObComp => ob_comp(rec),
    }
}
