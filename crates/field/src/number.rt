// Numbers as digits, and coordinates as a sign and digits.
ghost use Rattle.std.specs.Prelude.{◌≡◌, List, IfSome, ltb, eqb, nat_abs, length, get_or};
ghost use Prim.Native.Nat.{ℕ, ◌+◌, ◌-◌, ◌^◌, ◌≤◌, ◌<◌};
ghost use Rattle.field.specs.Digits.{digits, number_written};
ghost use Rattle.field.specs.Signs.{is_neg, signed, sign_byte};
ghost use Rattle.field.specs.machinery.AtOnce.{AtOnce};

use crate::class::byte;

// Whether n has at most w digits.
pub fn has_digits(n: u64, w: usize) -> bool
    ensures { result ≡ ltb n (10 ^ w) }
{
    if w < 20 {
        n < 10_u64.pow(w as u32)
    } else {
        true
    }
}

// Fills the part with the digits of n, zero-filled on the left.
pub fn put_number(part: &mut [u8], n: u64)
    ensures { part.new ≡ digits (length part.old) n }
{
    let mut left = n;
    for k in (0..part.len()).rev() {
        part[k] = 48 + (left % 10) as u8;
        left /= 10;
    }
}

// What a byte counts as a digit.
fn digit_of(b: u8) -> u64
    ensures { result ≡ b - 48 }
{
    u64::from(b.saturating_sub(48))
}

// The number that the part's bytes write: no more than ten of them are read.
pub fn get_number(part: &[u8]) -> u64
    ensures value { result ≡ number_written part.now }
    ensures small { result < 2 ^ 38 }
{
    let mut n: u64 = 0;
    for k in 0..part.len().min(10) {
        n = n * 10 + digit_of(part[k]);
    }
    n
}

// NUMBERS AT ONCE, of the widths that ids, orders and coordinates have. Where no byte is below 48, which is the digit 0, the bytes by their
// powers of ten are the number and 48 times each power. That none is below is one test: bytes and'ed are at most each of them, and of
// digits (48 to 57) they are still 48 or more.

// The number of W digits, where no byte is below a digit. The width is known where the code is made, so that no loop is left there, and
// least, what as many zeros sum up to, is a number.
fn at_once<const W: usize>(t: &[u8]) -> Option<u64>
    requires width { length t.now ≡ W }
    requires few { (0 < W) × (W ≤ 10) }
    ensures { IfSome result (AtOnce t.now) }
{
    let mut low = 255;
    let mut sum: u64 = 0;
    let mut least: u64 = 0;
    for k in 0..W {
        low &= t[k];
        sum = sum * 10 + u64::from(t[k]);
        least = least * 10 + 48;
    }
    if low < 48 { None } else { Some(sum - least) }
}

// By the width, of an order, of Z, of X, of ids and Y; none of another.
pub fn number_at_once(t: &[u8]) -> Option<u64>
    ensures { IfSome result (AtOnce t.now) }
{
    match t.len() {
        5 => at_once::<5>(t),
        8 => at_once::<8>(t),
        9 => at_once::<9>(t),
        10 => at_once::<10>(t),
        _ => None,
    }
}

// The number that the part's bytes write, at once where that does.
pub fn number_in(t: &[u8]) -> u64
    ensures value { result ≡ number_written t.now }
    ensures small { result < 2 ^ 38 }
{
    number_at_once(t).unwrap_or_else(|| get_number(t))
}

pub fn negative(z: i64) -> bool
    ensures { result ≡ is_neg z }
{
    z.is_negative()
}

// The size of z, of the least number too.
pub fn magnitude(z: i64) -> u64
    ensures { result ≡ nat_abs z }
{
    z.unsigned_abs()
}

fn signed_of(minus: bool, n: u64) -> i64
    requires { n < 2 ^ 62 }
    ensures { result ≡ signed minus n }
{
    if minus { -(n as i64) } else { n as i64 }
}

// The coordinate that a sign's byte and a number's bytes write.
pub fn get_coordinate(sign: &[u8], part: &[u8]) -> i64
    ensures { result ≡ signed (eqb (get_or sign.now 0 0) 45) (number_written part.now) }
{
    signed_of(byte(sign, 0) == 45, number_in(part))
}

pub fn sign_byte(z: i64) -> u8
    ensures { result ≡ sign_byte z }
{
    if negative(z) { 45 } else { 43 }
}
