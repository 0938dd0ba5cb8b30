// Texts: bytes, then blanks.
ghost use Rattle.std.specs.Prelude.{◌≡◌, ℕ, ◌<◌, ◌≤◌, ltb, length, get_or};
ghost use Rattle.laws.specs.Row.{pick};
ghost use Rattle.field.specs.Texts.{padded, trim_to, first_bytes, not_given, base256, word_of, trimmed, edged_by, lawful_text};

use crate::class::{Class, byte};

// The byte at a place of a text of len bytes with blanks after it.
fn padded_byte(text: &[u8], len: usize, k: usize) -> u8
    ensures { result ≡ pick (ltb k len) (get_or text.now k 0) 32 }
{
    if k < len { byte(text, k) } else { 32 }
}

// Copies as many bytes as there are. (A loop, where the library's `copy_from_slice` becomes a call of memmove: of the C library the archive
// asks memcpy and memset alone.)
fn copy_bytes(part: &mut [u8], text: &[u8])
    requires { length part.old ≡ length text.now }
    ensures { part.new ≡ text.now }
{
    for k in 0..part.len() {
        part[k] = text[k];
    }
}

// Fills the part with the first len bytes of the text, then blanks; a text that is longer is cut. What the slice has of these bytes, the
// zeros that stand for the others, and the blanks are a write each, of several bytes at a step.
pub fn put_text(part: &mut [u8], text: &[u8], len: usize)
    ensures { part.new ≡ padded (length part.old) (first_bytes len text.now) }
{
    let given = len.min(part.len());
    let there = given.min(text.len());
    copy_bytes(&mut part[..there], &text[..there]);
    part[there..given].fill(0);
    part[given..].fill(32);
}

// How many bytes of the part are left without its trailing blanks.
pub fn trimmed_len(part: &[u8]) -> usize
    ensures { result ≡ length (trimmed part.now) }
{
    for k in (0..part.len()).rev() {
        if part[k] != 32 {
            return k + 1;
        }
    }
    0
}

// Whether the first len bytes of the text begin or end in the byte; what isn't there counts as 0.
pub fn edged_by(b: u8, text: &[u8], len: usize) -> bool
    ensures { result ≡ edged_by b (first_bytes len text.now) }
{
    if len == 0 {
        return 0 == b;
    }
    (byte(text, 0) == b) | (byte(text, len - 1) == b)
}

// The A rule.
pub fn lawful_text(t: &[u8]) -> bool
    ensures { result ≡ lawful_text t.now }
{
    if byte(t, 0) == 32 {
        Class::Blank.all(t)
    } else {
        Class::Text.all(t) & !edged_by(160, t, trimmed_len(t))
    }
}

// Whether the first len bytes of the text are NA or ND.
pub fn not_given(text: &[u8], len: usize) -> bool
    ensures { result ≡ not_given (first_bytes len text.now) }
{
    let b = byte(text, 1);
    (len == 2) & (byte(text, 0) == 78) & ((b == 65) | (b == 68))
}

// The part's text, of up to eight bytes, as one number.
pub fn word(part: &[u8]) -> u64
    ensures { result ≡ word_of (trimmed part.now) }
{
    let len = trimmed_len(part);
    let mut n: u64 = 0;
    for k in 0..8 {
        n = n * 256 + u64::from(padded_byte(part, len, k));
    }
    n
}
