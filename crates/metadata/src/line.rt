// What one line says, by its bytes.
ghost use Rattle.std.specs.Prelude.{◌≡◌, ◌<◌, length, MatchOption};
ghost use Rattle.metadata.specs.Told.{is_section, is_fichero, equals_at, unled, number_in, key_told, told_of};

use crate::told::Told;
use crate::words::{file_named, is_word};
use field::class::{Class, byte};
use field::words::trimmed_len;

// Whether the first byte is [ and the last ].
#[tactic(auto, unfolding(crate::specs::Told::is_section))]
fn is_section(t: &[u8]) -> bool
    ensures { result ≡ is_section t.now }
{
    if t.len() == 0 {
        return false;
    }
    (byte(t, 0) == 91) & (byte(t, t.len() - 1) == 93)
}

// Whether it is FICHERO and digits between two bytes, the first of which is [.
fn is_fichero(t: &[u8]) -> bool
    ensures { result ≡ is_fichero t.now }
{
    let n = t.len();
    if n <= 9 {
        return false;
    }
    let end = n - 1;
    is_word(b"[fichero", &t[..8]) & Class::Digit.all(&t[8..end])
}

// Where the equals sign of a key line stands; a line that is none has none.
fn equals_at(t: &[u8]) -> Option<usize>
    ensures { MatchOption result (equals_at t.now ≡ length t.now) (λ p. (p ≡ equals_at t.now) × (p < length t.now)) }
{
    let mut some = false;
    for (i, b) in t.iter().enumerate() {
        if (*b == 61) & some {
            return Some(i);
        }
        some = some | (*b != 32);
    }
    None
}

// The bytes without the blanks before them.
fn unled_part(t: &[u8]) -> &[u8]
    ensures { result.now ≡ unled t.now }
{
    for (i, b) in t.iter().enumerate() {
        if *b != 32 {
            return &t[i..];
        }
    }
    &t[t.len()..]
}

// A number that a file may have.
fn number_in(t: &[u8]) -> Option<u64>
    ensures { result ≡ number_in t.now }
{
    if t.len() == 0 {
        return None;
    }
    let mut n: u64 = 0;
    for b in t {
        if !Class::Digit.has(*b) {
            return None;
        }
        n = n * 10 + (*b - 48) as u64;
        if 1000000000000000000 <= n {
            return None;
        }
    }
    Some(n)
}

// What a key with a value says. The accents are ISO 8859-1's.
#[tactic(auto, unfolding(crate::specs::Told::key_told))]
fn key_told(key: &[u8], value: &[u8]) -> Told
    ensures { result ≡ key_told key.now value.now }
{
    if is_word(b"version_de_migra", key) {
        return Told::Version(number_in(value) == Some(1));
    }
    if is_word(b"nombre_migra", key) {
        return Told::Name(file_named(value));
    }
    if is_word(b"numero_de_registros", key) | is_word(b"n\xFAmero_de_registros", key) {
        return Told::Count(number_in(value));
    }
    if is_word(b"tama\xF1o_en_bytes", key) | is_word(b"tama\xF1o_en bytes", key) {
        return Told::Size(number_in(value));
    }
    Told::Other
}

// What a line says.
#[tactic(auto, unfolding(crate::specs::Told::told_of))]
pub fn told_of(t: &[u8]) -> Told
    ensures { result ≡ told_of t.now }
{
    if t.len() == 0 {
        return Told::Empty;
    }
    if is_section(t) {
        if is_fichero(t) {
            return Told::Fichero;
        }
        return Told::Section;
    }
    match equals_at(t) {
        Some(p) => {
            let end = trimmed_len(&t[..p]);
            key_told(&t[..end], unled_part(&t[p + 1..]))
        }
        None => Told::Nothing,
    }
}
