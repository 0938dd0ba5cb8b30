// How many breaks a file's shape has (reasons 10 and 11), and its fields (20 to 25), in one pass over the records.
ghost use Rattle.std.specs.Prelude.{◌≡◌, false, ◌<◌, ◌≤◌, length, get_or};
ghost use Rattle.laws.specs.Count.{bit, how_many};
ghost use Rattle.record.specs.machinery.Counts.{shape_many, place_many, record_many, fields_many};

use crate::columns::rows;
use crate::cut::record_bytes;
use crate::glance::plainly_lawful;
use crate::kind::{Kind, LIMIT};
use crate::rules::tests;

// How many breaks a file's shape has.
pub fn count_shape(s: &[u8], k: Kind) -> u64
    ensures { result ≡ shape_many s.now k }
{
    let n = k.length();
    u64::from(LIMIT * n < s.len()) + u64::from(0 < s.len() % n)
}

// How many tests hold.
fn count_true(t: &[bool]) -> u64
    ensures value { result ≡ how_many (λ u. get_or t.now u false) (length t.now) }
    ensures most { result ≤ length t.now }
{
    let mut many: u64 = 0;
    for holds in t {
        many += u64::from(*holds);
    }
    many
}

// How many breaks a place of a record has.
fn count_place(rec: &[u8], k: Kind, f: usize) -> u64
    requires { f < 256 }
    ensures value { result ≡ place_many rec.now k f }
    ensures most { result ≤ 6 }
{
    let t = tests(rec, k, f);
    count_true(&t)
}

// How many breaks a record's bytes have. Most records are lawful, and a glance tells it.
fn count_record(rec: &[u8], k: Kind) -> u64
    ensures value { result ≡ record_many rec.now k }
    ensures most { result ≤ 90 }
{
    if plainly_lawful(rec, k) {
        return 0;
    }
    let mut many: u64 = 0;
    for f in 0..=k.fields() {
        many += count_place(rec, k, f);
    }
    many
}

// How many breaks the fields of a file's whole records have. A file of more records than the limit is refused for its shape, and of it no
// more are looked at.
pub fn count_fields(s: &[u8], k: Kind) -> u64
    ensures { result ≡ fields_many s.now k }
{
    let mut many: u64 = 0;
    for i in 0..rows(s, k) {
        many += count_record(record_bytes(s, k, i), k);
    }
    many
}
