// Records are cut from a file by length, and fields from a record by place. Every cut is defined on every input.
ghost use Rattle.std.specs.Prelude.{◌≡◌, List, ℕ, ◌+◌, ◌<◌, ◌≤◌, length, take, drop};
ghost use Rattle.record.specs.Cut.{count_of, record_of, text_of};

use crate::kind::Kind;

// n bytes from a on: fewer where the slice ends before.
pub fn part(t: &[u8], a: usize, n: usize) -> &[u8]
    ensures { result.now ≡ take n (drop a t.now) }
{
    if t.len() < a {
        return &t[..0];
    }
    if t.len() - a < n {
        return &t[a..];
    }
    let e = a + n;
    &t[a..e]
}

// The same, where the slice is known to have them: a column's loop asks no more of each record.
pub(crate) fn part_there(t: &[u8], a: usize, n: usize) -> &[u8]
    requires { a + n ≤ length t.now }
    ensures { result.now ≡ take n (drop a t.now) }
{
    let e = a + n;
    &t[a..e]
}

// The number of whole records.
pub fn records(s: &[u8], k: Kind) -> usize
    ensures { result ≡ count_of s.now k }
{
    s.len() / k.length()
}

// A whole record by division, which serves any i.
fn far_record(s: &[u8], k: Kind, i: usize) -> &[u8]
    ensures { result.now ≡ record_of s.now k i }
{
    let n = k.length();
    if i < records(s, k) {
        part(s, i * n, n)
    } else {
        &s[..0]
    }
}

// The bytes of a whole record, counted from 0; none past the last. It is asked at every read of a field: so there is no division where a
// product does.
pub fn record_bytes(s: &[u8], k: Kind, i: usize) -> &[u8]
    ensures { result.now ≡ record_of s.now k i }
{
    if i < 65536 {
        let n = k.length();
        let a = i * n;
        let e = a + n;
        if e <= s.len() { &s[a..e] } else { &s[..0] }
    } else {
        far_record(s, k, i)
    }
}

// The bytes of a field of a record.
pub fn field(rec: &[u8], k: Kind, f: usize) -> &[u8]
    ensures { result.now ≡ text_of rec.now k f }
{
    part(rec, k.offset(f), k.width(f))
}
