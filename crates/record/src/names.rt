// How records are named: what a field names, a record's key. A name is one number, 0 where it is missing.
ghost use Rattle.std.specs.Prelude.{◌≡◌, true, ◌&&◌, ℕ, ◌≤◌, ◌^◌};
ghost use Rattle.record.specs.Table.{form_at, is_n, keys_of, own_at};
ghost use Rattle.record.specs.Says.{table_of, is_missing};
ghost use Rattle.record.specs.Names.{name_at, key_of};

use crate::columns;
use crate::kind::Kind;

// Whether the field is blank and the record's own id stands for it, as for a tramo's line.
fn own_stands(s: &[u8], k: Kind, i: usize, f: usize) -> bool
    ensures { result ≡ (own_at k f && is_missing ((table_of s.now k).says i f)) }
{
    if k.own(f) {
        columns::is_missing(s, k, i, f)
    } else {
        false
    }
}

// What field f of record i names.
pub fn name(s: &[u8], k: Kind, i: usize, f: usize) -> u64
    ensures value { result ≡ name_at k (table_of s.now k) i f }
    ensures narrow { is_n (form_at k f) ≡ true → is_n (form_at k 1) ≡ true → result ≤ 2 ^ 38 }
{
    if own_stands(s, k, i, f) {
        columns::key(s, k, i, 1)
    } else {
        columns::key(s, k, i, f)
    }
}

// The key of record i, where it is two fields: a line and an order.
fn pair_key(s: &[u8], k: Kind, i: usize) -> u64
    requires { keys_of k ≡ 2 }
    ensures { result ≡ key_of k (table_of s.now k) i }
{
    name(s, k, i, 1) * 100000 + columns::number(s, k, i, 2)
}

// The key of record i.
pub fn record_key(s: &[u8], k: Kind, i: usize) -> u64
    ensures { result ≡ key_of k (table_of s.now k) i }
{
    if k.keys() == 2 {
        pair_key(s, k, i)
    } else {
        name(s, k, i, 1)
    }
}
