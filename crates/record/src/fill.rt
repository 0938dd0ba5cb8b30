// Columns of names, keys and places, read once into lent room. Where the room is too short for the file's records, none is read.
//
// Where a field stands in its record is looked up once for a column, and not once for a record: `at` is where the record in hand starts.
// So each column has a loop of its own: one loop that took what is read as a closure would have to require of each closure once more where
// its fields stand and how wide they are.
ghost use Rattle.std.specs.Prelude.{◌≡◌, ℕ, ◌-◌, ◌^◌};
ghost use Rattle.laws.specs.Row.{Narrow};
ghost use Rattle.record.specs.Says.{table_of, key_in, place_in};
ghost use Rattle.record.specs.Table.{keys_of};
ghost use Rattle.record.specs.Names.{name_at, key_of};
ghost use Rattle.record.specs.machinery.Columns.{ReadInto};

use crate::columns::{key_in, number_in, place_in, rows};
use crate::cut::part_there;
use crate::kind::Kind;
use crate::names::name;

// What field f of record i names, where x is what is said there as one number. Where nothing is said the record's own id may stand for it.
fn name_by(s: &[u8], k: Kind, i: usize, f: usize, x: u64) -> u64
    requires { x ≡ key_in ((table_of s.now k).says i f) }
    ensures { result ≡ name_at k (table_of s.now k) i f }
{
    if x == 0 { name(s, k, i, f) } else { x }
}

// What field f names in each record of the file.
pub fn fill_names(s: &[u8], k: Kind, f: usize, out: &mut [u64]) -> usize
    ensures { ReadInto out.old out.new (λ i. name_at k (table_of s.now k) i f) (table_of s.now k).count result }
{
    let n = rows(s, k);
    if out.len() < n {
        return 0;
    }
    let form = k.form(f);
    let offset = k.offset(f);
    let width = k.width(f);
    let mut at = 0;
    for i in 0..n {
        let x = key_in(form, part_there(s, at + offset, width));
        out[i] = name_by(s, k, i, f, x);
        at += k.length();
    }
    n
}

// The key of each record, where it is two fields: a line and an order.
fn fill_pair_keys(s: &[u8], k: Kind, out: &mut [u64]) -> usize
    requires { keys_of k ≡ 2 }
    ensures { ReadInto out.old out.new (λ i. key_of k (table_of s.now k) i) (table_of s.now k).count result }
{
    let n = rows(s, k);
    if out.len() < n {
        return 0;
    }
    let form = k.form(1);
    let offset = k.offset(1);
    let width = k.width(1);
    let order_form = k.form(2);
    let order_offset = k.offset(2);
    let order_width = k.width(2);
    let mut at = 0;
    for i in 0..n {
        let line = key_in(form, part_there(s, at + offset, width));
        let order = number_in(order_form, part_there(s, at + order_offset, order_width));
        out[i] = line * 100000 + order;
        at += k.length();
    }
    n
}

// The key of each record of the file.
pub fn fill_keys(s: &[u8], k: Kind, out: &mut [u64]) -> usize
    ensures { ReadInto out.old out.new (λ i. key_of k (table_of s.now k) i) (table_of s.now k).count result }
{
    if k.keys() == 2 {
        fill_pair_keys(s, k, out)
    } else {
        fill_names(s, k, 1, out)
    }
}

// The field of a coordinate's sign, which is the one before.
fn sign_field(f: usize) -> usize
    ensures { result ≡ f - 1 }
{
    f.saturating_sub(1)
}

// What is said as a place (a coordinate as one number) in field f of each record of the file.
pub fn fill_places(s: &[u8], k: Kind, f: usize, out: &mut [u64]) -> usize
    ensures read_into { ReadInto out.old out.new (λ i. place_in ((table_of s.now k).says i f)) (table_of s.now k).count result }
    ensures narrow { Narrow out.new result (2 ^ 40) }
{
    let n = rows(s, k);
    if out.len() < n {
        return 0;
    }
    let g = sign_field(f);
    let form = k.form(f);
    let offset = k.offset(f);
    let width = k.width(f);
    let sign = k.offset(g);
    let sign_width = k.width(g);
    let mut at = 0;
    for i in 0..n {
        let b = part_there(s, at + sign, sign_width);
        out[i] = place_in(form, part_there(s, at + offset, width), b);
        at += k.length();
    }
    n
}
