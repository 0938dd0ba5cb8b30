// Reason 30: the records of a file whose key is an earlier record's: the first of them, and how many there are.
ghost use Rattle.std.specs.Prelude.{◌≡◌, ℕ, ◌≤◌, length};
ghost use Rattle.record.specs.Says.{table_of};
ghost use Rattle.keys.specs.machinery.Cells.{tally_in, repeat_tests};

use index::tally::{Tally, count_marked, no_tally, with_cell};
use index::twice::repeat_in;
use index::way::Lookup;
use record::fill::fill_keys;
use record::kind::Kind;

// The tally of 30, which is told at the key's last field. The nested scan finds the first record, and visits only those that are marked.
pub(crate) fn tally_repeats(
    s: &[u8],
    k: Kind,
    keys: &mut [u64],
    hints: &mut [u16],
    order: &mut [usize],
    marks: &mut [u8],
) -> Tally
    requires { ((table_of s.now k).count ≤ length keys.old) × ((table_of s.now k).count ≤ length order.old) × ((table_of s.now k).count ≤ length marks.old) }
    ensures { result ≡ tally_in (repeat_tests k (table_of s.now k)) k (table_of s.now k).count }
{
    let n = fill_keys(s, k, keys);
    Lookup::prepare(keys, n, hints, order).mark_repeats(marks);
    let found = repeat_in(keys, marks, n);
    let many = count_marked(marks, n);
    with_cell(no_tally(), found, many, k.keys() * 10)
}
