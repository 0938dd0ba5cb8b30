// Which records are named by others, by one table of their ids: each name is looked up, and the record that is found is in use.
//
// Why the records of equal ids are told together: a look-up finds one record for each id, and that record's place in `used` is written and
// read for all that have the id.
ghost use Rattle.std.specs.Prelude.{◌≡◌, ◌<◌, ◌≤◌, length, get_or};
ghost use Rattle.laws.specs.Find.{names};
ghost use Rattle.laws.specs.Count.{bit};
ghost use Rattle.index.specs.Keys.{listed};
ghost use Rattle.index.specs.Look.{Sought, IsFoundBelow};
ghost use Rattle.index.specs.Way.{look_of};
ghost use Rattle.record.specs.Says.{table_of};
ghost use Rattle.record.specs.Names.{name_at};
ghost use Rattle.topology.specs.machinery.Used.{put_at, count_at, free_at, Used, Free, Unheld};

use crate::each::fill_each;
use index::way::Lookup;
use record::fill::fill_names;
use record::kind::Kind;

// The record that was found is in use.
pub(crate) fn put(found: Option<usize>, used: &mut [u8])
    requires { IsFoundBelow found (length used.old) }
    ensures { used.new ≡ put_at used.old found }
{
    if let Some(r) = found {
        used[r] = 1;
    }
}

// The records that m names name are in use.
pub(crate) fn mark_named(refs: &[u64], m: usize, ids: &Lookup<'_>, used: &mut [u8])
    requires { (ids.now.n ≤ length used.old) × (m ≤ length refs.now) }
    ensures { Used ids.now.keys.now ids.now.order.now ids.now.hints.now ids.now.way.hinted ids.now.n used.old used.new (names (listed refs.now) m) }
{
    for x in &refs[..m] {
        let found = ids.look(*x);
        put(found, used);
    }
}

// The records that field f of a record of s names are in use; the names are read into lent room.
pub fn mark_used<'a, 'b>(
    s: &'a [u8],
    k: Kind,
    f: usize,
    ids: &Lookup<'_>,
    refs: &mut [u64],
    used: &mut [u8],
)
    requires { (ids.now.n ≤ length used.old) × ((table_of s.now k).count ≤ length refs.old) }
    ensures { Used ids.now.keys.now ids.now.order.now ids.now.hints.now ids.now.way.hinted ids.now.n used.old used.new (names (λ j. name_at k (table_of s.now k) j f) (table_of s.now k).count) }
{
    let m = fill_names(s, k, f, refs);
    mark_named(refs, m, ids, used);
}

// The record that was found is named once more; more than two are as two.
pub(crate) fn count_in(found: Option<usize>, counts: &mut [u8])
    requires { IsFoundBelow found (length counts.old) }
    ensures { counts.new ≡ count_at counts.old found }
{
    if let Some(r) = found {
        counts[r] = counts[r].saturating_add(1).min(2);
    }
}

// The record that a look-up of id i finds. It is record i, and needs no look-up, where hints find every id and ids are known to differ.
fn holder(ids: &Lookup<'_>, i: usize) -> Option<usize>
    requires { i < ids.now.n }
    ensures sought { Sought ids.now.keys.now ids.now.n (get_or ids.now.keys.now i 0) result }
    ensures same { result ≡ look_of ids.now.keys.now ids.now.order.now ids.now.hints.now ids.now.way.hinted ids.now.n (get_or ids.now.keys.now i 0) }
{
    if ids.way.hinted & ids.way.apart {
        return Some(i);
    }
    ids.look(ids.keys[i])
}

// Whether what stands at the record that was found is below a number.
fn is_free(found: Option<usize>, used: &[u8], most: u8) -> bool
    requires { IsFoundBelow found (length used.now) }
    ensures { result ≡ free_at used.now most found }
{
    match found {
        None => true,
        Some(r) => used[r] < most,
    }
}

// Whether less than a number stands at the record that a look-up of id i finds.
fn is_unheld(ids: &Lookup<'_>, used: &[u8], most: u8, i: usize) -> bool
    requires { (ids.now.n ≤ length used.now) × (i < ids.now.n) }
    ensures { Free ids.now.keys.now ids.now.order.now ids.now.hints.now ids.now.way.hinted ids.now.n used.now most (get_or ids.now.keys.now i 0) (bit result) }
{
    let found = holder(ids, i);
    is_free(found, used, most)
}

// Marks the records at which less than a number stands, 1 for those that are not in use: an id's record is the one that its look-up finds.
pub fn mark_unheld(ids: &Lookup<'_>, used: &[u8], most: u8, marks: &mut [u8])
    requires { (ids.now.n ≤ length used.now) × (ids.now.n ≤ length marks.old) }
    ensures { Unheld ids.now.keys.now ids.now.order.now ids.now.hints.now ids.now.way.hinted ids.now.n used.now most marks.old marks.new ids.now.n }
{
    fill_each(ids.n, marks, |i| {
        u8::from(is_unheld(ids, used, most, i))
    });
}
