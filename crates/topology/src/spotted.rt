// Nodes at the places of vertices of one sort: those that are a line's first or last, or the others. A place is looked up among the nodes'
// places, by the number of its X and Y; the nodes that are found are in use.
ghost use Rattle.std.specs.Prelude.{◌≡◌, not, ◌&&◌, ℕ, ◌<◌, ◌≤◌, eqb, length, get_or};
ghost use Rattle.laws.specs.Row.{Narrow};
ghost use Rattle.index.specs.Marks.{Marked};
ghost use Rattle.index.specs.Pairs.{wide, Pairs};
ghost use Rattle.topology.specs.machinery.Spotted.{any_sorted, Spotted};

use crate::each::fill_each;
use crate::used::{mark_named, mark_unheld};
use index::marks::clear;
use index::pairs::NO_PAIR;
use index::way::Lookup;

// The number of a vertex at X and Y: that of its place among the nodes', where it has the mark.
fn spotted_number(
    mark: u8,
    tip: u8,
    places: &Lookup<'_>,
    ny: &[u64],
    pairs: &[u64],
    x: u64,
    y: u64,
) -> u64
    requires { Pairs places.now.keys.now ny.now pairs.now places.now.n × (places.now.n ≤ length pairs.now) × (y < wide) }
    ensures { (i : ℕ) → i < places.now.n → eqb result (get_or pairs.now i 0) ≡ (eqb tip mark && (eqb x (get_or places.now.keys.now i 0) && eqb y (get_or ny.now i 0))) }
{
    if tip == mark {
        return places.pair_number(ny, pairs, x, y);
    }
    NO_PAIR
}

// The number of each of v vertices that has the mark: that of its place among the nodes'; of the others a number that no node's place has.
fn fill_spotted(
    mark: u8,
    tips: &[u8],
    vx: &[u64],
    vy: &[u64],
    v: usize,
    places: &Lookup<'_>,
    ny: &[u64],
    pairs: &[u64],
    out: &mut [u64],
)
    requires { Pairs places.now.keys.now ny.now pairs.now places.now.n × (places.now.n ≤ length pairs.now) × (v ≤ length tips.now) × (v ≤ length vx.now) × (v ≤ length vy.now) × Narrow vy.now v wide × (v ≤ length out.old) }
    ensures { Spotted tips.now vx.now vy.now places.now.keys.now ny.now pairs.now mark places.now.n out.new v }
{
    fill_each(v, out, |j| {
        spotted_number(mark, tips[j], places, ny, pairs, vx[j], vy[j])
    });
}

// Marks each of the nodes at whose place no vertex with the mark lies, with the nodes' places as numbers in hand.
pub(crate) fn mark_off(
    mark: u8,
    tips: &[u8],
    vx: &[u64],
    vy: &[u64],
    v: usize,
    places: &Lookup<'_>,
    ny: &[u64],
    pairs: &Lookup<'_>,
    refs: &mut [u64],
    used: &mut [u8],
    marks: &mut [u8],
)
    requires { Pairs places.now.keys.now ny.now pairs.now.keys.now places.now.n × (pairs.now.n ≡ places.now.n) × (v ≤ length tips.now) × (v ≤ length vx.now) × (v ≤ length vy.now) × Narrow vy.now v wide × (v ≤ length refs.old) × (pairs.now.n ≤ length used.old) × (pairs.now.n ≤ length marks.old) }
    ensures { Marked marks.old marks.new (λ i. not (any_sorted tips.now vx.now vy.now mark v (get_or places.now.keys.now i 0) (get_or ny.now i 0))) places.now.n }
{
    clear(used, pairs.n);
    fill_spotted(mark, tips, vx, vy, v, places, ny, pairs.keys, refs);
    mark_named(refs, v, pairs, used);
    mark_unheld(pairs, used, 1, marks);
}
