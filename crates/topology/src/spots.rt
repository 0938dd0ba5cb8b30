// Places as numbers, and 54 by them: nodes at one place. X and Y of each record are one number, and with Z another, so that two are equal
// exactly where the places are.
ghost use Rattle.std.specs.Prelude.{◌≡◌, ◌≤◌, length, get_or};
ghost use Rattle.laws.specs.Find.{any};
ghost use Rattle.laws.specs.Row.{Narrow};
ghost use Rattle.index.specs.Keys.{room};
ghost use Rattle.index.specs.Marks.{Marked};
ghost use Rattle.index.specs.Pairs.{wide, Pairs};
ghost use Rattle.record.specs.machinery.Columns.{Fills};
ghost use Rattle.record.specs.Table.{limit};
ghost use Rattle.record.specs.Says.{table_of};
ghost use Rattle.topology.specs.Rules.{placed_before};
ghost use Rattle.topology.specs.machinery.Places.{spot_of, same_in, Positions, Nodes};
ghost use Rattle.topology.specs.machinery.Used.{};

use crate::each::fill_each;
use crate::nodes::spot;
use index::marks::clear;
use index::way::Lookup;
use record::fill::fill_places;
use record::kind::Kind;

// X and Y of each record of a file.
pub fn fill_positions(s: &[u8], k: Kind, most: usize, xs: &mut [u64], ys: &mut [u64]) -> usize
    requires { ((table_of s.now k).count ≤ most) × (most ≤ length xs.old) × (most ≤ length ys.old) }
    ensures { Positions xs.new ys.new k (table_of s.now k) result }
{
    let n = fill_places(s, k, k.x_field(), xs);
    fill_places(s, k, k.x_field() + 2, ys);
    n
}

// Two columns as one, with a way to look up the first.
pub(crate) fn pair_up<'a>(
    firsts: &'a [u64],
    seconds: &[u64],
    n: usize,
    hints: &'a mut [u16],
    order: &'a mut [usize],
    out: &mut [u64],
) -> Lookup<'a>
    requires { (n ≤ room) × (n ≤ length firsts.now) × (n ≤ length seconds.now) × (n ≤ length order.old) × (n ≤ length out.old) × Narrow seconds.now n wide }
    ensures keys { result.keys.now ≡ firsts.now }
    ensures n { result.n ≡ n }
    ensures pairs { Pairs firsts.now seconds.now out.new n }
{
    let by = Lookup::prepare(firsts, n, hints, order);
    by.fill_pairs(seconds, out);
    by
}

// Z of each of n nodes, with X and Y in hand, which are there for the contract alone.
fn fill_heights<'a, 'b>(nodo: &'a [u8], xs: &'b [u64], ys: &'b [u64], n: usize, zs: &mut [u64])
    requires { Positions xs.now ys.now Kind.Nodo (table_of nodo.now Kind.Nodo) n × (n ≤ length zs.old) }
    ensures { Nodes xs.now ys.now zs.new (table_of nodo.now Kind.Nodo) n }
{
    let k = Kind::Nodo;
    fill_places(nodo, k, k.x_field() + 4, zs);
}

// X, Y and Z of each of n records as one number (`spot`).
fn fill_spots<'a>(xs: &'a [u64], ys: &'a [u64], zs: &'a [u64], n: usize, out: &mut [u64])
    requires { (n ≤ limit) × (n ≤ length xs.now) × (n ≤ length ys.now) × (n ≤ length zs.now) × (n ≤ length out.old) }
    ensures { Fills out.new (λ i. spot_of (get_or xs.now i 0) (get_or ys.now i 0) (get_or zs.now i 0)) n n }
{
    fill_each(n, out, |i| spot(xs[i], ys[i], zs[i]));
}

// Marks each of n records at an earlier one's place, by the columns of X, Y and Z.
fn mark_same<'a>(
    xs: &'a [u64],
    ys: &'a [u64],
    zs: &'a [u64],
    n: usize,
    spots: &mut [u64],
    hints: &mut [u16],
    order: &mut [usize],
    pairs: &mut [u64],
    marks: &mut [u8],
)
    requires { (n ≤ room) × (n ≤ length xs.now) × (n ≤ length ys.now) × (n ≤ length zs.now) × (n ≤ length spots.old) × (n ≤ length order.old) × (n ≤ length pairs.old) × (n ≤ length marks.old) × Narrow ys.now n wide × Narrow zs.now n wide }
    ensures { Marked marks.old marks.new (λ i. any (same_in xs.now ys.now zs.now i) i) n }
{
    pair_up(xs, ys, n, hints, order, pairs);
    pair_up(pairs, zs, n, hints, order, spots);
    let by = Lookup::prepare(spots, n, hints, order);
    by.mark_repeats(marks);
}

// 54: marks the nodes at an earlier one's place, with X and Y of the nodes in hand and room lent. Where no two spots are equal no two places are.
pub fn mark_same_place<'a, 'b>(
    nodo: &'a [u8],
    xs: &'b [u64],
    ys: &'b [u64],
    n: usize,
    zs: &mut [u64],
    spots: &mut [u64],
    hints: &mut [u16],
    order: &mut [usize],
    pairs: &mut [u64],
    marks: &mut [u8],
)
    requires { Positions xs.now ys.now Kind.Nodo (table_of nodo.now Kind.Nodo) n × (n ≤ length zs.old) × (n ≤ length spots.old) × (n ≤ length order.old) × (n ≤ length pairs.old) × (n ≤ length marks.old) }
    ensures { Marked marks.old marks.new (placed_before (table_of nodo.now Kind.Nodo)) (table_of nodo.now Kind.Nodo).count }
{
    fill_heights(nodo, xs, ys, n, zs);
    fill_spots(xs, ys, zs, n, spots);
    let by = Lookup::prepare(spots, n, hints, order);
    if by.way.apart {
        clear(marks, n);
        return;
    }
    mark_same(xs, ys, zs, n, spots, hints, order, pairs, marks);
}
