// The highest vertex of each line. Nothing is sorted: a look-up among the vertices' lines finds for each line always the same one of its
// vertices, and what stands there in `tops` is the highest of the line's keys.
ghost use Rattle.std.specs.Prelude.{◌≡◌, ℕ, ◌≤◌, length, get_or};
ghost use Rattle.index.specs.Keys.{listed, room};
ghost use Rattle.index.specs.Marks.{Marked};
ghost use Rattle.record.specs.Says.{table_of};
ghost use Rattle.record.specs.machinery.Columns.{Fills};
ghost use Rattle.topology.specs.machinery.Lent.{Holds};
ghost use Rattle.topology.specs.machinery.Tops.{line_of, Tops};
ghost use Rattle.topology.specs.Rules.{highest_in, tramo_line, is_tip};

use crate::each::fill_each;
use index::way::Lookup;
use record::fill::fill_names;
use record::kind::Kind;

// The lines of the first `n` vertices, whose keys are line * 100000 + order.
pub(crate) fn fill_lines(keys: &[u64], n: usize, out: &mut [u64])
    requires { (n ≤ length keys.now) × (n ≤ length out.old) }
    ensures { Holds out.new (line_of keys.now) n }
{
    fill_each(n, out, |i| keys[i] / 100000);
}

// The highest key of each line, at the vertex that a look-up of the line finds. Each vertex raises what stands there.
pub(crate) fn fill_tops(keys: &[u64], lines: &Lookup<'_>, tops: &mut [u64])
    requires { Holds lines.now.keys.now (line_of keys.now) lines.now.n × (lines.now.n ≤ length keys.now) × (lines.now.n ≤ length tops.old) }
    ensures { Tops keys.now lines.now.keys.now lines.now.order.now lines.now.hints.now tops.new lines.now.n lines.now.way lines.now.n }
{
    let n = lines.n;
    tops[..n].fill(0);
    for j in 0..n {
        let found = lines.look(lines.keys[j]);
        let Some(r) = found else {
            return;
        };
        tops[r] = keys[j].max(tops[r]);
    }
}

// The lines of the first `n` vertices and the highest key of each, in lent room.
pub(crate) fn prepare_tops<'a>(
    keys: &[u64],
    n: usize,
    lines: &'a mut [u64],
    hints: &'a mut [u16],
    order: &'a mut [usize],
    tops: &mut [u64],
) -> Lookup<'a>
    requires { (n ≤ room) × (n ≤ length keys.now) × (n ≤ length lines.old) × (n ≤ length order.old) × (n ≤ length tops.old) }
    ensures n { result.n ≡ n }
    ensures tops { Tops keys.now result.keys.now result.order.now result.hints.now tops.new result.n result.way result.n }
{
    fill_lines(keys, n, lines);
    let by = Lookup::prepare(lines, n, hints, order);
    fill_tops(keys, &by, tops);
    by
}

// The key of the line's vertex of highest order; 0 where it has none. The keys are there for the contract alone.
pub(crate) fn highest_of(keys: &[u64], lines: &Lookup<'_>, tops: &[u64], line: u64) -> u64
    requires { Tops keys.now lines.now.keys.now lines.now.order.now lines.now.hints.now tops.now lines.now.n lines.now.way lines.now.n }
    ensures { result ≡ highest_in (listed keys.now) line lines.now.n }
{
    let found = lines.look(line);
    match found {
        None => 0,
        Some(r) => tops[r],
    }
}

// The highest key of each of t lines that are named, 0 where a line has none.
pub(crate) fn fill_ends(
    keys: &[u64],
    lines: &Lookup<'_>,
    tops: &[u64],
    named: &[u64],
    t: usize,
    out: &mut [u64],
)
    requires { Tops keys.now lines.now.keys.now lines.now.order.now lines.now.hints.now tops.now lines.now.n lines.now.way lines.now.n × (t ≤ length named.now) × (t ≤ length out.old) }
    ensures { Holds out.new (λ i. highest_in (listed keys.now) (get_or named.now i 0) lines.now.n) t }
{
    fill_each(t, out, |i| highest_of(keys, lines, tops, named[i]));
}

// Marks the vertices that are a line's first, of order 1, or last, of highest order.
fn mark_tips(keys: &[u64], lines: &Lookup<'_>, tops: &[u64], tips: &mut [u8])
    requires { Tops keys.now lines.now.keys.now lines.now.order.now lines.now.hints.now tops.now lines.now.n lines.now.way lines.now.n × (lines.now.n ≤ length keys.now) × (lines.now.n ≤ length tips.old) }
    ensures { Marked tips.old tips.new (is_tip (listed keys.now) lines.now.n) lines.now.n }
{
    fill_each(lines.n, tips, |j| {
        let key = keys[j];
        let top = highest_of(keys, lines, tops, lines.keys[j]);
        u8::from((key % 100000 == 1) | (key == top))
    });
}

// The highest key of each tramo's line, and which vertices are a line's first or last, with the keys of the n vertices in hand and room lent.
pub fn prepare_ends(
    tramo: &[u8],
    keys: &[u64],
    n: usize,
    lines: &mut [u64],
    hints: &mut [u16],
    order: &mut [usize],
    tops: &mut [u64],
    named: &mut [u64],
    tips: &mut [u8],
    out: &mut [u64],
) -> usize
    requires { (n ≤ room) × (n ≤ length keys.now) × (n ≤ length lines.old) × (n ≤ length order.old) × (n ≤ length tops.old) × (n ≤ length tips.old) × ((table_of tramo.now Kind.Tramo).count ≤ length named.old) × ((table_of tramo.now Kind.Tramo).count ≤ length out.old) }
    ensures fills { Fills out.new (λ i. highest_in (listed keys.now) (tramo_line (table_of tramo.now Kind.Tramo) i) n) (table_of tramo.now Kind.Tramo).count result }
    ensures marked { Marked tips.old tips.new (is_tip (listed keys.now) n) n }
{
    let by = prepare_tops(keys, n, lines, hints, order, tops);
    mark_tips(keys, &by, tops, tips);
    let t = fill_names(tramo, Kind::Tramo, 4, named);
    fill_ends(keys, &by, tops, named, t, out);
    t
}
