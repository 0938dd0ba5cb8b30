// What a node is, an end, intermediate, both or neither, and the rules that ask it: 56, a node in no use, and 58, a code that disagrees. Both are
// marked together, since both ask which vertices lie at a node's place.
ghost use Rattle.std.specs.Prelude.{◌≡◌, not, ◌&&◌, ◌≤◌, length, get_or};
ghost use Rattle.laws.specs.Find.{any};
ghost use Rattle.laws.specs.Row.{Narrow};
ghost use Rattle.index.specs.Keys.{room};
ghost use Rattle.index.specs.Marks.{Marked, is_marked};
ghost use Rattle.index.specs.Pairs.{wide};
ghost use Rattle.record.specs.machinery.Columns.{Fills};
ghost use Rattle.record.specs.Table.{limit};
ghost use Rattle.record.specs.Says.{table_of, letter_in};
ghost use Rattle.record.specs.Names.{name_at};
ghost use Rattle.topology.specs.Rules.{ends_tramo, node_idle, agrees, disagrees};
ghost use Rattle.topology.specs.machinery.Nodes.{Tips, asks_place, idle_by, odd_by};
ghost use Rattle.topology.specs.machinery.Places.{Positions};
ghost use Rattle.topology.specs.machinery.Spotted.{any_sorted};
ghost use Rattle.topology.specs.machinery.Used.{Named, Counted};

use crate::each::fill_each;
use crate::places::Nodes;
use crate::spots::{fill_positions, pair_up};
use crate::spotted::mark_off;
use crate::used::mark_unheld;
use index::marks::clear;
use index::way::Lookup;
use record::columns::letter;
use record::kind::{Kind, LIMIT};

// Whether a code of NODO TIPO agrees with what a node is.
fn does_agree(code: u8, end: bool, middle: bool) -> bool
    ensures { result ≡ agrees code end middle }
{
    (code == 0)
        | ((code == 65) & !(end | middle))
        | ((code == 67) & (end | middle))
        | ((code == 69) & (end & !middle))
        | ((code == 73) & (middle & !end))
        | ((code == 72) & (end & middle))
}

// Whether the place of one of n nodes matters: it has a code, or starts and ends no tramo and is named by fewer than two point objects.
fn asks_places<'a, 'b>(nodo: &'a [u8], loose: &'b [u8], few: &'b [u8], n: usize) -> bool
    requires { (n ≤ length loose.now) × (n ≤ length few.now) }
    ensures { result ≡ any (asks_place loose.now few.now (table_of nodo.now Kind.Nodo)) n }
{
    (0..n).any(|i| (letter(nodo, Kind::Nodo, i, 2) != 0) | ((loose[i] == 1) & (few[i] == 1)))
}

// Marks the nodes at whose place no line's first or last vertex lies, and those at whose place no other vertex does, with X and Y of both and
// which vertices are tips in hand and room lent.
fn mark_sorts<'a>(
    tips: &'a [u8],
    vx: &'a [u64],
    vy: &'a [u64],
    v: usize,
    nx: &'a [u64],
    ny: &'a [u64],
    n: usize,
    hints: &mut [u16],
    order: &mut [usize],
    pairs: &mut [u64],
    pair_hints: &mut [u16],
    pair_order: &mut [usize],
    refs: &mut [u64],
    used: &mut [u8],
    off_tips: &mut [u8],
    off_others: &mut [u8],
)
    requires { (n ≤ room) × (n ≤ length nx.now) × (n ≤ length ny.now) × Narrow ny.now n wide × (n ≤ length order.old) × (n ≤ length pairs.old) × (n ≤ length pair_order.old) × (v ≤ length tips.now) × (v ≤ length vx.now) × (v ≤ length vy.now) × Narrow vy.now v wide × (v ≤ length refs.old) × (n ≤ length used.old) × (n ≤ length off_tips.old) × (n ≤ length off_others.old) }
    ensures marked { Marked off_tips.old off_tips.new (λ i. not (any_sorted tips.now vx.now vy.now 1 v (get_or nx.now i 0) (get_or ny.now i 0))) n }
    ensures others { Marked off_others.old off_others.new (λ i. not (any_sorted tips.now vx.now vy.now 0 v (get_or nx.now i 0) (get_or ny.now i 0))) n }
{
    let places = pair_up(nx, ny, n, hints, order, pairs);
    let by = Lookup::prepare(pairs, n, pair_hints, pair_order);
    mark_off(1, tips, vx, vy, v, &places, ny, &by, refs, used, off_tips);
    mark_off(0, tips, vx, vy, v, &places, ny, &by, refs, used, off_others);
}

// 56: marks the nodes that have all four marks: they start and end no tramo, no line's tip and no other vertex lies at their place, and fewer than
// two point objects name them.
fn mark_idle<'a>(
    loose: &'a [u8],
    off_tips: &'a [u8],
    off_others: &'a [u8],
    few: &'a [u8],
    n: usize,
    marks: &mut [u8],
)
    requires { (n ≤ length loose.now) × (n ≤ length off_tips.now) × (n ≤ length off_others.now) × (n ≤ length few.now) × (n ≤ length marks.old) }
    ensures { Marked marks.old marks.new (λ i. is_marked loose.now i && is_marked off_tips.now i && is_marked off_others.now i && is_marked few.now i) n }
{
    fill_each(n, marks, |i| {
        u8::from((loose[i] == 1) & (off_tips[i] == 1) & (off_others[i] == 1) & (few[i] == 1))
    });
}

// 58: marks the nodes whose code disagrees with what they are, by the marks of what they are not.
fn mark_odd<'a, 'b>(
    nodo: &'a [u8],
    loose: &'b [u8],
    off_tips: &'b [u8],
    off_others: &'b [u8],
    n: usize,
    marks: &mut [u8],
)
    requires { (n ≤ length loose.now) × (n ≤ length off_tips.now) × (n ≤ length off_others.now) × (n ≤ length marks.old) }
    ensures { Marked marks.old marks.new (λ i. not (agrees (letter_in ((table_of nodo.now Kind.Nodo).says i 2)) (not (is_marked loose.now i && is_marked off_tips.now i)) (not (is_marked off_others.now i)))) n }
{
    fill_each(n, marks, |i| {
        let end = !((loose[i] == 1) & (off_tips[i] == 1));
        let middle = off_others[i] != 1;
        u8::from(!does_agree(letter(nodo, Kind::Nodo, i, 2), end, middle))
    });
}

// 56 and 58 by the marks of the nodes that start and end no tramo and of those that fewer than two point objects name, with X and Y of the nodes
// and which vertices are tips in hand and room lent. Vertices are read only where a node's place matters.
fn mark_by_place(
    vertice: &[u8],
    nodes: &Nodes<'_, '_>,
    tips: &[u8],
    loose: &[u8],
    few: &[u8],
    most: usize,
    vx: &mut [u64],
    vy: &mut [u64],
    hints: &mut [u16],
    order: &mut [usize],
    pairs: &mut [u64],
    pair_hints: &mut [u16],
    pair_order: &mut [usize],
    refs: &mut [u64],
    used: &mut [u8],
    off_tips: &mut [u8],
    off_others: &mut [u8],
    idle: &mut [u8],
    odd: &mut [u8],
)
    requires { Tips tips.now (table_of vertice.now Kind.Vertice) × (nodes.now.ids.n ≤ length loose.now) × (nodes.now.ids.n ≤ length few.now) × (nodes.now.ids.n ≤ most) × ((table_of vertice.now Kind.Vertice).count ≤ most) × (most ≤ length vx.old) × (most ≤ length vy.old) × (most ≤ length order.old) × (most ≤ length pairs.old) × (most ≤ length pair_order.old) × (most ≤ length refs.old) × (most ≤ length used.old) × (most ≤ length off_tips.old) × (most ≤ length off_others.old) × (most ≤ length idle.old) × (most ≤ length odd.old) }
    ensures marked { Marked idle.old idle.new (idle_by loose.now few.now (table_of vertice.now Kind.Vertice) (table_of nodes.now.file.now Kind.Nodo)) nodes.now.ids.n }
    ensures others { Marked odd.old odd.new (odd_by loose.now (table_of vertice.now Kind.Vertice) (table_of nodes.now.file.now Kind.Nodo)) nodes.now.ids.n }
{
    let n = nodes.ids.n;
    if asks_places(nodes.file, loose, few, n) {
        let v = fill_positions(vertice, Kind::Vertice, most, vx, vy);
        mark_sorts(
            tips, vx, vy, v, nodes.xs, nodes.ys, n, hints, order, pairs, pair_hints, pair_order,
            refs, used, off_tips, off_others,
        );
        mark_idle(loose, off_tips, off_others, few, n, idle);
        mark_odd(nodes.file, loose, off_tips, off_others, n, odd);
    } else {
        clear(idle, n);
        clear(odd, n);
    }
}

// The same with room for the marks too.
fn mark_in_room(
    ob_pun: &[u8],
    tramo: &[u8],
    vertice: &[u8],
    nodes: &Nodes<'_, '_>,
    named: &[u8],
    counts: &[u8],
    tips: &[u8],
    most: usize,
    vx: &mut [u64],
    vy: &mut [u64],
    hints: &mut [u16],
    order: &mut [usize],
    pairs: &mut [u64],
    pair_hints: &mut [u16],
    pair_order: &mut [usize],
    refs: &mut [u64],
    used: &mut [u8],
    loose: &mut [u8],
    few: &mut [u8],
    off_tips: &mut [u8],
    off_others: &mut [u8],
    idle: &mut [u8],
    odd: &mut [u8],
)
    requires { Named nodes.now.ids.keys.now nodes.now.ids.order.now nodes.now.ids.hints.now nodes.now.ids.way.hinted nodes.now.ids.n named.now (ends_tramo (table_of tramo.now Kind.Tramo)) × Counted nodes.now.ids.keys.now nodes.now.ids.order.now nodes.now.ids.hints.now nodes.now.ids.way.hinted nodes.now.ids.n counts.now (λ j. name_at Kind.ObPun (table_of ob_pun.now Kind.ObPun) j 3) (table_of ob_pun.now Kind.ObPun).count × Tips tips.now (table_of vertice.now Kind.Vertice) × (nodes.now.ids.n ≤ most) × ((table_of vertice.now Kind.Vertice).count ≤ most) × (most ≤ length vx.old) × (most ≤ length vy.old) × (most ≤ length order.old) × (most ≤ length pairs.old) × (most ≤ length pair_order.old) × (most ≤ length refs.old) × (most ≤ length used.old) × (most ≤ length loose.old) × (most ≤ length few.old) × (most ≤ length off_tips.old) × (most ≤ length off_others.old) × (most ≤ length idle.old) × (most ≤ length odd.old) }
    ensures marked { Marked idle.old idle.new (node_idle (table_of ob_pun.now Kind.ObPun) (table_of tramo.now Kind.Tramo) (table_of vertice.now Kind.Vertice) (table_of nodes.now.file.now Kind.Nodo)) (table_of nodes.now.file.now Kind.Nodo).count }
    ensures others { Marked odd.old odd.new (disagrees (table_of tramo.now Kind.Tramo) (table_of vertice.now Kind.Vertice) (table_of nodes.now.file.now Kind.Nodo)) (table_of nodes.now.file.now Kind.Nodo).count }
{
    mark_unheld(&nodes.ids, named, 1, loose);
    mark_unheld(&nodes.ids, counts, 2, few);
    mark_by_place(
        vertice, nodes, tips, loose, few, most, vx, vy, hints, order, pairs, pair_hints,
        pair_order, refs, used, off_tips, off_others, idle, odd,
    );
}

// 56 and 58 of the nodes, with their ids, X and Y, which of them start or end a tramo, how many point objects name them, and which vertices
// are tips in hand and room lent. Tramos and point objects are there for the contract alone. The marks of what a node is not stand in arrays of
// its own, since nothing else reads them.
pub fn mark_nodes(
    ob_pun: &[u8],
    tramo: &[u8],
    vertice: &[u8],
    nodes: &Nodes<'_, '_>,
    named: &[u8],
    counts: &[u8],
    tips: &[u8],
    most: usize,
    vx: &mut [u64],
    vy: &mut [u64],
    hints: &mut [u16],
    order: &mut [usize],
    pairs: &mut [u64],
    pair_hints: &mut [u16],
    pair_order: &mut [usize],
    refs: &mut [u64],
    used: &mut [u8],
    idle: &mut [u8],
    odd: &mut [u8],
)
    requires { Named nodes.now.ids.keys.now nodes.now.ids.order.now nodes.now.ids.hints.now nodes.now.ids.way.hinted nodes.now.ids.n named.now (ends_tramo (table_of tramo.now Kind.Tramo)) × Counted nodes.now.ids.keys.now nodes.now.ids.order.now nodes.now.ids.hints.now nodes.now.ids.way.hinted nodes.now.ids.n counts.now (λ j. name_at Kind.ObPun (table_of ob_pun.now Kind.ObPun) j 3) (table_of ob_pun.now Kind.ObPun).count × Tips tips.now (table_of vertice.now Kind.Vertice) × (nodes.now.ids.n ≤ most) × (most ≤ limit) × ((table_of vertice.now Kind.Vertice).count ≤ most) × (most ≤ length vx.old) × (most ≤ length vy.old) × (most ≤ length order.old) × (most ≤ length pairs.old) × (most ≤ length pair_order.old) × (most ≤ length refs.old) × (most ≤ length used.old) × (most ≤ length idle.old) × (most ≤ length odd.old) }
    ensures marked { Marked idle.old idle.new (node_idle (table_of ob_pun.now Kind.ObPun) (table_of tramo.now Kind.Tramo) (table_of vertice.now Kind.Vertice) (table_of nodes.now.file.now Kind.Nodo)) (table_of nodes.now.file.now Kind.Nodo).count }
    ensures others { Marked odd.old odd.new (disagrees (table_of tramo.now Kind.Tramo) (table_of vertice.now Kind.Vertice) (table_of nodes.now.file.now Kind.Nodo)) (table_of nodes.now.file.now Kind.Nodo).count }
{
    let mut loose = [0u8; LIMIT];
    let mut few = [0u8; LIMIT];
    let mut off_tips = [0u8; LIMIT];
    let mut off_others = [0u8; LIMIT];
    mark_in_room(
        ob_pun,
        tramo,
        vertice,
        nodes,
        named,
        counts,
        tips,
        most,
        vx,
        vy,
        hints,
        order,
        pairs,
        pair_hints,
        pair_order,
        refs,
        used,
        &mut loose,
        &mut few,
        &mut off_tips,
        &mut off_others,
        idle,
        odd,
    );
}
