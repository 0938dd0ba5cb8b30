// Line ends and nodes: reasons 52, 53, 59 and 55. X and Y are compared, never Z.
ghost use Rattle.std.specs.Prelude.{◌≡◌, ℕ, ◌≤◌, eqb, length, get_or};
ghost use Rattle.laws.specs.Find.{names};
ghost use Rattle.index.specs.Keys.{listed};
ghost use Rattle.index.specs.Look.{Sought};
ghost use Rattle.index.specs.Marks.{Marked};
ghost use Rattle.record.specs.Says.{table_of};
ghost use Rattle.record.specs.Names.{name_at, key_of};
ghost use Rattle.topology.specs.machinery.Ends.{end_key, is_gone, apart_at, astray_at};
ghost use Rattle.topology.specs.machinery.Used.{Used, Counted};
ghost use Rattle.topology.specs.Rules.{meets, elsewhere};

use crate::each::fill_each;
use crate::places::{Nodes, Vertices, node_at, scan_node, x_at, y_at};
use crate::used::{count_in, put};
use record::columns::rows;
use record::kind::Kind;
use record::names::record_key;

// Whether a vertex with the key is where a node with the name is, by scanning.
fn scan_meets<'a>(vertice: &'a [u8], nodo: &'a [u8], key: u64, wanted: u64) -> bool
    ensures { result ≡ meets (table_of vertice.now Kind.Vertice) (table_of nodo.now Kind.Nodo) key wanted }
{
    (0..rows(vertice, Kind::Vertice)).any(|j| {
        record_key(vertice, Kind::Vertice, j) == key
            && scan_node(
                nodo,
                wanted,
                x_at(vertice, Kind::Vertice, j),
                y_at(vertice, Kind::Vertice, j),
            )
    })
}

// Whether a vertex has the key and none that has it is where a node with the name is. The vertex that is found decides where it meets
// the node, and where keys are known to differ, since then no other has its key.
fn is_elsewhere(
    vertices: &Vertices<'_, '_>,
    nodes: &Nodes<'_, '_>,
    key: u64,
    wanted: u64,
    node: Option<usize>,
) -> bool
    requires { Sought nodes.now.ids.keys.now nodes.now.ids.n wanted node }
    ensures { result ≡ elsewhere (table_of vertices.now.file.now Kind.Vertice) (table_of nodes.now.file.now Kind.Nodo) key wanted }
{
    let found = vertices.keys.look(key);
    match found {
        None => false,
        Some(j) => {
            if node_at(nodes, wanted, node, vertices.xs[j], vertices.ys[j]) {
                return false;
            }
            if vertices.keys.way.apart {
                return true;
            }
            !scan_meets(vertices.file, nodes.file, key, wanted)
        }
    }
}

// Of which of a tramo's ends a search asks.
#[derive(Clone, Copy)]
pub enum End {
    Start,
    Last,
}

impl End {
    // The key of the vertex at that end of a line, by the highest key of the line.
    fn key(self, top: u64) -> u64
        ensures { result ≡ end_key self top }
    {
        match self {
            End::Start => top / 100000 * 100000 + 1,
            End::Last => top,
        }
    }

    // Whether the line is known to have no such vertex: where no key is over 0, none of its vertices has order 1.
    fn is_gone(self, top: u64) -> bool
        ensures { result ≡ is_gone self top }
    {
        match self {
            End::Start => top == 0,
            End::Last => false,
        }
    }
}

// Whether an end of a line with the highest key lies elsewhere than the node with the name, with the vertices and the nodes in hand.
fn is_apart(
    end: End,
    vertices: &Vertices<'_, '_>,
    nodes: &Nodes<'_, '_>,
    top: u64,
    wanted: u64,
    node: Option<usize>,
) -> bool
    requires { Sought nodes.now.ids.keys.now nodes.now.ids.n wanted node }
    ensures { result ≡ apart_at end (table_of vertices.now.file.now Kind.Vertice) (table_of nodes.now.file.now Kind.Nodo) top wanted }
{
    if end.is_gone(top) {
        return false;
    }
    is_elsewhere(vertices, nodes, end.key(top), wanted, node)
}

// Marks, of t tramos, those whose end lies elsewhere than its node, by the columns of the highest keys of their lines and of the nodes' names.
// Each node is looked up once: what it finds is in use.
pub fn mark_apart(
    end: End,
    ends: &[u64],
    wanted: &[u64],
    t: usize,
    vertices: &Vertices<'_, '_>,
    nodes: &Nodes<'_, '_>,
    used: &mut [u8],
    marks: &mut [u8],
)
    requires { (t ≤ length ends.now) × (t ≤ length wanted.now) × (t ≤ length marks.old) × (nodes.now.ids.n ≤ length used.old) }
    ensures marked { Marked marks.old marks.new (λ i. apart_at end (table_of vertices.now.file.now Kind.Vertice) (table_of nodes.now.file.now Kind.Nodo) (get_or ends.now i 0) (get_or wanted.now i 0)) t }
    ensures held { Used nodes.now.ids.keys.now nodes.now.ids.order.now nodes.now.ids.hints.now nodes.now.ids.way.hinted nodes.now.ids.n used.old used.new (names (listed wanted.now) t) }
{
    for i in 0..t {
        let x = wanted[i];
        let node = nodes.ids.look(x);
        put(node, used);
        marks[i] = u8::from(is_apart(end, vertices, nodes, ends[i], x, node));
    }
}

// Marks, of t tramos, those whose line has no highest vertex, by the column of the highest keys.
pub fn mark_endless(ends: &[u64], t: usize, marks: &mut [u8])
    requires { (t ≤ length ends.now) × (t ≤ length marks.old) }
    ensures { Marked marks.old marks.new (λ i. eqb (get_or ends.now i 0) 0) t }
{
    fill_each(t, marks, |i| u8::from(ends[i] == 0));
}

// 55, of a point object by what it names and where it lies: it names a node and lies elsewhere.
fn is_astray(nodes: &Nodes<'_, '_>, wanted: u64, node: Option<usize>, x: u64, y: u64) -> bool
    requires { Sought nodes.now.ids.keys.now nodes.now.ids.n wanted node }
    ensures { result ≡ astray_at (table_of nodes.now.file.now Kind.Nodo) wanted x y }
{
    if wanted == 0 {
        return false;
    }
    !node_at(nodes, wanted, node, x, y)
}

// Marks, of n point objects, those that lie elsewhere than their node, by the columns of what they name and of X and Y. How often a node is
// named is counted.
pub fn mark_astray(
    wanted: &[u64],
    xs: &[u64],
    ys: &[u64],
    n: usize,
    nodes: &Nodes<'_, '_>,
    counts: &mut [u8],
    marks: &mut [u8],
)
    requires { (n ≤ length wanted.now) × (n ≤ length xs.now) × (n ≤ length ys.now) × (n ≤ length marks.old) × Counted nodes.now.ids.keys.now nodes.now.ids.order.now nodes.now.ids.hints.now nodes.now.ids.way.hinted nodes.now.ids.n counts.old (listed wanted.now) 0 }
    ensures marked { Marked marks.old marks.new (λ i. astray_at (table_of nodes.now.file.now Kind.Nodo) (get_or wanted.now i 0) (get_or xs.now i 0) (get_or ys.now i 0)) n }
    ensures counted { Counted nodes.now.ids.keys.now nodes.now.ids.order.now nodes.now.ids.hints.now nodes.now.ids.way.hinted nodes.now.ids.n counts.new (listed wanted.now) n }
{
    for i in 0..n {
        let x = wanted[i];
        let node = nodes.ids.look(x);
        count_in(node, counts);
        marks[i] = u8::from(is_astray(nodes, x, node, xs[i], ys[i]));
    }
}
