// Places in X and Y, and look-ups of them.
ghost use Rattle.std.specs.Prelude.{◌≡◌, ◌&&◌, ℕ, ◌+◌, ◌*◌, ◌%◌, ◌≤◌, ◌<◌, ◌^◌, eqb};
ghost use Rattle.index.specs.Look.{Sought};
ghost use Rattle.record.specs.Says.{table_of};
ghost use Rattle.record.specs.Names.{name_at, key_of};
ghost use Rattle.record.specs.machinery.Columns.{Fills};
ghost use Rattle.record.specs.declared.kind.Kind.TheVariants.{Vertice, Nodo};
ghost use Rattle.topology.specs.Rules.{x_at, y_at, z_at, node_in};
ghost use Rattle.topology.specs.machinery.Places.{Positions};

use index::way::Lookup;
use record::columns::{place, rows};
use record::kind::Kind;
use record::names::name;

// X, Y and Z of a record have a function each, since the rules name them so (`x_at`, `y_at` and `z_at`, specs/Rules.antt).
pub(crate) fn x_at(s: &[u8], k: Kind, i: usize) -> u64
    ensures value { result ≡ x_at k (table_of s.now k) i }
    ensures narrow { result < 2 ^ 40 }
{
    place(s, k, i, k.x_field())
}

pub(crate) fn y_at(s: &[u8], k: Kind, i: usize) -> u64
    ensures value { result ≡ y_at k (table_of s.now k) i }
    ensures narrow { result < 2 ^ 40 }
{
    place(s, k, i, k.x_field() + 2)
}

pub(crate) fn z_at(s: &[u8], k: Kind, i: usize) -> u64
    ensures value { result ≡ z_at k (table_of s.now k) i }
    ensures narrow { result < 2 ^ 40 }
{
    place(s, k, i, k.x_field() + 4)
}

// Whether record j is at X and Y.
pub(crate) fn is_at(s: &[u8], k: Kind, j: usize, x: u64, y: u64) -> bool
    ensures { result ≡ (eqb (x_at k (table_of s.now k) j) x && eqb (y_at k (table_of s.now k) j) y) }
{
    (x_at(s, k, j) == x) & (y_at(s, k, j) == y)
}

// Whether a node with the name is at X and Y, by scanning.
pub(crate) fn scan_node(nodo: &[u8], wanted: u64, x: u64, y: u64) -> bool
    ensures { result ≡ node_in (table_of nodo.now Kind.Nodo) wanted x y }
{
    (0..rows(nodo, Kind::Nodo)).any(|j| (name(nodo, Kind::Nodo, j, 1) == wanted)
        & is_at(nodo, Kind::Nodo, j, x, y))
}

// The nodes in hand: their file, their ids, by which they are looked up, and the columns of X and Y.
#[derive(Clone, Copy)]
pub struct Nodes<'f, 'a> {
    pub file: &'f [u8],
    pub ids: Lookup<'a>,
    pub xs: &'a [u64],
    pub ys: &'a [u64],
    pub ghost named: { Fills ids.keys.now (λ j. name_at Nodo (table_of file.now Nodo) j 1) (table_of file.now Nodo).count ids.n },
    pub ghost placed: { Positions xs.now ys.now Nodo (table_of file.now Nodo) ids.n },
}

// The vertices in hand: their file, their keys, by which they are looked up, and the columns of X and Y.
#[derive(Clone, Copy)]
pub struct Vertices<'f, 'a> {
    pub file: &'f [u8],
    pub keys: Lookup<'a>,
    pub xs: &'a [u64],
    pub ys: &'a [u64],
    pub ghost keyed: { Fills keys.keys.now (key_of Vertice (table_of file.now Vertice)) (table_of file.now Vertice).count keys.n },
    pub ghost placed: { Positions xs.now ys.now Vertice (table_of file.now Vertice) keys.n },
}

// Whether a node with the name is at X and Y, with what a look-up of the name found. The node that was found decides where it is there, and
// where ids are known to differ, since then no other has the name.
pub(crate) fn node_at(
    nodes: &Nodes<'_, '_>,
    wanted: u64,
    found: Option<usize>,
    x: u64,
    y: u64,
) -> bool
    requires { Sought nodes.now.ids.keys.now nodes.now.ids.n wanted found }
    ensures { result ≡ node_in (table_of nodes.now.file.now Kind.Nodo) wanted x y }
{
    match found {
        None => false,
        Some(j) => {
            if (nodes.xs[j] == x) & (nodes.ys[j] == y) {
                return true;
            }
            if nodes.ids.way.apart {
                return false;
            }
            scan_node(nodes.file, wanted, x, y)
        }
    }
}
