// Nodes and linear objects in use: what 54 shows, the first node at a place, and 57.
ghost use Rattle.std.specs.Prelude.{◌≡◌, ◌≤◌, length};
ghost use Rattle.laws.specs.Find.{first_index};
ghost use Rattle.index.specs.Keys.{found_of};
ghost use Rattle.index.specs.Marks.{Marked};
ghost use Rattle.record.specs.machinery.Columns.{Fills};
ghost use Rattle.record.specs.Says.{table_of};
ghost use Rattle.record.specs.Names.{name_at};
ghost use Rattle.topology.specs.Rules.{same_place, object_idle};
ghost use Rattle.topology.specs.machinery.Places.{spot_of};

use crate::places::{x_at, y_at, z_at};
use crate::used::{mark_unheld, mark_used};
use index::marks::clear;
use index::way::Lookup;
use record::kind::Kind;

// Whether node j has the X, Y and Z of node i.
fn same_place(nodo: &[u8], i: usize, j: usize) -> bool
    ensures { result ≡ same_place (table_of nodo.now Kind.Nodo) i j }
{
    let k = Kind::Nodo;
    (x_at(nodo, k, j) == x_at(nodo, k, i))
        & ((y_at(nodo, k, j) == y_at(nodo, k, i)) & (z_at(nodo, k, j) == z_at(nodo, k, i)))
}

// The first node before node i at its place, by scanning.
pub fn place_before(nodo: &[u8], i: usize) -> Option<usize>
    ensures { result ≡ found_of (first_index (same_place (table_of nodo.now Kind.Nodo) i) i) }
{
    (0..i).find(|&j| same_place(nodo, i, j))
}

// X, Y and Z as one number: equal places have equal numbers.
pub fn spot(x: u64, y: u64, z: u64) -> u64
    ensures { result ≡ spot_of x y z }
{
    (x % 2147483648 * 4093082899 + y % 8589934583) % 68719476731 * 268435456 + z % 268435456
}

// 57: marks the linear objects that no tramo names, with their ids in hand.
pub fn mark_idle_objects(
    tramo: &[u8],
    ob_lin: &[u8],
    ids: &Lookup<'_>,
    refs: &mut [u64],
    used: &mut [u8],
    marks: &mut [u8],
)
    requires { Fills ids.now.keys.now (λ j. name_at Kind.ObLin (table_of ob_lin.now Kind.ObLin) j 1) (table_of ob_lin.now Kind.ObLin).count ids.now.n × (ids.now.n ≤ length used.old) × (ids.now.n ≤ length marks.old) × ((table_of tramo.now Kind.Tramo).count ≤ length refs.old) }
    ensures { Marked marks.old marks.new (object_idle (table_of ob_lin.now Kind.ObLin) (table_of tramo.now Kind.Tramo)) (table_of ob_lin.now Kind.ObLin).count }
{
    clear(used, ids.n);
    mark_used(tramo, Kind::Tramo, 2, ids, refs, used);
    mark_unheld(ids, used, 1, marks);
}
