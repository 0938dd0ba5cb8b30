// Vertex numbering: reasons 50 and 51. Only the order number counts, never the place in the file.
ghost use Rattle.std.specs.Prelude.{◌≡◌, ℕ, ◌≤◌, ◌<◌, ◌^◌, length};
ghost use Rattle.index.specs.Keys.{listed};
ghost use Rattle.index.specs.Marks.{Marked};
ghost use Rattle.topology.specs.Rules.{gap, unpaired};

use crate::each::fill_each;
use index::way::Lookup;

// 50, of a vertex.
fn is_gap(vertices: &Lookup<'_>, i: usize) -> bool
    requires { i < vertices.now.n }
    ensures { result ≡ gap (listed vertices.now.keys.now) vertices.now.n i }
{
    let x = vertices.keys[i];
    if x % 100000 == 0 {
        return true;
    }
    if 1 < x % 100000 {
        return !vertices.is_there(x - 1);
    }
    false
}

// 51, of a vertex.
fn is_alone(vertices: &Lookup<'_>, i: usize) -> bool
    requires { i < vertices.now.n }
    ensures { result ≡ unpaired (listed vertices.now.keys.now) vertices.now.n i }
{
    let x = vertices.keys[i];
    if x % 100000 == 1 {
        return !vertices.is_there(x + 1);
    }
    false
}

// Marks the vertices that break 50, with their keys in hand.
pub fn mark_gaps(vertices: &Lookup<'_>, marks: &mut [u8])
    requires { vertices.now.n ≤ length marks.old }
    ensures { Marked marks.old marks.new (gap (listed vertices.now.keys.now) vertices.now.n) vertices.now.n }
{
    fill_each(vertices.n, marks, |i| u8::from(is_gap(vertices, i)));
}

// Marks the vertices that break 51, with their keys in hand.
pub fn mark_alone(vertices: &Lookup<'_>, marks: &mut [u8])
    requires { vertices.now.n ≤ length marks.old }
    ensures { Marked marks.old marks.new (unpaired (listed vertices.now.keys.now) vertices.now.n) vertices.now.n }
{
    fill_each(vertices.n, marks, |i| u8::from(is_alone(vertices, i)));
}
