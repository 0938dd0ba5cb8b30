// The tallies of the tramos and the vertices: 50 to 53 and 59.
ghost use Rattle.std.specs.Prelude.{◌≡◌, map, ◌≤◌, ◌<◌, length};
ghost use Rattle.laws.specs.Find.{names};
ghost use Rattle.index.specs.Keys.{listed};
ghost use Rattle.record.specs.Files.{files_of, delivery_of};
ghost use Rattle.record.specs.Names.{key_of};
ghost use Rattle.record.specs.machinery.Columns.{Fills};
ghost use Rattle.fifties.specs.machinery.Cells.{fifty_tally};
ghost use Rattle.topology.specs.machinery.Nodes.{Tips};
ghost use Rattle.topology.specs.machinery.Used.{Used};
ghost use Rattle.topology.specs.Rules.{highest_in, tramo_line, tramo_start, tramo_end, ends_tramo};

use crate::room::Room;
use index::tally::{Tally, no_tally, with_marks};
use index::way::Lookup;
use record::files::file_of;
use record::fill::{fill_keys, fill_names};
use record::kind::{FILES, Kind};
use topology::ends::{End, mark_apart, mark_endless};
use topology::orders::{mark_alone, mark_gaps};
use topology::places::{Nodes, Vertices};
use topology::spots::fill_positions;
use topology::tops::prepare_ends;

// 50 and 51, of the vertices, with their keys in hand.
fn tally_vertices<'a>(files: [&'a [u8]; FILES], keys: &Lookup<'_>, marks: &mut [u8]) -> Tally
    requires { Fills keys.now.keys.now (key_of Kind.Vertice (delivery_of (files_of (map (λ x. x.now) files)) Kind.Vertice)) (delivery_of (files_of (map (λ x. x.now) files)) Kind.Vertice).count keys.now.n × (keys.now.n ≤ length marks.old) }
    ensures { result ≡ fifty_tally (delivery_of (files_of (map (λ x. x.now) files.entry))) Kind.Vertice }
{
    mark_gaps(keys, marks);
    let t = with_marks(no_tally(), marks, keys.n, 20);
    mark_alone(keys, marks);
    with_marks(t, marks, keys.n, 21)
}

// 59, 52 and 53, of t tramos, with the columns of the highest keys of their lines and of their nodes' names, and the vertices and the nodes in
// hand.
fn tally_ends<'a>(
    files: [&'a [u8]; FILES],
    ends: &[u64],
    starts: &[u64],
    lasts: &[u64],
    t: usize,
    vertices: &Vertices<'_, '_>,
    nodes: &Nodes<'_, '_>,
    named: &mut [u8],
    marks: &mut [u8],
) -> Tally
    requires { (vertices.now.file.now ≡ files_of (map (λ x. x.now) files) Kind.Vertice) × (nodes.now.file.now ≡ files_of (map (λ x. x.now) files) Kind.Nodo) × Fills ends.now (λ i. highest_in (listed vertices.now.keys.keys.now) (tramo_line (delivery_of (files_of (map (λ x. x.now) files)) Kind.Tramo) i) vertices.now.keys.n) (delivery_of (files_of (map (λ x. x.now) files)) Kind.Tramo).count t × Fills starts.now (tramo_start (delivery_of (files_of (map (λ x. x.now) files)) Kind.Tramo)) (delivery_of (files_of (map (λ x. x.now) files)) Kind.Tramo).count t × Fills lasts.now (tramo_end (delivery_of (files_of (map (λ x. x.now) files)) Kind.Tramo)) (delivery_of (files_of (map (λ x. x.now) files)) Kind.Tramo).count t × (t ≤ length marks.old) × (nodes.now.ids.n ≤ length named.old) }
    ensures value { result ≡ fifty_tally (delivery_of (files_of (map (λ x. x.now) files.entry))) Kind.Tramo }
    ensures held { Used nodes.now.ids.keys.now nodes.now.ids.order.now nodes.now.ids.hints.now nodes.now.ids.way.hinted nodes.now.ids.n named.old named.new (ends_tramo (delivery_of (files_of (map (λ x. x.now) files.entry)) Kind.Tramo)) }
{
    mark_endless(ends, t, marks);
    let endless = with_marks(no_tally(), marks, t, 49);
    mark_apart(End::Start, ends, starts, t, vertices, nodes, named, marks);
    let started = with_marks(endless, marks, t, 62);
    mark_apart(End::Last, ends, lasts, t, vertices, nodes, named, marks);
    with_marks(started, marks, t, 73)
}

// The same with room for the columns. Two are lent twice: what the vertices' lines and their highest keys stood in then has the nodes' names.
fn tally_tramos<'a, const N: usize, const H: usize>(
    files: [&'a [u8]; FILES],
    keys: &Lookup<'_>,
    nodes: &Nodes<'_, '_>,
    room: &mut Room<N, H>,
) -> Tally
    requires { Fills keys.now.keys.now (key_of Kind.Vertice (delivery_of (files_of (map (λ x. x.now) files)) Kind.Vertice)) (delivery_of (files_of (map (λ x. x.now) files)) Kind.Vertice).count keys.now.n × (nodes.now.file.now ≡ files_of (map (λ x. x.now) files) Kind.Nodo) × ((k : Kind) → (delivery_of (files_of (map (λ x. x.now) files)) k).count ≤ N) × (nodes.now.ids.n ≤ N) }
    ensures value { result ≡ fifty_tally (delivery_of (files_of (map (λ x. x.now) files.entry))) Kind.Tramo }
    ensures held { Used nodes.now.ids.keys.now nodes.now.ids.order.now nodes.now.ids.hints.now nodes.now.ids.way.hinted nodes.now.ids.n room.old.named room.new.named (ends_tramo (delivery_of (files_of (map (λ x. x.now) files.entry)) Kind.Tramo)) }
    ensures tipped { Tips room.new.tips (delivery_of (files_of (map (λ x. x.now) files.entry)) Kind.Vertice) }
{
    let tramo = file_of(files, Kind::Tramo);
    let vertice = file_of(files, Kind::Vertice);
    let t = prepare_ends(
        tramo,
        keys.keys,
        keys.n,
        &mut room.a,
        &mut room.hints,
        &mut room.order,
        &mut room.b,
        &mut room.c,
        &mut room.tips,
        &mut room.e,
    );
    fill_positions(vertice, Kind::Vertice, N, &mut room.c, &mut room.d);
    fill_names(tramo, Kind::Tramo, 6, &mut room.a);
    fill_names(tramo, Kind::Tramo, 7, &mut room.b);
    let vertices = Vertices {
        file: vertice,
        keys: *keys,
        xs: &room.c,
        ys: &room.d,
    };
    tally_ends(
        files,
        &room.e,
        &room.a,
        &room.b,
        t,
        &vertices,
        nodes,
        &mut room.named,
        &mut room.marks,
    )
}

// The tallies of the tramos and of the vertices.
#[derive(Clone, Copy)]
pub struct Lines {
    pub tramos: Tally,
    pub vertices: Tally,
}

// They are made together, with the nodes in hand and room lent: the keys of the vertices are read and prepared once for both, and no other
// rule looks them up.
pub(crate) fn tally_lines<'a, const N: usize, const H: usize>(
    files: [&'a [u8]; FILES],
    nodes: &Nodes<'_, '_>,
    keys: &mut [u64],
    key_hints: &mut [u16],
    key_order: &mut [usize],
    room: &mut Room<N, H>,
) -> Lines
    requires { (nodes.now.file.now ≡ files_of (map (λ x. x.now) files) Kind.Nodo) × ((k : Kind) → (delivery_of (files_of (map (λ x. x.now) files)) k).count ≤ N) × (N ≤ length keys.old) × (N ≤ length key_order.old) × (nodes.now.ids.n ≤ N) }
    ensures tramos_value { result.tramos ≡ fifty_tally (delivery_of (files_of (map (λ x. x.now) files.entry))) Kind.Tramo }
    ensures others { result.vertices ≡ fifty_tally (delivery_of (files_of (map (λ x. x.now) files.entry))) Kind.Vertice }
    ensures held { Used nodes.now.ids.keys.now nodes.now.ids.order.now nodes.now.ids.hints.now nodes.now.ids.way.hinted nodes.now.ids.n room.old.named room.new.named (ends_tramo (delivery_of (files_of (map (λ x. x.now) files.entry)) Kind.Tramo)) }
    ensures tipped { Tips room.new.tips (delivery_of (files_of (map (λ x. x.now) files.entry)) Kind.Vertice) }
{
    let n = fill_keys(file_of(files, Kind::Vertice), Kind::Vertice, keys);
    let by = Lookup::prepare(keys, n, key_hints, key_order);
    let tramos = tally_tramos(files, &by, nodes, room);
    let vertices = tally_vertices(files, &by, &mut room.marks);
    Lines { tramos, vertices }
}
