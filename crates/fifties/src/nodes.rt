// The tallies of the point objects, the linear objects and the nodes: 54 to 58.
ghost use Rattle.std.specs.Prelude.{◌≡◌, map, ◌≤◌, ◌<◌, length};
ghost use Rattle.laws.specs.Find.{names};
ghost use Rattle.record.specs.Files.{files_of, delivery_of};
ghost use Rattle.record.specs.Names.{name_at};
ghost use Rattle.record.specs.Table.{limit};
ghost use Rattle.fifties.specs.machinery.Cells.{fifty_tally, fifty_tallies};
ghost use Rattle.topology.specs.Rules.{ends_tramo};
ghost use Rattle.topology.specs.machinery.Nodes.{Tips};
ghost use Rattle.topology.specs.machinery.Used.{Named, Counted};

use crate::room::Room;
use index::marks::clear;
use index::tally::{Tally, no_tally, with_marks};
use index::way::Lookup;
use record::files::file_of;
use record::fill::fill_names;
use record::kind::{FILES, Kind, LIMIT};
use topology::ends::mark_astray;
use topology::nodes::mark_idle_objects;
use topology::places::Nodes;
use topology::sorts::mark_nodes;
use topology::spots::{fill_positions, mark_same_place};

// 55, of the point objects, with the nodes in hand and room for what they name, where they lie and how often nodes are named.
fn tally_points<'a>(
    files: [&'a [u8]; FILES],
    nodes: &Nodes<'_, '_>,
    most: usize,
    wanted: &mut [u64],
    xs: &mut [u64],
    ys: &mut [u64],
    counts: &mut [u8],
    marks: &mut [u8],
) -> Tally
    requires { (nodes.now.file.now ≡ files_of (map (λ x. x.now) files) Kind.Nodo) × ((delivery_of (files_of (map (λ x. x.now) files)) Kind.ObPun).count ≤ most) × (most ≤ length wanted.old) × (most ≤ length xs.old) × (most ≤ length ys.old) × (most ≤ length marks.old) × (nodes.now.ids.n ≤ length counts.old) }
    ensures value { result ≡ fifty_tally (delivery_of (files_of (map (λ x. x.now) files.entry))) Kind.ObPun }
    ensures counted { Counted nodes.now.ids.keys.now nodes.now.ids.order.now nodes.now.ids.hints.now nodes.now.ids.way.hinted nodes.now.ids.n counts.new (λ j. name_at Kind.ObPun (delivery_of (files_of (map (λ x. x.now) files.entry)) Kind.ObPun) j 3) (delivery_of (files_of (map (λ x. x.now) files.entry)) Kind.ObPun).count }
{
    let ob_pun = file_of(files, Kind::ObPun);
    let n = fill_names(ob_pun, Kind::ObPun, 3, wanted);
    fill_positions(ob_pun, Kind::ObPun, most, xs, ys);
    clear(counts, nodes.ids.n);
    mark_astray(wanted, xs, ys, n, nodes, counts, marks);
    with_marks(no_tally(), marks, n, 35)
}

// 57, of the linear objects, with room for their ids and for what the tramos name.
fn tally_objects<'a>(
    files: [&'a [u8]; FILES],
    ids: &mut [u64],
    hints: &mut [u16],
    order: &mut [usize],
    refs: &mut [u64],
    used: &mut [u8],
    marks: &mut [u8],
) -> Tally
    requires { ((delivery_of (files_of (map (λ x. x.now) files)) Kind.ObLin).count ≤ length ids.old) × ((delivery_of (files_of (map (λ x. x.now) files)) Kind.ObLin).count ≤ length order.old) × ((delivery_of (files_of (map (λ x. x.now) files)) Kind.ObLin).count ≤ length used.old) × ((delivery_of (files_of (map (λ x. x.now) files)) Kind.ObLin).count ≤ length marks.old) × ((delivery_of (files_of (map (λ x. x.now) files)) Kind.Tramo).count ≤ length refs.old) }
    ensures { result ≡ fifty_tally (delivery_of (files_of (map (λ x. x.now) files.entry))) Kind.ObLin }
{
    let ob_lin = file_of(files, Kind::ObLin);
    let tramo = file_of(files, Kind::Tramo);
    let n = fill_names(ob_lin, Kind::ObLin, 1, ids);
    let by = Lookup::prepare(ids, n, hints, order);
    mark_idle_objects(tramo, ob_lin, &by, refs, used, marks);
    with_marks(no_tally(), marks, n, 7)
}

// 54, 56 and 58, of the nodes, with their ids, which of them start or end a tramo, how often they are named and which vertices are a line's first
// or last in hand and room for places and marks.
fn tally_nodes<'a>(
    files: [&'a [u8]; FILES],
    nodes: &Nodes<'_, '_>,
    most: usize,
    named: &[u8],
    counts: &[u8],
    tips: &[u8],
    xs: &mut [u64],
    ys: &mut [u64],
    hints: &mut [u16],
    order: &mut [usize],
    zs: &mut [u64],
    spots: &mut [u64],
    pairs: &mut [u64],
    pair_hints: &mut [u16],
    pair_order: &mut [usize],
    used: &mut [u8],
    marks: &mut [u8],
) -> Tally
    requires { (nodes.now.file.now ≡ files_of (map (λ x. x.now) files) Kind.Nodo) × ((k : Kind) → (delivery_of (files_of (map (λ x. x.now) files)) k).count ≤ most) × (most ≤ limit) × Named nodes.now.ids.keys.now nodes.now.ids.order.now nodes.now.ids.hints.now nodes.now.ids.way.hinted nodes.now.ids.n named.now (ends_tramo (delivery_of (files_of (map (λ x. x.now) files)) Kind.Tramo)) × Counted nodes.now.ids.keys.now nodes.now.ids.order.now nodes.now.ids.hints.now nodes.now.ids.way.hinted nodes.now.ids.n counts.now (λ j. name_at Kind.ObPun (delivery_of (files_of (map (λ x. x.now) files)) Kind.ObPun) j 3) (delivery_of (files_of (map (λ x. x.now) files)) Kind.ObPun).count × Tips tips.now (delivery_of (files_of (map (λ x. x.now) files)) Kind.Vertice) × (most ≤ length xs.old) × (most ≤ length ys.old) × (most ≤ length order.old) × (most ≤ length zs.old) × (most ≤ length spots.old) × (most ≤ length pairs.old) × (most ≤ length pair_order.old) × (most ≤ length used.old) × (most ≤ length marks.old) }
    ensures { result ≡ fifty_tally (delivery_of (files_of (map (λ x. x.now) files.entry))) Kind.Nodo }
{
    let ob_pun = file_of(files, Kind::ObPun);
    let tramo = file_of(files, Kind::Tramo);
    let vertice = file_of(files, Kind::Vertice);
    let m = nodes.ids.n;
    mark_same_place(
        nodes.file, nodes.xs, nodes.ys, m, zs, spots, hints, order, pairs, marks,
    );
    let t = with_marks(no_tally(), marks, m, 4);
    let mut odd = [0u8; LIMIT];
    mark_nodes(
        ob_pun, tramo, vertice, nodes, named, counts, tips, most, xs, ys, hints, order, pairs,
        pair_hints, pair_order, zs, used, marks, &mut odd,
    );
    let idle = with_marks(t, marks, m, 6);
    with_marks(idle, &odd, m, 28)
}

// Each file's tally, with those of the tramos and the vertices and the nodes in hand. No rule of the fifties is read of CATALOGO, OB_TEX and
// OB_COMP. (Its two arrays stay out of its callers' frames: of a file that is too big the programs take no room for them.)
#[inline(never)]
pub(crate) fn tally_in_hand<'a, const N: usize, const H: usize>(
    files: [&'a [u8]; FILES],
    tramos: Tally,
    vertices: Tally,
    nodes: &Nodes<'_, '_>,
    pairs: &mut [u64],
    pair_hints: &mut [u16],
    pair_order: &mut [usize],
    room: &mut Room<N, H>,
) -> [Tally; FILES]
    requires { (tramos ≡ fifty_tally (delivery_of (files_of (map (λ x. x.now) files))) Kind.Tramo) × (vertices ≡ fifty_tally (delivery_of (files_of (map (λ x. x.now) files))) Kind.Vertice) × (nodes.now.file.now ≡ files_of (map (λ x. x.now) files) Kind.Nodo) × ((k : Kind) → (delivery_of (files_of (map (λ x. x.now) files)) k).count ≤ N) × (N ≤ length pairs.old) × (N ≤ length pair_order.old) × Named nodes.now.ids.keys.now nodes.now.ids.order.now nodes.now.ids.hints.now nodes.now.ids.way.hinted nodes.now.ids.n room.old.named (ends_tramo (delivery_of (files_of (map (λ x. x.now) files)) Kind.Tramo)) × Tips room.old.tips (delivery_of (files_of (map (λ x. x.now) files)) Kind.Vertice) }
    ensures { result ≡ fifty_tallies (delivery_of (files_of (map (λ x. x.now) files.entry))) }
{
    let mut counts = [0u8; LIMIT];
    let mut used = [0u8; LIMIT];
    let points = tally_points(
        files,
        nodes,
        N,
        &mut room.a,
        &mut room.b,
        &mut room.c,
        &mut counts,
        &mut room.marks,
    );
    let objects = tally_objects(
        files,
        &mut room.a,
        &mut room.hints,
        &mut room.order,
        &mut room.b,
        &mut used,
        &mut room.marks,
    );
    let nodes_tally = tally_nodes(
        files,
        nodes,
        N,
        &room.named,
        &counts,
        &room.tips,
        &mut room.a,
        &mut room.b,
        &mut room.hints,
        &mut room.order,
        &mut room.c,
        &mut room.d,
        pairs,
        pair_hints,
        pair_order,
        &mut used,
        &mut room.marks,
    );
    [
        no_tally(),
        points,
        no_tally(),
        objects,
        tramos,
        vertices,
        nodes_tally,
        no_tally(),
    ]
}
