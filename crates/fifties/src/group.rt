// The fifties: the tally of each file's rules, and the first break of a delivery.
//
// A rule's function only looks up and marks: the columns that several rules read, the keys of the vertices, the ids of the nodes, and X and
// Y of both, are filled once, and all room is lent, so that a small delivery takes little of it.
ghost use Rattle.std.specs.Prelude.{◌≡◌, map, ◌≤◌, ◌<◌, length, get_or};
ghost use Rattle.record.specs.Table.{limit};
ghost use Rattle.record.specs.Files.{files_of, delivery_of};
ghost use Rattle.record.specs.Says.{table_of};
ghost use Rattle.keys.specs.machinery.Groups.{at_file};
ghost use Rattle.fifties.specs.machinery.Cells.{fifty_tally, fifty_tallies};
ghost use Rattle.topology.specs.Rules.{reasons_at};
ghost use Rattle.fifties.specs.machinery.Findings.{topology_in, topology_finding};

use crate::lines::tally_lines;
use crate::nodes::tally_in_hand;
use crate::room::Room;
use index::marks::clear;
use index::tally::Tally;
use index::way::Lookup;
use index::{FEW_HINTS, HINTS};
use keys::group::tally_of;
use keys::over::first_of_files;
use record::check::break_of;
use record::files::{all_few, file_of};
use record::fill::fill_names;
use record::kind::{FEW, FILES, Kind, LIMIT};
use record::reason::{Break, Reason};
use topology::nodes::place_before;
use topology::places::Nodes;
use topology::spots::fill_positions;

// Each file's tally, in arrays for N records a file and tables for H hints. Once the tramos and the vertices are gone over, what the
// vertices' keys stood in is lent to the nodes.
fn tally_within<'a, const N: usize, const H: usize>(files: [&'a [u8]; FILES]) -> [Tally; FILES]
    requires within { (k : Kind) → (delivery_of (files_of (map (λ x. x.now) files)) k).count ≤ N }
    requires sizes { (N ≤ 16384) × (H ≤ 32768) }
    ensures { result ≡ fifty_tallies (delivery_of (files_of (map (λ x. x.now) files.entry))) }
{
    let mut keys = [0u64; N];
    let mut key_hints = [0u16; H];
    let mut key_order = [0usize; N];
    let mut ids = [0u64; N];
    let mut id_hints = [0u16; H];
    let mut id_order = [0usize; N];
    let mut nx = [0u64; N];
    let mut ny = [0u64; N];
    let mut room = Room::<N, H>::new();
    let nodo = file_of(files, Kind::Nodo);
    let m = fill_names(nodo, Kind::Nodo, 1, &mut ids);
    let by = Lookup::prepare(&ids, m, &mut id_hints, &mut id_order);
    fill_positions(nodo, Kind::Nodo, N, &mut nx, &mut ny);
    clear(&mut room.named, m);
    let nodes = Nodes {
        file: nodo,
        ids: by,
        xs: &nx,
        ys: &ny,
    };
    let lines = tally_lines(
        files,
        &nodes,
        &mut keys,
        &mut key_hints,
        &mut key_order,
        &mut room,
    );
    tally_in_hand(
        files,
        lines.tramos,
        lines.vertices,
        &nodes,
        &mut keys,
        &mut key_hints,
        &mut key_order,
        &mut room,
    )
}

// The tally of the fifties in each file: the first break and how many there are.
pub fn tally_topology<'a>(files: [&'a [u8]; FILES]) -> [Tally; FILES]
    ensures { result ≡ fifty_tallies (delivery_of (files_of (map (λ x. x.now) files.entry))) }
{
    if all_few(files) {
        tally_within::<FEW, FEW_HINTS>(files)
    } else {
        tally_within::<LIMIT, HINTS>(files)
    }
}

// The reason 50 + u with its data, for record i; only a node's has any. u is a number, as it stands in a tally's cell and counts the rules
// of a ten (`reasons_at`, topology/specs/Rules.antt).
fn reason_in(u: usize, i: usize, nodo: &[u8]) -> Reason
    requires { i < limit }
    ensures { result ≡ get_or (reasons_at (table_of nodo.now Kind.Nodo) i) u Reason.LongFile10 }
{
    match u {
        0 => Reason::OrderGap50,
        1 => Reason::OrderAlone51,
        2 => Reason::StartElsewhere52,
        3 => Reason::EndElsewhere53,
        4 => Reason::SamePlace54(place_before(nodo, i).unwrap_or(0) + 1),
        5 => Reason::PointElsewhere55,
        6 => Reason::IdleNode56,
        7 => Reason::IdleObject57,
        8 => Reason::NodeType58,
        9 => Reason::NoLastVertex59,
        _ => Reason::LongFile10,
    }
}

// The first break of the fifties in file k, by its tally.
fn check_file<'a>(k: Kind, t: Tally, files: [&'a [u8]; FILES]) -> Result<(), Break>
    requires { t ≡ fifty_tally (delivery_of (files_of (map (λ x. x.now) files))) k }
    ensures { result ≡ topology_in (delivery_of (files_of (map (λ x. x.now) files.entry))) k }
{
    match t.first {
        None => Ok(()),
        Some(first) => {
            let i = first.at;
            let f = first.cell / 10;
            let u = first.cell % 10;
            let reason = reason_in(u, i, file_of(files, Kind::Nodo));
            Err(break_of(reason, k, i + 1, f))
        }
    }
}

// The first break of the fifties in a delivery.
pub fn check_topology<'a>(files: [&'a [u8]; FILES]) -> Result<(), Break>
    ensures { result ≡ topology_finding (delivery_of (files_of (map (λ x. x.now) files.entry))) }
{
    let tallies = tally_topology(files);
    first_of_files(
        |k| -> Result<(), Break>
            requires { tallies ≡ fifty_tallies (delivery_of (files_of (map (λ x. x.now) files))) }
            ensures { result ≡ topology_in (delivery_of (files_of (map (λ x. x.now) files.entry))) k }
        { check_file(k, tally_of(tallies, k), files) },
    )
}
