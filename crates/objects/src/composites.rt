// 70, of the composites: each object's composite id is looked up in one table of the composites' ids, and the composite found is in use.
ghost use Rattle.std.specs.Prelude.{◌≡◌, map, ◌≤◌, length};
ghost use Rattle.index.specs.Marks.{Marked};
ghost use Rattle.record.specs.Files.{files_of, delivery_of};
ghost use Rattle.record.specs.Names.{name_at};
ghost use Rattle.record.specs.machinery.Columns.{Fills};
ghost use Rattle.keys.specs.machinery.Lent.{AllWithin};
ghost use Rattle.topology.specs.machinery.Used.{Used};
ghost use Rattle.objects.specs.Rules.{named_by, composite_idle};
ghost use Rattle.objects.specs.machinery.Cells.{seventy_tally};

use index::marks::clear;
use index::tally::{Tally, no_tally, with_marks};
use index::way::Lookup;
use record::files::file_of;
use record::fill::fill_names;
use record::kind::{FILES, Kind};
use topology::used::{mark_unheld, mark_used};

// The composites that the objects of file k name are in use; their names are read into lent room.
fn mark_named_by<'a>(
    files: [&'a [u8]; FILES],
    k: Kind,
    ids: &Lookup<'_>,
    refs: &mut [u64],
    used: &mut [u8],
)
    requires { (ids.now.n ≤ length used.old) × ((delivery_of (files_of (map (λ x. x.now) files)) k).count ≤ length refs.old) }
    ensures { Used ids.now.keys.now ids.now.order.now ids.now.hints.now ids.now.way.hinted ids.now.n used.old used.new (named_by (delivery_of (files_of (map (λ x. x.now) files.entry))) k) }
{
    mark_used(file_of(files, k), k, 2, ids, refs, used);
}

// Marks the composites that no object names, with their ids in hand.
fn mark_idle_composites<'a>(
    files: [&'a [u8]; FILES],
    ids: &Lookup<'_>,
    refs: &mut [u64],
    used: &mut [u8],
    marks: &mut [u8],
)
    requires { Fills ids.now.keys.now (λ j. name_at Kind.ObComp (delivery_of (files_of (map (λ x. x.now) files)) Kind.ObComp) j 1) (delivery_of (files_of (map (λ x. x.now) files)) Kind.ObComp).count ids.now.n × (ids.now.n ≤ length used.old) × (ids.now.n ≤ length marks.old) × ((k : Kind) → (delivery_of (files_of (map (λ x. x.now) files)) k).count ≤ length refs.old) }
    ensures { Marked marks.old marks.new (composite_idle (delivery_of (files_of (map (λ x. x.now) files.entry)))) (delivery_of (files_of (map (λ x. x.now) files.entry)) Kind.ObComp).count }
{
    clear(used, ids.n);
    mark_named_by(files, Kind::ObPun, ids, refs, used);
    mark_named_by(files, Kind::ObTex, ids, refs, used);
    mark_named_by(files, Kind::ObLin, ids, refs, used);
    mark_unheld(ids, used, 1, marks);
}

// The composites' tally, in arrays for N records a file and a table for H hints.
pub(crate) fn tally_composites<'a, const N: usize, const H: usize>(
    files: [&'a [u8]; FILES],
) -> Tally
    requires within { AllWithin (delivery_of (files_of (map (λ x. x.now) files))) N }
    requires sizes { (N ≤ 16384) × (H ≤ 32768) }
    ensures { result ≡ seventy_tally (delivery_of (files_of (map (λ x. x.now) files.entry))) Kind.ObComp }
{
    let mut names = [0u64; N];
    let mut hints = [0u16; H];
    let mut order = [0usize; N];
    let mut refs = [0u64; N];
    let mut used = [0u8; N];
    let mut marks = [0u8; N];
    let ob_comp = file_of(files, Kind::ObComp);
    let n = fill_names(ob_comp, Kind::ObComp, 1, &mut names);
    let ids = Lookup::prepare(&names, n, &mut hints, &mut order);
    mark_idle_composites(files, &ids, &mut refs, &mut used, &mut marks);
    with_marks(no_tally(), &marks, n, 0)
}
