// The seventies: the tally of each file's rules, and the first break of a delivery.
ghost use Rattle.std.specs.Prelude.{◌≡◌, map, ◌≤◌, get_or};
ghost use Rattle.record.specs.Files.{files_of, delivery_of};
ghost use Rattle.keys.specs.machinery.Groups.{at_file};
ghost use Rattle.objects.specs.Rules.{seventy_reasons};
ghost use Rattle.objects.specs.machinery.Cells.{seventy_tally, seventy_tallies};
ghost use Rattle.objects.specs.machinery.Findings.{objects_in, objects_finding};

use crate::composites::tally_composites;
use index::tally::{Tally, no_tally};
use index::{FEW_HINTS, HINTS};
use keys::group::tally_of;
use keys::over::first_of_files;
use record::check::break_of;
use record::columns::rows;
use record::files::{all_few, file_of};
use record::kind::{FEW, FILES, Kind, LIMIT};
use record::reason::{Break, Reason};

// A delivery without composites has nothing to tell, and takes no room for it.
fn tally_any<'a>(files: [&'a [u8]; FILES]) -> Tally
    ensures { result ≡ seventy_tally (delivery_of (files_of (map (λ x. x.now) files.entry))) Kind.ObComp }
{
    if rows(file_of(files, Kind::ObComp), Kind::ObComp) == 0 {
        return no_tally();
    }
    if all_few(files) {
        tally_composites::<FEW, FEW_HINTS>(files)
    } else {
        tally_composites::<LIMIT, HINTS>(files)
    }
}

// The tally of the seventies in each file: the first break and how many there are. Only the composites have a rule.
pub fn tally_objects<'a>(files: [&'a [u8]; FILES]) -> [Tally; FILES]
    ensures { result ≡ seventy_tallies (delivery_of (files_of (map (λ x. x.now) files.entry))) }
{
    let none = no_tally();
    [none, none, none, none, none, none, none, tally_any(files)]
}

// The reason 70 + u.
fn reason_in(u: usize) -> Reason
    ensures { result ≡ get_or seventy_reasons u Reason.LongFile10 }
{
    match u {
        0 => Reason::IdleComposite70,
        _ => Reason::LongFile10,
    }
}

// The first break of the seventies in file k, by its tally.
fn check_file<'a>(k: Kind, t: Tally, files: [&'a [u8]; FILES]) -> Result<(), Break>
    requires { t ≡ seventy_tally (delivery_of (files_of (map (λ x. x.now) files))) k }
    ensures { result ≡ objects_in (delivery_of (files_of (map (λ x. x.now) files.entry))) k }
{
    match t.first {
        None => Ok(()),
        Some(first) => {
            let reason = reason_in(first.cell % 10);
            Err(break_of(reason, k, first.at + 1, first.cell / 10))
        }
    }
}

// The first break of the seventies in a delivery.
pub fn check_objects<'a>(files: [&'a [u8]; FILES]) -> Result<(), Break>
    ensures { result ≡ objects_finding (delivery_of (files_of (map (λ x. x.now) files.entry))) }
{
    let tallies = tally_objects(files);
    first_of_files(
        |k| -> Result<(), Break>
            requires { tallies ≡ seventy_tallies (delivery_of (files_of (map (λ x. x.now) files))) }
            ensures { result ≡ objects_in (delivery_of (files_of (map (λ x. x.now) files.entry))) k }
        { check_file(k, tally_of(tallies, k), files) },
    )
}
