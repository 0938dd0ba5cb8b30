// The verdict on a delivery: eight files in, the counts and the first break out.
ghost use Rattle.std.specs.Prelude.{◌≡◌, List, map, ℕ};
ghost use Rattle.record.specs.Files.{files_of};
ghost use Rattle.record.specs.Table.{on_file};
ghost use Rattle.record.specs.Cut.{count_of};
ghost use Rattle.judge.specs.Broken.{counts_of};
ghost use Rattle.judge.specs.Verdict.{verdict_of};
ghost use Rattle.judge.specs.machinery.Searched.{group_at, searched};

use fifties::group::check_topology;
use keys::group::check_keys;
use keys::over::first_of_files;
use objects::group::check_objects;
use record::check::{check_fields, check_shape};
use record::cut::records;
use record::files::file_of;
use record::kind::{FILES, Kind, kind_of};
use record::reason::Break;

// The groups of reasons: 10 to 50, and 70.
pub const GROUPS: usize = 6;

// The tens of the last.
pub const LAST_TEN: usize = 7;

// The first break, where there is one, and beside it how many whole records each file has.
#[derive(Clone, Copy)]
pub struct Verdict {
    pub finding: Result<(), Break>,
    pub counts: [usize; FILES],
}

// The first break of the reasons of a ten.
fn check_group<'a>(t: usize, files: [&'a [u8]; FILES]) -> Result<(), Break>
    ensures { result ≡ group_at (files_of (map (λ x. x.now) files.entry)) t }
{
    match t {
        1 => first_of_files(|k| check_shape(file_of(files, k), k)),
        2 => first_of_files(|k| check_fields(file_of(files, k), k)),
        3 => check_keys(3, files),
        4 => check_keys(4, files),
        5 => check_topology(files),
        7 => check_objects(files),
        _ => Ok(()),
    }
}

// The first break. A rule of a higher ten is read only where no lower ten has a break.
fn first_break<'a>(files: [&'a [u8]; FILES]) -> Result<(), Break>
    ensures { result ≡ searched (files_of (map (λ x. x.now) files.entry)) }
{
    for t in 0..LAST_TEN + 1 {
        check_group(t, files)?;
    }
    Ok(())
}

fn count_of<'a>(which: Option<Kind>, files: [&'a [u8]; FILES]) -> usize
    ensures { result ≡ on_file (λ k. count_of (files_of (map (λ x. x.now) files.entry) k) k) which }
{
    match which {
        None => 0,
        Some(k) => records(file_of(files, k), k),
    }
}

fn count_all<'a>(files: [&'a [u8]; FILES]) -> [usize; FILES]
    ensures { result ≡ counts_of (files_of (map (λ x. x.now) files.entry)) }
{
    let mut counts = [0usize; FILES];
    for n in 0..FILES {
        counts[n] = count_of(kind_of(n + 1), files);
    }
    counts
}

// Judges a delivery: eight files, in any state; an absent one is empty.
pub fn judge<'a>(files: [&'a [u8]; FILES]) -> Verdict
    ensures { result ≡ verdict_of (files_of (map (λ x. x.now) files.entry)) }
{
    let finding = first_break(files);
    let counts = count_all(files);
    Verdict { finding, counts }
}
