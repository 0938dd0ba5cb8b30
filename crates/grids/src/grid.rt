// The grid of a delivery: how many breaks each file has in the lowest group of reasons that has any.
ghost use Rattle.std.specs.Prelude.{◌≡◌, List, map, ℕ, ltb, eqb, get_or};
ghost use Rattle.laws.specs.Find.{any};
ghost use Rattle.laws.specs.Row.{pick};
ghost use Rattle.record.specs.Table.{on_file, file_count};
ghost use Rattle.record.specs.Files.{files_of};
ghost use Rattle.record.specs.machinery.Counts.{shape_many, fields_many};
ghost use Rattle.grids.specs.Grid.{ten_of, grid_of};
ghost use Rattle.grids.specs.machinery.Counted.{counted_of, column_of};

use fifties::group::tally_topology;
use index::tally::Tally;
use judge::judge::{GROUPS, LAST_TEN};
use keys::group::tally_keys;
use objects::group::tally_objects;
use record::count::{count_fields, count_shape};
use record::files::file_of;
use record::kind::{FILES, Kind, kind_of};
use std::array;

// How many breaks of its shape a file has, or of its fields. (Two counts, and one place that asks: a closure's contract would be longer
// than the two arms.)
fn count_bytes(shape: bool, k: Kind, s: &[u8]) -> u64
    ensures { result ≡ pick shape (shape_many s.now k) (fields_many s.now k) }
{
    if shape {
        count_shape(s, k)
    } else {
        count_fields(s, k)
    }
}

fn count_bytes_of<'a>(shape: bool, which: Option<Kind>, files: [&'a [u8]; FILES]) -> u64
    ensures { result ≡ on_file (λ k. pick shape (shape_many (files_of (map (λ x. x.now) files.entry) k) k) (fields_many (files_of (map (λ x. x.now) files.entry) k) k)) which }
{
    match which {
        None => 0,
        Some(k) => count_bytes(shape, k, file_of(files, k)),
    }
}

// How many breaks of their shape the files have, or of their fields.
fn count_files<'a>(shape: bool, files: [&'a [u8]; FILES]) -> [u64; FILES]
    ensures { result ≡ counted_of (files_of (map (λ x. x.now) files.entry)) (pick shape 1 2) }
{
    array::from_fn(|i| count_bytes_of(shape, kind_of(i + 1), files))
}

// How many breaks the tallies of the files have.
fn many_of(tallies: [Tally; FILES]) -> [u64; FILES]
    ensures { result ≡ map (λ t. t.many) tallies }
{
    tallies.map(|t| t.many)
}

// How many breaks of a ten the files have.
fn count_ten<'a>(t: usize, files: [&'a [u8]; FILES]) -> [u64; FILES]
    ensures { result ≡ counted_of (files_of (map (λ x. x.now) files.entry)) t }
{
    match t {
        1 => count_files(true, files),
        2 => count_files(false, files),
        3 => many_of(tally_keys(3, files)),
        4 => many_of(tally_keys(4, files)),
        5 => many_of(tally_topology(files)),
        7 => many_of(tally_objects(files)),
        _ => [0u64; FILES],
    }
}

// Whether any file has one.
fn has_any(counts: [u64; FILES]) -> bool
    ensures { result ≡ any (λ i. ltb 0 (get_or counts i 0)) file_count }
{
    counts.iter().any(|n| 0 < *n)
}

// The ten of a column, and 0 past the last.
fn ten_of(g: usize) -> usize
    ensures { result ≡ ten_of g }
{
    match g {
        0 => 1,
        1 => 2,
        2 => 3,
        3 => 4,
        4 => 5,
        5 => 7,
        _ => 0,
    }
}

// A count in the column of its ten, 0 in the others.
fn cell_in(t: usize, g: usize, n: u64) -> u64
    ensures { result ≡ pick (eqb (ten_of g) t) n 0 }
{
    if ten_of(g) == t { n } else { 0 }
}

// A grid with the counts in the column of the ten t.
fn column(t: usize, counts: [u64; FILES]) -> [[u64; GROUPS]; FILES]
    ensures { result ≡ column_of t counts }
{
    let mut grid = [[0u64; GROUPS]; FILES];
    for i in 0..FILES {
        for g in 0..GROUPS {
            grid[i][g] = cell_in(t, g, counts[i]);
        }
    }
    grid
}

// The grid of a delivery: eight files, in any state; an absent one is empty. Tens are counted in their order, up to the first that has a
// break.
pub fn grid_of<'a>(files: [&'a [u8]; FILES]) -> [[u64; GROUPS]; FILES]
    ensures { result ≡ grid_of (files_of (map (λ x. x.now) files.entry)) }
{
    for t in 1..=LAST_TEN {
        let counts = count_ten(t, files);
        if has_any(counts) {
            return column(t, counts);
        }
    }
    [[0u64; GROUPS]; FILES]
}
