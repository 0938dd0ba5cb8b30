// The grid of a delivery in lent cells, by file and then group, and grids added.
ghost use Rattle.std.specs.Prelude.{◌≡◌, ◌++◌, map, ◌≤◌, length, drop};
ghost use Rattle.record.specs.Files.{files_of};
ghost use Rattle.canopyrail.specs.Cells.{cell_count, lent_cells, grid_in, Counts, Adds};

use crate::answer::{break_word, refusal};
use crate::delivery::all_files;
use grids::grid::grid_of;
use grids::sum::{add, add_finding};
use judge::judge::GROUPS;
use record::kind::FILES;
use record::reason::Reason;

// So many cells a grid has; the C interface lends them in one row.
const CELLS: usize = FILES * GROUPS;

// Puts a grid into lent cells.
fn put_grid(grid: [[u64; GROUPS]; FILES], cells: &mut [u64])
    requires { cell_count ≤ length cells.old }
    ensures { cells.new ≡ lent_cells grid ++ drop cell_count cells.old }
{
    for c in 0..CELLS {
        cells[c] = grid[c / GROUPS][c % GROUPS];
    }
}

// The grid that lent cells hold.
fn grid_in(cells: &[u64]) -> [[u64; GROUPS]; FILES]
    requires { cell_count ≤ length cells.now }
    ensures { result ≡ grid_in cells.now }
{
    let mut grid = [[0u64; GROUPS]; FILES];
    for i in 0..FILES {
        for g in 0..GROUPS {
            grid[i][g] = cells[i * GROUPS + g];
        }
    }
    grid
}

// Counts all breaks of a delivery, files as canopyrail_judge takes them; a refusal leaves the cells as they were.
pub fn canopyrail_grid<'a, 'b>(files: &'b [&'a [u8]], cells: &mut [u64]) -> u64
    ensures { Counts (files_of (map (λ x. x.now) files.now)) cells.old result cells.new }
{
    if cells.len() < CELLS {
        return refusal(Reason::ShortRoom61, 0);
    }
    if files.is_empty() {
        put_grid([[0u64; GROUPS]; FILES], cells);
        return 0;
    }
    put_grid(grid_of(all_files(files)), cells);
    0
}

// Adds a grid to another, cell by cell; a refusal leaves both as they were.
pub fn canopyrail_grid_add(into: &mut [u64], from: &[u64]) -> u64
    ensures { Adds into.old from.now result into.new }
{
    if into.len() < CELLS {
        return refusal(Reason::ShortRoom61, 0);
    }
    if from.len() < CELLS {
        return refusal(Reason::ShortRoom61, 0);
    }
    let a = grid_in(into);
    let b = grid_in(from);
    match add_finding(a, b) {
        Ok(()) => {
            put_grid(add(a, b), into);
            0
        }
        Err(over) => break_word(over),
    }
}
