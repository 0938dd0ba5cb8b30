// What the program `grid` prints: one row a file, six counts of ten digits; or the verdict program's BIG line.
ghost use Rattle.std.specs.Prelude.{◌≡◌, ◌++◌, map, ◌+◌, ◌≤◌, length, take, drop, eqb};
ghost use Rattle.laws.specs.Row.{pick};
ghost use Rattle.record.specs.Files.{files_of};
ghost use Rattle.judge.specs.Broken.{groups};
ghost use Rattle.judge.specs.Line.{big_line};
ghost use Rattle.grids.specs.Rows.{count_text, rows_text, rows_in, program_rows};

use crate::grid::grid_of;
use field::number::put_number;
use judge::judge::GROUPS;
use judge::line::{big_line, first_big};
use record::kind::FILES;

// A count has ten digits and a byte after them; so many bytes all rows have, their line feeds among them.
const DIGITS: usize = 10;

pub const ROWS: usize = 528;

// The rows' bytes, or a shorter line's; what lies past it is 0. (An array with its length, and no Vec: there is no heap.)
#[derive(Clone, Copy)]
pub struct Rows {
    pub len: usize,
    pub bytes: [u8; ROWS],
}

// What stands after a count: a blank, after the last of a row a line feed.
fn end_of(g: usize) -> u8
    ensures { result ≡ pick (eqb (g + 1) groups) 10 32 }
{
    if g == GROUPS - 1 { 10 } else { 32 }
}

// Puts a count at a place: what stood before it and past it stays.
fn put_count(buf: &mut [u8], at: usize, g: usize, n: u64) -> usize
    requires { at + 11 ≤ length buf.old }
    ensures { (result ≡ at + 11) × (take result buf.new ≡ take at buf.old ++ count_text g n) × (length buf.new ≡ length buf.old) }
{
    let next = at + DIGITS;
    put_number(&mut buf[at..next], n);
    buf[next] = end_of(g);
    next + 1
}

// The rows of a grid.
pub fn rows_of(grid: [[u64; GROUPS]; FILES]) -> Rows
    ensures { result ≡ rows_in (rows_text grid) }
{
    let mut bytes = [0u8; ROWS];
    let mut at = 0;
    for i in 0..FILES {
        for g in 0..GROUPS {
            at = put_count(&mut bytes, at, g, grid[i][g]);
        }
    }
    Rows { len: ROWS, bytes }
}

// A line in the rows' stead.
fn rows_with(file: usize) -> Rows
    ensures { result ≡ rows_in (big_line file) }
{
    let line = big_line(file);
    let mut bytes = [0u8; ROWS];
    bytes[..6].copy_from_slice(&line.bytes[..6]);
    Rows { len: 6, bytes }
}

// What the program prints of eight files, in any state; an absent one is empty.
pub fn program_rows<'a>(files: [&'a [u8]; FILES]) -> Rows
    ensures { result ≡ rows_in (program_rows (files_of (map (λ x. x.now) files.entry))) }
{
    let big = first_big(files);
    if big == 0 {
        rows_of(grid_of(files))
    } else {
        rows_with(big)
    }
}
