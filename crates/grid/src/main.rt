// The box's second program: reads the eight files from the working directory and prints the grid of all breaks, one row a file. Where a
// file can't be read, no row is printed.
#![tactic(auto)]

use folder::{ALL, any_failed, files_in, load_files};
use grids::rows::program_rows;
use record::cut::part;
use std::io::Write;

fn main(rt: HostRuntime) {
    let mut room = [0u8; ALL];
    let lens = load_files(&rt, &mut rt.stderr(), &mut room);
    if any_failed(lens) {
        return;
    }
    let rows = program_rows(files_in(&room, lens));
    let _ = rt.stdout().write_all(part(&rows.bytes, 0, rows.len));
}
