// The box's program: reads the eight files from the working directory and prints the verdict's one line. Where a file can't be read, no
// line is printed.
#![tactic(auto)]

use folder::{ALL, any_failed, files_in, load_files};
use judge::line::program_line;
use record::cut::part;
use std::io::Write;

fn main(rt: HostRuntime) {
    let mut room = [0u8; ALL];
    let lens = load_files(&rt, &mut rt.stderr(), &mut room);
    if any_failed(lens) {
        return;
    }
    let line = program_line(files_in(&room, lens));
    let _ = rt.stdout().write_all(part(&line.bytes, 0, line.len));
}
