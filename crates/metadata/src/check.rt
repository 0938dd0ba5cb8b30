// A metadata file held against the counts and sizes of the files, which are listed by their numbers.
ghost use Rattle.std.specs.Prelude.{◌≡◌, ◌*◌, ◌<◌, ◌≤◌, ◌⊎◌, length};
ghost use Rattle.metadata.specs.Lines.{most_lines};
ghost use Rattle.metadata.specs.Rules.{fault_of};

use crate::cut::{FEW_LINES, MOST_LINES, SOME_LINES, cut_lines};
use crate::fault::Fault;
use crate::rules::check_lines;
use crate::told::Told;

// What is wrong with it first, by an array for N lines, and how many of it are filled: there is no heap.
fn check_in<const N: usize>(m: &[u8], counts: &[u64], sizes: &[u64]) -> Result<(), Fault>
    requires room { (most_lines ≤ N) ⊎ (length m.now < 2 * N) }
    requires size { N ≤ most_lines }
    ensures { result ≡ fault_of m.now counts.now sizes.now }
{
    let mut lines = [Told::Nothing; N];
    let n = cut_lines(m, &mut lines)?;
    check_lines(&lines[..n], counts, sizes)
}

// What is wrong with it first, by rule and line. A short file is cut into a short array, since each call fills its array first.
pub fn check_metadata(m: &[u8], counts: &[u64], sizes: &[u64]) -> Result<(), Fault>
    ensures { result ≡ fault_of m.now counts.now sizes.now }
{
    if m.len() < 2 * FEW_LINES {
        check_in::<FEW_LINES>(m, counts, sizes)
    } else if m.len() < 2 * SOME_LINES {
        check_in::<SOME_LINES>(m, counts, sizes)
    } else {
        check_in::<MOST_LINES>(m, counts, sizes)
    }
}
