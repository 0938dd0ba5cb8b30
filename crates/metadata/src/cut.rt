// A metadata file cut into lines, and what they say.
ghost use Rattle.std.specs.Prelude.{◌≡◌, ◌&&◌, ◌+◌, ◌*◌, ◌<◌, ◌≤◌, ◌⊎◌, eqb, length, get_or, take, IfOk};
ghost use Rattle.metadata.specs.Lines.{cut_of, most_lines, told_in};

use crate::fault::{Fault, Rule};
use crate::line::told_of;
use crate::told::Told;
use field::class::byte;

pub(crate) const MOST_LINES: usize = 2048;

// Of so many lines a file has no more where it is of fewer than twice as many bytes, since an end mark is two.
pub(crate) const FEW_LINES: usize = 512;

pub(crate) const SOME_LINES: usize = 1024;

const LONGEST: usize = 256;

// Whether an end mark stands at the place.
fn is_mark(m: &[u8], i: usize) -> bool
    requires { i < length m.now }
    ensures { result ≡ (eqb (get_or m.now i 0) 13 && eqb (get_or m.now (i + 1) 0) 10) }
{
    (byte(m, i) == 13) & (byte(m, i + 1) == 10)
}

// Cuts the bytes into lines and fills the room with what they say, unless a line is too long or past the most. It counts the lines.
pub(crate) fn cut_lines(m: &[u8], lines: &mut [Told]) -> Result<usize, Fault>
    requires { (most_lines ≤ length lines.old) ⊎ (length m.now < 2 * length lines.old) }
    ensures cut { result ≡ cut_of m.now }
    ensures few { IfOk result (λ n. n ≤ most_lines) }
    ensures held { IfOk result (λ n. n ≤ length lines.new) }
    ensures told { IfOk result (λ n. take n lines.new ≡ told_in m.now) }
{
    let mut n = 0;
    let mut from = 0;
    let mut i = 0;
    // No `for`: an end mark is two bytes, so that i goes on by one or by two.
    while i < m.len() {
        if n == MOST_LINES {
            return Err(Rule::LongLine80.at(n + 1));
        }
        if is_mark(m, i) {
            lines[n] = told_of(&m[from..i]);
            n += 1;
            i += 2;
            from = i;
        } else {
            if LONGEST <= i - from {
                return Err(Rule::LongLine80.at(n + 1));
            }
            i += 1;
        }
    }
    if from < m.len() {
        if n == MOST_LINES {
            return Err(Rule::LongLine80.at(n + 1));
        }
        lines[n] = Told::Nothing;
        n += 1;
    }
    Ok(n)
}
