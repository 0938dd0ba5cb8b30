// The verdict program's line: `OK` and eight counts, `NO` and the break, or `BIG` and the file.
ghost use Rattle.std.specs.Prelude.{◌≡◌, ◌++◌, ◌∷◌, map, ◌+◌, ◌<◌, length, take, drop};
ghost use Rattle.record.specs.Files.{files_of};
ghost use Rattle.judge.specs.Line.{count_words, break_line, line_of, is_big, big_of, big_line, program_line, line_in};
ghost use Rattle.field.specs.Digits.{digits};

use crate::judge::{Verdict, judge};
use field::number::put_number;
use record::files::file_of;
use record::kind::{FILES, Kind, kind_of};
use record::reason::Break;

// The program takes no file of more bytes.
pub const BIG: usize = 8192;

// The bytes of the longest line, its line feed among them: `OK` and the counts.
const LINE: usize = 51;

// A line; what lies past it is 0.
#[derive(Clone, Copy)]
pub struct Line {
    pub len: usize,
    pub bytes: [u8; LINE],
}

// Puts n in w digits at a place, after a blank: what stood before it and past it stays.
fn put_word(buf: &mut [u8], at: usize, w: usize, n: usize) -> usize
    requires { at + w < length buf.old }
    ensures { (result ≡ at + w + 1) × (take result buf.new ≡ take at buf.old ++ (32 ∷ digits w n)) × (drop result buf.new ≡ drop result buf.old) }
{
    buf[at] = 32;
    let from = at + 1;
    let next = from + w;
    put_number(&mut buf[from..next], n as u64);
    next
}

fn count_line(counts: [usize; FILES]) -> Line
    ensures { result ≡ line_in (79 ∷ 75 ∷ count_words counts) }
{
    let mut bytes = [0u8; LINE];
    bytes[0] = 79;
    bytes[1] = 75;
    let mut at = 2;
    for count in counts {
        at = put_word(&mut bytes, at, 5, count);
    }
    bytes[at] = 10;
    Line { len: LINE, bytes }
}

fn break_line(b: Break) -> Line
    ensures { result ≡ line_in (break_line b) }
{
    let reason = b.reason;
    let mut bytes = [0u8; LINE];
    bytes[0] = 78;
    bytes[1] = 79;
    let at = put_word(&mut bytes, 2, 2, reason.number() as usize);
    let at = put_word(&mut bytes, at, 1, b.file);
    let at = put_word(&mut bytes, at, 5, b.record);
    let at = put_word(&mut bytes, at, 2, b.field);
    bytes[at] = 10;
    Line { len: 17, bytes }
}

// The line of a verdict.
pub fn line_of(v: Verdict) -> Line
    ensures { result ≡ line_in (line_of v) }
{
    let finding = v.finding;
    let counts = v.counts;
    match finding {
        Ok(()) => count_line(counts),
        Err(b) => break_line(b),
    }
}

// Whether the file has more.
fn is_big<'a>(which: Option<Kind>, files: [&'a [u8]; FILES]) -> bool
    ensures { result ≡ is_big (files_of (map (λ x. x.now) files.entry)) which }
{
    match which {
        None => false,
        Some(k) => { BIG < file_of(files, k).len() }
    }
}

// The number of the first file that has more, and 0 where none does.
pub fn first_big<'a>(files: [&'a [u8]; FILES]) -> usize
    ensures { result ≡ big_of (files_of (map (λ x. x.now) files.entry)) }
{
    for n in 0..FILES + 1 {
        if is_big(kind_of(n), files) {
            return n;
        }
    }
    0
}

pub fn big_line(file: usize) -> Line
    ensures { result ≡ line_in (big_line file) }
{
    let mut bytes = [0u8; LINE];
    bytes[0] = 66;
    bytes[1] = 73;
    bytes[2] = 71;
    let at = put_word(&mut bytes, 3, 1, file);
    bytes[at] = 10;
    Line { len: 6, bytes }
}

// The line that the program prints of eight files, in any state; an absent one is empty.
pub fn program_line<'a>(files: [&'a [u8]; FILES]) -> Line
    ensures { result ≡ line_in (program_line (files_of (map (λ x. x.now) files.entry))) }
{
    let big = first_big(files);
    if big == 0 {
        line_of(judge(files))
    } else {
        big_line(big)
    }
}
