// Judges every delivery of its standard input and prints each verdict's line. A delivery is a line with eight decimal lengths, each
// before a blank or the line feed, and then the bytes of the eight files.
#![tactic(auto)]

ghost use Rattle.std.specs.Prelude.{◌≡◌, length, ◌+◌, ◌*◌, ◌^◌, ◌<◌, ◌≤◌, IfOk};
ghost use Rattle.record.specs.Table.{file_count};

use folder::read_full;
use judge::judge::judge;
use judge::line::line_of;
use record::cut::part;
use record::kind::FILES;
use std::io;
use std::io::Write;

// A number that was read, and the place after the byte that ends it.
#[derive(Clone, Copy)]
struct Length {
    pub n: usize,
    pub next: usize,
}

// The decimal number at a place, of up to eight digits, and the place after the byte behind it.
fn length_at(s: &[u8], at: usize) -> Length
    requires { at < 2 ^ 32 }
    ensures few { result.n < 10 ^ 8 }
    ensures later { at < result.next }
    ensures near { result.next ≤ at + 8 }
{
    let mut n = 0;
    for i in 0..8 {
        match field::class::byte(s, at + i) {
            b @ b'0'..=b'9' => n = n * 10 + usize::from(b - b'0'),
            _ => {
                return Length {
                    n,
                    next: at + i + 1,
                };
            }
        }
    }
    Length { n, next: at + 8 }
}

fn say_verdict<'a, W: Write>(out: &mut W, files: [&'a [u8]; FILES]) -> io::Result<()> {
    let line = line_of(judge(files));
    out.write_all(part(&line.bytes, 0, line.len))
}

// The place after the lengths at a place.
fn after_lengths(s: &[u8], at: usize) -> usize
    requires { at < 2 ^ 31 }
    ensures later { at < result }
    ensures near { result ≤ at + 8 * file_count }
{
    let mut next = at;
    for _ in 0..FILES {
        next = length_at(s, next).next;
    }
    next
}

// Judges the delivery at a place and answers the place after it.
fn judge_at<W: Write>(out: &mut W, s: &[u8], at: usize) -> io::Result<usize>
    requires { at < 2 ^ 31 }
    ensures { IfOk result (λ next. at < next) }
{
    let mut from = after_lengths(s, at);
    let mut files = [s; FILES];
    let mut next = at;
    for n in 0..FILES {
        let length = length_at(s, next);
        files[n] = part(s, from, length.n);
        from += length.n;
        next = length.next;
    }
    say_verdict(out, files)?;
    Ok(from)
}

fn judge_all<W: Write>(out: &mut W, s: &[u8]) -> io::Result<()>
    requires { length s.now < 2 ^ 31 }
{
    let mut at = 0;
    while at < s.len() {
        at = judge_at(out, s, at)?;
    }
    Ok(())
}

// Room for what is read.
fn room() -> [u8; 2097152]
    ensures { 2097152 ≡ length result }
{
    [0; 2097152]
}

fn main(rt: HostRuntime) -> io::Result<()> {
    let mut buffer = room();
    let n = read_full(&mut rt.stdin(), &mut buffer)?;
    judge_all(&mut rt.stdout(), &buffer[..n])
}
