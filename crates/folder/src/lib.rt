// What the box's programs share: the eight files of the working directory, read into one room. An absent file is an empty one. Where a
// file is there and can't be read whole, the reason goes to standard error.
#![tactic(auto)]

ghost use Rattle.std.specs.Prelude.{◌≡◌, map, ◌⊎◌, ◌<◌, ◌≤◌, length, take, OnOk, IfOk};
ghost use Rattle.std.specs.Io.KnownBytes.{Consumes, IsAtEnd};
ghost use Rattle.folder.specs.Folder.{failed, Lengths, any_failed, files_read, TellsOf};

use judge::line::BIG;
use record::cut::part;
use record::kind::FILES;
use std::fs::File;
use std::io::{ErrorKind, Read, Write};
use std::rt::Files;
use std::{array, io};

// One byte more than a program takes of a file is room enough: what is printed of a file that fills it is BIG, whatever follows.
pub const ROOM: usize = BIG + 1;

// The room of all files, one after another.
pub const ALL: usize = ROOM * FILES;

// The files' names, in the order of their numbers.
const NAMES: [&str; FILES] = [
    "CATALOGO", "OB_PUN", "OB_TEX", "OB_LIN", "TRAMO", "VERTICE", "NODO", "OB_COMP",
];

// Instead of a file's length: it can't be read, which was told on standard error. (A number, and no None: `load_files` promises `Lengths`.)
const FAILED: usize = ROOM + 1;

// Room for what the system says of an error, and how the number begins that stands behind its words.
const TEXT: usize = 320;

const NUMBER: &[u8] = b" (os error ";

// A system error's text without its number, which stands behind the words.
fn without_number(text: &[u8]) -> &[u8] {
    let words = text.windows(NUMBER.len()).position(|w| w == NUMBER);
    part(text, 0, words.unwrap_or(text.len()))
}

// Says what failed: a file's name, a colon and the system's words, in one line.
pub fn fail<E: Write>(err: &mut E, name: &[u8], error: &io::Error) -> io::Result<()>
    ensures { OnOk result (TellsOf name.now (E.contents err.old) (E.contents err.new)) }
{
    let mut text = [0u8; TEXT];
    let mut left = &mut text[..];
    let _ = write!(left, "{error}");
    let n = TEXT.saturating_sub(left.len());
    let words = without_number(part(&text, 0, n));
    err.write_all(name)?;
    err.write_all(b": ")?;
    err.write_all(words)?;
    err.write_all(b"\n")
}

// Reads to the end, or until the room is full, and answers how many bytes it read. (The library's `read_to_end` takes a Vec: there is no
// heap.)
pub fn read_full<R: Read>(from: &mut R, room: &mut [u8]) -> io::Result<usize>
    ensures within { IfOk result (λ n. n ≤ length room.new) }
    ensures bytes { IfOk result (λ n. Consumes (R.remaining from.old) (R.remaining from.new) (take n room.new)) }
    ensures end { IfOk result (λ n. n < length room.new → IsAtEnd (R.remaining from.new)) }
{
    let mut done = 0;
    while done < room.len() {
        let n = from.read(&mut room[done..])?;
        if n == 0 {
            return Ok(done);
        }
        done += n;
    }
    Ok(done)
}

// Reads the file with the name into the room, and answers its length; an absent one is empty.
fn load<R: Files>(rt: &R, name: &str, buf: &mut [u8]) -> io::Result<usize>
    ensures { IfOk result (λ n. n ≤ length buf.old) }
{
    match File::open(rt, name) {
        Ok(mut file) => read_full(&mut file, buf),
        Err(e) if e.kind() == ErrorKind::NotFound => Ok(0),
        Err(e) => Err(e),
    }
}

// The same. What can't be read is told, where that can be written.
fn load_told<R: Files, E: Write>(rt: &R, err: &mut E, name: &str, buf: &mut [u8]) -> usize
    ensures { (result ≤ length buf.old) ⊎ (result ≡ failed) }
{
    match load(rt, name, buf) {
        Ok(n) => n,
        Err(e) => {
            let _ = fail(err, name.as_bytes(), &e);
            FAILED
        }
    }
}

// Reads a file into its part of the room, which begins at a place, and answers its length; a room that is too short is none.
fn load_part<R: Files, E: Write>(
    rt: &R,
    err: &mut E,
    name: &str,
    room: &mut [u8],
    from: usize,
) -> usize
    ensures { result ≤ failed }
{
    match room.get_mut(from..from.saturating_add(ROOM)) {
        Some(part) => load_told(rt, err, name, part),
        None => FAILED,
    }
}

// The length of each file, in the order of their numbers, each read into its part of the room. What can't be read is told on `err`.
pub fn load_files<R: Files, E: Write>(rt: &R, err: &mut E, room: &mut [u8]) -> [usize; FILES]
    ensures { Lengths result }
{
    let mut lens = [0; FILES];
    for i in 0..FILES {
        lens[i] = load_part(rt, err, NAMES[i], room, ROOM * i);
    }
    lens
}

// Whether a file was not read.
pub fn any_failed(lens: [usize; FILES]) -> bool
    ensures { result ≡ any_failed lens }
{
    lens.contains(&FAILED)
}

// The files that were read into the room.
pub fn files_in<'a>(room: &'a [u8], lens: [usize; FILES]) -> [&'a [u8]; FILES]
    ensures { map (λ x. x.now) result ≡ files_read room.now lens }
{
    array::from_fn(|i| part(room, ROOM * i, lens[i]))
}
