// Reads every record of the files that its arguments name, prints its values or the refusal, writes the values back and says
// whether the bytes are the same. A name's first byte is the file's number.
#![tactic(auto)]

ghost use Rattle.std.specs.Prelude.{◌<◌};

use codec::read::read;
use codec::values::{Refusal, Value, Values};
use codec::write::write;
use record::kind::{Form, Kind, kind_of};
use std::env::{Env, FillError};
use std::fs::File;
use std::io::{ErrorKind, Read, Write};
use std::rt::Files;
use std::{io, str};

fn say_text<W: Write>(out: &mut W, v: Value) -> io::Result<()> {
    out.write_all(b" \"")?;
    out.write_all(record::cut::part(&v.text, 0, v.len))?;
    out.write_all(b"\"")
}

// One field's value, where the field says one.
fn say_value<W: Write>(out: &mut W, form: Form, v: Value) -> io::Result<()> {
    match form {
        Form::Sign => Ok(()),
        Form::Number if v.given => write!(out, " {}", v.number),
        Form::Size if v.given => write!(out, " {:+}", v.coordinate),
        Form::Words | Form::Code if v.len != 0 => say_text(out, v),
        _ => out.write_all(b" ."),
    }
}

fn say_values<W: Write>(out: &mut W, k: Kind, v: Values) -> io::Result<()> {
    for f in 1..=k.fields() {
        say_value(out, k.form(f), v.get(f))?;
    }
    Ok(())
}

// Whether the values, written, are the bytes of the record.
fn say_same<W: Write>(out: &mut W, file: usize, v: Values, rec: &[u8]) -> io::Result<()> {
    let mut room = [0u8; 149];
    match write(file, v, &mut room) {
        Ok(()) if record::cut::part(&room, 0, rec.len()) == rec => out.write_all(b" =\n"),
        Ok(()) => out.write_all(b" #\n"),
        Err(_) => out.write_all(b" !\n"),
    }
}

fn say_reading<W: Write>(
    out: &mut W,
    file: usize,
    bytes: &[u8],
    n: usize,
    r: Result<Values, Refusal>,
) -> io::Result<()>
    requires { 0 < n }
{
    match r {
        Err(r) => writeln!(out, " NO {:02} {:02}", r.reason.number(), r.field),
        Ok(values) => match kind_of(file) {
            None => out.write_all(b" ?\n"),
            Some(k) => {
                say_values(out, k, values)?;
                say_same(out, file, values, file::bytes_of(bytes, k, n - 1))
            }
        },
    }
}

fn say_record<W: Write>(out: &mut W, file: usize, bytes: &[u8], n: usize) -> io::Result<()>
    requires { 0 < n }
{
    write!(out, "{n:05}")?;
    say_reading(out, file, bytes, n, read(file, bytes, n))
}

// How many records of a file's bytes are read: the whole ones, and one past them.
fn records_of(file: usize, bytes: &[u8]) -> usize {
    match kind_of(file) {
        None => 1,
        Some(k) => file::count_of(bytes, k).saturating_add(1),
    }
}

fn say_file<W: Write>(out: &mut W, file: usize, bytes: &[u8]) -> io::Result<()> {
    for n in 1..=records_of(file, bytes) {
        say_record(out, file, bytes, n)?;
    }
    Ok(())
}

// Prints the records of an open file of the number.
fn say_open<F: Read, W: Write>(out: &mut W, from: &mut F, file: usize) -> io::Result<()> {
    let mut buffer = [0u8; 8192];
    let got = folder::read_full(from, &mut buffer)?;
    say_file(out, file, &buffer[..got])
}

// Reads the file with the name whole and prints its records.
fn say_named<R: Files, W: Write, E: Write>(
    rt: &R,
    out: &mut W,
    err: &mut E,
    name: &str,
) -> io::Result<()> {
    let number = field::class::byte(name.as_bytes(), 0) % 16;
    match File::open(rt, name) {
        Ok(mut file) => say_open(out, &mut file, number as usize),
        Err(e) => folder::fail(err, name.as_bytes(), &e),
    }
}

// Prints an argument, and the records of the file that it names. A file's name is text: what is none names no file.
fn say_argument<R: Files, W: Write, E: Write>(
    rt: &R,
    out: &mut W,
    err: &mut E,
    name: &[u8],
) -> io::Result<()> {
    out.write_all(name)?;
    out.write_all(b"\n")?;
    match str::from_utf8(name) {
        Ok(text) => say_named(rt, out, err, text),
        Err(_) => folder::fail(err, name, &io::Error::from(ErrorKind::InvalidFilename)),
    }
}

// Of an argument of more than 64 bytes, no byte is a name.
fn say_arguments<R: Files + Env, W: Write, E: Write>(
    rt: &R,
    out: &mut W,
    err: &mut E,
) -> io::Result<()> {
    for i in 1..usize::MAX {
        let mut name = [0u8; 64];
        match rt.arg(i, &mut name) {
            Ok(n) => say_argument(rt, out, err, record::cut::part(&name, 0, n))?,
            Err(FillError::TooLong) => say_argument(rt, out, err, b"")?,
            Err(FillError::NotPresent) => return Ok(()),
        }
    }
    Ok(())
}

fn main(rt: HostRuntime) -> io::Result<()> {
    say_arguments(&rt, &mut rt.stdout(), &mut rt.stderr())
}
