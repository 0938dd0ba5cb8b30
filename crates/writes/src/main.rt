// Makes the writing call's cases of document 01, "Single-record calls add", and some of the reading call's, and prints a line for
// each: the case, the answer, and what became of the room, which is filled with byte AA before the call.
#![tactic(auto)]

use codec::read::read;
use codec::values::{
    Refusal, Value, Values, coordinate_value, missing_value, number_value, text_value,
};
use codec::write::write;
use record::cut::part;
use record::reason::Reason;
use std::io;
use std::io::Write;

// The byte with which a room is filled.
const FILL: u8 = 170;

fn say_refusal<W: Write>(out: &mut W, reason: Reason, field: usize) -> io::Result<()> {
    write!(out, " NO {:02} {field:02}", reason.number())
}

// Whether every byte is the one with which a room is filled.
fn untouched(t: &[u8]) -> bool {
    t.iter().all(|b| *b == FILL)
}

fn say_kept<W: Write>(out: &mut W, t: &[u8]) -> io::Result<()> {
    let state = if untouched(t) { "kept" } else { "touched" };
    writeln!(out, " {state}")
}

// A record's bytes; its end is shown in letters.
fn say_record<W: Write>(out: &mut W, room: &[u8], text: usize) -> io::Result<()> {
    out.write_all(b" ")?;
    out.write_all(part(room, 0, text))?;
    let end = part(room, text, 2);
    if end.first() == Some(&b'\r') {
        out.write_all(b"\\r")?;
    }
    if end.get(1) == Some(&b'\n') {
        out.write_all(b"\\n")?;
    }
    Ok(())
}

// Document 01's record bytes without the two at the end.
fn text_bytes(file: usize) -> usize {
    match file {
        1 => 131,
        2 => 147,
        3 => 142,
        4 => 126,
        5 => 75,
        6 => 52,
        7 => 48,
        8 => 115,
        _ => 0,
    }
}

fn past(room: &[u8], text: usize) -> &[u8] {
    part(part(room, text, 160), 2, 160)
}

// Writes into the first bytes of a room, as many as are lent.
fn write_first(file: usize, v: Values, room: &mut [u8], lent: usize) -> Result<(), Refusal> {
    let n = lent.min(room.len());
    write(file, v, &mut room[..n])
}

// Writes into a room of 160 bytes, of which the first are lent, and prints the answer.
fn tell<W: Write>(out: &mut W, file: usize, v: Values, lent: usize, shown: bool) -> io::Result<()> {
    let text = text_bytes(file);
    let mut room = [FILL; 160];
    match write_first(file, v, &mut room, lent) {
        Err(r) => {
            say_refusal(out, r.reason, r.field)?;
            say_kept(out, &room)
        }
        Ok(()) => {
            out.write_all(b" OK")?;
            if shown {
                say_record(out, &room, text)?;
            }
            out.write_all(b" rest")?;
            say_kept(out, past(&room, text))
        }
    }
}

// A case of one file's values in a room with bytes to spare.
fn case<W: Write>(out: &mut W, label: &[u8], file: usize, v: Values) -> io::Result<()> {
    out.write_all(label)?;
    tell(out, file, v, 160, false)
}

// The same, and the record is shown.
fn show<W: Write>(out: &mut W, label: &[u8], file: usize, v: Values) -> io::Result<()> {
    out.write_all(label)?;
    tell(out, file, v, 160, true)
}

// A node in a room of so many bytes.
fn room<W: Write>(out: &mut W, label: &[u8], v: Values, lent: usize) -> io::Result<()> {
    out.write_all(label)?;
    tell(out, 7, v, lent, false)
}

fn none() -> Values {
    Values {
        at: [missing_value(); 14],
    }
}

// The values with another one at a field.
fn set(v: Values, f: usize, x: Value) -> Values {
    let mut at = v.at;
    if 0 < f && f <= at.len() {
        at[f - 1] = x;
    }
    Values { at }
}

fn number(v: Values, f: usize, n: u64) -> Values {
    set(v, f, number_value(n))
}

fn coordinate(v: Values, f: usize, z: i64) -> Values {
    set(v, f, coordinate_value(z))
}

fn text(v: Values, f: usize, t: &[u8]) -> Values {
    set(v, f, text_value(t))
}

fn no(v: Values, f: usize) -> Values {
    set(v, f, missing_value())
}

fn node(x: i64, y: i64) -> Values {
    coordinate(coordinate(number(none(), 1, 1), 4, x), 6, y)
}

fn nodes<W: Write>(out: &mut W) -> io::Result<()> {
    let v = node(100, 200);
    show(out, b"node X 999999999", 7, node(999999999, 200))?;
    case(out, b"node X 1000000000", 7, node(1000000000, 200))?;
    case(out, b"node X least", 7, node(-9223372036854775808, 200))?;
    show(out, b"node Y -9999999999", 7, node(100, -9999999999))?;
    case(out, b"node Y -10000000000", 7, node(100, -10000000000))?;
    show(out, b"node at zero", 7, coordinate(node(0, 0), 8, 0))?;
    case(out, b"node id missing", 7, no(v, 1))?;
    show(out, b"node id 0", 7, number(v, 1, 0))?;
    case(out, b"node X missing", 7, no(v, 4))?;
    case(out, b"node nothing given", 7, none())?;
    case(out, b"node TIPO A0", 7, text(v, 2, b"\xA0"))?;
    case(out, b"node TIPO A1", 7, text(v, 2, b"\xA1"))?;
    show(out, b"node TIPO H", 7, text(v, 2, b"H"))?;
    case(out, b"node TIPO h", 7, text(v, 2, b"h"))?;
    case(out, b"node TIPO P", 7, text(v, 2, b"P"))
}

fn files<W: Write>(out: &mut W) -> io::Result<()> {
    let v = node(100, 200);
    case(out, b"file 0", 0, v)?;
    case(out, b"file 9", 9, v)?;
    show(out, b"file 7", 7, v)?;
    out.write_all(b"file 9 room of 0")?;
    tell(out, 9, v, 0, false)?;
    room(out, b"room of 49", v, 49)?;
    room(out, b"room of 49 id missing", no(v, 1), 49)?;
    room(out, b"room of 50", v, 50)?;
    room(out, b"room of 60", v, 60)
}

fn line(code: &[u8], name: &[u8]) -> Values {
    text(text(number(none(), 1, 1), 3, code), 4, name)
}

fn named(name: &[u8]) -> Values {
    line(b"0100000", name)
}

fn names<W: Write>(out: &mut W) -> io::Result<()> {
    case(
        out,
        b"name of 61",
        4,
        named(b"abcdefghijklmnopqrstuvwxyz0123456789ABCDEFGHIJKLMNOPQRSTUVWXY"),
    )?;
    show(
        out,
        b"name of 60",
        4,
        named(b"abcdefghijklmnopqrstuvwxyz0123456789ABCDEFGHIJKLMNOPQRSTUVWX"),
    )?;
    case(out, b"name blank first", 4, named(b" A"))?;
    case(out, b"name blank last", 4, named(b"A "))?;
    case(out, b"name of blanks", 4, named(b"  "))?;
    case(out, b"name with 7F", 4, named(b"A\x7FB"))?;
    show(out, b"name with a bar", 4, named(b"A|B"))?;
    case(out, b"name with A0", 4, named(b"A\xA0B"))?;
    show(out, b"name missing", 4, named(b""))?;
    show(out, b"name NA", 4, named(b"NA"))?;
    case(out, b"name A0 first", 4, named(b"\xA0A"))?;
    case(out, b"name A0 last", 4, named(b"A\xA0"))?;
    case(out, b"name of A0", 4, named(b"\xA0"))?;
    case(out, b"name NA and A0", 4, named(b"NA\xA0"))?;
    case(out, b"name A1 first and last", 4, named(b"\xA1A\xA1"))
}

fn codes<W: Write>(out: &mut W) -> io::Result<()> {
    case(out, b"code missing", 4, line(b"", b"a"))?;
    case(out, b"code NA", 4, line(b"NA", b"a"))?;
    case(out, b"code ND", 4, line(b"ND", b"a"))?;
    show(out, b"code na", 4, line(b"na", b"a"))?;
    case(out, b"code NA and A0", 4, line(b"NA\xA0", b"a"))?;
    case(out, b"code with A0", 4, line(b"NA\xA0A", b"a"))
}

fn centroids<W: Write>(out: &mut W) -> io::Result<()> {
    let v = named(b"a");
    case(out, b"centroid only Y", 4, coordinate(v, 8, 200))?;
    case(
        out,
        b"centroid wide Y no X",
        4,
        coordinate(v, 8, 10000000000),
    )?;
    case(out, b"centroid only Z", 4, coordinate(v, 10, 5))?;
    case(
        out,
        b"centroid X and Z",
        4,
        coordinate(coordinate(v, 6, 100), 10, 5),
    )?;
    show(
        out,
        b"centroid X and Y",
        4,
        coordinate(coordinate(v, 6, 100), 8, 200),
    )
}

fn catalogued(tipo: &[u8]) -> Values {
    text(text(none(), 1, b"0100001"), 2, tipo)
}

fn catalogue<W: Write>(out: &mut W) -> io::Result<()> {
    case(out, b"catalogue TIPO Q", 1, catalogued(b"Q"))?;
    case(out, b"catalogue TIPO missing", 1, catalogued(b""))?;
    show(out, b"catalogue TIPO T", 1, catalogued(b"T"))?;
    case(out, b"catalogue TIPO A0", 1, catalogued(b"\xA0"))?;
    case(out, b"catalogue TIPO A1", 1, catalogued(b"\xA1"))?;
    show(out, b"catalogue TIPO C", 1, catalogued(b"C"))?;
    case(out, b"catalogue TIPO S", 1, catalogued(b"S"))
}

fn tramo(sense: &[u8]) -> Values {
    let v = number(number(none(), 1, 1), 2, 1);
    let v = number(number(v, 6, 1), 7, 2);
    text(text(v, 5, b"0100001"), 8, sense)
}

fn tramos<W: Write>(out: &mut W) -> io::Result<()> {
    case(out, b"tramo sense x", 5, tramo(b"x"))?;
    show(out, b"tramo sense blank", 5, tramo(b""))?;
    show(out, b"tramo sense -", 5, tramo(b"-"))?;
    case(out, b"tramo sense A0", 5, tramo(b"\xA0"))?;
    case(out, b"tramo sense A1", 5, tramo(b"\xA1"))
}

fn vertices<W: Write>(out: &mut W) -> io::Result<()> {
    let v = node(100, 200);
    case(out, b"vertex order 100000", 6, number(v, 2, 100000))?;
    show(out, b"vertex order 99999", 6, number(v, 2, 99999))
}

fn texts<W: Write>(out: &mut W) -> io::Result<()> {
    let v = text(text(number(none(), 1, 1), 3, b"0100002"), 4, b"a");
    let v = coordinate(coordinate(number(v, 8, 3), 10, 100), 12, 200);
    case(out, b"text height missing", 3, v)?;
    let v = number(v, 5, 12);
    show(out, b"text", 3, v)?;
    case(out, b"text justification 0", 3, number(v, 8, 0))?;
    show(out, b"text justification 9", 3, number(v, 8, 9))?;
    case(out, b"text justification 10", 3, number(v, 8, 10))?;
    case(out, b"text orientation 36000", 3, number(v, 7, 36000))?;
    show(out, b"text orientation 35959", 3, number(v, 7, 35959))
}

fn points<W: Write>(out: &mut W) -> io::Result<()> {
    let v = text(text(number(none(), 1, 1), 4, b"0100003"), 5, b"a");
    let v = coordinate(coordinate(number(v, 3, 2), 9, 100), 11, 200);
    show(out, b"point", 2, v)?;
    show(out, b"point orientation 0", 2, number(v, 6, 0))?;
    show(out, b"point orientation 59", 2, number(v, 6, 59))?;
    case(out, b"point orientation 60", 2, number(v, 6, 60))?;
    case(out, b"point orientation 35960", 2, number(v, 6, 35960))?;
    case(out, b"point orientation 100000", 2, number(v, 6, 100000))
}

fn composite(code: &[u8], name: &[u8]) -> Values {
    text(text(number(none(), 1, 1), 2, code), 3, name)
}

fn composites<W: Write>(out: &mut W) -> io::Result<()> {
    let v = composite(b"0500000", b"a");
    let x = coordinate(v, 5, 100);
    show(out, b"composite", 8, v)?;
    case(out, b"composite id missing", 8, no(v, 1))?;
    case(
        out,
        b"composite id 10000000000",
        8,
        number(v, 1, 10000000000),
    )?;
    case(out, b"composite code missing", 8, composite(b"", b"a"))?;
    case(out, b"composite code NA", 8, composite(b"NA", b"a"))?;
    case(out, b"composite code of 8", 8, composite(b"05000000", b"a"))?;
    show(
        out,
        b"composite name missing",
        8,
        composite(b"0500000", b""),
    )?;
    case(
        out,
        b"composite name blank first",
        8,
        composite(b"0500000", b" a"),
    )?;
    case(
        out,
        b"composite name A0 last",
        8,
        composite(b"0500000", b"a\xA0"),
    )?;
    case(out, b"composite only X", 8, x)?;
    case(out, b"composite only Y", 8, coordinate(v, 7, 200))?;
    case(out, b"composite only Z", 8, coordinate(v, 9, 5))?;
    case(out, b"composite X and Z", 8, coordinate(x, 9, 5))?;
    show(out, b"composite X and Y", 8, coordinate(x, 7, -200))?;
    show(
        out,
        b"composite X, Y and Z",
        8,
        coordinate(coordinate(x, 7, 200), 9, 0),
    )?;
    case(
        out,
        b"composite wide Y no X",
        8,
        coordinate(v, 7, 10000000000),
    )?;
    case(out, b"composite wide Y", 8, coordinate(x, 7, 10000000000))?;
    out.write_all(b"composite room of 116")?;
    tell(out, 8, v, 116, false)?;
    out.write_all(b"composite room of 117")?;
    tell(out, 8, v, 117, false)
}

fn say_reading<W: Write>(
    out: &mut W,
    label: &[u8],
    file: usize,
    bytes: &[u8],
    n: usize,
) -> io::Result<()> {
    out.write_all(label)?;
    match read(file, bytes, n) {
        Err(r) => say_refusal(out, r.reason, r.field)?,
        Ok(_) => out.write_all(b" OK")?,
    }
    out.write_all(b"\n")
}

// A node's file of one record, read.
fn say_node_reading<W: Write>(out: &mut W, label: &[u8], n: usize) -> io::Result<()> {
    say_reading(
        out,
        label,
        7,
        b"0000000001| |+|000000100|+|0000000200| |        \r\n",
        n,
    )
}

fn composites_read<W: Write>(out: &mut W) -> io::Result<()> {
    say_reading(
        out,
        b"read file 9",
        9,
        b"0000000001|0500000|a                                                           | |         | |          | |        \r\n",
        1,
    )?;
    say_reading(
        out,
        b"read composite 0",
        8,
        b"0000000001|0500000|a                                                           | |         | |          | |        \r\n",
        0,
    )?;
    say_reading(
        out,
        b"read composite 2",
        8,
        b"0000000001|0500000|a                                                           | |         | |          | |        \r\n",
        2,
    )?;
    say_reading(
        out,
        b"read composite of 116",
        8,
        b"0000000001|0500000|a                                                           | |         | |          | |        \r",
        1,
    )?;
    say_reading(
        out,
        b"read composite",
        8,
        b"0000000001|0500000|a                                                           | |         | |          | |        \r\n",
        1,
    )?;
    say_reading(
        out,
        b"read composite end",
        8,
        b"0000000001|0500000|a                                                           | |         | |          | |        \n\r",
        1,
    )?;
    say_reading(
        out,
        b"read composite bar",
        8,
        b"0000000001|0500000|a                                                           | ,         | |          | |        \r\n",
        1,
    )?;
    say_reading(
        out,
        b"read composite id",
        8,
        b"         1|0500000|a                                                           | |         | |          | |        \r\n",
        1,
    )?;
    say_reading(
        out,
        b"read composite name",
        8,
        b"0000000001|0500000| a                                                          | |         | |          | |        \r\n",
        1,
    )?;
    say_reading(
        out,
        b"read composite code ND",
        8,
        b"0000000001|ND     |a                                                           | |         | |          | |        \r\n",
        1,
    )?;
    say_reading(
        out,
        b"read composite only Z",
        8,
        b"0000000001|0500000|a                                                           | |         | |          |+|00000005\r\n",
        1,
    )?;
    say_reading(
        out,
        b"read composite minus zero",
        8,
        b"0000000001|0500000|a                                                           |+|000000001|-|0000000000| |        \r\n",
        1,
    )?;
    say_reading(
        out,
        b"read composite X and Y",
        8,
        b"0000000001|0500000|a                                                           |+|000000001|-|0000000002| |        \r\n",
        1,
    )
}

fn main(rt: HostRuntime) -> io::Result<()> {
    let out = &mut rt.stdout();
    nodes(out)?;
    files(out)?;
    names(out)?;
    codes(out)?;
    centroids(out)?;
    catalogue(out)?;
    tramos(out)?;
    vertices(out)?;
    texts(out)?;
    points(out)?;
    composites(out)?;
    say_node_reading(out, b"read record 0", 0)?;
    say_node_reading(out, b"read record 2", 2)?;
    say_node_reading(out, b"read record 1", 1)?;
    composites_read(out)
}
