// Holds metadata files against a delivery's counts and sizes and prints a line for each: the case, and the reason and the line of what is
// wrong first, or OK. The delivery has five records of file 1 and four of file 5.
#![tactic(auto)]

mod room;

use metadata::check::check_metadata;
use room::Room;
use std::io;
use std::io::Write;

const COUNTS: [u64; 8] = [5, 0, 0, 0, 4, 0, 0, 0];

const SIZES: [u64; 8] = [665, 0, 0, 0, 308, 0, 0, 0];

// The lawful file: its version, and its two sections.
const VERSION: &[u8] = b"VERSION_DE_MIGRA=1\r\n";

const FIRST: &[u8] =
    b"[FICHERO1]\r\nNOMBRE_MIGRA=Catalogo_de_elementos\r\nNUMERO_DE_REGISTROS=5\r\nTAMA\xD1O_EN_BYTES=665\r\n";

const SECOND: &[u8] =
    b"[FICHERO2]\r\nNOMBRE_MIGRA=Tramo\r\nNUMERO_DE_REGISTROS=4\r\nTAMA\xD1O_EN_BYTES=308\r\n";

fn tell<W: Write>(out: &mut W, label: &str, m: &[u8]) -> io::Result<()> {
    match check_metadata(m, &COUNTS, &SIZES) {
        Ok(()) => writeln!(out, "{label} OK"),
        Err(fault) => writeln!(out, "{label} {:04} {:04}", fault.rule.number(), fault.line),
    }
}

// A file of several parts.
fn case<W: Write>(out: &mut W, label: &str, parts: &[&[u8]]) -> io::Result<()> {
    let mut room = Room::new();
    for part in parts {
        room.add(*part);
    }
    tell(out, label, room.bytes())
}

// The lawful one with other lines for a part of it: the version,
fn version<W: Write>(out: &mut W, label: &str, t: &[u8]) -> io::Result<()> {
    case(out, label, &[t, FIRST, SECOND])
}

// the first section,
fn first<W: Write>(out: &mut W, label: &str, t: &[u8]) -> io::Result<()> {
    case(out, label, &[VERSION, t, SECOND])
}

// the second,
fn second<W: Write>(out: &mut W, label: &str, t: &[u8]) -> io::Result<()> {
    case(out, label, &[VERSION, FIRST, t])
}

// and with lines after them.
fn after<W: Write>(out: &mut W, label: &str, t: &[u8]) -> io::Result<()> {
    case(out, label, &[VERSION, FIRST, SECOND, t])
}

fn cases_1<W: Write>(out: &mut W) -> io::Result<()> {
    after(out, "lawful", b"")?;
    version(out, "version missing", b"")?;
    version(out, "version 01", b"VERSION_DE_MIGRA=01\r\n")?;
    version(out, "version 1 and a blank", b"VERSION_DE_MIGRA=1 \r\n")?;
    version(
        out,
        "blanks beside the equals sign",
        b"VERSION_DE_MIGRA  =  1\r\n",
    )?;
    version(out, "version in small letters", b"version_de_migra=1\r\n")?;
    version(out, "version 2", b"VERSION_DE_MIGRA=2\r\n")?;
    version(out, "version empty", b"VERSION_DE_MIGRA=\r\n")?;
    version(
        out,
        "version 1 and then 3",
        b"VERSION_DE_MIGRA=1\r\nVERSION_DE_MIGRA=3\r\n",
    )?;
    version(out, "a blank before the key", b" VERSION_DE_MIGRA=1\r\n")?;
    version(out, "a blank in the key", b"VERSION_DE MIGRA=1\r\n")?;
    after(out, "empty line", b"\r\n")
}

fn cases_2<W: Write>(out: &mut W) -> io::Result<()> {
    after(out, "line of a blank", b" \r\n")?;
    after(out, "comment", b"# a\r\n")?;
    after(out, "comment with an equals sign", b"# a=b\r\n")?;
    after(out, "nothing before the equals sign", b"=a\r\n")?;
    after(out, "blanks before the equals sign", b"  =a\r\n")?;
    after(out, "equals sign before another", b"==\r\n")?;
    after(out, "words", b"a b c\r\n")?;
    after(out, "section and a key", b"[A] B=c\r\n")?;
    after(out, "section with an equals sign", b"[A=B]\r\n")?;
    after(out, "section without a name", b"[]\r\n")?;
    after(out, "bracket alone", b"[\r\n")?;
    after(out, "bracket not closed", b"[NOTAS\r\n")
}

fn cases_3<W: Write>(out: &mut W) -> io::Result<()> {
    after(out, "no end mark", b"A=b")?;
    after(out, "0D alone at the end", b"A=b\x0D")?;
    after(out, "0D in a value", b"A=b\x0Dc\r\n")?;
    after(out, "0A in a value", b"A=b\nc\r\n")?;
    after(out, "0D before the end mark", b"A=b\x0D\r\n")?;
    first(
        out,
        "catalogue with its accent",
        b"[FICHERO1]\r\nNOMBRE_MIGRA=Cat\xE1logo_de_elementos\r\nNUMERO_DE_REGISTROS=5\r\nTAMA\xD1O_EN_BYTES=665\r\n",
    )?;
    first(
        out,
        "catalogue in capitals with its accent",
        b"[FICHERO1]\r\nNOMBRE_MIGRA=CAT\xC1LOGO_DE_ELEMENTOS\r\nNUMERO_DE_REGISTROS=5\r\nTAMA\xD1O_EN_BYTES=665\r\n",
    )?;
    first(
        out,
        "catalogue by its short name",
        b"[FICHERO1]\r\nNOMBRE_MIGRA=CATALOGO\r\nNUMERO_DE_REGISTROS=5\r\nTAMA\xD1O_EN_BYTES=665\r\n",
    )?;
    first(
        out,
        "catalogue with blanks",
        b"[FICHERO1]\r\nNOMBRE_MIGRA=Catalogo de elementos\r\nNUMERO_DE_REGISTROS=5\r\nTAMA\xD1O_EN_BYTES=665\r\n",
    )?;
    after(
        out,
        "a further file without records",
        b"[FICHERO3]\r\nNOMBRE_MIGRA=nodo\r\nNUMERO_DE_REGISTROS=0\r\nTAMA\xD1O_EN_BYTES=0\r\n",
    )?;
    after(
        out,
        "an unknown file",
        b"[FICHERO3]\r\nNOMBRE_MIGRA=Objeto puntual\r\nNUMERO_DE_REGISTROS=0\r\nTAMA\xD1O_EN_BYTES=0\r\n",
    )?;
    after(
        out,
        "a file that comes later",
        b"[FICHERO3]\r\nNOMBRE_MIGRA=Perimetro\r\nNUMERO_DE_REGISTROS=0\r\nTAMA\xD1O_EN_BYTES=0\r\n",
    )
}

fn cases_4<W: Write>(out: &mut W) -> io::Result<()> {
    after(
        out,
        "a file out of its order",
        b"[FICHERO3]\r\nNOMBRE_MIGRA=Objeto_puntual\r\nNUMERO_DE_REGISTROS=0\r\nTAMA\xD1O_EN_BYTES=0\r\n",
    )?;
    after(
        out,
        "composites after tramos",
        b"[FICHERO3]\r\nNOMBRE_MIGRA=Objeto_compuesto\r\nNUMERO_DE_REGISTROS=0\r\nTAMA\xD1O_EN_BYTES=0\r\n",
    )?;
    after(
        out,
        "a file listed twice",
        b"[FICHERO3]\r\nNOMBRE_MIGRA=Tramo\r\nNUMERO_DE_REGISTROS=4\r\nTAMA\xD1O_EN_BYTES=308\r\n",
    )?;
    first(
        out,
        "composites between the two",
        b"[FICHERO1]\r\nNOMBRE_MIGRA=Catalogo_de_elementos\r\nNUMERO_DE_REGISTROS=5\r\nTAMA\xD1O_EN_BYTES=665\r\n[FICHERO9]\r\nNOMBRE_MIGRA=OBJETO_COMPUESTO\r\nNUMERO_DE_REGISTROS=0\r\nTAMA\xD1O_EN_BYTES=0\r\n",
    )?;
    second(out, "a file with records not listed", b"")?;
    second(
        out,
        "name absent",
        b"[FICHERO2]\r\nNUMERO_DE_REGISTROS=4\r\nTAMA\xD1O_EN_BYTES=308\r\n",
    )?;
    second(
        out,
        "size absent",
        b"[FICHERO2]\r\nNOMBRE_MIGRA=Tramo\r\nNUMERO_DE_REGISTROS=4\r\n",
    )?;
    second(
        out,
        "count absent",
        b"[FICHERO2]\r\nNOMBRE_MIGRA=Tramo\r\nTAMA\xD1O_EN_BYTES=308\r\n",
    )?;
    second(
        out,
        "count twice",
        b"[FICHERO2]\r\nNOMBRE_MIGRA=Tramo\r\nNUMERO_DE_REGISTROS=4\r\nTAMA\xD1O_EN_BYTES=308\r\nNUMERO_DE_REGISTROS=4\r\n",
    )?;
    second(
        out,
        "name twice",
        b"[FICHERO2]\r\nNOMBRE_MIGRA=Tramo\r\nNUMERO_DE_REGISTROS=4\r\nTAMA\xD1O_EN_BYTES=308\r\nNOMBRE_MIGRA=Tramo\r\n",
    )?;
    second(
        out,
        "size twice",
        b"[FICHERO2]\r\nNOMBRE_MIGRA=Tramo\r\nNUMERO_DE_REGISTROS=4\r\nTAMA\xD1O_EN_BYTES=308\r\nTAMA\xF1o_en bytes=308\r\n",
    )?;
    second(
        out,
        "name twice, the second unknown",
        b"[FICHERO2]\r\nNOMBRE_MIGRA=Tramo\r\nNUMERO_DE_REGISTROS=4\r\nTAMA\xD1O_EN_BYTES=308\r\nNOMBRE_MIGRA=x\r\n",
    )
}

fn cases_5<W: Write>(out: &mut W) -> io::Result<()> {
    after(out, "section of a file without keys", b"[FICHERO3]\r\n")?;
    after(out, "the same in small letters", b"[fichero3]\r\n")?;
    after(out, "section without digits", b"[FICHERO]\r\n")?;
    after(
        out,
        "section with a letter after its digits",
        b"[FICHERO3A]\r\n",
    )?;
    after(out, "section with an underscore", b"[FICHERO_3]\r\n")?;
    after(out, "section with a blank", b"[FICHERO 3]\r\n")?;
    after(
        out,
        "keys in another section",
        b"[NOTAS]\r\nNOMBRE_MIGRA=x\r\nNUMERO_DE_REGISTROS=9\r\nNUMERO_DE_REGISTROS=9\r\n",
    )?;
    second(
        out,
        "size before name",
        b"[FICHERO2]\r\nTAMA\xD1O_EN_BYTES=308\r\nNUMERO_DE_REGISTROS=4\r\nNOMBRE_MIGRA=Tramo\r\n",
    )?;
    second(
        out,
        "count with its accent",
        b"[FICHERO2]\r\nNOMBRE_MIGRA=Tramo\r\nN\xDAMERO_DE_REGISTROS=4\r\nTAMA\xD1O_EN_BYTES=308\r\n",
    )?;
    second(
        out,
        "count with its accent in small letters",
        b"[FICHERO2]\r\nNOMBRE_MIGRA=Tramo\r\nn\xFAmero_de_registros=4\r\nTAMA\xD1O_EN_BYTES=308\r\n",
    )?;
    second(
        out,
        "count with blanks in its key",
        b"[FICHERO2]\r\nNOMBRE_MIGRA=Tramo\r\nNUMERO DE REGISTROS=4\r\nTAMA\xD1O_EN_BYTES=308\r\n",
    )?;
    second(
        out,
        "count 004",
        b"[FICHERO2]\r\nNOMBRE_MIGRA=Tramo\r\nNUMERO_DE_REGISTROS=004\r\nTAMA\xD1O_EN_BYTES=308\r\n",
    )
}

fn cases_6<W: Write>(out: &mut W) -> io::Result<()> {
    second(
        out,
        "count 5",
        b"[FICHERO2]\r\nNOMBRE_MIGRA=Tramo\r\nNUMERO_DE_REGISTROS=5\r\nTAMA\xD1O_EN_BYTES=308\r\n",
    )?;
    second(
        out,
        "count no number",
        b"[FICHERO2]\r\nNOMBRE_MIGRA=Tramo\r\nNUMERO_DE_REGISTROS=four\r\nTAMA\xD1O_EN_BYTES=308\r\n",
    )?;
    second(
        out,
        "count empty",
        b"[FICHERO2]\r\nNOMBRE_MIGRA=Tramo\r\nNUMERO_DE_REGISTROS=\r\nTAMA\xD1O_EN_BYTES=308\r\n",
    )?;
    second(
        out,
        "count and a blank",
        b"[FICHERO2]\r\nNOMBRE_MIGRA=Tramo\r\nNUMERO_DE_REGISTROS=4 \r\nTAMA\xD1O_EN_BYTES=308\r\n",
    )?;
    second(
        out,
        "count of forty digits",
        b"[FICHERO2]\r\nNOMBRE_MIGRA=Tramo\r\nNUMERO_DE_REGISTROS=1000000000000000000000000000000000000004\r\nTAMA\xD1O_EN_BYTES=308\r\n",
    )?;
    second(
        out,
        "count after forty zeros",
        b"[FICHERO2]\r\nNOMBRE_MIGRA=Tramo\r\nNUMERO_DE_REGISTROS=00000000000000000000000000000000000000004\r\nTAMA\xD1O_EN_BYTES=308\r\n",
    )?;
    second(
        out,
        "size with a blank for the second underscore",
        b"[FICHERO2]\r\nNOMBRE_MIGRA=Tramo\r\nNUMERO_DE_REGISTROS=4\r\nTAMA\xD1O_EN BYTES=308\r\n",
    )?;
    second(
        out,
        "size with a blank for the first underscore",
        b"[FICHERO2]\r\nNOMBRE_MIGRA=Tramo\r\nNUMERO_DE_REGISTROS=4\r\nTAMA\xD1O EN_BYTES=308\r\n",
    )?;
    second(
        out,
        "size without its tilde",
        b"[FICHERO2]\r\nNOMBRE_MIGRA=Tramo\r\nNUMERO_DE_REGISTROS=4\r\nTAMANO_EN_BYTES=308\r\n",
    )?;
    second(
        out,
        "size in UTF-8",
        b"[FICHERO2]\r\nNOMBRE_MIGRA=Tramo\r\nNUMERO_DE_REGISTROS=4\r\nTAMA\xC3\x91O_EN_BYTES=308\r\n",
    )?;
    second(
        out,
        "size 309",
        b"[FICHERO2]\r\nNOMBRE_MIGRA=Tramo\r\nNUMERO_DE_REGISTROS=4\r\nTAMA\xD1O_EN_BYTES=309\r\n",
    )?;
    second(
        out,
        "size 4",
        b"[FICHERO2]\r\nNOMBRE_MIGRA=Tramo\r\nNUMERO_DE_REGISTROS=4\r\nTAMA\xD1O_EN_BYTES=4\r\n",
    )
}

fn cases_7<W: Write>(out: &mut W) -> io::Result<()> {
    second(
        out,
        "count and size exchanged",
        b"[FICHERO2]\r\nNOMBRE_MIGRA=Tramo\r\nNUMERO_DE_REGISTROS=308\r\nTAMA\xD1O_EN_BYTES=4x\r\n",
    )
}

// The lawful file, with room for more.
fn lawful() -> Room {
    let mut room = Room::new();
    room.add(VERSION);
    room.add(FIRST);
    room.add(SECOND);
    room
}

// A line of 256 bytes, and one byte more.
fn lengths<W: Write>(out: &mut W) -> io::Result<()> {
    let mut room = lawful();
    room.add(b"A=");
    for _ in 0..254 {
        room.add(b"a");
    }
    let mut whole = room;
    whole.add(b"\r\n");
    tell(out, "line of 256 bytes", whole.bytes())?;
    room.add(b"a");
    let mut long = room;
    long.add(b"\r\n");
    tell(out, "line of 257 bytes", long.bytes())?;
    tell(out, "line of 257 bytes without its end mark", room.bytes())
}

// 2,048 lines, and one more.
fn numbers<W: Write>(out: &mut W) -> io::Result<()> {
    let mut room = lawful();
    for _ in 9..2048 {
        room.add(b"\r\n");
    }
    tell(out, "2,048 lines", room.bytes())?;
    let mut one_more = room;
    one_more.add(b"\r\n");
    tell(out, "2,049 lines", one_more.bytes())?;
    room.add(b"a");
    tell(out, "2,048 lines and a byte", room.bytes())
}

fn main(rt: HostRuntime) -> io::Result<()> {
    let out = &mut rt.stdout();
    tell(out, "no byte", b"")?;
    cases_1(out)?;
    cases_2(out)?;
    cases_3(out)?;
    cases_4(out)?;
    cases_5(out)?;
    cases_6(out)?;
    cases_7(out)?;
    lengths(out)?;
    numbers(out)
}
