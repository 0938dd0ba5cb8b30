// The first break of a record's fields, of a file's fields (reasons 20 to 25) and of a file's shape (10 and 11).
ghost use Rattle.std.specs.Prelude.{◌≡◌, Bool, true, false, List, ℕ, ◌<◌, ◌≤◌, length, get_or};
ghost use Rattle.laws.specs.Nest.{run};
ghost use Rattle.record.specs.Rules.{twenties};
ghost use Rattle.record.specs.Breaks.{break_of, finding_of, at_place, twenty_reasons, record_finding, fields_finding, shape_finding, index_of};

use crate::cut::{record_bytes, records};
use crate::glance::plainly_lawful;
use crate::kind::{Kind, LIMIT};
use crate::reason::{Break, Reason};
use crate::rules::tests;

// The index of the first test that holds, and their number where none does.
pub fn first_true(t: &[bool]) -> usize
    ensures { result ≡ index_of t.now (length t.now) }
{
    for (j, holds) in t.iter().enumerate() {
        if *holds {
            return j;
        }
    }
    t.len()
}

// (A match is a table; an array would be built anew at each read.)
fn twenty_reason(j: usize) -> Reason
    ensures { result ≡ get_or twenty_reasons j Reason.LongFile10 }
{
    match j {
        0 => Reason::BadEnd20,
        1 => Reason::NoBar21,
        2 => Reason::NotNumber22,
        3 => Reason::NotText23,
        4 => Reason::Missing24,
        5 => Reason::Outside25,
        _ => Reason::LongFile10,
    }
}

pub fn break_of(reason: Reason, k: Kind, i: usize, f: usize) -> Break
    ensures { result ≡ break_of reason k i f }
{
    Break {
        reason,
        file: k.number(),
        record: i,
        field: f,
    }
}

// The first break of a place of a record, which is told as record i.
fn check_place(rec: &[u8], k: Kind, i: usize, f: usize) -> Result<(), Break>
    requires { f < 256 }
    ensures { result ≡ finding_of (run (at_place (twenties rec.now k f) twenty_reasons k i f)) }
{
    let t = tests(rec, k, f);
    let j = first_true(&t);
    if j < 6 {
        Err(break_of(twenty_reason(j), k, i, f))
    } else {
        Ok(())
    }
}

// The first break of a record's bytes, which is told as record i. Most records are lawful, and a glance tells it.
pub fn check_record(rec: &[u8], k: Kind, i: usize) -> Result<(), Break>
    ensures { result ≡ record_finding rec.now k i }
{
    if plainly_lawful(rec, k) {
        return Ok(());
    }
    for f in 0..k.fields() + 1 {
        check_place(rec, k, i, f)?;
    }
    Ok(())
}

// The first break of the fields of a file's whole records.
pub fn check_fields(s: &[u8], k: Kind) -> Result<(), Break>
    ensures { result ≡ fields_finding s.now k }
{
    for i in 0..records(s, k) {
        check_record(record_bytes(s, k, i), k, i + 1)?;
    }
    Ok(())
}

// The first break of a file's shape.
pub fn check_shape(s: &[u8], k: Kind) -> Result<(), Break>
    ensures { result ≡ shape_finding s.now k }
{
    let n = k.length();
    if LIMIT * n < s.len() {
        return Err(break_of(Reason::LongFile10, k, 0, 0));
    }
    if 0 < s.len() % n {
        return Err(break_of(Reason::RaggedFile11, k, records(s, k) + 1, 0));
    }
    Ok(())
}
