// Reasons 40 and 41: the records of a file with a reference that names no record, or a code of another type. Each function adds a cell or
// two to the file's tally.
//
// Why marks and not a search for the first: a delivery may be broken at every record, and what is told of it goes by each of them. One
// pass over a column fills them, and each look-up is exact (index::way), so no pass goes over the other file's records.
ghost use Rattle.std.specs.Prelude.{◌≡◌, not, ℕ, ◌≤◌, ◌<◌, eqb, length, get_or};
ghost use Rattle.index.specs.Look.{IsFoundBelow};
ghost use Rattle.index.specs.Marks.{Marked};
ghost use Rattle.record.specs.Table.{limit};
ghost use Rattle.record.specs.Says.{table_of};
ghost use Rattle.record.specs.Names.{name_at};
ghost use Rattle.keys.specs.Rules.{dangles};
ghost use Rattle.keys.specs.machinery.Cells.{OneMore, TwoMore};
ghost use Rattle.keys.specs.machinery.Types.{Letters, mistyped_by, is_missed, is_other, Types};

use index::marks::{as_mark, clear};
use index::tally::{Tally, with_marks};
use index::way::Lookup;
use record::columns::{letter, rows};
use record::fill::fill_names;
use record::kind::Kind;
use record::names::name;

// The records whose field is there at all.
fn mark_present(s: &[u8], k: Kind, f: usize, marks: &mut [u8])
    requires { (table_of s.now k).count ≤ length marks.old }
    ensures { Marked marks.old marks.new (λ i. not (eqb (name_at k (table_of s.now k) i f) 0)) (table_of s.now k).count }
{
    let n = rows(s, k);
    for i in 0..n {
        marks[i] = as_mark(name(s, k, i, f) != 0);
    }
}

// One cell more: those records.
pub(crate) fn tally_present(
    t: Tally,
    s: &[u8],
    k: Kind,
    f: usize,
    cell: usize,
    marks: &mut [u8],
) -> Tally
    requires { (t.many ≤ 4294967296) × ((table_of s.now k).count ≤ length marks.old) }
    ensures { OneMore t (λ i. not (eqb (name_at k (table_of s.now k) i f) 0)) (table_of s.now k).count cell result }
{
    let n = rows(s, k);
    mark_present(s, k, f, marks);
    with_marks(t, marks, n, cell)
}

// Whether a name isn't missing and is none of the keys.
fn is_unknown(known: &Lookup<'_>, x: u64) -> bool
    ensures { result ≡ dangles (λ j. get_or known.now.keys.now j 0) known.now.n x }
{
    if x == 0 {
        return false;
    }
    !known.is_there(x)
}

// Of m names those that aren't missing and are none of the keys.
fn mark_unknown(refs: &[u64], m: usize, known: &Lookup<'_>, marks: &mut [u8])
    requires { (m ≤ length refs.now) × (m ≤ length marks.old) }
    ensures { Marked marks.old marks.new (λ i. dangles (λ j. get_or known.now.keys.now j 0) known.now.n (get_or refs.now i 0)) m }
{
    for i in 0..m {
        marks[i] = as_mark(is_unknown(known, refs[i]));
    }
}

// One cell more: those names.
fn tally_unknown(
    t: Tally,
    refs: &[u64],
    m: usize,
    known: &Lookup<'_>,
    cell: usize,
    marks: &mut [u8],
) -> Tally
    requires { (t.many ≤ 4294967296) × (m ≤ limit) × (m ≤ length refs.now) × (m ≤ length marks.old) }
    ensures { OneMore t (λ i. dangles (λ j. get_or known.now.keys.now j 0) known.now.n (get_or refs.now i 0)) m cell result }
{
    mark_unknown(refs, m, known, marks);
    with_marks(t, marks, m, cell)
}

// One cell more: the records of s whose field f names none of the keys that are in hand.
pub(crate) fn tally_known(
    t: Tally,
    s: &[u8],
    k: Kind,
    f: usize,
    known: &Lookup<'_>,
    cell: usize,
    refs: &mut [u64],
    marks: &mut [u8],
) -> Tally
    requires { (t.many ≤ 4294967296) × ((table_of s.now k).count ≤ length refs.old) × ((table_of s.now k).count ≤ length marks.old) }
    ensures { OneMore t (λ i. dangles (λ j. get_or known.now.keys.now j 0) known.now.n (name_at k (table_of s.now k) i f)) (table_of s.now k).count cell result }
{
    let m = fill_names(s, k, f, refs);
    tally_unknown(t, refs, m, known, cell, marks)
}

// One cell more: the records of s whose field f names no record of `to` by its field g. Where `to` has none, a name that is there is enough.
pub(crate) fn tally_dangling<'a>(
    t: Tally,
    s: &'a [u8],
    k: Kind,
    f: usize,
    to: &'a [u8],
    other: Kind,
    g: usize,
    cell: usize,
    refs: &mut [u64],
    names: &mut [u64],
    hints: &mut [u16],
    order: &mut [usize],
    marks: &mut [u8],
) -> Tally
    requires { (t.many ≤ 4294967296) × ((table_of s.now k).count ≤ length refs.old) × ((table_of s.now k).count ≤ length marks.old) × ((table_of «to».now other).count ≤ length names.old) × ((table_of «to».now other).count ≤ length order.old) }
    ensures { OneMore t (λ i. dangles (λ j. name_at other (table_of «to».now other) j g) (table_of «to».now other).count (name_at k (table_of s.now k) i f)) (table_of s.now k).count cell result }
{
    let n = fill_names(to, other, g, names);
    if n == 0 {
        return tally_present(t, s, k, f, cell, marks);
    }
    let known = Lookup::prepare(names, n, hints, order);
    tally_known(t, s, k, f, &known, cell, refs, marks)
}

// The letters of the catalogue's first n records.
pub(crate) fn fill_letters(cat: &[u8], n: usize, out: &mut [u8])
    requires { n ≤ length out.old }
    ensures { Letters out.new (table_of cat.now Kind.Catalogo) n }
{
    for j in 0..n {
        out[j] = letter(cat, Kind::Catalogo, j, 2);
    }
}

// Marks, of each code that is catalogued under the type, the record that a look-up of it finds. It is the same for equal codes, and so
// tells of all its records. Where no two codes are equal the record's own letter tells, and no marks are made.
fn mark_types(letters: &[u8], codes: &Lookup<'_>, wanted: u8, types: &mut [u8])
    requires { (codes.now.n ≤ length letters.now) × (codes.now.n ≤ length types.old) }
    ensures { Types codes.now (λ j. eqb (get_or letters.now j 0) wanted) types.new }
{
    if codes.way.apart {
        return;
    }
    clear(types, codes.n);
    for j in 0..codes.n {
        let found = codes.look(codes.keys[j]);
        let Some(r) = found else {
            return;
        };
        types[r] = as_mark((types[r] == 1) | (letters[j] == wanted));
    }
}

// Whether a code isn't missing, and was not found.
fn is_missed(found: Option<usize>, x: u64) -> bool
    ensures { result ≡ is_missed found x }
{
    found.is_none() & (x != 0)
}

// Whether a code was found, and under no record of the type. The record that was found decides where its letter is the type's, and where
// no two codes are equal, since it is the only one then; else its mark does.
fn is_other<'a>(
    found: Option<usize>,
    letters: &'a [u8],
    apart: bool,
    types: &'a [u8],
    wanted: u8,
) -> bool
    requires { IsFoundBelow found (length letters.now) × IsFoundBelow found (length types.now) }
    ensures { result ≡ is_other found letters.now apart types.now wanted }
{
    match found {
        None => false,
        Some(j) => (letters[j] != wanted) & (apart | (types[j] != 1)),
    }
}

// Of m codes those that aren't catalogued, and those that are catalogued under another type. Each is looked up once for both.
fn mark_codes<'a>(
    refs: &'a [u64],
    m: usize,
    letters: &'a [u8],
    codes: &Lookup<'_>,
    types: &'a [u8],
    wanted: u8,
    others: &mut [u8],
    marks: &mut [u8],
)
    requires { (m ≤ length refs.now) × (m ≤ length others.old) × (m ≤ length marks.old) × (codes.now.n ≤ length letters.now) × Types codes.now (λ j. eqb (get_or letters.now j 0) wanted) types.now }
    ensures marked { Marked marks.old marks.new (λ i. dangles (λ j. get_or codes.now.keys.now j 0) codes.now.n (get_or refs.now i 0)) m }
    ensures other { Marked others.old others.new (λ i. mistyped_by codes.now.keys.now letters.now codes.now.n wanted (get_or refs.now i 0)) m }
{
    for i in 0..m {
        let x = refs[i];
        let found = codes.look(x);
        marks[i] = as_mark(is_missed(found, x));
        others[i] = as_mark(is_other(found, letters, codes.way.apart, types, wanted));
    }
}

// Two cells more: the records of s whose code, in field f, isn't catalogued, and those whose code is catalogued under another type. The
// catalogue's codes and their letters are in hand; the file's own are read once for both.
pub(crate) fn tally_codes(
    t: Tally,
    s: &[u8],
    k: Kind,
    f: usize,
    letters: &[u8],
    codes: &Lookup<'_>,
    wanted: u8,
    cell: usize,
    refs: &mut [u64],
    types: &mut [u8],
    others: &mut [u8],
    marks: &mut [u8],
) -> Tally
    requires { (t.many ≤ 4294950912) × (cell ≤ 1000) × ((table_of s.now k).count ≤ length refs.old) × ((table_of s.now k).count ≤ length others.old) × ((table_of s.now k).count ≤ length marks.old) × (codes.now.n ≤ length letters.now) × (codes.now.n ≤ length types.old) }
    ensures { TwoMore t (λ i. dangles (λ j. get_or codes.now.keys.now j 0) codes.now.n (name_at k (table_of s.now k) i f)) (λ i. mistyped_by codes.now.keys.now letters.now codes.now.n wanted (name_at k (table_of s.now k) i f)) (table_of s.now k).count cell result }
{
    let m = fill_names(s, k, f, refs);
    mark_types(letters, codes, wanted, types);
    mark_codes(refs, m, letters, codes, types, wanted, others, marks);
    let known = with_marks(t, marks, m, cell);
    with_marks(known, others, m, cell + 1)
}
