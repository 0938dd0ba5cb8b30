// The thirties and forties in a file and in a delivery: the tally of each file's breaks, and the first break of all. A file's breaks are
// tallied by cells, ten a field, one for each reason.
//
// Columns are read into arrays that are lent: short ones where no file has more than a few records, so that a small delivery clears no
// long ones. The catalogue's codes and letters and the ids of the nodes are read and prepared once, for all files.
ghost use Rattle.std.specs.Prelude.{◌≡◌, List, map, ℕ, ◌+◌, ◌-◌, ◌*◌, ◌≤◌, ◌<◌, length, get_or};
ghost use Rattle.index.specs.Tally.{no_tally};
ghost use Rattle.record.specs.Table.{limit, fields_of, file_of};
ghost use Rattle.record.specs.Files.{files_of, delivery_of};
ghost use Rattle.record.specs.machinery.Columns.{Fills};
ghost use Rattle.record.specs.Says.{table_of};
ghost use Rattle.record.specs.Names.{name_at, key_of};
ghost use Rattle.keys.specs.Rules.{key_tests, key_reasons, refers_to_catalogue, first_with};
ghost use Rattle.keys.specs.machinery.Findings.{keys_in, keys_finding};
ghost use Rattle.keys.specs.machinery.Groups.{at_file};
ghost use Rattle.keys.specs.machinery.Cells.{TalliedTo, key_tally, tally_at, key_tallies};
ghost use Rattle.keys.specs.machinery.Lent.{AllWithin, Prepared, AtHand, refers_to_nodes};

use crate::over::first_of_files;
use crate::refer::{fill_letters, tally_codes, tally_dangling, tally_known, tally_present};
use crate::repeat::tally_repeats;
use index::tally::{Tally, no_tally};
use index::way::Lookup;
use index::{FEW_HINTS, HINTS};
use record::check::break_of;
use record::columns::{letter, rows};
use record::files::{all_few, file_of};
use record::fill::fill_names;
use record::kind::{FEW, FILES, Kind, LIMIT, Target, kind_of};
use record::names::{name, record_key};
use record::reason::{Break, Reason};

fn refers_to_catalogue(t: Target) -> bool
    ensures { result ≡ refers_to_catalogue t }
{
    match t {
        Target::Free => false,
        Target::Nowhere => false,
        Target::To(other, _) => other.number() == Kind::Catalogo.number(),
    }
}

fn refers_to_nodes(t: Target) -> bool
    ensures { result ≡ refers_to_nodes t }
{
    match t {
        Target::Free => false,
        Target::Nowhere => false,
        Target::To(other, g) => (other.number() == Kind::Nodo.number()) & (g == 1),
    }
}

// What the forties look up: the catalogue's codes, with their letters, and the ids of the nodes.
#[derive(Clone, Copy)]
struct Known<'a> {
    letters: &'a [u8],
    codes: Lookup<'a>,
    nodes: Lookup<'a>,
}

// Room for a file: for the columns that are read, for a look-up in another file, and for the marks that are made.
#[derive(Drop)]
struct Room<const N: usize, const H: usize> {
    refs: [u64; N],
    names: [u64; N],
    hints: [u16; H],
    order: [usize; N],
    types: [u8; N],
    others: [u8; N],
    marks: [u8; N],
    ghost sizes: { (N ≤ 16384) × (H ≤ 32768) },
    ghost long: { (length refs ≡ N) × (length names ≡ N) × (length order ≡ N) × (length types ≡ N) × (length others ≡ N) × (length marks ≡ N) },
}

// 40 and 41 at field f of file k: ten cells more, by what the field refers to.
fn tally_field<'a, const N: usize, const H: usize>(
    t: Tally,
    k: Kind,
    f: usize,
    files: [&'a [u8]; FILES],
    known: &Known<'_>,
    room: &mut Room<N, H>,
) -> Tally
    requires { (f ≤ fields_of k) × TalliedTo (key_tests 4 (delivery_of (files_of (map (λ x. x.now) files))) k) (delivery_of (files_of (map (λ x. x.now) files)) k).count (f * 10) t × Prepared (delivery_of (files_of (map (λ x. x.now) files))) known.now × AllWithin (delivery_of (files_of (map (λ x. x.now) files))) N }
    ensures { TalliedTo (key_tests 4 (delivery_of (files_of (map (λ x. x.now) files.entry))) k) (delivery_of (files_of (map (λ x. x.now) files.entry)) k).count (f * 10 + 10) result }
{
    let own = file_of(files, k);
    let target = k.target(f);
    if refers_to_catalogue(target) {
        let wanted = k.letter();
        return tally_codes(
            t,
            own,
            k,
            f,
            known.letters,
            &known.codes,
            wanted,
            f * 10,
            &mut room.refs,
            &mut room.types,
            &mut room.others,
            &mut room.marks,
        );
    }
    if refers_to_nodes(target) {
        return tally_known(
            t,
            own,
            k,
            f,
            &known.nodes,
            f * 10,
            &mut room.refs,
            &mut room.marks,
        );
    }
    match target {
        Target::Free => t,
        Target::Nowhere => tally_present(t, own, k, f, f * 10, &mut room.marks),
        Target::To(other, g) => {
            let to = file_of(files, other);
            tally_dangling(
                t,
                own,
                k,
                f,
                to,
                other,
                g,
                f * 10,
                &mut room.refs,
                &mut room.names,
                &mut room.hints,
                &mut room.order,
                &mut room.marks,
            )
        }
    }
}

// The tally of 40 and 41 in file k.
fn tally_fields<'a, const N: usize, const H: usize>(
    k: Kind,
    files: [&'a [u8]; FILES],
    known: &Known<'_>,
    room: &mut Room<N, H>,
) -> Tally
    requires { Prepared (delivery_of (files_of (map (λ x. x.now) files))) known.now × AllWithin (delivery_of (files_of (map (λ x. x.now) files))) N }
    ensures { result ≡ key_tally 4 (delivery_of (files_of (map (λ x. x.now) files.entry))) k }
{
    let end = k.fields();
    let mut t = no_tally();
    for f in 0..=end {
        t = tally_field(t, k, f, files, known, room);
    }
    t
}

// The tally of the ten t in file k.
fn tally_file<'a, const N: usize, const H: usize>(
    t: usize,
    k: Kind,
    files: [&'a [u8]; FILES],
    known: &Known<'_>,
    room: &mut Room<N, H>,
) -> Tally
    requires { AtHand t (delivery_of (files_of (map (λ x. x.now) files))) known.now × AllWithin (delivery_of (files_of (map (λ x. x.now) files))) N }
    ensures { result ≡ key_tally t (delivery_of (files_of (map (λ x. x.now) files.entry))) k }
{
    if t == 3 {
        return tally_repeats(
            file_of(files, k),
            k,
            &mut room.refs,
            &mut room.hints,
            &mut room.order,
            &mut room.marks,
        );
    }
    if t == 4 {
        return tally_fields(k, files, known, room);
    }
    no_tally()
}

// What a file number's kind gives, and nothing where there is none.
fn tally_which<'a, const N: usize, const H: usize>(
    t: usize,
    which: Option<Kind>,
    files: [&'a [u8]; FILES],
    known: &Known<'_>,
    room: &mut Room<N, H>,
) -> Tally
    requires { AtHand t (delivery_of (files_of (map (λ x. x.now) files))) known.now × AllWithin (delivery_of (files_of (map (λ x. x.now) files))) N }
    ensures { result ≡ tally_at (key_tally t (delivery_of (files_of (map (λ x. x.now) files.entry)))) which }
{
    match which {
        None => no_tally(),
        Some(k) => tally_file(t, k, files, known, room),
    }
}

// The tallies of the ten t in each file.
fn tally_files<'a, const N: usize, const H: usize>(
    t: usize,
    files: [&'a [u8]; FILES],
    known: &Known<'_>,
    room: &mut Room<N, H>,
) -> [Tally; FILES]
    requires { AtHand t (delivery_of (files_of (map (λ x. x.now) files))) known.now × AllWithin (delivery_of (files_of (map (λ x. x.now) files))) N }
    ensures { result ≡ key_tallies t (delivery_of (files_of (map (λ x. x.now) files.entry))) }
{
    let none = no_tally();
    let mut tallies = [none; FILES];
    for i in 0..FILES {
        tallies[i] = tally_which(t, kind_of(i + 1), files, known, room);
    }
    tallies
}

// What the first field of a file names, read and prepared for the forties; no other ten looks it up, and has no names.
fn prepare_names<'a>(
    t: usize,
    s: &[u8],
    k: Kind,
    keys: &'a mut [u64],
    order: &'a mut [usize],
    hints: &'a mut [u16],
) -> Lookup<'a>
    requires { ((table_of s.now k).count ≤ length keys.old) × ((table_of s.now k).count ≤ length order.old) }
    ensures most { result.n ≤ (table_of s.now k).count }
    ensures fills { t ≡ 4 → Fills result.keys.now (λ j. name_at k (table_of s.now k) j 1) (table_of s.now k).count result.n }
{
    if t == 4 {
        let n = fill_names(s, k, 1, keys);
        return Lookup::prepare(keys, n, hints, order);
    }
    Lookup::of_none(keys, hints, order)
}

// The tallies of the ten t in each file, in arrays for N records a file and tables for H hints.
fn tally_within<'a, const N: usize, const H: usize>(
    t: usize,
    files: [&'a [u8]; FILES],
) -> [Tally; FILES]
    requires within { AllWithin (delivery_of (files_of (map (λ x. x.now) files))) N }
    requires sizes { (N ≤ 16384) × (H ≤ 32768) }
    ensures { result ≡ key_tallies t (delivery_of (files_of (map (λ x. x.now) files.entry))) }
{
    let mut letters = [0u8; N];
    let mut codes = [0u64; N];
    let mut code_order = [0usize; N];
    let mut code_hints = [0u16; H];
    let mut ids = [0u64; N];
    let mut id_order = [0usize; N];
    let mut id_hints = [0u16; H];
    let cat = file_of(files, Kind::Catalogo);
    let codes = prepare_names(
        t,
        cat,
        Kind::Catalogo,
        &mut codes,
        &mut code_order,
        &mut code_hints,
    );
    fill_letters(cat, codes.n, &mut letters);
    let nodo = file_of(files, Kind::Nodo);
    let nodes = prepare_names(t, nodo, Kind::Nodo, &mut ids, &mut id_order, &mut id_hints);
    let known = Known {
        letters: &letters,
        codes,
        nodes,
    };
    let mut room = Room {
        refs: [0u64; N],
        names: [0u64; N],
        hints: [0u16; H],
        order: [0usize; N],
        types: [0u8; N],
        others: [0u8; N],
        marks: [0u8; N],
    };
    tally_files(t, files, &known, &mut room)
}

// The tallies of the ten t, 3 or 4, in each file of a delivery, by the files' numbers.
pub fn tally_keys<'a>(t: usize, files: [&'a [u8]; FILES]) -> [Tally; FILES]
    ensures { result ≡ key_tallies t (delivery_of (files_of (map (λ x. x.now) files.entry))) }
{
    if all_few(files) {
        tally_within::<FEW, FEW_HINTS>(t, files)
    } else {
        tally_within::<LIMIT, HINTS>(t, files)
    }
}

// The tally of a kind's file.
pub fn tally_of(tallies: [Tally; FILES], k: Kind) -> Tally
    ensures { result ≡ get_or tallies (file_of k - 1) no_tally }
{
    let n = k.number() - 1;
    tallies[n]
}

// The first of n records whose key is x, counted from 0; 0 where there is none.
fn first_with_key(s: &[u8], k: Kind, n: usize, x: u64) -> usize
    ensures { result ≡ first_with (key_of k (table_of s.now k)) n x }
{
    for j in 0..n {
        if record_key(s, k, j) == x {
            return j;
        }
    }
    0
}

// The reason 10 t + u with its data, for record i and field f of file k.
fn reason_in<'a>(
    t: usize,
    k: Kind,
    i: usize,
    f: usize,
    u: usize,
    files: [&'a [u8]; FILES],
) -> Reason
    requires { i < limit }
    ensures { result ≡ get_or (key_reasons t (delivery_of (files_of (map (λ x. x.now) files.entry))) k i f) u Reason.LongFile10 }
{
    let own = file_of(files, k);
    if t == 3 {
        if u == 0 {
            return Reason::SameKey30(first_with_key(own, k, i, record_key(own, k, i)) + 1);
        }
        return Reason::LongFile10;
    }
    if t == 4 {
        if u == 0 {
            return Reason::NoRecord40;
        }
        if u == 1 {
            let catalogo = file_of(files, Kind::Catalogo);
            let n = rows(catalogo, Kind::Catalogo);
            let j = first_with_key(catalogo, Kind::Catalogo, n, name(own, k, i, f));
            return Reason::OtherType41(letter(catalogo, Kind::Catalogo, j, 2));
        }
    }
    Reason::LongFile10
}

// The first break of the ten t in file k, by the file's tally.
fn check_file<'a>(t: usize, k: Kind, tally: Tally, files: [&'a [u8]; FILES]) -> Result<(), Break>
    requires { tally ≡ key_tally t (delivery_of (files_of (map (λ x. x.now) files))) k }
    ensures { result ≡ keys_in t (delivery_of (files_of (map (λ x. x.now) files.entry))) k }
{
    match tally.first {
        None => Ok(()),
        Some(first) => {
            let i = first.at;
            let f = first.cell / 10;
            let u = first.cell % 10;
            let reason = reason_in(t, k, i, f, u, files);
            Err(break_of(reason, k, i + 1, f))
        }
    }
}

// The first break of the ten t, 3 or 4, in a delivery.
pub fn check_keys<'a>(t: usize, files: [&'a [u8]; FILES]) -> Result<(), Break>
    ensures { result ≡ keys_finding t (delivery_of (files_of (map (λ x. x.now) files.entry))) }
{
    let tallies = tally_keys(t, files);
    first_of_files(
        |k| -> Result<(), Break>
            requires { tallies ≡ key_tallies t (delivery_of (files_of (map (λ x. x.now) files))) }
            ensures { result ≡ keys_in t (delivery_of (files_of (map (λ x. x.now) files.entry))) k }
        { check_file(t, k, tally_of(tallies, k), files) },
    )
}
