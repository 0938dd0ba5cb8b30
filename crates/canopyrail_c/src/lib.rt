// The calls that C hosts link, by the names that include/canopyrail.h has: each is the library's function of that name, with its clauses.
#![tactic(auto)]

ghost use Rattle.std.specs.Prelude.{◌≡◌, map};
ghost use Rattle.canopyrail.specs.Answers.{finding_word, reason_in, file_in, record_in, field_in, other_in};
ghost use Rattle.record.specs.Table.{which_of, on_file, fields_of, length_of, width_at};
ghost use Rattle.record.specs.Files.{files_of};
ghost use Rattle.record.specs.Cut.{count_of};
ghost use Rattle.judge.specs.Verdict.{judged};
ghost use Rattle.canopyrail.specs.Cells.{Counts, Adds};
ghost use Rattle.canopyrail.specs.Lent.{Reads, lent_values, WritesLent, lent_offset, lent_form};

// The reason's number in an answer; 0 where nothing is wrong.
#[unsafe(no_mangle)]
pub extern "C" fn canopyrail_reason(answer: u64) -> u64
    ensures { result ≡ reason_in answer }
{
    canopyrail::answer::canopyrail_reason(answer)
}

// The file's number.
#[unsafe(no_mangle)]
pub extern "C" fn canopyrail_file(answer: u64) -> u64
    ensures { result ≡ file_in answer }
{
    canopyrail::answer::canopyrail_file(answer)
}

// The record's number.
#[unsafe(no_mangle)]
pub extern "C" fn canopyrail_record(answer: u64) -> u64
    ensures { result ≡ record_in answer }
{
    canopyrail::answer::canopyrail_record(answer)
}

// The field's number.
#[unsafe(no_mangle)]
pub extern "C" fn canopyrail_field(answer: u64) -> u64
    ensures { result ≡ field_in answer }
{
    canopyrail::answer::canopyrail_field(answer)
}

// The earlier record's number, or the letter.
#[unsafe(no_mangle)]
pub extern "C" fn canopyrail_other(answer: u64) -> u64
    ensures { result ≡ other_in answer }
{
    canopyrail::answer::canopyrail_other(answer)
}

// Judges the files of a delivery, in any state, in the order of their numbers. An absent one is empty, and so are those past the end
// of the slice; what the slice has past the last kind is not looked at.
#[unsafe(no_mangle)]
pub extern "C" fn canopyrail_judge<'a, 'b>(files: &'b [&'a [u8]]) -> u64
    ensures { result ≡ finding_word (judged (files_of (map (λ x. x.now) files.now))) }
{
    canopyrail::delivery::canopyrail_judge(files)
}

// The number of whole records in the bytes of the file with the number; 0 of no file.
#[unsafe(no_mangle)]
pub extern "C" fn canopyrail_count(file: usize, bytes: &[u8]) -> usize
    ensures { result ≡ on_file (count_of bytes.now) (which_of file) }
{
    canopyrail::delivery::canopyrail_count(file, bytes)
}

// Counts all breaks of a delivery, files as canopyrail_judge takes them; a refusal leaves the cells as they were.
#[unsafe(no_mangle)]
pub extern "C" fn canopyrail_grid<'a, 'b>(files: &'b [&'a [u8]], cells: &mut [u64]) -> u64
    ensures { Counts (files_of (map (λ x. x.now) files.now)) cells.old result cells.new }
{
    canopyrail::grid::canopyrail_grid(files, cells)
}

// Adds a grid to another, cell by cell; a refusal leaves both as they were.
#[unsafe(no_mangle)]
pub extern "C" fn canopyrail_grid_add(into: &mut [u64], from: &[u64]) -> u64
    ensures { Adds into.old from.now result into.new }
{
    canopyrail::grid::canopyrail_grid_add(into, from)
}

// Reads record n, counted from 1, of the bytes of the file with the number; a refusal leaves the lent memory as it was.
#[unsafe(no_mangle)]
pub extern "C" fn canopyrail_read(
    file: usize,
    bytes: &[u8],
    n: usize,
    numbers: &mut [u64],
    coordinates: &mut [i64],
    lengths: &mut [usize],
    texts: &mut [u8],
) -> u64
    ensures { Reads file bytes.now n numbers.old coordinates.old lengths.old texts.old result numbers.new coordinates.new lengths.new texts.new }
{
    canopyrail::one::canopyrail_read(file, bytes, n, numbers, coordinates, lengths, texts)
}

// Writes one record of the file with the number at the start of the room, or refuses and leaves the room as it was.
#[unsafe(no_mangle)]
pub extern "C" fn canopyrail_write(
    file: usize,
    numbers: &[u64],
    coordinates: &[i64],
    lengths: &[usize],
    texts: &[u8],
    room: &mut [u8],
) -> u64
    ensures { WritesLent file (lent_values numbers.now coordinates.now lengths.now texts.now) room.old result room.new }
{
    canopyrail::one::canopyrail_write(file, numbers, coordinates, lengths, texts, room)
}

// The number of fields of the file's records.
#[unsafe(no_mangle)]
pub extern "C" fn canopyrail_fields(file: usize) -> usize
    ensures { result ≡ on_file fields_of (which_of file) }
{
    canopyrail::table::canopyrail_fields(file)
}

// The bytes of a record.
#[unsafe(no_mangle)]
pub extern "C" fn canopyrail_length(file: usize) -> usize
    ensures { result ≡ on_file length_of (which_of file) }
{
    canopyrail::table::canopyrail_length(file)
}

#[unsafe(no_mangle)]
pub extern "C" fn canopyrail_offset(file: usize, field: usize) -> usize
    ensures { result ≡ on_file (λ k. lent_offset k field) (which_of file) }
{
    canopyrail::table::canopyrail_offset(file, field)
}

// The width of the field.
#[unsafe(no_mangle)]
pub extern "C" fn canopyrail_width(file: usize, field: usize) -> usize
    ensures { result ≡ on_file (λ k. width_at k field) (which_of file) }
{
    canopyrail::table::canopyrail_width(file, field)
}

// What the field holds: 1 a text, 2 a coordinate's sign, 3 a number, 4 a coordinate's digits.
#[unsafe(no_mangle)]
pub extern "C" fn canopyrail_form(file: usize, field: usize) -> usize
    ensures { result ≡ on_file (λ k. lent_form k field) (which_of file) }
{
    canopyrail::table::canopyrail_form(file, field)
}

// The version that is linked, so that a host can hold it against the header that it was compiled with.
#[unsafe(no_mangle)]
pub extern "C" fn canopyrail_version() -> u64
    ensures { result ≡ 204 }
{
    canopyrail::version::canopyrail_version()
}
