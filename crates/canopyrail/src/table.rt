// The table of the files: how many fields, how many bytes, where a field begins, how wide it is and what it holds. The C interface asks
// by numbers and is answered by them: 0 of no file and of no field.
ghost use Rattle.std.specs.Prelude.{◌≡◌, ℕ};
ghost use Rattle.record.specs.Table.{which_of, fields_of, length_of, width_at, on_file};
ghost use Rattle.canopyrail.specs.Lent.{lent_offset, form_number, lent_form};

use record::kind::{Form, Kind, kind_of};

// The number of fields of the file's records.
pub fn canopyrail_fields(file: usize) -> usize
    ensures { result ≡ on_file fields_of (which_of file) }
{
    kind_of(file).map_or(0, |k| k.fields())
}

// The bytes of a record.
pub fn canopyrail_length(file: usize) -> usize
    ensures { result ≡ on_file length_of (which_of file) }
{
    kind_of(file).map_or(0, |k| k.length())
}

// How many bytes of the record stand before the field.
fn offset_in(k: Kind, f: usize) -> usize
    ensures { result ≡ lent_offset k f }
{
    if k.width(f) == 0 { 0 } else { k.offset(f) }
}

pub fn canopyrail_offset(file: usize, field: usize) -> usize
    ensures { result ≡ on_file (λ k. lent_offset k field) (which_of file) }
{
    kind_of(file).map_or(0, |k| offset_in(k, field))
}

// The width of the field.
pub fn canopyrail_width(file: usize, field: usize) -> usize
    ensures { result ≡ on_file (λ k. width_at k field) (which_of file) }
{
    kind_of(file).map_or(0, |k| k.width(field))
}

fn form_number(form: Form) -> usize
    ensures { result ≡ form_number form }
{
    match form {
        Form::Words => 1,
        Form::Code => 1,
        Form::Sign => 2,
        Form::Number => 3,
        Form::Size => 4,
    }
}

fn form_in(k: Kind, f: usize) -> usize
    ensures { result ≡ lent_form k f }
{
    if k.width(f) == 0 {
        0
    } else {
        form_number(k.form(f))
    }
}

// What the field holds: 1 a text, 2 a coordinate's sign, 3 a number, 4 a coordinate's digits.
pub fn canopyrail_form(file: usize, field: usize) -> usize
    ensures { result ≡ on_file (λ k. lent_form k field) (which_of file) }
{
    kind_of(file).map_or(0, |k| form_in(k, field))
}
