// A delivery is one parameter: the files' bytes, in the order of their numbers.
ghost use Rattle.std.specs.Prelude.{◌≡◌, true, List, map, ℕ, ◌≤◌};
ghost use Rattle.record.specs.Files.{files_of, delivery_of};
ghost use Rattle.record.specs.machinery.Columns.{Few, AllFew};

use crate::columns::rows;
use crate::kind::{FEW, FILES, Kind, kind_of};

// The bytes of a kind's file.
pub fn file_of<'a>(files: [&'a [u8]; FILES], k: Kind) -> &'a [u8]
    ensures { result.now ≡ files_of (map (λ x. x.now) files.entry) k }
{
    let n = k.number() - 1;
    files[n]
}

fn is_few<'a>(which: Option<Kind>, files: [&'a [u8]; FILES]) -> bool
    ensures { result ≡ true → Few (delivery_of (files_of (map (λ x. x.now) files.entry))) which }
{
    match which {
        None => true,
        Some(k) => rows(file_of(files, k), k) <= FEW,
    }
}

// Whether no file has more than a few records.
pub fn all_few<'a>(files: [&'a [u8]; FILES]) -> bool
    ensures { result ≡ true → AllFew (delivery_of (files_of (map (λ x. x.now) files.entry))) }
{
    for n in 0..FILES + 1 {
        if !is_few(kind_of(n), files) {
            return false;
        }
    }
    true
}
