// A delivery judged, and the records of a file counted.
ghost use Rattle.std.specs.Prelude.{◌≡◌, List, [], map, ℕ, get_or};
ghost use Rattle.record.specs.Table.{which_of, on_file};
ghost use Rattle.record.specs.Files.{files_of};
ghost use Rattle.record.specs.Cut.{count_of};
ghost use Rattle.judge.specs.Verdict.{judged};
ghost use Rattle.canopyrail.specs.Answers.{finding_word};

use crate::answer::finding_word;
use judge::judge::judge;
use record::cut::records;
use record::kind::{FILES, kind_of};
use std::array;

// The n-th file, and an empty one where there is none.
fn file_at<'a, 'b>(files: &'b [&'a [u8]], n: usize) -> &'a [u8]
    ensures { result.now ≡ get_or (map (λ x. x.now) files.now) n [] }
{
    files.get(n).copied().unwrap_or(&[])
}

// All files of a delivery: those past the end of the slice are empty.
pub(crate) fn all_files<'a, 'b>(files: &'b [&'a [u8]]) -> [&'a [u8]; FILES]
    ensures { files_of (map (λ x. x.now) result) ≡ files_of (map (λ x. x.now) files.now) }
{
    array::from_fn(|n| file_at(files, n))
}

// Judges the files of a delivery, in any state, in the order of their numbers. An absent one is empty, and so are those past the end
// of the slice; what the slice has past the last kind is not looked at. Of no files nothing is gone over.
pub fn canopyrail_judge<'a, 'b>(files: &'b [&'a [u8]]) -> u64
    ensures { result ≡ finding_word (judged (files_of (map (λ x. x.now) files.now))) }
{
    if files.is_empty() {
        return 0;
    }
    finding_word(judge(all_files(files)).finding)
}

// The number of whole records in the bytes of the file with the number; 0 of no file.
pub fn canopyrail_count(file: usize, bytes: &[u8]) -> usize
    ensures { result ≡ on_file (count_of bytes.now) (which_of file) }
{
    kind_of(file).map_or(0, |k| records(bytes, k))
}
