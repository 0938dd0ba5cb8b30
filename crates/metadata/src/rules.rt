// The rules 81 to 86: a function for each, which gives the first line that breaks it.
ghost use Rattle.std.specs.Prelude.{◌≡◌, ◌+◌, length};
ghost use Rattle.metadata.specs.Faults.{ruled};
ghost use Rattle.metadata.specs.Rules.{of_file, listed, breaks81, breaks82, breaks83, breaks84, differs, told_fault};
ghost use Rattle.metadata.specs.Searches.{is_key};

use crate::fault::{Fault, Rule};
use crate::sections::{Search, is_complete, named_in};
use crate::told::{FILES, File, Key, Told};

fn check_81(lines: &[Told]) -> Result<(), Fault>
    ensures { result ≡ ruled Rule.OddLine81 (breaks81 lines.now) (length lines.now + 1) }
{
    for (i, t) in lines.iter().enumerate() {
        if t.is_nothing() {
            return Err(Rule::OddLine81.at(i + 1));
        }
    }
    Ok(())
}

fn check_82(lines: &[Told]) -> Result<(), Fault>
    ensures { result ≡ ruled Rule.OtherVersion82 (breaks82 lines.now) (length lines.now + 1) }
{
    let mut some = false;
    for (i, t) in lines.iter().enumerate() {
        if let Told::Version(one) = *t {
            if !one {
                return Err(Rule::OtherVersion82.at(i + 1));
            }
            some = true;
        }
    }
    if some {
        Ok(())
    } else {
        Err(Rule::OtherVersion82.at(0))
    }
}

// A file's number in a list by files, 0 where there is none.
fn of_file(numbers: &[u64], file: Option<File>) -> u64
    ensures { result ≡ of_file numbers.now file }
{
    match file {
        Some(f) => numbers.get(f.place()).copied().unwrap_or(0),
        None => 0,
    }
}

// Whether a section of a file names the file first.
fn is_listed(lines: &[Told], file: File) -> bool
    ensures { result ≡ listed lines.now file }
{
    let mut names = Search::of(Key::Name);
    for t in lines {
        if names.is_first(*t) & t.names(file) {
            return true;
        }
        names = names.past(*t);
    }
    false
}

// Whether a file with records is not listed.
fn is_one_unlisted(lines: &[Told], counts: &[u64]) -> bool
    ensures { result ≡ breaks83 counts.now lines.now 0 }
{
    for file in FILES {
        if 0 < of_file(counts, Some(file)) && !is_listed(lines, file) {
            return true;
        }
    }
    false
}

fn check_83(lines: &[Told], counts: &[u64]) -> Result<(), Fault>
    ensures { result ≡ ruled Rule.OtherList83 (breaks83 counts.now lines.now) (length lines.now + 1) }
{
    if is_one_unlisted(lines, counts) {
        return Err(Rule::OtherList83.at(0));
    }
    let mut names = Search::of(Key::Name);
    let mut top = 0;
    for (i, t) in lines.iter().enumerate() {
        if names.is_first(*t) {
            let Some(file) = t.file() else {
                return Err(Rule::OtherList83.at(i + 1));
            };
            let rank = file.rank();
            if rank <= top {
                return Err(Rule::OtherList83.at(i + 1));
            }
            top = rank;
        }
        names = names.past(*t);
    }
    Ok(())
}

fn check_84(lines: &[Told]) -> Result<(), Fault>
    ensures { result ≡ ruled Rule.OtherKeys84 (breaks84 lines.now) (length lines.now + 1) }
{
    let mut names = Search::of(Key::Name);
    let mut counts = Search::of(Key::Count);
    let mut sizes = Search::of(Key::Size);
    for (i, t) in lines.iter().enumerate() {
        if t.is_file() && !is_complete(&lines[i + 1..]) {
            return Err(Rule::OtherKeys84.at(i + 1));
        }
        if names.is_again(*t) | counts.is_again(*t) | sizes.is_again(*t) {
            return Err(Rule::OtherKeys84.at(i + 1));
        }
        names = names.past(*t);
        counts = counts.past(*t);
        sizes = sizes.past(*t);
    }
    Ok(())
}

// 85 and 86: the first count, or size, of a section that differs from its file's number.
fn check_numbers(lines: &[Told], key: Key, numbers: &[u64], rule: Rule) -> Result<(), Fault>
    ensures { result ≡ ruled rule (differs (is_key key) numbers.now lines.now) (length lines.now + 1) }
{
    let mut search = Search::of(key);
    let mut file = None;
    for (i, t) in lines.iter().enumerate() {
        if search.is_first(*t) & !t.gives(of_file(numbers, file)) {
            return Err(rule.at(i + 1));
        }
        if t.is_head() {
            file = named_in(&lines[i + 1..]);
        }
        search = search.past(*t);
    }
    Ok(())
}

// The first fault of 81 to 86, by rule and line.
pub(crate) fn check_lines(lines: &[Told], counts: &[u64], sizes: &[u64]) -> Result<(), Fault>
    ensures { result ≡ told_fault counts.now sizes.now lines.now }
{
    check_81(lines)?;
    check_82(lines)?;
    check_83(lines, counts)?;
    check_84(lines)?;
    check_numbers(lines, Key::Count, counts, Rule::OtherCount85)?;
    check_numbers(lines, Key::Size, sizes, Rule::OtherSize86)
}
