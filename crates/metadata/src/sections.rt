// Sections of files: their keys, and what they name.
ghost use Rattle.std.specs.Prelude.{◌≡◌, List};
ghost use Rattle.metadata.specs.declared.told.Told.{Told};
ghost use Rattle.metadata.specs.Rules.{complete, met, named};
ghost use Rattle.metadata.specs.Searches.{is_key, search_at, past, is_first, is_again};

use crate::told::{File, Key, Told};

// What a search of lines for a key knows: whether it is in a section of a file, and whether the section has had the key.
#[derive(Clone, Copy)]
pub(crate) struct Search {
    key: Key,
    inside: bool,
    met: bool,
}

impl Search {
    // Before any line.
    pub(crate) fn of(key: Key) -> Search
        ensures { (ts : List Told) → result ≡ search_at key ts 0 }
    {
        Search {
            key,
            inside: false,
            met: false,
        }
    }

    // After the line.
    pub(crate) fn past(self, t: Told) -> Search
        ensures { result ≡ past self t }
    {
        if t.is_head() {
            Search {
                key: self.key,
                inside: t.is_file(),
                met: false,
            }
        } else {
            Search {
                key: self.key,
                inside: self.inside,
                met: self.key.has(t) | self.met,
            }
        }
    }

    // Whether the line is the key's first in a section of a file.
    pub(crate) fn is_first(self, t: Told) -> bool
        ensures { result ≡ is_first self t }
    {
        self.key.has(t) & self.inside & !self.met
    }

    // Whether it is a further one.
    pub(crate) fn is_again(self, t: Told) -> bool
        ensures { result ≡ is_again self t }
    {
        self.inside & (self.key.has(t) & self.met)
    }
}

// Whether the lines up to the next section have the key,
fn has_key(lines: &[Told], key: Key) -> bool
    ensures { result ≡ met (is_key key) lines.now }
{
    for t in lines {
        if t.is_head() {
            return false;
        }
        if key.has(*t) {
            return true;
        }
    }
    false
}

// all three keys,
pub(crate) fn is_complete(lines: &[Told]) -> bool
    ensures { result ≡ complete lines.now }
{
    has_key(lines, Key::Name) & has_key(lines, Key::Count) & has_key(lines, Key::Size)
}

// and the file that they name first.
pub(crate) fn named_in(lines: &[Told]) -> Option<File>
    ensures { result ≡ named lines.now }
{
    for t in lines {
        if t.is_head() {
            return None;
        }
        if let Told::Name(file) = *t {
            return file;
        }
    }
    None
}
