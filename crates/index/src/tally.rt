// A tally of rules in one file: over the cells gone over so far, a cell for each rule and field, the first record that breaks one, by
// record and then cell, and how many breaks there are. The verdict shows the first; a count of all breaks is the other.
ghost use Rattle.std.specs.Prelude.{◌≡◌, ℕ, ◌≤◌, length};
ghost use Rattle.laws.specs.Find.{first_index};
ghost use Rattle.laws.specs.Count.{bit, how_many};
ghost use Rattle.index.specs.Keys.{found_of};
ghost use Rattle.index.specs.Marks.{is_marked};
ghost use Rattle.index.specs.Tally.{no_tally, earlier, with_cell};

use crate::marks::first_marked;

// The first record that breaks a rule, and the cell.
#[derive(Clone, Copy)]
pub struct First {
    pub at: usize,
    pub cell: usize,
}

#[derive(Clone, Copy)]
pub struct Tally {
    pub first: Option<First>,
    pub many: u64,
}

// Of no cell.
pub fn no_tally() -> Tally
    ensures { result ≡ no_tally }
{
    Tally {
        first: None,
        many: 0,
    }
}

// How many records are marked.
pub fn count_marked(marks: &[u8], n: usize) -> u64
    requires { n ≤ length marks.now }
    ensures value { result ≡ how_many (is_marked marks.now) n }
    ensures most { result ≤ n }
{
    marks[..n].iter().filter(|m| **m == 1).count() as u64
}

// The earlier of the first record of the cells so far and the first of one cell more.
fn earlier(first: Option<First>, found: Option<usize>, cell: usize) -> Option<First>
    ensures { result ≡ earlier first found cell }
{
    match (first, found) {
        (_, None) => first,
        (Some(f), Some(at)) if f.at <= at => first,
        (_, Some(at)) => Some(First { at, cell }),
    }
}

// One cell more: its first record, and how many it has. Of two first records the lower, and of equals the earlier cell's.
pub fn with_cell(t: Tally, found: Option<usize>, many: u64, cell: usize) -> Tally
    requires { (t.many ≤ 4294967296) × (many ≤ 4294967296) }
    ensures { result ≡ with_cell t found many cell }
{
    Tally {
        first: earlier(t.first, found, cell),
        many: t.many + many,
    }
}

// One cell more, by its marks.
pub fn with_marks(t: Tally, marks: &[u8], n: usize, cell: usize) -> Tally
    requires { (t.many ≤ 4294967296) × (n ≤ length marks.now) × (n ≤ 16384) }
    ensures { result ≡ with_cell t (found_of (first_index (is_marked marks.now) n)) (how_many (is_marked marks.now) n) cell }
{
    let found = first_marked(marks, n);
    let many = count_marked(marks, n);
    with_cell(t, found, many, cell)
}
