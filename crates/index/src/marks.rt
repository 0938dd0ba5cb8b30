// Columns of marks: what a rule's function fills, one mark for each record of its file, and what is read off them.
ghost use Rattle.std.specs.Prelude.{◌≡◌, Bool, false, ℕ, ◌≤◌, length, get_or};
ghost use Rattle.laws.specs.Find.{first_index};
ghost use Rattle.laws.specs.Count.{bit};
ghost use Rattle.index.specs.Keys.{found_of};
ghost use Rattle.index.specs.Marks.{Marked, is_marked};

// A test's answer as a mark.
pub fn as_mark(test: bool) -> u8
    ensures { result ≡ bit test }
{
    u8::from(test)
}

// No record is marked.
pub fn clear(marks: &mut [u8], n: usize)
    requires { n ≤ length marks.old }
    ensures { Marked marks.old marks.new (λ i. false) n }
{
    marks[..n].fill(0);
}

// The first record that is marked.
pub fn first_marked(marks: &[u8], n: usize) -> Option<usize>
    requires { n ≤ length marks.now }
    ensures { result ≡ found_of (first_index (is_marked marks.now) n) }
{
    marks[..n].iter().position(|m| *m == 1)
}
