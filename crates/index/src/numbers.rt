// Numbers that stand for keys, below 16,384 and one for each key; and by them the keys that occur twice, for which no number is kept.
ghost use Rattle.std.specs.Prelude.{◌≡◌, ℕ, ◌≤◌, length, get_or};
ghost use Rattle.laws.specs.Find.{names};
ghost use Rattle.index.specs.Keys.{listed};
ghost use Rattle.index.specs.Marks.{Marked};
ghost use Rattle.index.specs.Way.{Stands};

use crate::ROOM;
use crate::marks::clear;
use crate::way::Lookup;

impl<'a> Lookup<'a> {
    // For each of the keys the record that a look-up of it finds, which is the same for equal keys.
    pub(crate) fn fill_numbers(&self, out: &mut [u64])
        requires { self.now.n ≤ length out.old }
        ensures { Stands self.now.keys.now out.new self.now.n }
    {
        for i in 0..self.n {
            let found = self.look(self.keys[i]);
            out[i] = found.unwrap_or(0) as u64;
        }
    }

    // Marks each record whose key is an earlier one's: the record that a look-up of the key finds was found before.
    fn mark_seen(&self, marks: &mut [u8])
        requires { self.now.n ≤ length marks.old }
        ensures { Marked marks.old marks.new (λ i. names (listed self.now.keys.now) i (get_or self.now.keys.now i 0)) self.now.n }
    {
        let mut seen = [0u8; ROOM];
        for i in 0..self.n {
            let found = self.look(self.keys[i]);
            let x = found.unwrap_or(0);
            marks[i] = seen[x];
            seen[x] = 1;
        }
    }

    // The same, and at once where keys are known to differ.
    pub fn mark_repeats(&self, marks: &mut [u8])
        requires { self.now.n ≤ length marks.old }
        ensures { Marked marks.old marks.new (λ i. names (listed self.now.keys.now) i (get_or self.now.keys.now i 0)) self.now.n }
    {
        if self.way.apart {
            clear(marks, self.n);
            return;
        }
        self.mark_seen(marks);
    }
}
