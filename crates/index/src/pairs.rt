// Two columns as one: a number for each pair, and two are equal exactly where both their parts are. The first part goes in by the number
// that stands for it, since two coordinates are too wide for one number.
ghost use Rattle.std.specs.Prelude.{◌<◌, ◌≤◌, length};
ghost use Rattle.laws.specs.Row.{Narrow};
ghost use Rattle.index.specs.Keys.{room};
ghost use Rattle.index.specs.Pairs.{wide, Joined, Pairs, PairIs};

use crate::way::Lookup;

// Second parts are below this.
pub const WIDE: u64 = 1099511627776;
// No pair has this number, 16,384 by WIDE.
pub const NO_PAIR: u64 = 18014398509481984;

// Puts the second parts beside the numbers that are there.
fn join(seconds: &[u64], n: usize, out: &mut [u64])
    requires { (n ≤ length seconds.now) × (n ≤ length out.old) × Narrow out.old n room × Narrow seconds.now n wide }
    ensures { Joined out.old seconds.now out.new n }
{
    for i in 0..n {
        out[i] = out[i] * WIDE + seconds[i];
    }
}

impl<'a> Lookup<'a> {
    // A number for each pair of the keys and second parts.
    pub fn fill_pairs(&self, seconds: &[u64], out: &mut [u64])
        requires { (self.now.n ≤ length seconds.now) × (self.now.n ≤ length out.old) × Narrow seconds.now self.now.n wide }
        ensures { Pairs self.now.keys.now seconds.now out.new self.now.n }
    {
        self.fill_numbers(out);
        join(seconds, self.n, out);
    }

    // The number of the pair of x and y, by a record that has the first part; where none has it, a number that no pair has. The second
    // parts are there for the contract alone.
    pub fn pair_number(&self, seconds: &[u64], pairs: &[u64], x: u64, y: u64) -> u64
        requires { Pairs self.now.keys.now seconds.now pairs.now self.now.n × (self.now.n ≤ length pairs.now) × (y < wide) }
        ensures { PairIs self.now.keys.now seconds.now pairs.now self.now.n x y result }
    {
        match self.look(x) {
            None => NO_PAIR,
            Some(j) => pairs[j] / WIDE * WIDE + y,
        }
    }
}
