// Exact look-ups: by hints alone, where every key has its place in their table, as it nearly always has; else by halving. Equal keys end at
// one place of the table, so where each has one, a key that is there is found, and one that isn't found is not there.
ghost use Rattle.std.specs.Prelude.{◌≡◌, ℕ, ◌≤◌, true, length};
ghost use Rattle.laws.specs.Find.{names};
ghost use Rattle.index.specs.Keys.{listed, room};
ghost use Rattle.index.specs.Look.{Sought};
ghost use Rattle.index.specs.Way.{look_of, Ready};
ghost use Rattle.index.specs.Props.{Ready-prop};

use crate::hint::{fill_hints, guess};
use crate::look::find;
use crate::order::sort;
use crate::twice::distinct;

// How keys are looked up, and whether they are known to differ.
#[derive(Clone, Copy)]
pub struct Way {
    pub hinted: bool,
    pub apart: bool,
}

// A way to look up the first `n` keys, with a table of hints and an order in lent room; the order is sorted where hints don't do.
pub fn prepare(keys: &[u64], n: usize, hints: &mut [u16], order: &mut [usize]) -> Way
    requires { (n ≤ room) × (n ≤ length keys.now) × (n ≤ length order.old) }
    ensures { Ready keys.now order.new hints.new n result }
{
    let way = fill_hints(keys, hints, n);
    if way.hinted {
        return way;
    }
    sort(keys, order, n);
    Way {
        hinted: false,
        apart: distinct(keys, order, n),
    }
}

// What the first `n` keys of a column are looked up by: a table of hints and an order, in lent room, and which of the two does.
#[derive(Clone, Copy)]
pub struct Lookup<'a> {
    pub keys: &'a [u64],
    pub order: &'a [usize],
    pub hints: &'a [u16],
    pub way: Way,
    pub n: usize,
    pub ghost ready: { Ready keys.now order.now hints.now n way } by { Ready-prop keys.now order.now hints.now n way },
}

impl<'a> Lookup<'a> {
    // Of the first `n` keys; the order is sorted where hints don't do.
    pub fn prepare(keys: &'a [u64], n: usize, hints: &'a mut [u16], order: &'a mut [usize]) -> Self
        requires { (n ≤ room) × (n ≤ length keys.now) × (n ≤ length order.old) }
        ensures keys { result.keys.now ≡ keys.now }
        ensures n { result.n ≡ n }
    {
        let way = prepare(keys, n, hints, order);
        Lookup {
            keys,
            order,
            hints,
            way,
            n,
        }
    }

    // Of no keys.
    pub fn of_none(keys: &'a [u64], hints: &'a [u16], order: &'a [usize]) -> Self
        ensures keys { result.keys.now ≡ keys.now }
        ensures order { result.order.now ≡ order.now }
        ensures hints { result.hints.now ≡ hints.now }
        ensures way { (result.way.hinted ≡ true) × (result.way.apart ≡ true) }
        ensures n { result.n ≡ 0 }
    {
        let way = Way {
            hinted: true,
            apart: true,
        };
        Lookup {
            keys,
            order,
            hints,
            way,
            n: 0,
        }
    }

    // A record with the key `x`, for each `x` always the same.
    pub fn look(&self, x: u64) -> Option<usize>
        ensures sought { Sought self.now.keys.now self.now.n x result }
        ensures same { result ≡ look_of self.now.keys.now self.now.order.now self.now.hints.now self.now.way.hinted self.now.n x }
    {
        if self.way.hinted {
            guess(self.keys, self.hints, self.n, x)
        } else {
            find(self.keys, self.order, self.n, x)
        }
    }

    // Whether a record has the key `x`.
    pub fn is_there(&self, x: u64) -> bool
        ensures { result ≡ names (listed self.now.keys.now) self.now.n x }
    {
        self.look(x).is_some()
    }
}
