// Grids added, cell by cell; refused where a cell's sum is over what ten digits hold.
ghost use Rattle.std.specs.Prelude.{◌≡◌, false, ℕ, ◌+◌, ◌<◌, ltb};
ghost use Rattle.grids.specs.Sum.{most_in_cell, too_many, add_finding, add_of, plus};

use judge::judge::GROUPS;
use record::kind::FILES;
use record::reason::{Break, Reason};

// The most that a cell may have.
pub const MOST: u64 = 9999999999;

// Whether a sum is over it.
fn is_over(x: u64, y: u64) -> bool
    ensures { result ≡ ltb most_in_cell (x + y) }
{
    MOST < x || MOST - x < y
}

// Whether a cell's sum is.
fn too_many(a: [[u64; GROUPS]; FILES], b: [[u64; GROUPS]; FILES]) -> bool
    ensures { result ≡ too_many a b }
{
    for i in 0..FILES {
        for g in 0..GROUPS {
            if is_over(a[i][g], b[i][g]) {
                return true;
            }
        }
    }
    false
}

// Whether the grids can be added: 67 where they can't.
pub fn add_finding(a: [[u64; GROUPS]; FILES], b: [[u64; GROUPS]; FILES]) -> Result<(), Break>
    ensures { result ≡ add_finding a b }
{
    if too_many(a, b) {
        return Err(Break {
            reason: Reason::TooMany67,
            file: 0,
            record: 0,
            field: 0,
        });
    }
    Ok(())
}

// The sum of two grids that can be added.
fn sum_of(a: [[u64; GROUPS]; FILES], b: [[u64; GROUPS]; FILES]) -> [[u64; GROUPS]; FILES]
    requires { too_many a b ≡ false }
    ensures { result ≡ plus a b }
{
    let mut sum = [[0u64; GROUPS]; FILES];
    for i in 0..FILES {
        for g in 0..GROUPS {
            sum[i][g] = a[i][g] + b[i][g];
        }
    }
    sum
}

// The sum of two grids; the first where they can't be added.
pub fn add(a: [[u64; GROUPS]; FILES], b: [[u64; GROUPS]; FILES]) -> [[u64; GROUPS]; FILES]
    ensures { result ≡ add_of a b }
{
    if too_many(a, b) {
        return a;
    }
    sum_of(a, b)
}
