// Columns that are filled record by record.
ghost use Rattle.std.specs.Prelude.{ℕ, ◌<◌, ◌≤◌, length};
ghost use Rattle.topology.specs.machinery.Each.{Each};

// What `value` makes of each of the first `n` records.
pub(crate) fn fill_each<T: Copy, F: Fn(usize) -> T>(n: usize, out: &mut [T], value: F)
    requires room { n ≤ length out.old }
    requires may { (i : ℕ) → i < n → F.pre value i }
    ensures { Each (λ i x. F.post value i x) out.old out.new n }
{
    for i in 0..n {
        out[i] = value(i);
    }
}
