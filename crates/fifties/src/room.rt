// Room that the rules' functions are lent: columns and marks for N records of a file, and a table for H hints.
ghost use Rattle.std.specs.Prelude.{◌≡◌, ◌≤◌, length};

#[derive(Drop)]
pub(crate) struct Room<const N: usize, const H: usize> {
    pub a: [u64; N],
    pub b: [u64; N],
    pub c: [u64; N],
    pub d: [u64; N],
    pub e: [u64; N],
    pub hints: [u16; H],
    pub order: [usize; N],
    pub named: [u8; N],
    pub tips: [u8; N],
    pub marks: [u8; N],
    ghost sizes: { (N ≤ 16384) × (H ≤ 32768) },
    ghost long: { (length a ≡ N) × (length b ≡ N) × (length c ≡ N) × (length d ≡ N) × (length e ≡ N) × (length order ≡ N) × (length named ≡ N) × (length tips ≡ N) × (length marks ≡ N) },
}

impl<const N: usize, const H: usize> Room<N, H> {
    // With nothing in it.
    pub(crate) fn new() -> Self
        requires { (N ≤ 16384) × (H ≤ 32768) }
    {
        Room {
            a: [0u64; N],
            b: [0u64; N],
            c: [0u64; N],
            d: [0u64; N],
            e: [0u64; N],
            hints: [0u16; H],
            order: [0usize; N],
            named: [0u8; N],
            tips: [0u8; N],
            marks: [0u8; N],
        }
    }
}
