// Classes of bytes, and reads that are defined past the end.
ghost use Rattle.std.specs.Prelude.{◌≡◌, get_or};
ghost use Rattle.field.specs.Bytes.{in_class, all_of};

#[derive(Clone, Copy)]
pub enum Class {
    Blank,
    Digit,
    Zero,
    Text,
    Plain,
}

impl Class {
    pub fn has(self, b: u8) -> bool
        ensures { result ≡ in_class self b }
    {
        match self {
            Class::Blank => b == 32,
            Class::Digit => (48 <= b) & (b <= 57),
            Class::Zero => b == 48,
            Class::Text => ((32 <= b) & (b <= 126)) | (160 <= b),
            Class::Plain => ((32 <= b) & (b <= 126)) | (161 <= b),
        }
    }

    // Whether every byte is of the class. The loop has no exit but its end, so that it compiles to steps of several bytes.
    pub fn every(self, t: &[u8]) -> bool
        ensures { result ≡ all_of self t.now }
    {
        let mut so_far = true;
        for b in t {
            so_far &= self.has(*b);
        }
        so_far
    }

    // The same. Of a text of another class the first byte tells, mostly.
    pub fn all(self, t: &[u8]) -> bool
        ensures { result ≡ all_of self t.now }
    {
        if t.len() == 0 {
            return true;
        }
        if self.has(t[0]) { self.every(t) } else { false }
    }
}

// The byte at a place, and 0 past the end.
pub fn byte(t: &[u8], i: usize) -> u8
    ensures { result ≡ get_or t.now i 0 }
{
    if i < t.len() { t[i] } else { 0 }
}
