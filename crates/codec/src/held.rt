// Values as four arrays hold them: of field f, counted from 1, a number, a coordinate and a length at f - 1, and WIDEST bytes of text from
// WIDEST times f - 1 on. A length of 0 says that the field is missing; of a number or a coordinate any other says that it is given.
// What an array is too short to hold counts as 0. Nothing of them is copied.
ghost use Rattle.std.specs.Prelude.{◌≡◌, ◌∷◌, ◌<◌, pos, get_or};
ghost use Rattle.codec.specs.machinery.Held.{text_held};

use record::cut::part;
use record::kind::WIDEST;

// What an array holds of a field.
pub(crate) fn held_in<T: Copy>(array: &[T], f: usize, none: T) -> T
    ensures { result ≡ get_or (none ∷ array.now) f none }
{
    if f == 0 {
        return none;
    }
    array.get(f - 1).copied().unwrap_or(none)
}

// The four of them, as the C interface lends them.
#[derive(Clone, Copy)]
pub struct Held<'a> {
    pub numbers: &'a [u64],
    pub coordinates: &'a [i64],
    pub lengths: &'a [usize],
    pub texts: &'a [u8],
}

impl<'a> Held<'a> {
    pub(crate) fn number(&self, f: usize) -> u64
        ensures { result ≡ get_or (0 ∷ self.now.numbers.now) f 0 }
    {
        held_in(self.numbers, f, 0)
    }

    pub(crate) fn coordinate(&self, f: usize) -> i64
        ensures { result ≡ get_or (pos 0 ∷ self.now.coordinates.now) f (pos 0) }
    {
        held_in(self.coordinates, f, 0)
    }

    pub(crate) fn length(&self, f: usize) -> usize
        ensures { result ≡ get_or (0 ∷ self.now.lengths.now) f 0 }
    {
        held_in(self.lengths, f, 0)
    }

    // The bytes of a field's text and what stands after them.
    pub(crate) fn text(&self, f: usize) -> &'a [u8]
        requires { f < 256 }
        ensures { result.now ≡ text_held self.now.texts.now f }
    {
        part(self.texts, WIDEST * f.saturating_sub(1), WIDEST)
    }
}
