// A file in hand: its lent bytes together with its kind, and thin functions over it. Each takes the struct apart and leaves the work to
// `record`'s functions on the slice and the kind. Callers use those at the end, whose parameters are plain.
#![tactic(auto)]

ghost use Rattle.std.specs.Prelude.{◌≡◌};
ghost use Rattle.record.specs.Cut.{count_of, record_of};

use record::cut::{record_bytes, records};
use record::kind::Kind;

#[derive(Clone, Copy)]
pub struct File<'a> {
    pub bytes: &'a [u8],
    pub kind: Kind,
}

pub fn in_hand<'a>(bytes: &'a [u8], kind: Kind) -> File<'a>
    ensures { (result.bytes ≡ bytes.entry) × (result.kind ≡ kind) }
{
    File { bytes, kind }
}

// The number of whole records.
pub fn count_in<'a>(f: File<'a>) -> usize
    ensures { result ≡ count_of f.entry.bytes.now f.entry.kind }
{
    records(f.bytes, f.kind)
}

// The bytes of one record, counted from 0; none past the last.
pub fn bytes_in<'a>(f: File<'a>, i: usize) -> &'a [u8]
    ensures { result.now ≡ record_of f.entry.bytes.now f.entry.kind i }
{
    record_bytes(f.bytes, f.kind, i)
}

// How many whole records a slice has as a file of the kind.
pub fn count_of(bytes: &[u8], kind: Kind) -> usize
    ensures { result ≡ count_of bytes.now kind }
{
    count_in(in_hand(bytes, kind))
}

// The bytes of one record of a slice as a file of the kind.
pub fn bytes_of(bytes: &[u8], kind: Kind, i: usize) -> &[u8]
    ensures { result.now ≡ record_of bytes.now kind i }
{
    bytes_in(in_hand(bytes, kind), i)
}
