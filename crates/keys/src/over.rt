// The files gone over in the order of their numbers, for every group of rules.
ghost use Rattle.std.specs.Prelude.{◌≡◌};
ghost use Rattle.record.specs.declared.kind.Kind.{Kind};
ghost use Rattle.record.specs.Breaks.{Finding};
ghost use Rattle.keys.specs.machinery.Groups.{over_files};

use record::kind::{FILES, Kind, kind_of};
use record::reason::Break;

// The first break, by what `check` tells of a file's kind.
pub fn first_of_files<F: Fn(Kind) -> Result<(), Break>>(check: F) -> Result<(), Break>
    requires { (k : Kind) → F.pre check k }
    ensures { (g : Kind → Finding) → ((k : Kind) (v : Finding) → F.post check k v → v ≡ g k) → result ≡ over_files g }
{
    for n in 0..FILES + 1 {
        if let Some(k) = kind_of(n) {
            check(k)?;
        }
    }
    Ok(())
}
