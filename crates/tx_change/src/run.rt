//! Exchanges one after another, and back.
ghost use Rattle.std.specs.Prelude.{◌≡◌};
ghost use Rattle.tx_change.specs.Exchange.{applied, exchanged, undone, reverted, AreNamed};

use crate::change::Change;
use crate::parts::Parts;

/// Makes the exchanges, the first one first. The changes then have what was there, so to revert
/// them puts the parts back. It takes no memory.
pub fn apply(parts: &mut Parts, changes: &mut Vec<Change>)
    requires { AreNamed parts.old changes.old.items }
    ensures parts { parts.new ≡ applied parts.old changes.old.items }
    ensures changes { changes.new.items ≡ exchanged parts.old changes.old.items }
{
    for i in 0..changes.len() {
        changes[i].swap(parts);
    }
}

/// Makes the exchanges, the last one first. The changes then have what was there, so to apply them
/// puts the parts back. It takes no memory.
pub fn revert(parts: &mut Parts, changes: &mut Vec<Change>)
    requires { AreNamed parts.old changes.old.items }
    ensures parts { parts.new ≡ undone parts.old changes.old.items }
    ensures changes { changes.new.items ≡ reverted parts.old changes.old.items }
{
    for i in (0..changes.len()).rev() {
        changes[i].swap(parts);
    }
}
