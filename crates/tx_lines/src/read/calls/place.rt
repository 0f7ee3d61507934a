//! Puts a call that was read in its place.
ghost use Rattle.std.specs.Prelude.{◌≡◌};
ghost use Rattle.std.specs.Bool.{then_some};

use tx_base::Call;

/// Puts the call that was read, if there is one, in its place. Returns whether there is one. A
/// call is large, so the reader of its group puts it there, and not the readers of other groups.
pub fn put(call: &mut Call, read: Option<Call>) -> bool
    ensures { then_some result call.new ≡ read }
{
    match read {
        Some(read) => {
            *call = read;
            true
        }
        None => false,
    }
}
