//! The laws that the proofs of plans use, and those of their states.
ghost use Rattle.tx_kernel.specs.Acts.{PlansAreMade};
ghost use Rattle.tx_kernel.specs.Laws.{BootedAreWhole, PlanLaws, QuietCallsSendNothing};

use tx_change::{
    appended, apply_then_revert, bytes_are_read_and_written, changes_state, counts_agree,
    counts_in_turn, counts_with_others, exchanges_back, lists_change_state, places_stay,
    room_for_names, stays_named,
};
use tx_laws::{own_calls, well_formed};

/// The laws that the proofs of plans use. It does nothing.
pub(crate) fn laws()
    ensures { PlanLaws }
{
    changes_state();
    exchanges_back();
    lists_change_state();
    appended();
    places_stay();
    counts_agree();
    counts_in_turn();
    counts_with_others();
    room_for_names();
    bytes_are_read_and_written();
    apply_then_revert();
    stays_named();
}

/// Parts as `Parts::boot` makes them, of 1 to 256 processes, are whole.
pub fn booted_are_whole()
    ensures { BootedAreWhole }
{
    well_formed();
}

/// The plan of what a process does, once its exchanges are made, is what that comes to: the
/// log then has at its end what leads back.
pub fn plans_are_made()
    ensures { PlansAreMade }
{
    laws();
}

/// A call other than a kill, a sigqueue, an exit and a write sends nothing, whoever makes it.
pub fn quiet_calls_send_nothing()
    ensures { QuietCallsSendNothing }
{
    own_calls();
}
