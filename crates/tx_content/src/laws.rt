//! The laws that the proofs of contents use.
ghost use Rattle.tx_content.specs.Laws.{LiveLaws};

use tx_change::{
    appended, apply_then_revert, changes_come_back, changes_state, counts_led_back, exchanges_back,
    moved_back_and_forward, places_stay, revert_then_apply, stays_named,
};
use tx_laws::{answers_of_states, inside};
use tx_reserve::owners_are_extensional;
use tx_txn::{events_are_made, events_leave_rest, logs_keep, logs_lead_back};

/// The laws that the proofs of contents use. It does nothing.
pub(crate) fn laws()
    ensures { LiveLaws }
{
    appended();
    answers_of_states();
    apply_then_revert();
    changes_come_back();
    changes_state();
    counts_led_back();
    exchanges_back();
    moved_back_and_forward();
    places_stay();
    revert_then_apply();
    stays_named();
    inside();
    events_are_made();
    events_leave_rest();
    logs_lead_back();
    logs_keep();
    owners_are_extensional();
}
