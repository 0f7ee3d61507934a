//! The laws of logs and kept signals, as the contracts of functions that do nothing.
ghost use Rattle.tx_txn.specs.Laws.{ContentFollowsRole, ContentFollowsStep, ContentIsKept, DoomIsPending, EventIsLogged, EventIsMade, EventLeavesRest, StarterInWayIsOfFaces, InWayIsOfFaces, LogGoesForward, LogLaws, LogLeadsBack, PostIsAnsweredByFace, PostLeavesFace, PostLeavesPending, PostLeavesQueued, RoleLaws, StartContentHasItsView, StartContentIsKept, StepLeadsBack, TwoAnswersAreOfFaces};

use tx_change::{appended, changes_state, lists_change_state, revert_then_apply, twice_is_nothing};
use tx_laws::{answers_of_states, locality, step_by_step, two_states};

/// The laws that those of contents use. It does nothing.
fn role_laws()
    ensures { RoleLaws }
{
    step_by_step();
    two_states();
    answers_of_states();
    locality();
    appended();
    lists_change_state();
}

/// The laws that those of logs use. It does nothing.
fn log_laws()
    ensures { LogLaws }
{
    changes_state();
    appended();
    twice_is_nothing();
    revert_then_apply();
}

/// A content of logs and kept signals has the next view after a step in each role, which reads on
/// the kept side only what is pending at live starters, and their ids. What holds for every content
/// holds for the next one, if nothing is held where no transaction is live.
pub fn logs_keep()
    ensures role { ContentFollowsRole }
    ensures kept { ContentIsKept }
    ensures step { ContentFollowsStep }
{
    role_laws();
}

/// What the exchanges of a step took leads the state back, if each names an object that the step
/// reserves. A log that was led back, with the kept pending part put at the starter, leads the
/// state back by the transaction. With the pending parts exchanged once more and the log led
/// forward again, the parts are as they were.
pub fn logs_lead_back()
    ensures step { StepLeadsBack }
    ensures abort { LogLeadsBack }
    ensures forward { LogGoesForward }
{
    log_laws();
}

/// What tx_kernel made on the parts is its event: it changes the state as the event does, and if a
/// member made it, its records are what the log of a step inside a transaction must get.
pub fn events_are_made()
    ensures state { EventIsMade }
    ensures logged { EventIsLogged }
{
    log_laws();
}

/// An event changes a process that is no object of it only in what is pending there.
pub fn events_leave_rest()
    ensures { EventLeavesRest }
{
    role_laws();
}

/// What a post does at its target, by the target's face, which are its ids and whether it has
/// ended, and by what is pending: its answer and how many signals are queued then depend only on
/// the length of the queue, and the face stays.
pub fn posts_by_faces()
    ensures pending { PostLeavesPending }
    ensures face { PostLeavesFace }
    ensures answer { PostIsAnsweredByFace }
    ensures queued { PostLeavesQueued }
{}

/// The answers of a content of logs and kept signals. A live transaction is doomed if SIGKILL is
/// kept as pending. Whether posts have two answers at its starter depends on the starter's ids, on
/// whether it has ended, and on how many signals are queued, each as it is now and as it is kept;
/// and so does who is in the way of an event, and the least of these.
pub fn answers_of_faces()
    ensures doom { DoomIsPending }
    ensures two_answers { TwoAnswersAreOfFaces }
    ensures in_way { InWayIsOfFaces }
    ensures starter_in_way { StarterInWayIsOfFaces }
{
    role_laws();
}

/// The content at the start, in which no transaction is live, has the view of the empty history;
/// and what holds for every content holds for it, if nothing is held.
pub fn start_is_kept()
    ensures view { StartContentHasItsView }
    ensures kept { StartContentIsKept }
{
    role_laws();
}
