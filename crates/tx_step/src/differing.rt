//! Signals of a step that are answered differently now than after an abort.
ghost use Rattle.std.specs.Prelude.{◌≡◌, false, true};
ghost use Rattle.tx_content.specs.Content.{now_of, view_of};
ghost use Rattle.tx_model.specs.Events.{Event, effect};
ghost use Rattle.tx_model.specs.Footprints.{footprint};
ghost use Rattle.tx_model.specs.History.{event_footprint};
ghost use Rattle.tx_model.specs.Membership.{is_live};
ghost use Rattle.tx_model.specs.State.{Proc, has_object};
ghost use Rattle.tx_model.specs.View.{present};
ghost use Rattle.tx_step.specs.Contents.{IsContent};
ghost use Rattle.tx_step.specs.Faces.{sent};
ghost use Rattle.tx_step.specs.Requests.{step_of};
ghost use Rattle.tx_step.specs.TwoAnswers.{DifferencesAreFound, difference_at, two_answers};
ghost use Rattle.tx_step.specs.Ways.{posted_with};
ghost use Rattle.tx_txn.specs.Marks.{table_at};

use crate::faces::Faces;
use crate::laws::laws;
use crate::named::footprint;
use crate::request::Request;
use crate::roles::StepRole;
use crate::ways::{at_once, held_by, is_running};
use tx_base::{Pid, Sending, Signo, Step};
use tx_content::Content;
use tx_kernel::Sends;
use tx_laws::{answers_of_states, locality};
use tx_reserve::Object;
use tx_txn::posts_by_faces;

/// A signal to the starter of a live transaction that is answered differently now than after an
/// abort of that transaction. An answer is 0, or the negative number of an error.
#[derive(Clone, Copy, PartialEq, Eq)]
pub struct TwoAnswers {
    pub signo: Signo,
    pub present: i64,
    pub after_abort: i64,
}

/// The first signal of a step to the starter of a live transaction that has two answers. Each is
/// answered as if those before it had been posted: first what is sent at once, then what is held if
/// the step commits it, and last what the step hands out to be held.
///
/// None if there is no such signal, if the starter has no live transaction, if the step names the
/// starter, who is in its way anyway or is its own, and if the step's process does not run. It does
/// not matter whether the step is refused for another reason. It takes no memory.
pub fn two_answers(content: &Content, step: &Step, starter: Pid) -> Option<TwoAnswers>
    requires { IsContent content.now }
    ensures { result ≡ two_answers (view_of content.now) step.now starter.0 }
{
    if content.txns.get(starter).is_none() {
        return None;
    }
    if footprint(content, step).has(Object::Proc(starter)) {
        return None;
    }
    match step {
        Step::Call(pid, call) => answers_of_request(content, *pid, Request::Call(call), starter),
        Step::Deliver(pid, signo) => {
            answers_of_request(content, *pid, Request::Delivery(*signo), starter)
        }
        Step::KernelAbort(_) => None,
    }
}

/// The same for what a step requests of its process, at a starter that the step does not name.
fn answers_of_request(
    content: &Content,
    pid: Pid,
    request: Request,
    starter: Pid,
) -> Option<TwoAnswers>
    requires content { IsContent content.now }
    requires live { is_live (view_of content.now).table starter.0 ≡ true }
    requires unnamed { has_object (Proc starter.0) (footprint (view_of content.now).table
        (step_of pid request) (present (view_of content.now))) ≡ false }
    ensures { result ≡ two_answers (view_of content.now) (step_of pid request.entry) starter.0 }
{
    laws();
    if !is_running(content, pid) {
        return None;
    }
    let role = request.role(content, pid);
    if let StepRole::Aborts(_) = role {
        return None;
    }
    let first = request.sends(content, pid, role);
    posted_difference(content, role, &first, starter)
}

/// The first signal to a starter that has two answers, among those that a step of this role posts,
/// of which this is the first. The step's event does not name the starter.
fn posted_difference(
    content: &Content,
    role: StepRole,
    first: &Sends,
    starter: Pid,
) -> Option<TwoAnswers>
    requires content { IsContent content.now }
    requires live { is_live (table_at content.now.marks) starter.0 ≡ true }
    ensures { (event : Event) →
        (effect event (now_of content.now)).sends ≡ posted_with content.now role first.now →
        has_object (Proc starter.0)
        (event_footprint (table_at content.now.marks) event (now_of content.now)) ≡ false →
        result ≡ difference_at (view_of content.now) event starter.0 }
{
    match role {
        StepRole::Commits(own) => difference_at(content, starter, first, held_by(content, own)),
        _ => difference_at(content, starter, &at_once(first), &[]),
    }
}

/// The first of these sends to a starter that has two answers, where a step's event posts them.
fn difference_at(
    content: &Content,
    starter: Pid,
    first: &Sends,
    held: &[Sending],
) -> Option<TwoAnswers>
    requires content { IsContent content.now }
    requires live { is_live (table_at content.now.marks) starter.0 ≡ true }
    ensures { (event : Event) →
        (effect event (now_of content.now)).sends ≡ sent first.now held.now →
        has_object (Proc starter.0)
        (event_footprint (table_at content.now.marks) event (now_of content.now)) ≡ false →
        result ≡ difference_at (view_of content.now) event starter.0 }
{
    answers_of_states();
    locality();
    posts_by_faces();
    let boxed = content.txns.get(starter).unwrap();
    let faces = Faces::of(&content.parts, starter, &boxed.txn.kept);
    faces.difference(starter, first, held)
}

/// An event has a signal to a starter with two answers exactly where the definitions say that one
/// of its posts has.
pub fn differences_are_found()
    ensures { DifferencesAreFound }
{}
