//! Whom the posts of a step go to.
ghost use Rattle.std.specs.Prelude.{◌≡◌, ◌++◌, map};
ghost use Rattle.tx_step.specs.Faces.{sent_at_commit};
ghost use Rattle.tx_step.specs.Ways.{posted_with};
ghost use Rattle.tx_kernel.specs.Plans.{sending_of, sent_at_once};
ghost use Rattle.tx_laws.specs.OneMoment.{is_sent_to};
ghost use Rattle.tx_content.specs.Content.{held_of};

use tx_base::{Pid, Sending};
use tx_content::Content;
use tx_kernel::Sends;
use tx_step::StepRole;

/// Whether something that is posted with a step goes to the process: what the step sends at once;
/// and if it commits, what is held then, and what it hands out.
#[tactic(auto, using(crate::proofs::PostedTo::sent_of_both))]
pub(crate) fn is_posted_to(content: &Content, role: StepRole, first: &Sends, pid: Pid) -> bool
    ensures { result ≡ is_sent_to pid.0 (posted_with content.now role first.now) }
{
    match role {
        StepRole::Commits(starter) => {
            is_sent_at_once(first, pid) || is_sent_at_commit(content, starter, first, pid)
        }
        _ => is_sent_at_once(first, pid),
    }
}

/// Whether a commit posts something to the process: what the transaction of the starter holds, and
/// last what the step hands out.
#[tactic(auto, using(crate::proofs::PostedTo::sent_of_both))]
fn is_sent_at_commit(content: &Content, starter: Pid, first: &Sends, pid: Pid) -> bool
    ensures { result ≡ is_sent_to pid.0
        (held_of content.now starter.0 ++ sent_at_commit first.now) }
{
    is_held_for(content, starter, pid) || is_handed_out(first, pid)
}

/// Whether the step sends something to the process at once.
fn is_sent_at_once(first: &Sends, pid: Pid) -> bool
    ensures { result ≡ is_sent_to pid.0 (sent_at_once first.now) }
{
    match first {
        Sends::AtOnce(sending) => sending.target == pid,
        _ => false,
    }
}

/// Whether the step hands out something for the process.
fn is_handed_out(first: &Sends, pid: Pid) -> bool
    ensures { result ≡ is_sent_to pid.0 (sent_at_commit first.now) }
{
    match first {
        Sends::AtCommit(sending) => sending.target == pid,
        _ => false,
    }
}

/// Whether the transaction of the starter holds something for the process.
fn is_held_for(content: &Content, starter: Pid, pid: Pid) -> bool
    ensures { result ≡ is_sent_to pid.0 (held_of content.now starter.0) }
{
    match content.txns.get(starter) {
        Some(boxed) => is_one_for(boxed.txn.outbox.held(), pid),
        None => false,
    }
}

/// Whether one of these sends goes to the process.
fn is_one_for(sendings: &[Sending], pid: Pid) -> bool
    ensures { result ≡ is_sent_to pid.0 (map sending_of sendings.now) }
{
    for sending in sendings {
        if sending.target == pid {
            return true;
        }
    }
    false
}
