//! What leads from a step's mark to the column of another process.
ghost use Rattle.std.specs.Prelude.{◌≡◌};
ghost use Rattle.tx_picture.specs.Ties.{answered_tie, numbered_by, sent_to, target_of, tie_of};

use tx_base::{Call, Pid, Refusal, Reply, Step};

/// What leads from a step's mark to the column of another process.
#[derive(Clone, Copy)]
pub(crate) enum Tie {
    /// To the starter whose transaction is in the way of a refused step.
    Holder(Pid),
    /// To the child that a fork makes.
    Child(Pid),
    /// To the process that a signal is sent to.
    Signal(Pid),
}

/// What leads to another column from the mark of a step that was answered so.
pub(crate) fn tie_of(step: &Step, reply: &Reply) -> Option<Tie>
    ensures { result ≡ tie_of step.now reply.now }
{
    match reply {
        Reply::No(Refusal::Busy { starter }) => Some(Tie::Holder(*starter)),
        Reply::Done(answer) => answered_tie(step, *answer),
        _ => None,
    }
}

/// What leads from the mark of a step that was answered a number.
fn answered_tie(step: &Step, answer: i64) -> Option<Tie>
    ensures { result ≡ answered_tie step.now answer }
{
    match step {
        Step::Call(_, Call::Fork(child)) => Some(Tie::Child(*child)),
        _ => {
            if answer != 0 {
                return None;
            }
            let target = sent_to(step)?;
            Some(Tie::Signal(target))
        }
    }
}

/// The process that a step sends a signal to, if it does. Signal 0 only asks.
pub(crate) fn sent_to(step: &Step) -> Option<Pid>
    ensures { result ≡ sent_to step.now }
{
    match step {
        Step::Call(_, Call::Kill(target, signo)) => target_of(*target, *signo),
        Step::Call(_, Call::Sigqueue(target, signo, _)) => target_of(*target, *signo),
        _ => None,
    }
}

/// The process of a signal's target.
fn target_of(target: i64, signo: i64) -> Option<Pid>
    ensures { result ≡ target_of target signo }
{
    if signo == 0 {
        None
    } else {
        numbered_by(target)
    }
}

/// The process of a number that a program gives.
pub(crate) fn numbered_by(number: i64) -> Option<Pid>
    ensures { result ≡ numbered_by number }
{
    match u16::try_from(number) {
        Ok(number) => Some(Pid(number)),
        Err(_) => None,
    }
}
