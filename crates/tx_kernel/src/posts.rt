//! Posts: what a signal that is sent does to its target (POSIX.1-2017, XSH, Signal Concepts and
//! kill()).
ghost use Rattle.std.specs.Prelude.{◌≡◌, ◌&&◌, ◌∷◌, [], ℕ, List, ◌<◌, not, true, Some, IfOk, length};
ghost use Rattle.tx_kernel.specs.Actors.{IsWhole};
ghost use Rattle.tx_kernel.specs.Plans.{sending_of, sender_of, AreAmong};
ghost use Rattle.tx_kernel.specs.Posts.{HasFace, IsButPending, IsOfPending, PlansAt, listed_change, posted, seen_as, without_part};
ghost use Rattle.tx_change.specs.Counts.{CountsAgree};
ghost use Rattle.tx_change.specs.Exchange.{AreNamed, undone};
ghost use Rattle.tx_change.specs.Laws.{HaveAllPlaces};
ghost use Rattle.tx_change.specs.States.{state_of};
ghost use Rattle.tx_laws.specs.WellFormed.{IsSendable};
ghost use Rattle.tx_model.specs.Posts.{is_quiet, is_realtime, may_signal, after_post, post_answer, target_after, with_signal};
ghost use Rattle.tx_base.specs.declared.limits.TheConstants.{QUEUED};
ghost use Rattle.tx_model.specs.State.{Proc as TheProc, Process, Sending as TheSending};
ghost use Rattle.tx_cred.specs.Cred.{ids_of};
ghost use Rattle.tx_proc.specs.Parts.{process_of, revised};
ghost use Rattle.tx_signal.specs.Parts.{answer_of};

use crate::laws::laws;
use tx_base::{Errno, QUEUED, Sending};
use tx_change::{Change, Parts};
use tx_cred::{Cred, may_signal};
use tx_laws::well_formed;
use tx_proc::{Part, Proc};
use tx_signal::{Queued, is_realtime, with};

/// What decides how a post to a process is answered.
#[derive(Clone, Copy)]
pub struct Face {
    pub ids: Cred,
    /// Whether it has ended.
    pub ended: bool,
    /// How many realtime signals are queued: 0 to 16.
    pub queued: usize,
}

impl Face {
    /// The face of a process.
    pub fn of(proc: &Proc) -> Face
        ensures { HasFace result (process_of proc.now) }
    {
        Face {
            ids: proc.cred,
            ended: proc.status.is_some(),
            queued: proc.pending.queued().len(),
        }
    }

    /// How a post to a process with this face is answered. Nothing is sent.
    ///
    /// NotPermitted where the sender may not signal the process; TryAgain for a realtime signal where
    /// 16 are queued. Signal 0, process 1 and a process that has ended need no room.
    pub fn answer(&self, sending: &Sending) -> Result<(), Errno>
        ensures { (q : Process) → HasFace self.now q →
            answer_of result ≡ post_answer (sending_of sending.now) (Some q) }
    {
        if !self.permits(sending) {
            return Err(Errno::NotPermitted);
        }
        if self.is_quiet(sending) || !is_realtime(sending.signo) || self.queued < QUEUED {
            return Ok(());
        }
        Err(Errno::TryAgain)
    }

    /// Whether a post to a process with this face reaches what is pending there: the sender may
    /// signal it, and the signal is not one that changes nothing.
    pub fn reaches(&self, sending: &Sending) -> bool
        ensures { (q : Process) → HasFace self.now q →
            result ≡ may_signal (sender_of sending.now.from) q.ids
            && not (is_quiet (sending_of sending.now) q) }
    {
        self.permits(sending) && !self.is_quiet(sending)
    }

    /// Whether the sender may signal the process; the kernel always may.
    fn permits(&self, sending: &Sending) -> bool
        ensures { result ≡ may_signal (sender_of sending.now.from) (ids_of self.now.ids) }
    {
        match sending.from {
            Some((real, effective)) => may_signal(real, effective, &self.ids),
            None => true,
        }
    }

    /// Whether the signal changes nothing: it only asks, or goes to process 1 or one that has ended.
    fn is_quiet(&self, sending: &Sending) -> bool
        ensures { (q : Process) → HasFace self.now q →
            result ≡ is_quiet (sending_of sending.now) q }
    {
        sending.signo.0 == 0 || sending.target.0 == 1 || self.ended
    }
}

/// A post that was made.
#[derive(Drop)]
pub struct Posted {
    /// `Ok` where the signal was sent, or the sender only asked.
    pub answer: Result<(), Errno>,
    /// What was pending before, if that changed: exchanged again, it takes the post back.
    pub change: Option<Change>,
}

/// Posts a signal, whose number must be below 64. It takes no memory (POSIX.1-2017, XSH, Signal
/// Concepts and kill()).
///
/// NoSuchProcess where there is no such process; NotPermitted and TryAgain as for `Face::answer`.
/// Such a post changes nothing.
pub fn post(parts: &mut Parts, sending: &Sending) -> Posted
    requires { sending.now.signo.0 < 64 }
    ensures answer { (held : ℕ → List TheSending) →
        answer_of result.answer
        ≡ post_answer (sending_of sending.now)
        ((state_of held parts.old).procs sending.now.target.0) }
    ensures state { (held : ℕ → List TheSending) →
        state_of held parts.new ≡ after_post (sending_of sending.now) (state_of held parts.old) }
    ensures back { undone parts.new (listed_change result.change) ≡ parts.old }
    ensures named { AreNamed parts.new (listed_change result.change) }
    ensures among { AreAmong (TheProc sending.now.target.0 ∷ []) (listed_change result.change) }
    ensures counts { CountsAgree parts.old → CountsAgree parts.new }
    ensures places { HaveAllPlaces parts.old → HaveAllPlaces parts.new }
    ensures whole { IsSendable (sending_of sending.now) → IsWhole parts.old → IsWhole parts.new }
    ensures rest { IsButPending parts.old parts.new }
{
    laws();
    well_formed();
    match plan_at(parts, sending) {
        Ok(Some(part)) => {
            let mut change = Change::Part(sending.target, part);
            change.swap(parts);
            Posted {
                answer: Ok(()),
                change: Some(change),
            }
        }
        Ok(None) => Posted {
            answer: Ok(()),
            change: None,
        },
        Err(errno) => Posted {
            answer: Err(errno),
            change: None,
        },
    }
}

/// What a post to the process of a number exchanges: nothing if it changes nothing.
pub(crate) fn plan_at(parts: &Parts, sending: &Sending) -> Result<Option<Part>, Errno>
    requires { sending.now.signo.0 < 64 }
    ensures { PlansAt parts.now (sending_of sending.now) result }
{
    match parts.proc(sending.target) {
        Some(target) => plan_post(target, sending),
        None => Err(Errno::NoSuchProcess),
    }
}

/// What a post to the process exchanges: nothing if it changes nothing. The signal's number must be
/// below 64.
///
/// NotPermitted and TryAgain as for `Face::answer`; such a post changes nothing.
pub fn plan_post(proc: &Proc, sending: &Sending) -> Result<Option<Part>, Errno>
    requires { sending.now.signo.0 < 64 }
    ensures answer { answer_of (without_part result)
        ≡ post_answer (sending_of sending.now) (Some (process_of proc.now)) }
    ensures pending { IfOk result IsOfPending }
    ensures after { (me : Process) →
        target_after (sending_of sending.now) (Some (seen_as proc.now me))
        ≡ Some (posted result (seen_as proc.now me)) }
{
    let face = Face::of(proc);
    if let Err(errno) = face.answer(sending) {
        return Err(errno);
    }
    if face.is_quiet(sending) {
        return Ok(None);
    }
    Ok(Some(plan_pending(proc, sending)))
}

/// What a permitted post exchanges, if there is room for it.
fn plan_pending(proc: &Proc, sending: &Sending) -> Part
    requires number { sending.now.signo.0 < 64 }
    requires room { is_realtime sending.now.signo.0 ≡ true →
        length proc.now.pending.queued < QUEUED }
    ensures pending { IsOfPending (Some result) }
    ensures signal { (me : Process) →
        with_signal (sending_of sending.now) (seen_as proc.now me)
        ≡ revised result (seen_as proc.now me) }
{
    if !is_realtime(sending.signo) {
        return Part::Pending(with(proc.pending.standard(), sending.signo));
    }
    let entry = Queued {
        signo: sending.signo,
        value: sending.value,
    };
    Part::Queued(proc.pending.last_place(), Some(entry))
}
