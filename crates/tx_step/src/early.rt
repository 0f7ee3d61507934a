//! Why a step is refused before it is asked whether anybody is in its way.
ghost use Rattle.std.specs.Prelude.{◌≡◌, ◌&&◌, not, true, Some};
ghost use Rattle.tx_base.specs.Slots.{slot_at};
ghost use Rattle.tx_base.specs.declared.steps.Step.TheVariants.{Call as Calls, Deliver};
ghost use Rattle.tx_step.specs.Early.{early_refusal, member_refusal, own_refusal};
ghost use Rattle.tx_kernel.specs.Actors.{IsWhole};
ghost use Rattle.tx_content.specs.Content.{content_of, view_of, IsShaped};
ghost use Rattle.tx_model.specs.Membership.{is_live};
ghost use Rattle.tx_model.specs.SignalSets.{kill_signo};
ghost use Rattle.tx_model.specs.View.{has_pending, is_doomed};
ghost use Rattle.tx_proc.specs.Parts.{process_of};
ghost use Rattle.tx_txn.specs.Content.{IsKept};
ghost use Rattle.tx_txn.specs.Marks.{table_at};

use crate::refusal_laws::laws;
use tx_base::{Call, Pid, Refusal, SIGKILL, Signo};
use tx_content::Content;
use tx_kernel::Actor;
use tx_proc::Proc;
use tx_signal::has;

/// Why a call of a process is refused before it is asked whether anybody is in its way, by the
/// first reason of these: NoProcess where the number has no process; NotRunning where that has
/// ended; BadNumber where a number that the call chooses is out of range or chosen twice;
/// NumberTaken where one is in use; Doomed where SIGKILL would be pending at the starter of its
/// transaction after an abort; Parked where it has ended its part of the transaction; KillPending
/// where SIGKILL is pending at it. It takes no memory.
pub fn early_refusal_of_call(content: &Content, pid: Pid, call: &Call) -> Option<Refusal>
    requires shaped { IsShaped content.now }
    requires whole { IsWhole content.now.parts }
    requires kept { IsKept (content_of content.now) }
    ensures { result ≡ early_refusal (view_of content.now) pid.0 (Calls pid call.now) }
{
    laws();
    let actor = match Actor::at(&content.parts, pid, None) {
        Ok(actor) => actor,
        Err(why) => return Some(why),
    };
    match actor.refusal_of_numbers(call) {
        Some(why) => Some(why),
        None => refusal_of_runner(content, pid, actor.proc, false),
    }
}

/// Why the delivery of a signal to a process is refused before it is asked whether anybody is in
/// its way, by the first reason of these: NoProcess where the number has no process; NotRunning
/// where that has ended; Doomed where SIGKILL would be pending at the starter of its transaction
/// after an abort; Parked where it has ended its part of the transaction; KillPending where SIGKILL
/// is pending at it, and the signal is another. It takes no memory.
pub fn early_refusal_of_delivery(content: &Content, pid: Pid, signo: Signo) -> Option<Refusal>
    requires shaped { IsShaped content.now }
    requires whole { IsWhole content.now.parts }
    requires kept { IsKept (content_of content.now) }
    ensures { result ≡ early_refusal (view_of content.now) pid.0 (Deliver pid signo) }
{
    laws();
    match Actor::at(&content.parts, pid, None) {
        Ok(actor) => refusal_of_runner(content, pid, actor.proc, signo == SIGKILL),
        Err(why) => Some(why),
    }
}

/// Why a process that runs makes no step, whatever numbers the step chooses: what its transaction
/// refuses, then KillPending where SIGKILL is pending at it, and the step does not deliver it.
fn refusal_of_runner(
    content: &Content,
    pid: Pid,
    proc: &Proc,
    delivers_kill: bool,
) -> Option<Refusal>
    requires kept { IsKept (content_of content.now) }
    requires there { slot_at content.now.parts.procs pid.0 ≡ Some proc.now }
    ensures { result ≡ own_refusal (view_of content.now) pid.0 delivers_kill }
{
    laws();
    if let Some(why) = refusal_of_member(content, pid) {
        return Some(why);
    }
    if is_held_by_kill(proc, delivers_kill) {
        return Some(Refusal::KillPending);
    }
    None
}

/// Whether SIGKILL is pending at the process, and the step does not deliver it.
fn is_held_by_kill(proc: &Proc, delivers_kill: bool) -> bool
    ensures { result ≡ (has_pending kill_signo (Some (process_of proc.now)) && not delivers_kill) }
{
    has(proc.pending.standard(), SIGKILL) && !delivers_kill
}

/// Why a member of a live transaction makes no step, whatever the step is: Doomed where the
/// transaction is doomed, then Parked where the member has ended its part. Nothing for a process
/// that is no member.
fn refusal_of_member(content: &Content, pid: Pid) -> Option<Refusal>
    requires { IsKept (content_of content.now) }
    ensures { result ≡ member_refusal (view_of content.now) (slot_at content.now.marks pid.0) }
{
    let Some(mark) = content.marks.get(pid) else {
        return None;
    };
    if is_doomed(content, mark.starter) {
        return Some(Refusal::Doomed);
    }
    if mark.ended {
        return Some(Refusal::Parked);
    }
    None
}

/// Whether a live transaction is doomed: SIGKILL would be pending at its starter after an abort.
fn is_doomed(content: &Content, starter: Pid) -> bool
    requires kept { IsKept (content_of content.now) }
    requires live { is_live (table_at content.now.marks) starter.0 ≡ true }
    ensures { result ≡ is_doomed (view_of content.now) starter.0 }
{
    laws();
    content.txns.get(starter).unwrap().txn.kept.is_doomed()
}
