//! The role of a step of a process that runs.
ghost use Rattle.std.specs.Prelude.{◌≡◌, ℕ, true, not, length, Some, None};
ghost use Rattle.tx_base.specs.Slots.{slot_at};
ghost use Rattle.tx_base.specs.declared.steps.Reply.{Reply};
ghost use Rattle.tx_base.specs.declared.steps.Step.TheVariants.{Call as Calls, Deliver};
ghost use Rattle.tx_step.specs.Roles.{role_alone, role_as};
ghost use Rattle.tx_laws.specs.Endings.{end_reply};
ghost use Rattle.tx_content.specs.Content.{content_of, view_of, IsShaped};
ghost use Rattle.tx_content.specs.Made.{IsRunning};
ghost use Rattle.tx_model.specs.Deliveries.{delivered_value, ends_by};
ghost use Rattle.tx_model.specs.Membership.{Table, inside_by, is_live, member_end, others_open};
ghost use Rattle.tx_model.specs.Words.{kind_of, kind_role};
ghost use Rattle.tx_model.specs.View.{role_on};
ghost use Rattle.tx_proc.specs.Parts.{process_of};
ghost use Rattle.tx_reserve.specs.Footprints.{ends_part};
ghost use Rattle.tx_txn.specs.Content.{IsKept};
ghost use Rattle.tx_txn.specs.Marks.{table_at};

use crate::refusal_laws::laws;
use tx_base::{Call, Mark, Pid, Signo};
use tx_content::{Content, Progress};
use tx_kernel::Actor;
use tx_laws::endings;
use tx_proc::Proc;
use tx_txn::is_last_open;

/// The role of a step in the transactions.
#[derive(Clone, Copy)]
pub enum StepRole {
    /// Its process is in no transaction, and it begins none.
    Outside,
    /// It begins one; whether that defers deliveries.
    Begins(bool),
    /// It is a step of a member, after which the transaction of that starter is live.
    Inside(Pid, Progress),
    /// It ends the part of the last member whose part is open: the transaction of that starter
    /// commits.
    Commits(Pid),
    /// A member aborts the transaction of that starter.
    Aborts(Pid),
}

/// What a call of a process that is in no transaction begins.
#[derive(Clone, Copy)]
pub(crate) enum Start {
    Nothing,
    /// A transaction; whether that defers deliveries.
    Transaction { defers: bool },
}

/// The role of a call of a process that runs. It takes no memory.
#[inline(always)] // it has few callers, and each step asks it
pub fn role_of_call(content: &Content, pid: Pid, call: &Call) -> StepRole
    requires shaped { IsShaped content.now }
    requires kept { IsKept (content_of content.now) }
    requires running { IsRunning (slot_at content.now.parts.procs pid.0) }
    ensures { role_as pid.0 result ≡ role_on (view_of content.now) (Calls pid call.now) }
{
    laws();
    endings();
    match content.marks.get(pid) {
        Some(mark) => role_of_member(content, pid, *mark, call),
        None => role_alone(beginning(call)),
    }
}

/// The role of a delivery to a process that runs. It takes no memory.
#[inline(always)] // as `role_of_call`
pub fn role_of_delivery(content: &Content, pid: Pid, signo: Signo) -> StepRole
    requires shaped { IsShaped content.now }
    requires kept { IsKept (content_of content.now) }
    requires running { IsRunning (slot_at content.now.parts.procs pid.0) }
    ensures { role_as pid.0 result ≡ role_on (view_of content.now) (Deliver pid signo) }
{
    laws();
    endings();
    let Some(mark) = content.marks.get(pid) else {
        return StepRole::Outside;
    };
    let proc = content.parts.proc(pid).unwrap();
    if is_member_ended(content, pid, *mark, proc, signo) {
        member_end(content, mark.starter, pid)
    } else {
        StepRole::Inside(mark.starter, Progress::Continues)
    }
}

/// What a call of a process that is in no transaction begins.
pub(crate) fn beginning(call: &Call) -> Start
    ensures { (table : Table) (p : ℕ) (reply : Reply) →
        role_as p (role_alone result) ≡ kind_role table p (kind_of call.now) reply None }
{
    match call {
        Call::SysXbegin => Start::Transaction { defers: false },
        Call::SysXbeginDefer => Start::Transaction { defers: true },
        _ => Start::Nothing,
    }
}

/// The role of a step of a process that is in no transaction.
fn role_alone(beginning: Start) -> StepRole
    ensures { result ≡ role_alone beginning }
{
    match beginning {
        Start::Transaction { defers } => StepRole::Begins(defers),
        Start::Nothing => StepRole::Outside,
    }
}

/// The role of a call that a member with this mark makes.
#[inline(always)] // as `role_of_call`
fn role_of_member(content: &Content, pid: Pid, mark: Mark, call: &Call) -> StepRole
    requires shaped { IsShaped content.now }
    requires kept { IsKept (content_of content.now) }
    requires live { is_live (table_at content.now.marks) mark.starter.0 ≡ true }
    ensures { role_as pid.0 result
        ≡ kind_role (table_at content.now.marks) pid.0 (kind_of call.now)
        (end_reply (ends_part pid.0 call.now)) (Some mark) }
{
    match call {
        Call::Fork(child) => StepRole::Inside(mark.starter, Progress::Forks(*child)),
        Call::SysXend => member_end(content, mark.starter, pid),
        Call::SysXabort => StepRole::Aborts(mark.starter),
        Call::Exit(_) if pid.0 != 1 => member_end(content, mark.starter, pid),
        _ => StepRole::Inside(mark.starter, Progress::Continues),
    }
}

/// The end of a member's part: the last one whose part is open commits, any other waits for the
/// rest.
fn member_end(content: &Content, starter: Pid, pid: Pid) -> StepRole
    requires shaped { IsShaped content.now }
    requires kept { IsKept (content_of content.now) }
    requires live { is_live (table_at content.now.marks) starter.0 ≡ true }
    ensures { role_as pid.0 result ≡ member_end (table_at content.now.marks) starter.0 pid.0 }
{
    if is_last_part(content, starter, pid) {
        StepRole::Commits(starter)
    } else {
        StepRole::Inside(starter, Progress::Parks)
    }
}

/// Whether no other member's part of a live transaction is open.
fn is_last_part(content: &Content, starter: Pid, pid: Pid) -> bool
    requires shaped { IsShaped content.now }
    requires kept { IsKept (content_of content.now) }
    requires live { is_live (table_at content.now.marks) starter.0 ≡ true }
    ensures { result ≡ not
        (others_open (table_at content.now.marks) starter.0 pid.0 (length content.now.marks)) }
{
    let boxed = content.txns.get(starter).unwrap();
    is_last_open(&content.marks, starter, pid, &boxed.txn.objects)
}

/// Whether the delivery of a signal now ends this member.
fn is_member_ended(content: &Content, pid: Pid, mark: Mark, proc: &Proc, signo: Signo) -> bool
    requires shaped { IsShaped content.now }
    requires kept { IsKept (content_of content.now) }
    requires live { is_live (table_at content.now.marks) mark.starter.0 ≡ true }
    requires marked { slot_at content.now.marks pid.0 ≡ Some mark }
    ensures { result ≡ ends_by (inside_by (table_at content.now.marks) (Some mark)) signo.0
        (process_of proc.now) (delivered_value signo.0 (process_of proc.now)) }
{
    let boxed = content.txns.get(mark.starter).unwrap();
    let actor = Actor {
        parts: &content.parts,
        pid,
        proc,
        inside: Some(boxed.txn.inside(&content.marks)),
    };
    actor.is_ended_by(signo)
}
