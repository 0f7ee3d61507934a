//! What a step of a history is to its transaction.
ghost use Rattle.std.specs.Prelude.{◌≡◌, ℕ, IfSome, option_map};
ghost use Rattle.tx_base.specs.Slots.{slot_at};
ghost use Rattle.tx_base.specs.declared.steps.Step.TheVariants.{Call as Calls, Deliver, KernelAbort};
ghost use Rattle.tx_step.specs.Contents.{IsContent};
ghost use Rattle.tx_step.specs.Roles.{role_as};
ghost use Rattle.tx_step.specs.Ways.{posted_with};
ghost use Rattle.tx_laws.specs.OneMoment.{call_looks};
ghost use Rattle.tx_content.specs.Content.{view_of};
ghost use Rattle.tx_content.specs.Made.{IsRunning};
ghost use Rattle.tx_reserve.specs.Reservations.{number_of};
ghost use Rattle.tx_journal.specs.Notes.{begins_one, commits_one, noted, noted_by, starter_by, IsNoteOn};

use crate::posted::is_posted_to;
use crate::retrace_laws::laws;
use tx_base::{Call, Pid, Signo, Step};
use tx_content::Content;
use tx_kernel::Sends;
use tx_step::{StepRole, actor_of, is_running, role_of_call, role_of_delivery};

/// What a step of a history is to its transaction.
#[derive(Clone, Copy)]
pub struct Note {
    /// Who started the transaction that the step is of; none if it is of none.
    pub starter: Option<Pid>,
    /// Whether the step is the first one of that transaction.
    pub begins: bool,
    /// Whether the step commits that transaction.
    pub commits: bool,
    /// Whether the step shows when that transaction is made: its starter looks at its signals, or
    /// something that is posted with the step goes to the starter.
    pub reveals: bool,
}

/// What a step is to its transaction. None if its process does not run. It takes no memory.
pub(crate) fn note_of(content: &Content, step: &Step) -> Option<Note>
    requires { IsContent content.now }
    ensures { IfSome result (λ note. IsNoteOn (view_of content.now) step.now note) }
{
    match step {
        Step::Call(pid, call) if is_running(content, *pid) => Some(note_of_call(
            content, *pid, call,
        )),
        Step::Deliver(pid, signo) if is_running(content, *pid) => Some(note_of_delivery(
            content, *pid, *signo,
        )),
        Step::KernelAbort(starter) => Some(note_of_kernel_abort(content, *starter)),
        _ => None,
    }
}

/// What a call of a process that runs is to its transaction.
fn note_of_call(content: &Content, pid: Pid, call: &Call) -> Note
    requires content { IsContent content.now }
    requires running { IsRunning (slot_at content.now.parts.procs pid.0) }
    ensures { IsNoteOn (view_of content.now) (Calls pid call.now) result }
{
    laws();
    let role = role_of_call(content, pid, call);
    let first = actor_of(content, pid).sends_of_call(call);
    note_by(content, pid, role, looks_at_signals(call), &first)
}

/// What a delivery to a process that runs is to its transaction. It looks at the signals.
fn note_of_delivery(content: &Content, pid: Pid, signo: Signo) -> Note
    requires content { IsContent content.now }
    requires running { IsRunning (slot_at content.now.parts.procs pid.0) }
    ensures { IsNoteOn (view_of content.now) (Deliver pid signo) result }
{
    laws();
    let role = role_of_delivery(content, pid, signo);
    let first = actor_of(content, pid).sends_of_delivery(signo);
    note_by(content, pid, role, true, &first)
}

/// What the kernel's abort is to the transaction of the starter: it posts nothing, and nobody looks
/// at signals.
fn note_of_kernel_abort(content: &Content, starter: Pid) -> Note
    ensures { IsNoteOn (view_of content.now) (KernelAbort starter) result }
{
    Note {
        starter: Some(starter),
        begins: false,
        commits: false,
        reveals: false,
    }
}

/// What a step of a process is to its transaction, if this is its role, it looks at the signals or
/// not, and it sends this first.
fn note_by(content: &Content, pid: Pid, role: StepRole, looks: bool, first: &Sends) -> Note
    ensures { noted result
        ≡ noted_by (role_as pid.0 role) pid.0 looks (posted_with content.now role first.now) }
{
    let starter = starter_by(pid, role);
    Note {
        starter,
        begins: is_first(role),
        commits: is_commit(role),
        reveals: match starter {
            Some(starter) => {
                (pid == starter && looks) || is_posted_to(content, role, first, starter)
            }
            None => false,
        },
    }
}

/// The starter of the transaction that a step of a process is of.
fn starter_by(pid: Pid, role: StepRole) -> Option<Pid>
    ensures { option_map number_of result ≡ starter_by (role_as pid.0 role) }
{
    match role {
        StepRole::Outside => None,
        StepRole::Begins(_) => Some(pid),
        StepRole::Inside(starter, _) => Some(starter),
        StepRole::Commits(starter) => Some(starter),
        StepRole::Aborts(starter) => Some(starter),
    }
}

/// Whether a step begins its transaction.
fn is_first(role: StepRole) -> bool
    ensures { (p : ℕ) → result ≡ begins_one (role_as p role) }
{
    matches!(role, StepRole::Begins(_))
}

/// Whether a step commits its transaction.
fn is_commit(role: StepRole) -> bool
    ensures { (p : ℕ) → result ≡ commits_one (role_as p role) }
{
    matches!(role, StepRole::Commits(_))
}

/// Whether the call looks at the signals of its process.
fn looks_at_signals(call: &Call) -> bool
    ensures { result ≡ call_looks call.now }
{
    matches!(call, Call::Sigaction(_, _) | Call::Sigpending)
}
