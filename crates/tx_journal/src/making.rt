//! Makes a step, and adds its entry.
ghost use Rattle.std.specs.Prelude.{◌≡◌, ◌≢◌, ◌↔◌, ◌⊎◌, [], IsOk, IsTrue, OnErr, OnOk, false, length, true};
ghost use Rattle.tx_base.specs.declared.steps.Reply.TheVariants.{Aborted, No};
ghost use Rattle.tx_base.specs.declared.steps.Step.TheVariants.{KernelAbort};
ghost use Rattle.tx_core.specs.Runs.{Continues, kernel_abort_on};
ghost use Rattle.tx_journal.specs.Entries.{entry_by};
ghost use Rattle.tx_journal.specs.Lives.{has_place, starter_by, starter_of};
ghost use Rattle.tx_journal.specs.Rooms.{HasAbortPlaces, IsAdded, IsReady, SameRecord};
ghost use Rattle.tx_laws.specs.Sound.{IsSound};
ghost use Rattle.tx_content.specs.Content.{view_of};
ghost use Rattle.tx_model.specs.Answer.{IsAccepted, answer};
ghost use Rattle.tx_model.specs.Membership.{is_live};
ghost use Rattle.tx_model.specs.View.{kernel_status};
ghost use Rattle.tx_step.specs.Steps.{IsKernelAbort, IsXabort};

use crate::journal::Journal;
use crate::laws::laws;
use std::alloc::Global;
use tx_base::{Call, NoMemory, Pid, Refusal, Reply, Step};
use tx_content::Inverse;
use tx_core::{Machine, NoTransaction};

/// Makes a step, puts its reply into the caller's place, and moves it into its entry if it was
/// accepted. The entry's place is reserved first, except for an abort, which has its own. Answers
/// whether it was accepted.
#[inline(always)] // calls here and below would cost each step their arguments, some 30 instructions
pub(crate) fn record(
    alloc: Global,
    machine: &mut Machine,
    journal: &mut Journal,
    worker: u16,
    step: &mut Step,
    reply: &mut Reply,
) -> bool
    requires sound { IsSound (view_of machine.old) }
    requires at_end { length journal.old.crossings.inverses ≡ length journal.old.entries.items }
    requires none { journal.old.crossings.undone ≡ [] }
    requires places { HasAbortPlaces machine.old journal.old }
    ensures accepted { IsTrue result ↔ IsAccepted reply.new }
    ensures added { IsTrue result →
        IsAdded machine.old journal.old
        (record { step = step.old; worker = worker; reply = reply.new }) machine.new journal.new }
    ensures machine { result ≡ false → machine.new ≡ machine.old }
    ensures journal { result ≡ false → SameRecord journal.new journal.old }
    ensures places { result ≡ false → HasAbortPlaces machine.old journal.new }
    ensures answer { (reply.new ≡ No Refusal.NoMemory)
        ⊎ (answer (view_of machine.old) step.old ≡ reply.new) }
    ensures history { IsTrue result →
        Continues machine.old (record { step = step.old; reply = reply.new }) machine.new }
    ensures step { result ≡ false → step.new ≡ step.old }
    ensures xabort { IsXabort machine.old step.old → reply.new ≢ No Refusal.NoMemory }
    ensures kernel { IsKernelAbort step.old → reply.new ≢ No Refusal.NoMemory }
{
    if prepare(machine, journal, step).is_err() {
        *reply = Reply::No(Refusal::NoMemory);
        return false;
    }
    make(alloc, machine, journal, worker, step, reply)
}

/// Makes room for the entry of a step, unless it has a place.
///
/// NoMemory where a growth is refused; the journal is then as it was.
fn prepare(machine: &Machine, journal: &mut Journal, step: &Step) -> Result<(), NoMemory>
    requires at_end { length journal.old.crossings.inverses ≡ length journal.old.entries.items }
    requires none { journal.old.crossings.undone ≡ [] }
    requires places { HasAbortPlaces machine.now journal.old }
    ensures same { SameRecord journal.new journal.old }
    ensures places { HasAbortPlaces machine.now journal.new }
    ensures ready { OnOk result (IsReady (view_of machine.now).table step.now journal.new) }
    ensures aborts { has_place (view_of machine.now).table step.now ≡ true → IsOk result }
{
    if has_place(machine, step) {
        return Ok(());
    }
    journal.reserve(machine.live_count() + 2)
}

/// Makes a step, puts its reply into the caller's place, and moves it into its entry if it was
/// accepted: there must be room. Answers whether it was accepted.
#[inline(always)] // as `record`
fn make(
    alloc: Global,
    machine: &mut Machine,
    journal: &mut Journal,
    worker: u16,
    step: &mut Step,
    reply: &mut Reply,
) -> bool
    requires sound { IsSound (view_of machine.old) }
    requires at_end { length journal.old.crossings.inverses ≡ length journal.old.entries.items }
    requires none { journal.old.crossings.undone ≡ [] }
    requires places { HasAbortPlaces machine.old journal.old }
    requires ready { IsReady (view_of machine.old).table step.old journal.old }
    ensures accepted { IsTrue result ↔ IsAccepted reply.new }
    ensures added { IsTrue result →
        IsAdded machine.old journal.old
        (record { step = step.old; worker = worker; reply = reply.new }) machine.new journal.new }
    ensures machine { result ≡ false → machine.new ≡ machine.old }
    ensures journal { result ≡ false → journal.new ≡ journal.old }
    ensures answer { (reply.new ≡ No Refusal.NoMemory)
        ⊎ (answer (view_of machine.old) step.old ≡ reply.new) }
    ensures history { IsAccepted reply.new →
        Continues machine.old (record { step = step.old; reply = reply.new }) machine.new }
    ensures step { result ≡ false → step.new ≡ step.old }
    ensures xabort { IsXabort machine.old step.old → reply.new ≢ No Refusal.NoMemory }
    ensures kernel { IsKernelAbort step.old → reply.new ≢ No Refusal.NoMemory }
{
    laws();
    let mut inverse = Inverse::blank();
    if !machine.step_into(alloc, step, reply, &mut inverse) {
        return false;
    }
    journal.add(worker, step, reply, inverse);
    true
}

/// Aborts a starter's live transaction as the kernel does, and adds its entry, whose place was
/// reserved at the sys_xbegin. It takes no memory.
///
/// `NoTransaction` if the starter has no live transaction; nothing has changed then.
pub(crate) fn abort(
    machine: &mut Machine,
    journal: &mut Journal,
    worker: u16,
    starter: Pid,
) -> Result<(), NoTransaction>
    requires sound { IsSound (view_of machine.old) }
    requires at_end { length journal.old.crossings.inverses ≡ length journal.old.entries.items }
    requires none { journal.old.crossings.undone ≡ [] }
    requires places { HasAbortPlaces machine.old journal.old }
    ensures live { IsOk result ↔ (is_live (view_of machine.old).table starter.0 ≡ true) }
    ensures added { OnOk result (IsAdded machine.old journal.old
        (entry_by worker (kernel_abort_on machine.old starter)) machine.new journal.new) }
    ensures machine { OnErr result (machine.new ≡ machine.old) }
    ensures journal { OnErr result (journal.new ≡ journal.old) }
    ensures history { OnOk result
        (Continues machine.old (kernel_abort_on machine.old starter) machine.new) }
{
    laws();
    let Some(status) = machine.kernel_status(starter) else {
        return Err(NoTransaction);
    };
    let inverse = machine.kernel_abort(starter)?;
    let mut step = Step::KernelAbort(starter);
    journal.add(worker, &mut step, &Reply::Aborted(status), inverse);
    Ok(())
}

/// Whether a step's place was reserved at the sys_xbegin of the transaction that it aborts: so for
/// the kernel's abort and a member's sys_xabort.
pub(crate) fn has_place(machine: &Machine, step: &Step) -> bool
    ensures { result ≡ has_place (view_of machine.now).table step.now }
{
    match step {
        Step::KernelAbort(_) => true,
        Step::Call(pid, Call::SysXabort) => machine.txn_of(*pid).is_some(),
        _ => false,
    }
}

/// Whose transaction a step may begin or end.
pub(crate) fn starter_of(machine: &Machine, step: &Step) -> Pid
    ensures { result.0 ≡ starter_of (view_of machine.now).table step.now }
{
    match step {
        Step::KernelAbort(starter) => *starter,
        Step::Call(pid, _) => starter_by(machine, *pid),
        Step::Deliver(pid, _) => starter_by(machine, *pid),
    }
}

/// The starter of the live transaction that a process is a member of, or the process if it is none.
fn starter_by(machine: &Machine, pid: Pid) -> Pid
    ensures { result.0 ≡ starter_by pid.0 ((view_of machine.now).table.marks pid.0) }
{
    machine.txn_of(pid).unwrap_or(pid)
}
