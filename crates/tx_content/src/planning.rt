//! The plan of a step on these parts.
ghost use Rattle.std.specs.Prelude.{◌≡◌, IfErr, IfOk, OnErr, OnOk, drop, length, take};
ghost use Rattle.tx_base.specs.Slots.{slot_at};
ghost use Rattle.tx_change.specs.Exchange.{AreNamed};
ghost use Rattle.tx_kernel.specs.Actors.{IsWhole, inside_of};
ghost use Rattle.tx_kernel.specs.Acts.{RefusesEvent, event_of};
ghost use Rattle.tx_content.specs.Made.{IsPlanned, IsRunning};

use std::alloc::Global;
use tx_base::{Pid, Refusal};
use tx_change::{Log, Parts};
use tx_kernel::{Act, Actor, Inside, Outcome, Sends, plans_are_made};

/// A process that makes a step, and the transaction that it makes it inside, if any.
#[derive(Clone, Copy)]
pub(crate) struct Runner<'a> {
    pub pid: Pid,
    pub inside: Option<Inside<'a>>,
}

/// Plans the act of a process that runs: its exchanges are at the end of the log then, and what it
/// sends is in its place.
///
/// Refuses as `Actor::plan` does; the log is then as it was.
#[inline(always)] // it has few callers, and each step plans
pub(crate) fn plan(
    alloc: Global,
    parts: &Parts,
    runner: Runner,
    act: &Act,
    log: &mut Log,
    sends: &mut Sends,
) -> Result<Outcome, Refusal>
    requires whole { IsWhole parts.now }
    requires running { IsRunning (slot_at parts.now.procs runner.pid.0) }
    ensures planned { IfOk result (λ outcome.
        IsPlanned parts.now runner.entry.pid runner.entry.inside
        (event_of (inside_of runner.entry.inside) runner.entry.pid act.now) log.old log.new
        (record { outcome = outcome; sends = sends.new })) }
    ensures refused { IfErr result (RefusesEvent parts.now runner.entry.inside
        (event_of (inside_of runner.entry.inside) runner.entry.pid act.now)) }
    ensures named { OnOk result (AreNamed parts.now (drop (length log.old) log.new)) }
    ensures log { OnOk result (take (length log.old) log.new ≡ log.old) }
    ensures err { OnErr result (log.new ≡ log.old) }
{
    plans_are_made();
    let Runner { pid, inside } = runner;
    let proc = parts.proc(pid).unwrap();
    let actor = Actor {
        parts,
        pid,
        proc,
        inside,
    };
    actor.plan(alloc, act, log, sends)
}
