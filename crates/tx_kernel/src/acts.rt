//! Calls and deliveries that are made on the parts: the plan, and its exchanges.
ghost use Rattle.std.specs.Prelude.{◌≡◌, ◌⊎◌, IfOk, IfErr, OnErr};
ghost use Rattle.tx_base.specs.declared.steps.Step.TheVariants.{Call as Calls, Deliver};
ghost use Rattle.tx_kernel.specs.Actors.{IsWhole, inside_of};
ghost use Rattle.tx_kernel.specs.Acts.{Makes, RefusesPage};
ghost use Rattle.tx_kernel.specs.Plans.{ChoosesBadly};
ghost use Rattle.tx_model.specs.Words.{chosen_in};
ghost use Rattle.tx_model.specs.Events.{Do};
ghost use Rattle.tx_model.specs.Book.{page_of_call};
ghost use Rattle.tx_model.specs.Deliveries.{delivery_page};

use crate::actor::Actor;
use crate::inside::Inside;
use crate::laws::laws;
use crate::planned::{Planned, Sends};
use std::alloc::Global;
use tx_base::{Call, NoMemory, Pid, Refusal, Signo};
use tx_change::{Log, Parts, appended};
use tx_laws::well_formed;

/// Makes a call of a process, with its post, and appends to the log what leads back. A call of
/// transactions answers EINVAL, as it does where it makes no sense.
///
/// NoProcess and NotRunning where there is no such process or it has ended; and as
/// `Actor::plan_call` does. The parts and the log are then as they were.
pub fn act(
    alloc: Global,
    parts: &mut Parts,
    pid: Pid,
    call: &Call,
    inside: Option<Inside>,
    log: &mut Log,
) -> Result<Planned, Refusal>
    requires { IsWhole parts.old }
    ensures ok { IfOk result (λ planned.
        Makes parts.old pid inside.entry (Do (Calls pid call.now) (inside_of inside.entry)) log.old
        log.new parts.new planned) }
    ensures whole { IfOk result (λ planned. IsWhole parts.new) }
    ensures refused { IfErr result (λ why.
        RefusesPage parts.old pid inside.entry (page_of_call call.now) why
        ⊎ ChoosesBadly parts.old why (chosen_in call.now)) }
    ensures parts { OnErr result (parts.new ≡ parts.old) }
    ensures log { OnErr result (log.new ≡ log.old) }
{
    laws();
    appended();
    well_formed();
    let from = log.len();
    let mut sends = Sends::Nothing;
    let outcome = Actor::at(parts, pid, inside)?.plan_call(alloc, call, log, &mut sends)?;
    log.make_from(parts, from);
    Ok(Planned { outcome, sends })
}

/// Delivers a pending signal to a process, with its post, and appends to the log what leads back.
///
/// NoProcess and NotRunning where there is no such process or it has ended; and as
/// `Actor::plan_delivery` does. The parts and the log are then as they were.
pub fn deliver(
    alloc: Global,
    parts: &mut Parts,
    pid: Pid,
    signo: Signo,
    inside: Option<Inside>,
    log: &mut Log,
) -> Result<Planned, Refusal>
    requires { IsWhole parts.old }
    ensures ok { IfOk result (λ planned.
        Makes parts.old pid inside.entry (Do (Deliver pid signo) (inside_of inside.entry)) log.old
        log.new parts.new planned) }
    ensures whole { IfOk result (λ planned. IsWhole parts.new) }
    ensures refused { IfErr result (λ why.
        RefusesPage parts.old pid inside.entry (delivery_page signo.0) why) }
    ensures parts { OnErr result (parts.new ≡ parts.old) }
    ensures log { OnErr result (log.new ≡ log.old) }
{
    laws();
    appended();
    well_formed();
    let from = log.len();
    let mut sends = Sends::Nothing;
    let outcome = Actor::at(parts, pid, inside)?.plan_delivery(alloc, signo, log, &mut sends)?;
    log.make_from(parts, from);
    Ok(Planned { outcome, sends })
}
