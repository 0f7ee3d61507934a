//! Steps of processes.
ghost use Rattle.tx_base.specs.declared.steps.Step.TheVariants.{Call as Calls, Deliver};
ghost use Rattle.std.specs.Prelude.{◌≡◌, None};
ghost use Rattle.tx_step.specs.Contents.{IsContent, IsIdle};
ghost use Rattle.tx_step.specs.Early.{early_refusal};
ghost use Rattle.tx_content.specs.Content.{view_of};
ghost use Rattle.tx_step.specs.Requests.{step_of};
ghost use Rattle.tx_step.specs.Steps.{Takes};

use crate::aborts::take_abort;
use crate::answered::Answered;
use crate::begins::take_begin;
use crate::ends::take_end;
use crate::inside::take_inside;
use crate::laws::laws;
use crate::outside::take_outside;
use crate::request::Request;
use crate::roles::{Start, StepRole};
use std::alloc::Global;
use tx_base::{Call, Pid, Refusal, Signo};
use tx_content::{Content, Inverse, Member};
use tx_reserve::Objects;

/// Makes a call of a process. Answers what it is answered, and puts its inverse into its place.
///
/// A refused call changes nothing. It is refused for the first reason of these: NoProcess,
/// NotRunning, BadNumber, NumberTaken, Doomed, Parked, KillPending, Busy, Wait; and NoMemory where
/// a growth is refused and nothing else refuses it. A member's sys_xabort takes no memory.
pub fn take_call(
    content: &mut Content,
    alloc: Global,
    pid: Pid,
    call: &Call,
    inverse: &mut Inverse,
) -> Result<Answered, Refusal>
    requires { IsContent content.old }
    ensures { Takes content.old (Calls pid call.now) result inverse.new content.new }
{
    take_request(content, alloc, pid, Request::Call(call), inverse)
}

/// Delivers a signal to a process at which it is pending. Answers what the delivery is answered,
/// and puts its inverse into its place.
///
/// A refused delivery changes nothing. It is refused for the first reason of these: NoProcess,
/// NotRunning, Doomed, Parked, KillPending, Busy, NotDeliverable, Deferred, FramesFull; and
/// NoMemory where a growth is refused and nothing else refuses it.
pub fn take_delivery(
    content: &mut Content,
    alloc: Global,
    pid: Pid,
    signo: Signo,
    inverse: &mut Inverse,
) -> Result<Answered, Refusal>
    requires { IsContent content.old }
    ensures { Takes content.old (Deliver pid signo) result inverse.new content.new }
{
    take_request(content, alloc, pid, Request::Delivery(signo), inverse)
}

/// Does what a step requests of a process, if nothing refuses it.
fn take_request(
    content: &mut Content,
    alloc: Global,
    pid: Pid,
    request: Request,
    inverse: &mut Inverse,
) -> Result<Answered, Refusal>
    requires { IsContent content.old }
    ensures { Takes content.old (step_of pid request.entry) result inverse.new content.new }
{
    laws();
    if let Some(why) = request.early_refusal(content, pid) {
        return Err(why);
    }
    if content.txns.is_idle() {
        take_alone(content, alloc, pid, request, inverse)
    } else {
        take_beside(content, alloc, pid, request, inverse)
    }
}

/// Does what a step requests of a process, if nothing refuses it early and no transaction is live,
/// so that nobody is in its way.
fn take_alone(
    content: &mut Content,
    alloc: Global,
    pid: Pid,
    request: Request,
    inverse: &mut Inverse,
) -> Result<Answered, Refusal>
    requires content { IsContent content.old }
    requires early { early_refusal (view_of content.old) pid.0 (step_of pid request) ≡ None }
    requires idle { IsIdle content.old }
    ensures { Takes content.old (step_of pid request.entry) result inverse.new content.new }
{
    laws();
    match request.beginning(content, pid) {
        Start::Transaction { defers } => take_begin(content, alloc, pid, defers, inverse),
        Start::Nothing => take_outside(content, alloc, pid, request, inverse),
    }
}

/// Does what a step requests of a process, by its role, if nothing refuses it early and no
/// transaction is in its way.
fn take_beside(
    content: &mut Content,
    alloc: Global,
    pid: Pid,
    request: Request,
    inverse: &mut Inverse,
) -> Result<Answered, Refusal>
    requires content { IsContent content.old }
    requires early { early_refusal (view_of content.old) pid.0 (step_of pid request) ≡ None }
    ensures { Takes content.old (step_of pid request.entry) result inverse.new content.new }
{
    laws();
    let role = request.role(content, pid);
    let mut footprint = Objects::new();
    if let Some(starter) = request.way(content, pid, role, &mut footprint) {
        return Err(Refusal::Busy { starter });
    }
    match role {
        StepRole::Outside => take_outside(content, alloc, pid, request, inverse),
        StepRole::Begins(defers) => take_begin(content, alloc, pid, defers, inverse),
        StepRole::Inside(starter, progress) => {
            let member = Member {
                pid,
                starter,
                progress,
            };
            take_inside(content, alloc, member, request, &footprint, inverse)
        }
        StepRole::Commits(starter) => take_end(content, alloc, pid, starter, request, inverse),
        StepRole::Aborts(starter) => Ok(take_abort(content, pid, starter, inverse)),
    }
}
