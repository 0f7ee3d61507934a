//! Calls, deliveries and posts on the kernel's parts, by hand from the rules.
ghost use Rattle.std.specs.Prelude.{◌≡◌, ◌<◌, IfOk};
ghost use Rattle.tx_kernel.specs.Actors.{IsWhole};

use std::alloc::Global;
use std::process::Abort;
use std::test::Fail;
use tx_base::{Call, Errno, NoMemory, Pid, Refusal, Sending, SigSet, Signo};
use tx_change::{Log, Parts};
use tx_kernel::{Actor, Outcome, Sends, act, booted_are_whole, deliver, plan_post, post};
use tx_proc::{Part, Proc};

/// A signal that the privileged process 1 sends process 2.
fn sent(signo: u8) -> Sending
    ensures { result.signo.0 ≡ signo }
{
    Sending {
        target: Pid(2),
        signo: Signo(signo),
        value: 5,
        from: Some((0, 0)),
    }
}

/// A kernel with two processes.
fn booted(alloc: Global) -> Result<Parts, NoMemory>
    ensures { IfOk result (λ parts. IsWhole parts) }
{
    let parts = Parts::boot(alloc, 64, 2)?;
    booted_are_whole();
    Ok(parts)
}

/// What a process shows: its point, its answer and its status.
fn shown(parts: &Parts, number: u16) -> Option<(u32, i64, Option<u16>)> {
    parts
        .proc(Pid(number))
        .map(|proc| (proc.regs.point, proc.regs.ret, proc.status))
}

#[test]
fn a_call_is_made_and_led_back(rt: HostRuntime) -> Result<(), Fail> {
    let mut parts = booted(rt.alloc())?;
    let mut log = Log::new(rt.alloc());
    let call = Call::Setuid(7);
    let Ok(planned) = act(rt.alloc(), &mut parts, Pid(2), &call, None, &mut log) else {
        panic!(rt; "a call of a process that runs is made");
    };
    assert!(rt; matches!(planned.outcome, Outcome::Done(0)));
    assert!(rt; shown(&parts, 2) == Some((1, 0, None)) && log.len() == 2);
    log.settle()?;
    assert!(rt; log.len() == 2);
    log.lead_back(&mut parts);
    assert!(rt; shown(&parts, 2) == Some((0, 0, None)));
    Ok(())
}

/// Makes a call of process 2.
fn make(rt: &impl Abort, alloc: Global, parts: &mut Parts, call: &Call)
    requires { IsWhole parts.old }
    ensures { IsWhole parts.new }
{
    let mut log = Log::new(alloc);
    let Ok(_planned) = act(alloc, parts, Pid(2), call, None, &mut log) else {
        panic!(rt; "a call of a process that runs is made");
    };
}

#[test]
fn a_call_follows_another(rt: HostRuntime) -> Result<(), Fail> {
    let mut parts = booted(rt.alloc())?;
    make(&rt, rt.alloc(), &mut parts, &Call::Setuid(7));
    make(&rt, rt.alloc(), &mut parts, &Call::Getpid);
    assert!(rt; shown(&parts, 2) == Some((2, 2, None)));
    Ok(())
}

/// Posts signal 10 to process 2. Whether that changed what is pending.
fn is_posted(parts: &mut Parts) -> bool
    requires { IsWhole parts.old }
    ensures { IsWhole parts.new }
{
    let posted = post(parts, &sent(10));
    posted.answer == Ok(()) && posted.change.is_some()
}

/// Delivers signal 10 to process 2. Whether it ends by that.
fn is_ended(alloc: Global, parts: &mut Parts) -> bool
    requires { IsWhole parts.old }
{
    let mut log = Log::new(alloc);
    let delivered = deliver(alloc, parts, Pid(2), Signo(10), None, &mut log);
    delivered.is_ok_and(|planned| matches!(planned.outcome, Outcome::Ended))
}

#[test]
fn a_signal_is_posted_and_delivered(rt: HostRuntime) -> Result<(), Fail> {
    let mut parts = booted(rt.alloc())?;
    assert!(rt; is_posted(&mut parts) && is_ended(rt.alloc(), &mut parts));
    assert!(rt; shown(&parts, 2) == Some((0, 0, Some(266))));
    Ok(())
}

/// What a post is to put in place of the standard signals that are pending.
fn pending_after(proc: &Proc, sending: &Sending) -> Option<SigSet>
    requires { sending.now.signo.0 < 64 }
{
    match plan_post(proc, sending) {
        Ok(Some(Part::Pending(set))) => Some(set),
        _ => None,
    }
}

/// The place and the value of what a post is to queue.
fn queued_by(proc: &Proc, sending: &Sending) -> Option<(usize, i64)>
    requires { sending.now.signo.0 < 64 }
{
    match plan_post(proc, sending) {
        Ok(Some(Part::Queued(place, Some(entry)))) => Some((place, entry.value)),
        _ => None,
    }
}

#[test]
fn plans_of_posts_change_nothing(rt: HostRuntime) {
    let mut proc = Proc::booted(Pid(2));
    assert!(rt; pending_after(&proc, &sent(9)) == Some(SigSet::KILL));
    assert!(rt; queued_by(&proc, &sent(34)) == Some((0, 5)));
    assert!(rt;
        matches!(plan_post(&proc, &sent(0)), Ok(None)),
        "signal 0 only asks"
    );
    assert!(rt; proc.pending.is_empty());
    proc.cred.real_user = 7;
    proc.cred.saved_user = 7;
    let mut stranger = sent(10);
    stranger.from = Some((8, 8));
    let refused = plan_post(&proc, &stranger);
    assert!(rt; matches!(refused, Err(Errno::NotPermitted)));
}

/// The plan of a process's getppid, and why it can't be delivered a signal.
fn plan_both(rt: &impl Abort, alloc: Global, parts: &Parts, log: &mut Log)
    requires { IsWhole parts.now }
{
    let Ok(actor) = Actor::at(parts, Pid(2), None) else {
        panic!(rt; "process 2 runs");
    };
    let mut sends = Sends::Nothing;
    let Ok(outcome) = actor.plan_call(alloc, &Call::Getppid, log, &mut sends) else {
        panic!(rt; "a call of a process that runs is planned");
    };
    assert!(rt; matches!(outcome, Outcome::Done(1)));
    assert!(rt; matches!(sends, Sends::Nothing));
    let delivered = actor.plan_delivery(alloc, Signo(10), log, &mut sends);
    assert!(rt; matches!(delivered, Err(Refusal::NotDeliverable)));
}

#[test]
fn plans_of_steps_change_nothing(rt: HostRuntime) -> Result<(), Fail> {
    let parts = booted(rt.alloc())?;
    let mut log = Log::new(rt.alloc());
    plan_both(&rt, rt.alloc(), &parts, &mut log);
    assert!(rt; shown(&parts, 2) == Some((0, 0, None)) && log.len() == 1);
    Ok(())
}
