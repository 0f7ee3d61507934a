//! The footprint of any step, whether or not its process exists.
ghost use Rattle.std.specs.Option.{option_copied};
ghost use Rattle.std.specs.Prelude.{◌≡◌, ◌≤◌, ℕ, List, None, false, length, IfSome, IsNone};
ghost use Rattle.tx_base.specs.Slots.{slot_at};
ghost use Rattle.tx_change.specs.States.{state_of};
ghost use Rattle.tx_change.specs.declared.parts.Parts.{Parts as TheParts};
ghost use Rattle.tx_kernel.specs.Actors.{IsWhole, inside_of};
ghost use Rattle.tx_model.specs.Footprints.{footprint};
ghost use Rattle.tx_model.specs.Membership.{inside_by};
ghost use Rattle.tx_model.specs.State.{Object as TheObject, Sending as TheSending};
ghost use Rattle.tx_reserve.specs.Footprints.{GoesBy, GoesWith, HoldsBy, HoldsFor, IsInside, IsPlaced, IsSetOf, IsStepOf, table_at, table_of};
ghost use Rattle.tx_reserve.specs.Objects.{is_in};

use crate::footprints::{footprint_of_call, footprint_of_delivery};
use crate::objects::{Object, Objects};
use crate::open_parts::others_open;
use tx_base::{Mark, Pid, Sending, Slots, Step};
use tx_change::Parts;
use tx_kernel::{Actor, Inside};

/// The footprint of any step: the objects that it reserves, if its process is a member. A missing
/// process names only itself, and the kernel's abort names nothing.
///
/// `held` is what the transaction of the process holds; for a process in none it may be anything.
/// It takes no memory. Own rule.
pub fn footprint(parts: &Parts, marks: &Slots<Mark>, held: &[Sending], step: &Step) -> Objects
    requires { IsWhole parts.now }
    ensures { (all : ℕ → List TheSending) → HoldsFor marks.now step.now held.now all →
        IsSetOf result (footprint (table_of parts.now marks.now) step.now
        (state_of all parts.now)) }
{
    let mut set = Objects::new();
    match step {
        Step::Call(pid, _) | Step::Deliver(pid, _) => {
            put_step(parts, marks, held, *pid, step, &mut set)
        }
        Step::KernelAbort(_) => {}
    }
    set
}

/// Puts the footprint of a step of this process into an empty set.
fn put_step(
    parts: &Parts,
    marks: &Slots<Mark>,
    held: &[Sending],
    pid: Pid,
    step: &Step,
    set: &mut Objects,
)
    requires whole { IsWhole parts.now }
    requires empty { (o : TheObject) → is_in set.old o ≡ false }
    requires own { IsStepOf pid step.now }
    ensures { (all : ℕ → List TheSending) → HoldsFor marks.now step.now held.now all →
        IsSetOf set.new (footprint (table_of parts.now marks.now) step.now
        (state_of all parts.now)) }
{
    match actor_at(parts, marks, pid) {
        Some(actor) => put_row(&actor, marks, last_by(parts, marks, held, pid), step, set),
        None => set.insert(Object::Proc(pid)),
    }
}

/// Puts the footprint of a step of this actor into an empty set; `last` is as for a call.
fn put_row(
    actor: &Actor,
    marks: &Slots<Mark>,
    last: Option<&[Sending]>,
    step: &Step,
    set: &mut Objects,
)
    requires actor { IsPlaced actor.now }
    requires inside { IsInside actor.now marks.now }
    requires empty { (o : TheObject) → is_in set.old o ≡ false }
    requires own { IsStepOf actor.now.pid step.now }
    ensures { (all : ℕ → List TheSending) →
        GoesWith actor.now marks.now (option_copied last.entry) all →
        IsSetOf set.new (footprint (table_at actor.now marks.now) step.now
        (state_of all actor.now.parts.now)) }
{
    match step {
        Step::Call(_, call) => footprint_of_call(actor, marks, last, call, set),
        Step::Deliver(_, signo) => footprint_of_delivery(actor, marks, last, *signo, set),
        Step::KernelAbort(_) => unreachable!(),
    }
}

/// The process of a number, which runs or has ended, with the transaction that it is a member of.
fn actor_at<'a>(parts: &'a Parts, marks: &'a Slots<Mark>, pid: Pid) -> Option<Actor<'a>>
    requires { IsWhole parts.now }
    ensures placed { IfSome result (λ actor. IsPlaced actor) }
    ensures inside { IfSome result (λ actor. IsInside actor marks.now) }
    ensures parts { IfSome result (λ actor. actor.parts.now ≡ parts.now) }
    ensures number { IfSome result (λ actor. actor.pid ≡ pid) }
    ensures none { IsNone result → slot_at parts.now.procs pid.0 ≡ None }
{
    let proc = parts.proc(pid)?;
    let inside = inside_at(marks, pid);
    Some(Actor {
        parts,
        pid,
        proc,
        inside,
    })
}

/// The transaction that a process is a member of, if it is one. No row asks how much it holds.
fn inside_at<'a>(marks: &'a Slots<Mark>, pid: Pid) -> Option<Inside<'a>>
    ensures { (parts : TheParts) →
        inside_of result ≡ inside_by (table_of parts marks.now) (slot_at marks.now pid.0) }
{
    let mark = marks.get(pid)?;
    Some(Inside {
        starter: mark.starter,
        marks,
        held: 0,
        defers: mark.defers,
    })
}

/// What a step that ends the part of this process commits: all that is held, if the process is a
/// member and no other member's part is open.
fn last_by<'a>(
    parts: &Parts,
    marks: &Slots<Mark>,
    held: &'a [Sending],
    pid: Pid,
) -> Option<&'a [Sending]>
    requires { length parts.now.procs ≤ 256 }
    ensures { (all : ℕ → List TheSending) → HoldsBy (slot_at marks.now pid.0) held.now all →
        GoesBy (table_of parts.now marks.now) pid.0 (slot_at marks.now pid.0) (option_copied result)
        all }
{
    let mark = marks.get(pid)?;
    if others_open(parts, marks, mark.starter, pid) {
        return None;
    }
    Some(held)
}
