//! What a step names, and who is in its way.
ghost use Rattle.std.specs.Option.{option_copied};
ghost use Rattle.std.specs.Prelude.{◌≡◌, ◌≢◌, false, map, length, [], ◌∷◌, option_map, IsTrue};
ghost use Rattle.tx_base.specs.Slots.{slot_at};
ghost use Rattle.tx_base.specs.declared.names.Pid.{Pid as ThePid};
ghost use Rattle.tx_base.specs.declared.steps.Step.TheVariants.{Call as Calls, Deliver};
ghost use Rattle.tx_step.specs.Contents.{IsContent};
ghost use Rattle.tx_step.specs.Faces.{sent};
ghost use Rattle.tx_step.specs.InWay.{IsOfMember, starter_in};
ghost use Rattle.tx_step.specs.Roles.{role_as};
ghost use Rattle.tx_step.specs.declared.roles.StepRole.TheVariants as step;
ghost use Rattle.tx_step.specs.Ways.{IsOwnActor, SendsNothing, held_at_commit, posted_with};
ghost use Rattle.tx_kernel.specs.Actors.{CountsHeld, inside_of};
ghost use Rattle.tx_kernel.specs.Plans.{sending_of, sent_at_once};
ghost use Rattle.tx_laws.specs.Footprints.{is_abort};
ghost use Rattle.tx_content.specs.Content.{content_of, held_of, now_of, view_of, IsShaped};
ghost use Rattle.tx_content.specs.Insides.{IsFootprint};
ghost use Rattle.tx_content.specs.Made.{IsRunning};
ghost use Rattle.tx_model.specs.Answer.{is_running};
ghost use Rattle.tx_model.specs.Words.{has_bad_number};
ghost use Rattle.tx_model.specs.Events.{Event, effect};
ghost use Rattle.tx_model.specs.Membership.{inside_by};
ghost use Rattle.tx_model.specs.State.{Object as TheObject, Proc};
ghost use Rattle.tx_model.specs.View.{event_on, starter_in_way, role_on};
ghost use Rattle.tx_proc.specs.Parts.{process_in};
ghost use Rattle.tx_reserve.specs.Footprints.{IsSetOf};
ghost use Rattle.tx_reserve.specs.Objects.{is_in};
ghost use Rattle.tx_reserve.specs.Reservations.{number_of};
ghost use Rattle.tx_txn.specs.Content.{IsKept};
ghost use Rattle.tx_txn.specs.Marks.{table_at};

use crate::in_way::find_starter;
use crate::own::{concerns_itself, sends_nothing};
use crate::refusal_laws::{contents_are_whole, way_laws};
use crate::roles::StepRole;
use tx_base::{Call, Pid, Sending, Signo};
use tx_content::Content;
use tx_kernel::{Actor, Inside, Sends};
use tx_reserve::{Object, Objects, footprint_of_call, footprint_of_delivery};
use tx_txn::answers_of_faces;

/// Puts what a call of a process that runs names into an empty set, and answers who is in its way,
/// if the call chooses no bad number and this is its role. It takes no memory.
pub fn way_of_call(
    content: &Content,
    pid: Pid,
    call: &Call,
    role: StepRole,
    footprint: &mut Objects,
) -> Option<Pid>
    requires content { IsContent content.now }
    requires running { IsRunning (slot_at content.now.parts.procs pid.0) }
    requires numbers { has_bad_number (length content.now.parts.procs) (Calls pid call.now)
        ≡ false }
    requires role { role_as pid.0 role ≡ role_on (view_of content.now) (Calls pid call.now) }
    requires empty { (o : TheObject) → is_in footprint.old o ≡ false }
    ensures footprint { IsFootprint content.now
        (event_on (view_of content.now) (Calls pid call.now)) footprint.new }
    ensures starter_in_way { option_map number_of result
        ≡ starter_in_way (view_of content.now)
        (event_on (view_of content.now) (Calls pid call.now)) }
{
    way_laws();
    match role {
        StepRole::Aborts(starter) => way_of_process(content, Some(starter), starter, footprint),
        StepRole::Commits(_) => way_of_others_call(content, pid, call, role, footprint),
        _ if concerns_itself(call) => {
            way_of_process(content, starter_of(content, pid), pid, footprint)
        }
        _ if sends_nothing(call) => way_of_quiet_call(content, pid, call, role, footprint),
        _ => way_of_others_call(content, pid, call, role, footprint),
    }
}

/// Puts what the delivery of a signal to a process that runs names into an empty set, and answers
/// who is in its way, if this is its role. It takes no memory.
pub fn way_of_delivery(
    content: &Content,
    pid: Pid,
    signo: Signo,
    role: StepRole,
    footprint: &mut Objects,
) -> Option<Pid>
    requires content { IsContent content.now }
    requires running { IsRunning (slot_at content.now.parts.procs pid.0) }
    requires role { role_as pid.0 role ≡ role_on (view_of content.now) (Deliver pid signo) }
    requires empty { (o : TheObject) → is_in footprint.old o ≡ false }
    ensures footprint { IsFootprint content.now (event_on (view_of content.now) (Deliver pid signo))
        footprint.new }
    ensures starter_in_way { option_map number_of result
        ≡ starter_in_way (view_of content.now)
        (event_on (view_of content.now) (Deliver pid signo)) }
{
    way_laws();
    let actor = actor_of(content, pid);
    let last = last_by(content, role);
    footprint_of_delivery(&actor, &content.marks, last, signo, footprint);
    let first = actor.sends_of_delivery(signo);
    find_in_way(content, pid, role, footprint, &first)
}

/// The same as `way_of_call` of a call that ends no transaction and sends nothing.
fn way_of_quiet_call(
    content: &Content,
    pid: Pid,
    call: &Call,
    role: StepRole,
    footprint: &mut Objects,
) -> Option<Pid>
    requires content { IsContent content.now }
    requires running { IsRunning (slot_at content.now.parts.procs pid.0) }
    requires numbers { has_bad_number (length content.now.parts.procs) (Calls pid call.now)
        ≡ false }
    requires role { role_as pid.0 role ≡ role_on (view_of content.now) (Calls pid call.now) }
    requires no_abort { is_abort (role_on (view_of content.now) (Calls pid call.now)) ≡ false }
    requires no_commit { (starter : ThePid) → role ≢ step.Commits starter }
    requires quiet { SendsNothing call.now }
    requires empty { (o : TheObject) → is_in footprint.old o ≡ false }
    ensures footprint { IsFootprint content.now
        (event_on (view_of content.now) (Calls pid call.now)) footprint.new }
    ensures starter_in_way { option_map number_of result
        ≡ starter_in_way (view_of content.now)
        (event_on (view_of content.now) (Calls pid call.now)) }
{
    way_laws();
    answers_of_faces();
    let actor = actor_of(content, pid);
    footprint_of_call(&actor, &content.marks, None, call, footprint);
    content.owners.conflict(footprint, starter_of(content, pid))
}

/// The same as `way_of_call` of a call that aborts nothing, and may concern others than its
/// process.
fn way_of_others_call(
    content: &Content,
    pid: Pid,
    call: &Call,
    role: StepRole,
    footprint: &mut Objects,
) -> Option<Pid>
    requires content { IsContent content.now }
    requires running { IsRunning (slot_at content.now.parts.procs pid.0) }
    requires numbers { has_bad_number (length content.now.parts.procs) (Calls pid call.now)
        ≡ false }
    requires role { role_as pid.0 role ≡ role_on (view_of content.now) (Calls pid call.now) }
    requires no_abort { is_abort (role_on (view_of content.now) (Calls pid call.now)) ≡ false }
    requires empty { (o : TheObject) → is_in footprint.old o ≡ false }
    ensures footprint { IsFootprint content.now
        (event_on (view_of content.now) (Calls pid call.now)) footprint.new }
    ensures starter_in_way { option_map number_of result
        ≡ starter_in_way (view_of content.now)
        (event_on (view_of content.now) (Calls pid call.now)) }
{
    way_laws();
    let actor = actor_of(content, pid);
    let last = last_by(content, role);
    footprint_of_call(&actor, &content.marks, last, call, footprint);
    let first = actor.sends_of_call(call);
    find_in_way(content, pid, role, footprint, &first)
}

/// Puts one process into an empty set, and answers who is in the way of a step that names only that
/// and sends nothing: the owner of the process, unless that is its own transaction.
fn way_of_process(
    content: &Content,
    own: Option<Pid>,
    process: Pid,
    footprint: &mut Objects,
) -> Option<Pid>
    requires kept { IsKept (content_of content.now) }
    requires empty { (o : TheObject) → is_in footprint.old o ≡ false }
    ensures set { IsSetOf footprint.new (Proc process.0 ∷ []) }
    ensures starter_in_way { (event : Event) → IsFootprint content.now event footprint.new →
        (effect event (now_of content.now)).sends ≡ [] →
        IsOfMember content.now (option_map number_of own) event →
        option_map number_of result ≡ starter_in_way (view_of content.now) event }
{
    answers_of_faces();
    footprint.insert(Object::Proc(process));
    content.owners.other_owner(Object::Proc(process), own)
}

/// Whether there is a process of that number, and it runs.
pub fn is_running(content: &Content, pid: Pid) -> bool
    ensures told { result ≡ is_running (process_in (slot_at content.now.parts.procs pid.0)) }
    ensures runs { IsTrue result → IsRunning (slot_at content.now.parts.procs pid.0) }
{
    match content.parts.proc(pid) {
        Some(proc) => proc.status.is_none(),
        None => false,
    }
}

/// The process of a number, which runs, with the transaction that it is a member of. It takes no
/// memory.
pub fn actor_of<'a>(content: &'a Content, pid: Pid) -> Actor<'a>
    requires content { IsContent content.now }
    requires running { IsRunning (slot_at content.now.parts.procs pid.0) }
    ensures { IsOwnActor content.now pid result }
{
    contents_are_whole();
    let proc = content.parts.proc(pid).unwrap();
    let inside = inside_of(content, pid);
    Actor {
        parts: &content.parts,
        pid,
        proc,
        inside,
    }
}

/// The transaction that a process is a member of, if it is one.
fn inside_of<'a>(content: &'a Content, pid: Pid) -> Option<Inside<'a>>
    requires shaped { IsShaped content.now }
    requires kept { IsKept (content_of content.now) }
    ensures inside { inside_of result
        ≡ inside_by (table_at content.now.marks) (slot_at content.now.marks pid.0) }
    ensures held { CountsHeld result (held_of content.now) }
{
    let mark = content.marks.get(pid)?;
    let boxed = content.txns.get(mark.starter).unwrap();
    Some(boxed.txn.inside(&content.marks))
}

/// What the transaction holds that a step of this role commits, if it commits one. The role of a
/// step that ends a part says so; nobody looks at the other members again.
fn last_by<'a>(content: &'a Content, role: StepRole) -> Option<&'a [Sending]>
    ensures { option_map (map sending_of) (option_copied result) ≡ held_at_commit content.now role }
{
    match role {
        StepRole::Commits(starter) => Some(held_by(content, starter)),
        _ => None,
    }
}

/// What the transaction of a starter holds; none if none is live.
pub(crate) fn held_by<'a>(content: &'a Content, starter: Pid) -> &'a [Sending]
    ensures { map sending_of result.now ≡ held_of content.now starter.0 }
{
    match content.txns.get(starter) {
        Some(boxed) => boxed.txn.outbox.held(),
        None => &[],
    }
}

/// The starter of the transaction that a process is a member of, if it is one.
fn starter_of(content: &Content, pid: Pid) -> Option<Pid>
    ensures { option_map number_of result ≡ starter_in (slot_at content.now.marks pid.0) }
{
    let mark = content.marks.get(pid)?;
    Some(mark.starter)
}

/// Who is in the way of a step of a process that sends this first.
fn find_in_way(
    content: &Content,
    pid: Pid,
    role: StepRole,
    footprint: &Objects,
    first: &Sends,
) -> Option<Pid>
    requires { IsKept (content_of content.now) }
    ensures { (event : Event) → IsFootprint content.now event footprint.now →
        (effect event (now_of content.now)).sends ≡ posted_with content.now role first.now →
        IsOfMember content.now (starter_in (slot_at content.now.marks pid.0)) event →
        option_map number_of result ≡ starter_in_way (view_of content.now) event }
{
    let own = starter_of(content, pid);
    match role {
        StepRole::Commits(starter) => {
            find_starter(content, own, footprint, first, held_by(content, starter))
        }
        _ => find_starter(content, own, footprint, &at_once(first), &[]),
    }
}

/// What is sent at once of this.
pub(crate) fn at_once(first: &Sends) -> Sends
    ensures { sent result [] ≡ sent_at_once first.now }
{
    match first {
        Sends::AtOnce(sending) => Sends::AtOnce(*sending),
        _ => Sends::Nothing,
    }
}
