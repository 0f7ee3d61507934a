//! The footprint of a step: the objects that a member's step reserves, a row for each call.
ghost use Rattle.std.specs.Option.{option_copied};
ghost use Rattle.std.specs.Prelude.{◌≡◌, ◌≤◌, false, not, ◌∷◌, [], ℕ, List, if◌then◌else◌, ◌==◌, map, length};
ghost use Rattle.tx_base.specs.declared.steps.Step.TheVariants.{Call as Calls, Deliver};
ghost use Rattle.tx_change.specs.States.{state_of};
ghost use Rattle.tx_desc.specs.Places.{number_in};
ghost use Rattle.tx_kernel.specs.Actors.{inside_of, me_of};
ghost use Rattle.tx_kernel.specs.Plans.{sending_of};
ghost use Rattle.tx_model.specs.Descriptors.{desc_objects, desc_pipe_objects, descriptor, option_list, description_named, open_in};
ghost use Rattle.tx_model.specs.Words.{dup2_objects, pipe_objects, fork_objects, waitpid_objects};
ghost use Rattle.tx_model.specs.Footprints.{call_row, commit_row, delivery_row, ending_row, footprint, is_for_later, send_row, target_row, told_for_later};
ghost use Rattle.tx_model.specs.History.{is_other_starter, targets};
ghost use Rattle.tx_model.specs.Membership.{is_of};
ghost use Rattle.tx_model.specs.Processes.{children_of, pid_of, procs_of};
ghost use Rattle.tx_model.specs.Book.{sendable};
ghost use Rattle.tx_model.specs.State.{Object as TheObject, Proc, Sending as TheSending, has_parent};
ghost use Rattle.tx_reserve.specs.Footprints.{Adds, GoesIf, GoesWith, GoesWithCall, GoesWithDelivery, IsInside, IsPlaced, IsSetOf, table_at};
ghost use Rattle.tx_reserve.specs.Objects.{is_in};

use crate::objects::{Object, Objects};
use tx_base::{Call, DESCRIPTORS, DescNo, Mark, Pid, PipeNo, Sending, Signo, Slots};
use tx_desc::FdTable;
use tx_kernel::{Actor, sendable};

/// Puts the footprint of a call into an empty set: the objects that it reserves, if its process is a
/// member.
///
/// `last` is what its transaction holds. It matters only if the call ends the part of its process,
/// and must then be given exactly if that is a member and no other member's part is open, so that
/// the call commits. For any other call it may be anything. It takes no memory.
pub fn footprint_of_call(
    actor: &Actor,
    marks: &Slots<Mark>,
    last: Option<&[Sending]>,
    call: &Call,
    set: &mut Objects,
)
    requires actor { IsPlaced actor.now }
    requires inside { IsInside actor.now marks.now }
    requires empty { (o : TheObject) → is_in set.old o ≡ false }
    ensures { (held : ℕ → List TheSending) →
        GoesWithCall actor.now marks.now call.now (option_copied last.entry) held →
        IsSetOf set.new (footprint (table_at actor.now marks.now) (Calls actor.now.pid call.now)
        (state_of held actor.now.parts.now)) }
{
    set.insert(Object::Proc(actor.pid));
    add_call(actor, marks, last, call, set);
}

/// Puts the footprint of a delivery of the signal into an empty set; `last` is as for a call, if
/// the delivery now ends its process. It takes no memory.
pub fn footprint_of_delivery(
    actor: &Actor,
    marks: &Slots<Mark>,
    last: Option<&[Sending]>,
    signo: Signo,
    set: &mut Objects,
)
    requires actor { IsPlaced actor.now }
    requires inside { IsInside actor.now marks.now }
    requires empty { (o : TheObject) → is_in set.old o ≡ false }
    ensures { (held : ℕ → List TheSending) →
        GoesWithDelivery actor.now marks.now signo (option_copied last.entry) held →
        IsSetOf set.new (footprint (table_at actor.now marks.now) (Deliver actor.now.pid signo)
        (state_of held actor.now.parts.now)) }
{
    set.insert(Object::Proc(actor.pid));
    add_delivery(actor, marks, last, signo, set);
}

/// Puts what a call names besides its process into a set.
fn add_call(
    actor: &Actor,
    marks: &Slots<Mark>,
    last: Option<&[Sending]>,
    call: &Call,
    set: &mut Objects,
)
    requires actor { IsPlaced actor.now }
    requires inside { IsInside actor.now marks.now }
    ensures { (held : ℕ → List TheSending) →
        GoesWithCall actor.now marks.now call.now (option_copied last.entry) held →
        Adds set.old set.new
        (call_row (table_at actor.now marks.now) actor.now.pid.0 call.now (me_of actor.now)
        (state_of held actor.now.parts.now)) }
{
    match call {
        Call::Fork(child) => add_fork(actor, *child, set),
        Call::Exit(_) => add_exit(actor, marks, last, set),
        Call::Waitpid(child, _) => add_waitpid(actor, *child, set),
        Call::Pipe(pipe, read, write) => add_pipe(*pipe, *read, *write, set),
        Call::Dup(fd) => add_desc(description(actor, *fd), set),
        Call::Dup2(fd, other) => add_dup2(actor, *fd, *other, set),
        Call::Close(fd) => add_desc_and_pipe(actor, description(actor, *fd), set),
        Call::SetNonblock(fd, _) => add_desc(description(actor, *fd), set),
        Call::Read(fd, _, _) => add_desc_and_pipe(actor, description(actor, *fd), set),
        Call::Write(fd, _, _) => add_desc_and_pipe(actor, description(actor, *fd), set),
        Call::Kill(target, signo) => add_send(actor, marks, *target, *signo, set),
        Call::Sigqueue(target, signo, _) => add_send(actor, marks, *target, *signo, set),
        Call::SysXend => add_commit(actor, marks, last, set),
        _ => {}
    }
}

/// Puts what a delivery names besides its process into a set: nothing, unless it ends the process.
fn add_delivery(
    actor: &Actor,
    marks: &Slots<Mark>,
    last: Option<&[Sending]>,
    signo: Signo,
    set: &mut Objects,
)
    requires actor { IsPlaced actor.now }
    requires inside { IsInside actor.now marks.now }
    ensures { (held : ℕ → List TheSending) →
        GoesWithDelivery actor.now marks.now signo (option_copied last.entry) held →
        Adds set.old set.new
        (delivery_row (table_at actor.now marks.now) actor.now.pid.0 signo.0 (me_of actor.now)
        (state_of held actor.now.parts.now)) }
{
    if actor.is_ended_by(signo) {
        add_ending(actor, marks, last, set);
    }
}

/// Puts a child and what its descriptors name into a set.
fn add_fork(actor: &Actor, child: Pid, set: &mut Objects)
    ensures { Adds set.old set.new (fork_objects child.0 (me_of actor.now)) }
{
    set.insert(Object::Proc(child));
    add_open(&actor.proc.descriptors, set);
}

/// Puts what an exit names into a set: nothing if process 1 makes it.
fn add_exit(actor: &Actor, marks: &Slots<Mark>, last: Option<&[Sending]>, set: &mut Objects)
    requires actor { IsPlaced actor.now }
    requires inside { IsInside actor.now marks.now }
    ensures { (held : ℕ → List TheSending) →
        GoesIf (not (actor.now.pid.0 == 1)) actor.now marks.now (option_copied last.entry) held →
        Adds set.old set.new
        (if actor.now.pid.0 == 1 then []
        else ending_row (table_at actor.now marks.now) actor.now.pid.0 (me_of actor.now)
        (state_of held actor.now.parts.now)) }
{
    if actor.pid.0 == 1 {
        return;
    }
    add_ending(actor, marks, last, set);
}

/// Puts the process of a number that a program computed into a set.
fn add_waitpid(actor: &Actor, number: i64, set: &mut Objects)
    requires { IsPlaced actor.now }
    ensures { (held : ℕ → List TheSending) →
        Adds set.old set.new (waitpid_objects number (state_of held actor.now.parts.now)) }
{
    if let Some(child) = actor.numbered(number) {
        set.insert(Object::Proc(child));
    }
}

/// Puts a pipe and its two descriptions into a set.
fn add_pipe(pipe: PipeNo, read: DescNo, write: DescNo, set: &mut Objects)
    ensures { Adds set.old set.new (pipe_objects pipe.0 read.0 write.0) }
{
    set.insert(Object::Pipe(pipe));
    set.insert(Object::Desc(read));
    set.insert(Object::Desc(write));
}

/// Puts what a dup2 names into a set: the description of the one descriptor, and what the other
/// gives up.
fn add_dup2(actor: &Actor, fd: i64, other: i64, set: &mut Objects)
    ensures { (held : ℕ → List TheSending) →
        Adds set.old set.new
        (dup2_objects (descriptor fd) (descriptor other) (me_of actor.now)
        (state_of held actor.now.parts.now)) }
{
    add_desc(description(actor, fd), set);
    if fd == other {
        return;
    }
    add_desc_and_pipe(actor, description(actor, other), set);
}

/// Puts the target of a kill or a sigqueue into a set, if its process number is good and the signal
/// may be sent.
fn add_send(actor: &Actor, marks: &Slots<Mark>, target: i64, signo: i64, set: &mut Objects)
    requires actor { IsPlaced actor.now }
    requires inside { IsInside actor.now marks.now }
    ensures { Adds set.old set.new
        (send_row (table_at actor.now marks.now) actor.now.pid.0
        (pid_of (length actor.now.parts.now.procs) target) (sendable signo)) }
{
    let Some(target) = actor.numbered(target) else {
        return;
    };
    let Some(_signo) = sendable(signo) else {
        return;
    };
    add_target(actor, marks, target, set);
}

/// Puts what the end of the process names into a set: what its descriptors name, its children, its
/// parent, and what is posted if it commits.
fn add_ending(actor: &Actor, marks: &Slots<Mark>, last: Option<&[Sending]>, set: &mut Objects)
    requires actor { IsPlaced actor.now }
    requires inside { IsInside actor.now marks.now }
    ensures { (held : ℕ → List TheSending) →
        GoesWith actor.now marks.now (option_copied last.entry) held →
        Adds set.old set.new
        (ending_row (table_at actor.now marks.now) actor.now.pid.0 (me_of actor.now)
        (state_of held actor.now.parts.now)) }
{
    add_open_and_pipes(actor, set);
    add_children(actor, set);
    add_parent(actor, marks, set);
    add_last(actor, marks, last, set);
}

/// Puts the parent into a set if it is notified of the process's end at once.
fn add_parent(actor: &Actor, marks: &Slots<Mark>, set: &mut Objects)
    requires { IsInside actor.now marks.now }
    ensures { Adds set.old set.new
        (if actor.now.proc.now.parent.0 == 1 then []
        else target_row (table_at actor.now marks.now) actor.now.pid.0
        actor.now.proc.now.parent.0) }
{
    let parent = actor.proc.parent;
    if parent.0 == 1 {
        return;
    }
    add_target(actor, marks, parent, set);
}

/// Puts the targets of what is held into a set, if the end of the process commits it, with the
/// parent if it is notified then.
fn add_last(actor: &Actor, marks: &Slots<Mark>, last: Option<&[Sending]>, set: &mut Objects)
    requires { IsInside actor.now marks.now }
    ensures { (held : ℕ → List TheSending) →
        GoesWith actor.now marks.now (option_copied last.entry) held →
        Adds set.old set.new
        (commit_row (table_at actor.now marks.now) actor.now.pid.0
        (told_for_later (table_at actor.now marks.now) actor.now.pid.0
        actor.now.proc.now.parent.0) (state_of held actor.now.parts.now)) }
{
    let Some(sends) = last else {
        return;
    };
    add_sends(actor, marks, sends, set);
    add_notified(actor, marks, set);
}

/// Puts the parent into a set if it is notified of the process's end when that commits.
fn add_notified(actor: &Actor, marks: &Slots<Mark>, set: &mut Objects)
    requires { IsInside actor.now marks.now }
    ensures { Adds set.old set.new
        (targets (table_at actor.now marks.now) actor.now.pid.0
        (told_for_later (table_at actor.now marks.now) actor.now.pid.0
        actor.now.proc.now.parent.0)) }
{
    let parent = actor.proc.parent;
    if parent.0 == 1 {
        return;
    }
    if is_for_later(actor, parent) {
        add_posted(actor, marks, parent, set);
    }
}

/// Puts the targets of what is held into a set, if a sys_xend commits it.
fn add_commit(actor: &Actor, marks: &Slots<Mark>, last: Option<&[Sending]>, set: &mut Objects)
    ensures { (held : ℕ → List TheSending) →
        GoesWith actor.now marks.now (option_copied last.entry) held →
        Adds set.old set.new
        (commit_row (table_at actor.now marks.now) actor.now.pid.0 []
        (state_of held actor.now.parts.now)) }
{
    if let Some(sends) = last {
        add_sends(actor, marks, sends, set);
    }
}

/// Puts the targets of sends into a set, but for the live starters of other transactions.
fn add_sends(actor: &Actor, marks: &Slots<Mark>, sends: &[Sending], set: &mut Objects)
    ensures { Adds set.old set.new
        (targets (table_at actor.now marks.now) actor.now.pid.0 (map sending_of sends.now)) }
{
    for sending in sends {
        add_posted(actor, marks, sending.target, set);
    }
}

/// The description that a descriptor of the process names, of a number that a program computed.
fn description(actor: &Actor, fd: i64) -> Option<DescNo>
    ensures { number_in result ≡ description_named (me_of actor.now) (descriptor fd) }
{
    actor.proc.descriptors.look(fd).ok()
}

/// Puts a description, if there is one, into a set.
fn add_desc(number: Option<DescNo>, set: &mut Objects)
    ensures { Adds set.old set.new (desc_objects (option_list (number_in number))) }
{
    if let Some(number) = number {
        set.insert(Object::Desc(number));
    }
}

/// Puts a description, if there is one, and its pipe into a set.
fn add_desc_and_pipe(actor: &Actor, number: Option<DescNo>, set: &mut Objects)
    ensures { (held : ℕ → List TheSending) →
        Adds set.old set.new
        (desc_pipe_objects (option_list (number_in number)) (state_of held actor.now.parts.now)) }
{
    let Some(number) = number else {
        return;
    };
    set.insert(Object::Desc(number));
    if let Some(opened) = actor.parts.descs.get(number) {
        set.insert(Object::Pipe(opened.desc.pipe));
    }
}

/// Puts the descriptions that the descriptors name into a set.
fn add_open(descriptors: &FdTable, set: &mut Objects)
    ensures { Adds set.old set.new (desc_objects (open_in descriptors.now)) }
{
    descriptors.sized();
    for fd in 0..DESCRIPTORS {
        add_desc(descriptors.get(fd), set);
    }
}

/// Puts what the descriptors name into a set, with the pipes.
fn add_open_and_pipes(actor: &Actor, set: &mut Objects)
    ensures { (held : ℕ → List TheSending) →
        Adds set.old set.new
        (desc_pipe_objects (open_in actor.now.proc.now.descriptors)
        (state_of held actor.now.parts.now)) }
{
    actor.proc.descriptors.sized();
    for fd in 0..DESCRIPTORS {
        add_desc_and_pipe(actor, actor.proc.descriptors.get(fd), set);
    }
}

/// Puts the children of the process into a set; those of process 1 do not matter.
fn add_children(actor: &Actor, set: &mut Objects)
    requires few { length actor.now.parts.now.procs ≤ 256 }
    requires number { actor.now.pid.0 ≤ length actor.now.parts.now.procs }
    ensures { (held : ℕ → List TheSending) →
        Adds set.old set.new
        (procs_of (children_of actor.now.pid.0 (state_of held actor.now.parts.now))) }
{
    if actor.pid.0 == 1 {
        return;
    }
    if actor.parts.procs.child_count(actor.pid) == 0 {
        return;
    }
    for number in 0..actor.parts.procs.width() + 1 {
        add_child(actor, Pid(number as u16), set);
    }
}

/// Puts a process into a set, if it is a child of the process.
fn add_child(actor: &Actor, child: Pid, set: &mut Objects)
    ensures { (held : ℕ → List TheSending) →
        Adds set.old set.new
        (if has_parent actor.now.pid.0 ((state_of held actor.now.parts.now).procs child.0)
        then Proc child.0 ∷ [] else []) }
{
    if is_child(actor, child) {
        set.insert(Object::Proc(child));
    }
}

/// Whether it is a child of the process.
fn is_child(actor: &Actor, child: Pid) -> bool
    ensures { (held : ℕ → List TheSending) →
        result ≡ has_parent actor.now.pid.0 ((state_of held actor.now.parts.now).procs child.0) }
{
    match actor.parts.procs.parent_of(child) {
        Some(parent) => parent == actor.pid,
        None => false,
    }
}

/// Puts the target of a send into a set, unless the send is held, or its target is the live starter
/// of another transaction.
fn add_target(actor: &Actor, marks: &Slots<Mark>, target: Pid, set: &mut Objects)
    requires { IsInside actor.now marks.now }
    ensures { Adds set.old set.new
        (target_row (table_at actor.now marks.now) actor.now.pid.0 target.0) }
{
    if is_for_later(actor, target) {
        return;
    }
    add_posted(actor, marks, target, set);
}

/// Puts the target of a post into a set, unless it is the live starter of another transaction.
fn add_posted(actor: &Actor, marks: &Slots<Mark>, target: Pid, set: &mut Objects)
    ensures { Adds set.old set.new
        (if is_other_starter (table_at actor.now marks.now) actor.now.pid.0 target.0 then []
        else Proc target.0 ∷ []) }
{
    if is_other_starter(actor, marks, target) {
        return;
    }
    set.insert(Object::Proc(target));
}

/// Whether a send to the process is held until the transaction commits.
fn is_for_later(actor: &Actor, target: Pid) -> bool
    ensures { result ≡ is_for_later (inside_of actor.now.inside) target.0 }
{
    match actor.inside {
        Some(inside) => !inside.has_member(target),
        None => false,
    }
}

/// Whether the target is the live starter of a transaction that the process is not in.
fn is_other_starter(actor: &Actor, marks: &Slots<Mark>, target: Pid) -> bool
    ensures { result ≡ is_other_starter (table_at actor.now marks.now) actor.now.pid.0 target.0 }
{
    is_of(marks.get(target), target) && !is_of(marks.get(actor.pid), target)
}

/// Whether this is a mark of the starter's transaction.
fn is_of(mark: Option<&Mark>, starter: Pid) -> bool
    ensures { result ≡ is_of starter.0 (option_copied mark.entry) }
{
    match mark {
        Some(mark) => mark.starter == starter,
        None => false,
    }
}
