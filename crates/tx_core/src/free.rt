//! The least numbers that a process may choose.
ghost use Rattle.std.specs.Prelude.{◌≡◌, ◌-◌, ◌≤◌, ◌&&◌, length, option_map};
ghost use Rattle.tx_base.specs.declared.limits.TheConstants.{DESCRIPTIONS, PIPES};
ghost use Rattle.tx_core.specs.Free.{desc_number, desc_numbers, free_as, pipe_number};
ghost use Rattle.tx_core.specs.Owners.{other_owner};
ghost use Rattle.tx_step.specs.Contents.{IsContent};
ghost use Rattle.tx_content.specs.Content.{view_of};
ghost use Rattle.tx_model.specs.FreeNumbers.{free_numbers, is_free_description, is_free_pipe, is_free_process, is_other_than, is_reserved_from, least_two};
ghost use Rattle.tx_model.specs.Membership.{is_member_of};
ghost use Rattle.tx_model.specs.View.{least};
ghost use Rattle.tx_reserve.specs.Objects.{object_of};
ghost use Rattle.tx_reserve.specs.Reservations.{number_of};

use crate::laws::laws;
use crate::machine::Machine;
use tx_base::{DESCRIPTIONS, DescNo, PIPES, Pid, PipeNo};
use tx_content::Content;
use tx_reserve::Object;

/// The least numbers that a process may choose for what it makes: each is unused, and no
/// transaction of others has reserved it.
#[derive(Clone, Copy)]
pub struct Free {
    /// For the child of a fork: 1 to 64, on a wide machine 1 to 256. None if none is free.
    pub proc: Option<Pid>,
    /// For a pipe: 0 to 31. None if none is free.
    pub pipe: Option<PipeNo>,
    /// For the two descriptions of a pipe: 0 to 63, the lower one first. None if fewer than two are
    /// free.
    pub descs: Option<(DescNo, DescNo)>,
}

impl Machine {
    /// The least numbers that are unused and that no transaction but the process's own has
    /// reserved. Own rule.
    ///
    /// A call chooses the numbers of what it makes, so a program picks them here. What the
    /// process's own transaction reserved and gave up is free for the process, but reserved from
    /// others until that transaction ends. A number that no process has may ask too. It takes no
    /// memory.
    pub fn free_numbers(&self, pid: Pid) -> Free
        ensures { free_as result ≡ free_numbers (view_of self.now) pid.0 }
    {
        Free {
            proc: least_process(&self.content, pid),
            pipe: least_pipe(&self.content, pid),
            descs: least_descriptions(&self.content, pid),
        }
    }
}

/// The least process number that is free for the process.
fn least_process(content: &Content, pid: Pid) -> Option<Pid>
    requires { IsContent content.now }
    ensures { option_map number_of result
        ≡ least (is_free_process (view_of content.now) pid.0) (view_of content.now).table.width }
{
    for number in 1..content.parts.procs.width() + 1 {
        let number = Pid(number as u16);
        if is_free_process(content, pid, number) {
            return Some(number);
        }
    }
    None
}

/// The least pipe that is free for the process.
fn least_pipe(content: &Content, pid: Pid) -> Option<PipeNo>
    requires { IsContent content.now }
    ensures { option_map pipe_number result
        ≡ least (is_free_pipe (view_of content.now) pid.0) (PIPES - 1) }
{
    for number in 0..PIPES {
        let number = PipeNo(number as u8);
        if is_free_pipe(content, pid, number) {
            return Some(number);
        }
    }
    None
}

/// The two least descriptions that are free for the process.
fn least_descriptions(content: &Content, pid: Pid) -> Option<(DescNo, DescNo)>
    requires { IsContent content.now }
    ensures { option_map desc_numbers result
        ≡ least_two (is_free_description (view_of content.now) pid.0) (DESCRIPTIONS - 1) }
{
    let first = least_description(content, pid, None)?;
    let second = least_description(content, pid, Some(first))?;
    Some((first, second))
}

/// The least description that is free for the process and is not this other one.
fn least_description(content: &Content, pid: Pid, other: Option<DescNo>) -> Option<DescNo>
    requires { IsContent content.now }
    ensures { option_map desc_number result
        ≡ least (λ n. is_free_description (view_of content.now) pid.0 n
        && is_other_than (option_map desc_number other) n) (DESCRIPTIONS - 1) }
{
    for number in 0..DESCRIPTIONS {
        let number = DescNo(number as u8);
        if other != Some(number) && is_free_description(content, pid, number) {
            return Some(number);
        }
    }
    None
}

/// Whether the number has no process, and is reserved by no transaction of others. It must be in
/// range.
fn is_free_process(content: &Content, pid: Pid, number: Pid) -> bool
    requires content { IsContent content.now }
    requires low { 1 ≤ number.0 }
    requires high { number.0 ≤ length content.now.parts.procs }
    ensures { result ≡ is_free_process (view_of content.now) pid.0 number.0 }
{
    laws();
    content.parts.proc(number).is_none() && !is_reserved_from(content, pid, Object::Proc(number))
}

/// Whether the number has no pipe, and is reserved by no transaction of others.
fn is_free_pipe(content: &Content, pid: Pid, number: PipeNo) -> bool
    requires { IsContent content.now }
    ensures { result ≡ is_free_pipe (view_of content.now) pid.0 number.0 }
{
    laws();
    content.parts.pipes.get(number).is_none()
        && !is_reserved_from(content, pid, Object::Pipe(number))
}

/// Whether the number has no description, and is reserved by no transaction of others.
fn is_free_description(content: &Content, pid: Pid, number: DescNo) -> bool
    requires { IsContent content.now }
    ensures { result ≡ is_free_description (view_of content.now) pid.0 number.0 }
{
    laws();
    content.parts.descs.get(number).is_none()
        && !is_reserved_from(content, pid, Object::Desc(number))
}

/// Whether a live transaction that the process is not in has reserved the object.
fn is_reserved_from(content: &Content, pid: Pid, object: Object) -> bool
    requires { IsContent content.now }
    ensures { result ≡ is_reserved_from (view_of content.now) pid.0 (object_of object) }
{
    other_owner(content, pid, object).is_some()
}

/// The starter of the live transaction that has reserved the object and that the process is not in;
/// none if there is none.
pub(crate) fn other_owner(content: &Content, pid: Pid, object: Object) -> Option<Pid>
    requires { IsContent content.now }
    ensures { option_map number_of result
        ≡ other_owner (view_of content.now) pid.0 (object_of object) }
{
    let Some(owner) = content.owners.owner(object) else {
        return None;
    };
    if is_member_of(content, owner, pid) {
        return None;
    }
    Some(owner)
}

/// Whether the process is a member of the live transaction of the starter.
fn is_member_of(content: &Content, starter: Pid, pid: Pid) -> bool
    ensures { result ≡ is_member_of (view_of content.now).table starter.0 pid.0 }
{
    match content.marks.get(pid) {
        Some(mark) => mark.starter == starter,
        None => false,
    }
}
