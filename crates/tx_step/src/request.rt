//! What a step requests of its process.
ghost use Rattle.std.specs.Prelude.{◌≡◌, Option, true, false, is_some, length, option_map};
ghost use Rattle.tx_base.specs.Slots.{slot_at};
ghost use Rattle.tx_base.specs.declared.marks.Mark.{Mark as TheMark};
ghost use Rattle.tx_base.specs.declared.names.Pid.{Pid as ThePid};
ghost use Rattle.tx_base.specs.declared.steps.Step.TheVariants.{Call as Calls};
ghost use Rattle.tx_step.specs.Contents.{IsContent, IsIdle};
ghost use Rattle.tx_step.specs.Early.{early_refusal};
ghost use Rattle.tx_step.specs.Roles.{role_alone, role_as};
ghost use Rattle.tx_kernel.specs.Acts.{event_of};
ghost use Rattle.tx_content.specs.Content.{now_of, view_of};
ghost use Rattle.tx_content.specs.Insides.{IsFootprint};
ghost use Rattle.tx_content.specs.Made.{IsRunning};
ghost use Rattle.tx_model.specs.Events.{effect};
ghost use Rattle.tx_model.specs.Words.{has_bad_number, kind_of};
ghost use Rattle.tx_model.specs.Membership.{Table, inside_by, kind_event};
ghost use Rattle.tx_model.specs.State.{Object as TheObject};
ghost use Rattle.tx_model.specs.View.{event_on, starter_in_way, role_on};
ghost use Rattle.tx_reserve.specs.Objects.{is_in};
ghost use Rattle.tx_reserve.specs.Reservations.{number_of};
ghost use Rattle.tx_step.specs.Requests.{IsActOf, is_own, step_of};
ghost use Rattle.tx_step.specs.Ways.{posted_with};

use crate::early::{early_refusal_of_call, early_refusal_of_delivery};
use crate::refusal_laws::{contents_are_whole, laws, posts_are_sends};
use crate::roles::{Start, StepRole, beginning, role_of_call, role_of_delivery};
use crate::ways::{actor_of, way_of_call, way_of_delivery};
use tx_base::{Call, Errno, Pid, Refusal, Signo};
use tx_content::Content;
use tx_kernel::{Act, Sends};
use tx_laws::endings;
use tx_reserve::Objects;

/// What a step requests of its process: to make a call, or to take a pending signal.
#[derive(Clone, Copy)]
pub(crate) enum Request<'a> {
    Call(&'a Call),
    Delivery(Signo),
}

impl<'a> Request<'a> {
    /// The act that it comes to, of a process that is a member of a live transaction, or is none: a
    /// call of transactions is an answer. Calls that begin or abort one are not made here.
    pub(crate) fn act(self, is_member: bool) -> Act<'a>
        ensures { IsActOf self.entry is_member result }
    {
        match self {
            Request::Call(call) => act_of_call(call, is_member),
            Request::Delivery(signo) => Act::Delivery(signo),
        }
    }

    /// Why it is refused before it is asked whether anybody is in its way: the first reason.
    pub(crate) fn early_refusal(self, content: &Content, pid: Pid) -> Option<Refusal>
        requires { IsContent content.now }
        ensures { result ≡ early_refusal (view_of content.now) pid.0 (step_of pid self.entry) }
    {
        contents_are_whole();
        match self {
            Request::Call(call) => early_refusal_of_call(content, pid, call),
            Request::Delivery(signo) => early_refusal_of_delivery(content, pid, signo),
        }
    }

    /// Its role.
    #[inline(always)] // it has few callers, and each step asks it
    pub(crate) fn role(self, content: &Content, pid: Pid) -> StepRole
        requires content { IsContent content.now }
        requires running { IsRunning (slot_at content.now.parts.procs pid.0) }
        ensures { role_as pid.0 result ≡ role_on (view_of content.now) (step_of pid self.entry) }
    {
        match self {
            Request::Call(call) => role_of_call(content, pid, call),
            Request::Delivery(signo) => role_of_delivery(content, pid, signo),
        }
    }

    /// What it begins, if no transaction is live.
    pub(crate) fn beginning(self, content: &Content, pid: Pid) -> Start
        requires content { IsContent content.now }
        requires running { IsRunning (slot_at content.now.parts.procs pid.0) }
        requires idle { IsIdle content.now }
        ensures { role_as pid.0 (role_alone result)
            ≡ role_on (view_of content.now) (step_of pid self.entry) }
    {
        laws();
        endings();
        match self {
            Request::Call(call) => beginning(call),
            Request::Delivery(_) => Start::Nothing,
        }
    }

    /// What it sends first, if this is its role.
    pub(crate) fn sends(self, content: &Content, pid: Pid, role: StepRole) -> Sends
        requires content { IsContent content.now }
        requires running { IsRunning (slot_at content.now.parts.procs pid.0) }
        requires role { role_as pid.0 role ≡ role_on (view_of content.now) (step_of pid self) }
        ensures { (effect (event_on (view_of content.now) (step_of pid self.entry))
            (now_of content.now)).sends ≡ posted_with content.now role result }
    {
        posts_are_sends();
        let actor = actor_of(content, pid);
        match self {
            Request::Call(call) => actor.sends_of_call(call),
            Request::Delivery(signo) => actor.sends_of_delivery(signo),
        }
    }

    /// Puts what it names into an empty set, and answers who is in its way, if this is its role.
    pub(crate) fn way(
        self,
        content: &Content,
        pid: Pid,
        role: StepRole,
        footprint: &mut Objects,
    ) -> Option<Pid>
        requires content { IsContent content.now }
        requires running { IsRunning (slot_at content.now.parts.procs pid.0) }
        requires numbers { has_bad_number (length content.now.parts.procs) (step_of pid self)
            ≡ false }
        requires role { role_as pid.0 role ≡ role_on (view_of content.now) (step_of pid self) }
        requires empty { (o : TheObject) → is_in footprint.old o ≡ false }
        ensures footprint { IsFootprint content.now
            (event_on (view_of content.now) (step_of pid self.entry)) footprint.new }
        ensures starter_in_way { option_map number_of result
            ≡ starter_in_way (view_of content.now)
            (event_on (view_of content.now) (step_of pid self.entry)) }
    {
        match self {
            Request::Call(call) => way_of_call(content, pid, call, role, footprint),
            Request::Delivery(signo) => way_of_delivery(content, pid, signo, role, footprint),
        }
    }
}

/// What a process does in a call.
fn act_of_call(call: &Call, is_member: bool) -> Act<'_>
    ensures { (t : Table) (pid : ThePid) (mark : Option TheMark) → is_some mark ≡ is_member →
        is_own (kind_of call.now) is_member ≡ true →
        event_of (inside_by t mark) pid result
        ≡ kind_event t pid.0 (Calls pid call.now) (kind_of call.now) mark }
{
    match call {
        Call::SysXend if is_member => Act::Answer(0),
        Call::SysXend => Act::Answer(Errno::InvalidArgument.answer()),
        Call::SysXbegin => Act::Answer(Errno::InvalidArgument.answer()),
        Call::SysXbeginDefer => Act::Answer(Errno::InvalidArgument.answer()),
        Call::SysXabort => Act::Answer(Errno::InvalidArgument.answer()),
        call => Act::Call(call),
    }
}
