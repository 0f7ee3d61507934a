//! Why the act of a process was refused when planned.
ghost use Rattle.tx_base.specs.Slots.{slot_at};
ghost use Rattle.tx_step.specs.Contents.{IsContent};
ghost use Rattle.tx_step.specs.Late.{IsWhyNot, TellsRule, WasRefused};
ghost use Rattle.tx_kernel.specs.Acts.{event_of};
ghost use Rattle.tx_content.specs.Content.{now_of};
ghost use Rattle.tx_content.specs.Made.{IsRunning};
ghost use Rattle.tx_model.specs.Membership.{inside_by};
ghost use Rattle.tx_txn.specs.Marks.{table_at};

use crate::ways::actor_of;
use tx_base::{Pid, Refusal};
use tx_content::Content;
use tx_kernel::Act;

/// Why the act of a process that runs was refused, given why its plan was: for the same reason, but
/// if that was want of memory and the rule has a reason, for the rule's. It takes no memory.
#[inline(never)] // few steps are refused, and inlined, each would make room for an actor
pub(crate) fn late_refusal(content: &Content, pid: Pid, act: &Act, why: Refusal) -> Refusal
    requires content { IsContent content.now }
    requires running { IsRunning (slot_at content.now.parts.procs pid.0) }
    requires refused { WasRefused content.now
        (event_of (inside_by (table_at content.now.marks) (slot_at content.now.marks pid.0)) pid
        act.now) why }
    ensures { IsWhyNot (event_of
        (inside_by (table_at content.now.marks) (slot_at content.now.marks pid.0)) pid act.now)
        (now_of content.now) result }
{
    match why {
        Refusal::NoMemory => refusal_of_rule(content, pid, act).unwrap_or(Refusal::NoMemory),
        why => why,
    }
}

/// Why the rule of an act of a process that runs refuses it, if it does.
fn refusal_of_rule(content: &Content, pid: Pid, act: &Act) -> Option<Refusal>
    requires content { IsContent content.now }
    requires running { IsRunning (slot_at content.now.parts.procs pid.0) }
    ensures { TellsRule (event_of
        (inside_by (table_at content.now.marks) (slot_at content.now.marks pid.0)) pid act.now)
        (now_of content.now) result }
{
    let actor = actor_of(content, pid);
    match act {
        Act::Call(call) => actor.refusal_of_call(call),
        Act::Delivery(signo) => actor.refusal_of_delivery(*signo),
        Act::Answer(_) => None,
    }
}
