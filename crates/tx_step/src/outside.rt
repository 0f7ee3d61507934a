//! Steps of processes that are in no transaction.
ghost use Rattle.tx_step.specs.Contents.{IsContent};
ghost use Rattle.tx_step.specs.declared.roles.StepRole.TheVariants as role;
ghost use Rattle.tx_step.specs.Requests.{step_of};
ghost use Rattle.tx_step.specs.Steps.{Takes};
ghost use Rattle.tx_step.specs.Through.{IsLetThrough};

use crate::answered::Answered;
use crate::late::late_refusal;
use crate::laws::laws;
use crate::request::Request;
use std::alloc::Global;
use tx_base::{Pid, Refusal};
use tx_content::{Content, Inverse};

/// Does what a step requests of a process that is in no transaction.
///
/// Refused for its rule's reason, or NoMemory where a growth is refused; the content is then as it
/// was.
pub(crate) fn take_outside(
    content: &mut Content,
    alloc: Global,
    pid: Pid,
    request: Request,
    inverse: &mut Inverse,
) -> Result<Answered, Refusal>
    requires content { IsContent content.old }
    requires through { IsLetThrough content.old pid request role.Outside }
    ensures { Takes content.old (step_of pid request.entry) result inverse.new content.new }
{
    laws();
    let act = request.act(false);
    match content.make_outside(alloc, pid, &act, inverse) {
        Ok(outcome) => Ok(Answered::Acted(outcome)),
        Err(why) => Err(late_refusal(content, pid, &act, why)),
    }
}
