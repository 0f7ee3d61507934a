//! Steps of members, after which their transaction is live.
ghost use Rattle.tx_step.specs.Contents.{IsContent};
ghost use Rattle.tx_step.specs.declared.roles.StepRole.TheVariants as role;
ghost use Rattle.tx_content.specs.Content.{view_of};
ghost use Rattle.tx_content.specs.Insides.{IsFootprint};
ghost use Rattle.tx_model.specs.View.{event_on};
ghost use Rattle.tx_step.specs.Requests.{step_of};
ghost use Rattle.tx_step.specs.Steps.{Takes};
ghost use Rattle.tx_step.specs.Through.{IsLetThrough};

use crate::answered::Answered;
use crate::late::late_refusal;
use crate::laws::laws;
use crate::request::Request;
use std::alloc::Global;
use tx_base::Refusal;
use tx_content::{Content, Inverse, Member};
use tx_reserve::Objects;

/// Does what a step requests of a member, and reserves its footprint.
///
/// Refused for its rule's reason, or NoMemory where a growth is refused; the content is then as it
/// was.
pub(crate) fn take_inside(
    content: &mut Content,
    alloc: Global,
    member: Member,
    request: Request,
    footprint: &Objects,
    inverse: &mut Inverse,
) -> Result<Answered, Refusal>
    requires content { IsContent content.old }
    requires through { IsLetThrough content.old member.pid request
        (role.Inside member.starter member.progress) }
    requires footprint { IsFootprint content.old
        (event_on (view_of content.old) (step_of member.pid request)) footprint.now }
    ensures { Takes content.old (step_of member.pid request.entry) result inverse.new content.new }
{
    laws();
    let act = request.act(true);
    match content.make_inside(alloc, member, &act, footprint, inverse) {
        Ok(outcome) => Ok(Answered::Acted(outcome)),
        Err(why) => Err(late_refusal(content, member.pid, &act, why)),
    }
}
