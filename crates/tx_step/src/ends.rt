//! Steps that commit a transaction.
ghost use Rattle.tx_step.specs.Contents.{IsContent};
ghost use Rattle.tx_step.specs.declared.roles.StepRole.TheVariants as role;
ghost use Rattle.tx_step.specs.Requests.{step_of};
ghost use Rattle.tx_step.specs.Steps.{Takes};
ghost use Rattle.tx_step.specs.Through.{IsLetThrough};

use crate::answered::Answered;
use crate::laws::laws;
use crate::request::Request;
use std::alloc::Global;
use tx_base::{NoMemory, Pid, Refusal};
use tx_content::{Content, Inverse};

/// Does what a step requests of the last member whose part is open, which ends that part and
/// commits.
///
/// NoMemory where a growth is refused; the content is then as it was.
pub(crate) fn take_end(
    content: &mut Content,
    alloc: Global,
    pid: Pid,
    starter: Pid,
    request: Request,
    inverse: &mut Inverse,
) -> Result<Answered, Refusal>
    requires content { IsContent content.old }
    requires through { IsLetThrough content.old pid request (role.Commits starter) }
    ensures { Takes content.old (step_of pid request.entry) result inverse.new content.new }
{
    laws();
    let act = request.act(true);
    match content.commit(alloc, pid, starter, &act, inverse) {
        Ok(()) => Ok(Answered::Committed),
        Err(NoMemory) => Err(Refusal::NoMemory),
    }
}
