//! Steps that begin a transaction.
ghost use Rattle.tx_step.specs.Contents.{IsContent};
ghost use Rattle.tx_step.specs.declared.roles.StepRole.TheVariants as role;
ghost use Rattle.tx_step.specs.Requests.{step_of};
ghost use Rattle.tx_step.specs.declared.request.Request.{Request as TheRequest};
ghost use Rattle.tx_step.specs.Steps.{Takes};
ghost use Rattle.tx_step.specs.Through.{IsLetThrough};

use crate::answered::Answered;
use crate::laws::laws;
use std::alloc::Global;
use tx_base::{NoMemory, Pid, Refusal};
use tx_content::{Content, Inverse};
use tx_kernel::Outcome;

/// Begins a transaction, at the process's request.
///
/// NoMemory where a growth is refused; the content is then as it was.
pub(crate) fn take_begin(
    content: &mut Content,
    alloc: Global,
    pid: Pid,
    defers: bool,
    inverse: &mut Inverse,
) -> Result<Answered, Refusal>
    requires content { IsContent content.old }
    requires through { (request : TheRequest) ×
        IsLetThrough content.old pid request (role.Begins defers) }
    ensures { (request : TheRequest) →
        IsLetThrough content.old pid request (role.Begins defers) →
        Takes content.old (step_of pid request) result inverse.new content.new }
{
    laws();
    match content.begin(alloc, pid, defers, inverse) {
        Ok(()) => Ok(Answered::Acted(Outcome::Done(0))),
        Err(NoMemory) => Err(Refusal::NoMemory),
    }
}
