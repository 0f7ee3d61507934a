//! Steps that abort a transaction.
ghost use Rattle.std.specs.Prelude.{◌≡◌, ◌↔◌, true, Ok, IfSome, IsSome, IfNone};
ghost use Rattle.tx_base.specs.declared.steps.Reply.TheVariants as reply;
ghost use Rattle.tx_base.specs.declared.steps.Step.TheVariants.{KernelAbort};
ghost use Rattle.tx_step.specs.Contents.{IsContent};
ghost use Rattle.tx_step.specs.declared.roles.StepRole.TheVariants as role;
ghost use Rattle.tx_content.specs.Content.{view_of};
ghost use Rattle.tx_model.specs.Membership.{is_live};
ghost use Rattle.tx_model.specs.View.{kernel_status};
ghost use Rattle.tx_step.specs.Requests.{step_of};
ghost use Rattle.tx_step.specs.declared.request.Request.{Request as TheRequest};
ghost use Rattle.tx_step.specs.Steps.{IsStep, Takes};
ghost use Rattle.tx_step.specs.Through.{IsLetThrough};

use crate::answered::Answered;
use crate::laws::laws;
use tx_base::{ABORTED_BY_CALL, ABORTED_BY_KERNEL, ABORTED_DOOMED, Pid};
use tx_content::{Content, Inverse};

/// Aborts the transaction of a starter, at a member's request. It takes no memory.
pub(crate) fn take_abort(
    content: &mut Content,
    pid: Pid,
    starter: Pid,
    inverse: &mut Inverse,
) -> Answered
    requires content { IsContent content.old }
    requires through { (request : TheRequest) ×
        IsLetThrough content.old pid request (role.Aborts starter) }
    ensures { (request : TheRequest) →
        IsLetThrough content.old pid request (role.Aborts starter) →
        Takes content.old (step_of pid request) (Ok result) inverse.new content.new }
{
    laws();
    content.abort(starter, -i64::from(ABORTED_BY_CALL), inverse);
    Answered::Aborted(ABORTED_BY_CALL)
}

/// Aborts the live transaction of a starter: all that its members' steps changed is as it was, and
/// the starter is at the point after its sys_xbegin with the negative status: 203 if the
/// transaction is doomed, else 202. It takes no memory. Own rule.
///
/// Answers the status, and puts the inverse into its place. None if the starter has no live
/// transaction; the content is then as it was.
pub fn take_kernel_abort(content: &mut Content, starter: Pid, inverse: &mut Inverse) -> Option<u16>
    requires { IsContent content.old }
    ensures made { IfSome result (λ status.
        IsStep content.old (KernelAbort starter) (reply.Aborted status) inverse.new content.new) }
    ensures live { IsSome result ↔ (is_live (view_of content.old).table starter.0 ≡ true) }
    ensures none { IfNone result (content.new ≡ content.old) }
{
    laws();
    let status = kernel_status(content, starter)?;
    content.abort(starter, -i64::from(status), inverse);
    Some(status)
}

/// The status that the kernel's abort of a starter's live transaction gives: 203 if it is doomed,
/// else 202. None if the starter has no live transaction. It takes no memory. Own rule.
pub fn kernel_status(content: &Content, starter: Pid) -> Option<u16>
    requires { IsContent content.now }
    ensures status { IfSome result (λ status.
        status ≡ kernel_status (view_of content.now) starter.0) }
    ensures live { IsSome result ↔ (is_live (view_of content.now).table starter.0 ≡ true) }
{
    laws();
    let boxed = content.txns.get(starter)?;
    Some(if boxed.txn.kept.is_doomed() {
        ABORTED_DOOMED
    } else {
        ABORTED_BY_KERNEL
    })
}
