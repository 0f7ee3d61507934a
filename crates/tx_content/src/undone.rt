//! What makes a step again that was taken back.
ghost use Rattle.std.specs.Prelude.{◌≡◌};
ghost use Rattle.tx_content.specs.Redone.{moved_by, moved_of};

use crate::content::BoxedTxn;
use crate::inverse::Inverse;
use crate::kept_posts::TakenPost;
use crate::member_step::MemberStep;
use tx_base::{Mark, Pid, Sending};
use tx_change::Log;
use tx_proc::Answer;
use tx_txn::Members;

/// What makes a step again that was taken back, on the content before the step. The changes of a
/// step inside are on a stack beside it.
#[derive(Drop)]
pub enum Undone {
    /// Of a step outside transactions: the new parts, and its post to what is kept of a starter.
    Outside {
        log: Log,
        post: Option<TakenPost>,
    },
    /// Of a step inside: the step, and the signal that it handed out.
    Inside {
        step: MemberStep,
        held: Option<Sending>,
    },
    /// Of a transaction's first step: the transaction, whose log has the new parts, and its mark.
    Begun {
        boxed: BoxedTxn,
        mark: Option<Mark>,
    },
    /// Of a commit: how many changes of the stack are the last step's own, and the signal that it
    /// handed out.
    Committed {
        starter: Pid,
        count: usize,
        held: Option<Sending>,
    },
    /// Of an abort: the point and the answer of the starter after it, and who the members were.
    Aborted {
        starter: Pid,
        stands: Answer,
        members: Option<Members>,
    },
}

impl Inverse {
    /// How many changes go onto the stack when the step is taken back and kept.
    pub fn moved(&self) -> usize
        ensures { result ≡ moved_of self.now }
    {
        match self {
            Inverse::Inside { step, .. } => step.count,
            Inverse::Committed { count, .. } => *count,
            _ => 0,
        }
    }
}

impl Undone {
    /// How many changes come off the stack when the step is made again.
    pub fn moved(&self) -> usize
        ensures { result ≡ moved_by self.now }
    {
        match self {
            Undone::Inside { step, .. } => step.count,
            Undone::Committed { count, .. } => *count,
            _ => 0,
        }
    }
}
