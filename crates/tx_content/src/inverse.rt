//! The inverse of an accepted step.
ghost use Rattle.std.specs.Prelude.{◌≡◌};

use crate::content::{BoxedTxn, Content};
use crate::kept_posts::KeptPost;
use crate::member_step::MemberStep;
use std::mem;
use tx_base::Pid;
use tx_change::Log;
use tx_proc::Answer;

/// The inverse of an accepted step, on the content as the step left it.
#[derive(Drop)]
pub enum Inverse {
    /// Of a step outside transactions: the old parts, and its post to what is kept of a starter.
    Outside {
        log: Log,
        post: Option<KeptPost>,
    },
    /// Of a step inside: the step, and whether it handed out a signal.
    Inside {
        step: MemberStep,
        held: bool,
    },
    /// Of a transaction's first step: all of its log.
    Begun {
        starter: Pid,
    },
    /// Of a commit: the transaction, whose outbox has what each post changed, how many old parts of
    /// its log are the last step's own, and whether that handed out a signal.
    Committed {
        boxed: BoxedTxn,
        count: usize,
        held: bool,
    },
    /// Of an abort: the transaction, whose log has what it took back, and the point and the answer
    /// that its starter had.
    Aborted {
        boxed: BoxedTxn,
        stood: Answer,
    },
}

impl Inverse {
    /// The inverse of no step: for a place into which steps put their inverses.
    pub fn blank() -> Inverse
        ensures { result ≡ Inverse.Begun (record { 0 = 0 }) }
    {
        Inverse::Begun { starter: Pid(0) }
    }
}

impl Content {
    /// Puts an inverse into a place. What was there is dropped, but its room, if not large, is kept
    /// for the next steps. The content stays as it is.
    #[inline(always)] // each step puts one, and a call of its own costs 47
    pub(crate) fn put_inverse(&mut self, place: &mut Inverse, inverse: Inverse)
        ensures content { self.new ≡ self.old }
        ensures place { place.new ≡ inverse }
    {
        match mem::replace(place, inverse) {
            Inverse::Outside { log, .. } => self.txns.keep_log(log),
            Inverse::Committed { boxed, .. } => self.txns.keep(boxed),
            Inverse::Aborted { boxed, .. } => self.txns.keep(boxed),
            _ => {}
        }
    }
}
