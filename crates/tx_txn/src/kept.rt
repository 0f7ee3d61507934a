//! What is kept of the process that began a transaction, beside the log.
ghost use Rattle.std.specs.Prelude.{◌≡◌, ◌<◌, Some};
ghost use Rattle.tx_kernel.specs.Plans.{sending_of};
ghost use Rattle.tx_kernel.specs.Posts.{HasFace};
ghost use Rattle.tx_model.specs.Posts.{target_after};
ghost use Rattle.tx_model.specs.SignalSets.{kill_signo};
ghost use Rattle.tx_model.specs.State.{Process};
ghost use Rattle.tx_model.specs.View.{has_pending};
ghost use Rattle.tx_cred.specs.Cred.{ids_of};
ghost use Rattle.tx_txn.specs.Faces.{pending_after, running};
ghost use Rattle.tx_txn.specs.KeptParts.{kept_as, posted_again, unposted};

use tx_base::{SIGKILL, Sending, SigSet};
use tx_cred::Cred;
use tx_kernel::Face;
use tx_proc::Proc;
use tx_signal::{Pending, Queued, has, is_realtime, swap_entry_twice};

/// What is kept of the process that began a transaction: it runs there, with the ids that it had.
/// Signals from outside are posted here too, and stay after an abort.
#[derive(Drop)]
pub struct Kept {
    /// Its ids when the transaction began.
    pub ids: Cred,
    /// What would be pending at it after an abort.
    pub pending: Pending,
}

/// What a post changed of what is kept, so that it can be taken back.
#[derive(Clone, Copy)]
pub enum Unpost {
    /// The standard signals that were pending before.
    Standard(SigSet),
    /// The place of the queue at which the signal was put.
    Queued(usize),
}

/// What a post that was taken back had put, so that it can be made again.
#[derive(Clone, Copy)]
pub enum Repost {
    /// The standard signals that were pending after it.
    Standard(SigSet),
    /// The place of the queue, and the entry that was there.
    Queued(usize, Option<Queued>),
}

impl Kept {
    /// What is kept of a process that begins a transaction.
    pub fn of(proc: &Proc) -> Kept
        ensures ids { result.ids ≡ proc.now.cred }
        ensures pending { result.pending ≡ proc.now.pending }
    {
        Kept {
            ids: proc.cred,
            pending: proc.pending.copy(),
        }
    }

    /// Keeps the same of another process, in place of what it kept.
    pub fn keep(&mut self, proc: &Proc)
        ensures ids { self.new.ids ≡ proc.now.cred }
        ensures pending { self.new.pending ≡ proc.now.pending }
    {
        self.ids = proc.cred;
        // A queue is large, and most often there is none to copy.
        if !(self.pending.is_empty() && proc.pending.is_empty()) {
            self.pending = proc.pending.copy();
        }
    }

    /// What decides how a post to the process is answered after an abort.
    pub fn face(&self) -> Face
        ensures { (me : Process) → HasFace result (kept_as self.now me) }
    {
        Face {
            ids: self.ids,
            ended: false,
            queued: self.pending.queued().len(),
        }
    }

    /// Whether SIGKILL would be pending at the process after an abort: the transaction is doomed.
    pub fn is_doomed(&self) -> bool
        ensures { (me : Process) → result ≡ has_pending kill_signo (Some (kept_as self.now me)) }
    {
        has(self.pending.standard(), SIGKILL)
    }

    /// Posts a signal, whose number must be below 64, as it would be after an abort. Answers what
    /// takes the post back, if it changed anything.
    pub fn post(&mut self, sending: &Sending) -> Option<Unpost>
        requires { sending.now.signo.0 < 64 }
        ensures received { (me : Process) →
            target_after (sending_of sending.now) (Some (kept_as self.old me))
            ≡ Some (kept_as self.new me) }
        ensures pending { self.new.pending
            ≡ pending_after (sending_of sending.now) (Some (running (ids_of self.old.ids)))
            self.old.pending }
        ensures ids { self.new.ids ≡ self.old.ids }
        ensures back { unposted result self.new.pending ≡ self.old.pending }
    {
        swap_entry_twice();
        if !self.face().reaches(sending) {
            return None;
        }
        let standard = self.pending.standard();
        let place = self.pending.last_place();
        let Ok(()) = self.pending.post(sending.signo, sending.value) else {
            return None;
        };
        if is_realtime(sending.signo) {
            Some(Unpost::Queued(place))
        } else {
            Some(Unpost::Standard(standard))
        }
    }

    /// Takes back the last post. Answers what makes it again.
    pub fn unpost(&mut self, unpost: Unpost) -> Repost
        ensures ids { self.new.ids ≡ self.old.ids }
        ensures pending { self.new.pending ≡ unposted (Some unpost) self.old.pending }
        ensures again { posted_again result self.new.pending ≡ self.old.pending }
    {
        swap_entry_twice();
        match unpost {
            Unpost::Standard(mut standard) => {
                self.pending.swap_standard(&mut standard);
                Repost::Standard(standard)
            }
            Unpost::Queued(place) => {
                let _fits = self.pending.queued();
                let mut entry = None;
                self.pending.swap_entry(place, &mut entry);
                Repost::Queued(place, entry)
            }
        }
    }

    /// Makes again a post that was taken back.
    pub fn repost(&mut self, posted: Repost)
        ensures ids { self.new.ids ≡ self.old.ids }
        ensures pending { self.new.pending ≡ posted_again posted self.old.pending }
    {
        match posted {
            Repost::Standard(mut standard) => self.pending.swap_standard(&mut standard),
            Repost::Queued(place, mut entry) => self.pending.swap_entry(place, &mut entry),
        }
    }
}
