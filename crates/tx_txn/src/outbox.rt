//! The signals that a transaction holds until it commits.
ghost use Rattle.std.specs.Prelude.{◌≡◌, ◌<◌, ◌≤◌, ◌++◌, ◌∷◌, [], ◌+◌, ◌-◌, None, Ok, OnOk, OnErr, length, map, option_to_list, take, slice_set, slice_index_or};
ghost use Rattle.tx_model.specs.Book.{sender_count, member_sends};
ghost use Rattle.tx_kernel.specs.Plans.{sender_of, sending_of};
ghost use Rattle.tx_txn.specs.Outboxes.{missed_in, unmade};
ghost use Rattle.tx_txn.specs.Txns.{none_held};

use crate::kept::Unpost;
use arrayvec::ArrayVec;
use std::alloc::Global;
use std::marker::Model;
use std::mem;
use tx_base::{Errno, Missed, NoMemory, Sending};
use tx_change::Change;

/// What the post of a held signal came to at the commit. Until then it is not made.
#[derive(Drop)]
pub struct HeldPost {
    /// How the post was answered.
    pub answer: Result<(), Errno>,
    /// What was pending at the target before, if that changed.
    pub change: Option<Change>,
    /// What was kept of the target before, if it is the starter of another transaction and that
    /// changed.
    pub kept: Option<Unpost>,
}

impl HeldPost {
    /// A post that is not made.
    pub fn unmade() -> HeldPost
        ensures { result ≡ unmade }
    {
        HeldPost {
            answer: Ok(()),
            change: None,
            kept: None,
        }
    }
}

/// The signals that a transaction holds until it commits, in order: those of its members to
/// processes outside, at most 32, and that of the kernel to the starter's parent once the starter
/// ended. Each has a place for what its post will change, so that a commit takes no memory.
#[derive(Drop)]
pub struct Outbox {
    sendings: Vec<Sending>,
    posts: Vec<HeldPost>,
    /// How many of the signals members sent.
    sent: usize,
}

impl Model for Outbox {
    ghost use Rattle.std.specs.Prelude.{◌≡◌, length, map};
    ghost use Rattle.tx_kernel.specs.Plans.{sending_of};
    ghost use Rattle.tx_model.specs.Book.{member_sends};
    ghost use Rattle.tx_txn.specs.Outboxes.{Held};

    ghost Value = { Held };

    ghost view = { λ outbox.
        record { sendings = outbox.sendings.items; posts = outbox.posts.items } };

    ghost invariant = { λ outbox. (length outbox.posts.items ≡ length outbox.sendings.items)
        × (outbox.sent ≡ member_sends (map sending_of outbox.sendings.items)) };
}

impl Outbox {
    /// Nothing is held. It takes no memory.
    pub fn new(alloc: Global) -> Outbox
        ensures sendings { result.sendings ≡ [] }
        ensures posts { result.posts ≡ [] }
    {
        Outbox {
            sendings: Vec::new(alloc),
            posts: Vec::new(alloc),
            sent: 0,
        }
    }

    /// Forgets all that is held, and keeps its room.
    pub fn clear(&mut self)
        ensures { self.new ≡ none_held }
    {
        self.sendings.clear();
        self.posts.clear();
        self.sent = 0;
    }

    /// What is held, in order.
    pub fn held(&self) -> &[Sending]
        ensures { result.now ≡ self.now.sendings }
    {
        self.sendings.as_slice()
    }

    /// How many of what is held are of members: 0 to 32 in a machine.
    pub fn sent_by_members(&self) -> usize
        ensures { result ≡ member_sends (map sending_of self.now.sendings) }
    {
        self.sent
    }

    /// Holds one more signal. If memory is refused, the outbox is as it was.
    pub fn hold(&mut self, sending: Sending) -> Result<(), NoMemory>
        ensures sendings { OnOk result (self.new.sendings ≡ self.old.sendings ++ sending ∷ []) }
        ensures posts { OnOk result (self.new.posts ≡ self.old.posts ++ unmade ∷ []) }
        ensures err { OnErr result (self.new ≡ self.old) }
    {
        self.posts.push(HeldPost::unmade())?;
        let Ok(()) = self.sendings.push(sending) else {
            self.posts.truncate(self.sendings.len());
            return Err(NoMemory);
        };
        self.sent += senders(&sending);
        Ok(())
    }

    /// Forgets the last signal, and answers it. Nothing happens if none is held.
    pub fn forget_last(&mut self) -> Option<Sending>
        ensures sendings { self.new.sendings
            ≡ take (length self.old.sendings - 1) self.old.sendings }
        ensures posts { self.new.posts ≡ take (length self.old.posts - 1) self.old.posts }
        ensures last { self.old.sendings ≡ self.new.sendings ++ option_to_list result }
        ensures long { length self.new.posts + length (option_to_list result)
            ≡ length self.old.posts }
    {
        let sending = self.sendings.pop()?;
        self.posts.truncate(self.sendings.len());
        self.sent -= senders(&sending);
        Some(sending)
    }

    /// Exchanges what the post of the signal at a place came to.
    pub fn swap_post(&mut self, place: usize, post: &mut HeldPost)
        requires { place < length self.old.posts }
        ensures sendings { self.new.sendings ≡ self.old.sendings }
        ensures posts { self.new.posts ≡ slice_set self.old.posts place post.old }
        ensures given { post.new ≡ slice_index_or self.old.posts place post.old }
    {
        mem::swap(&mut self.posts[place], post);
    }

    /// The signals whose posts were answered by an error, in order, with that error. It takes no
    /// memory.
    pub fn undelivered(&self) -> ArrayVec<Missed, 33>
        ensures { length (missed_in self.now.sendings self.now.posts) ≤ 33 →
            result ≡ record { items = missed_in self.now.sendings self.now.posts } }
    {
        list_missed(self.held(), self.posts.as_slice())
    }
}

/// The signals whose posts were answered by an error, in order, with that error.
fn list_missed(held: &[Sending], posts: &[HeldPost]) -> ArrayVec<Missed, 33>
    requires { length posts.now ≡ length held.now }
    ensures { length (missed_in held.now posts.now) ≤ 33 →
        result ≡ record { items = missed_in held.now posts.now } }
{
    let mut missed = ArrayVec::new();
    for place in 0..held.len() {
        if let Err(errno) = posts[place].answer {
            let _fits = missed.try_push(Missed {
                target: held[place].target,
                signo: held[place].signo,
                errno,
            });
        }
    }
    missed
}

/// 1 where a member sent the signal, 0 where the kernel did.
fn senders(sending: &Sending) -> usize
    ensures { result ≡ sender_count (sender_of sending.now.from) }
{
    match sending.from {
        Some(_) => 1,
        None => 0,
    }
}
