//! The posts of a commit.
ghost use Rattle.std.specs.Prelude.{◌≡◌, ◌<◌, ◌∷◌, [], length, map, option_map};
ghost use Rattle.tx_kernel.specs.Plans.{sending_of};
ghost use Rattle.tx_change.specs.Exchange.{undone, AreNamed};
ghost use Rattle.tx_kernel.specs.Posts.{listed_change};
ghost use Rattle.tx_content.specs.HeldPosts.{HaveSignals, PostsAll};
ghost use Rattle.tx_content.specs.Inverses.{kept_post, none_made, post_changes, unposted_all, unposted_in, HasStarter, HaveStarters};

use crate::kept_posts::{KeptPost, post_kept, take_post};
use crate::laws::laws;
use crate::table::TxnTable;
use tx_base::Sending;
use tx_change::Parts;
use tx_kernel::post;
use tx_txn::{HeldPost, Outbox, Unpost};

/// Posts all that is held, in order, and keeps what each post came to. It takes no memory.
pub(crate) fn post_held(parts: &mut Parts, txns: &mut TxnTable, outbox: &mut Outbox)
    requires signals { HaveSignals (map sending_of outbox.old.sendings) }
    requires posts { length outbox.old.posts ≡ length outbox.old.sendings }
    ensures sendings { outbox.new.sendings ≡ outbox.old.sendings }
    ensures posts { PostsAll parts.old parts.new txns.old txns.new outbox.old.sendings
        outbox.new.posts }
{
    laws();
    for place in 0..outbox.held().len() {
        let sending = outbox.held()[place];
        let mut made = post_one(parts, txns, &sending);
        outbox.swap_post(place, &mut made);
    }
}

/// Posts a signal to the process, and to what is kept of it if it is a live starter.
fn post_one(parts: &mut Parts, txns: &mut TxnTable, sending: &Sending) -> HeldPost
    requires { sending.now.signo.0 < 64 }
    ensures { PostsAll parts.old parts.new txns.old txns.new (sending.now ∷ []) (result ∷ []) }
{
    let posted = post(parts, sending);
    let kept = post_kept(txns, sending);
    HeldPost {
        answer: posted.answer,
        change: posted.change,
        kept: unpost_of(kept),
    }
}

/// What takes the post back, without its target.
fn unpost_of(post: Option<KeptPost>) -> Option<Unpost>
    ensures { result ≡ option_map (λ post. post.unpost) post }
{
    match post {
        Some(post) => Some(post.unpost),
        None => None,
    }
}

/// Takes the posts of a commit back, the last one first. It takes no memory.
pub(crate) fn take_posts(parts: &mut Parts, txns: &mut TxnTable, outbox: &mut Outbox)
    requires posts { length outbox.old.posts ≡ length outbox.old.sendings }
    requires named { AreNamed parts.old (post_changes outbox.old.posts) }
    requires starters { HaveStarters txns.old outbox.old.sendings outbox.old.posts }
    ensures parts { parts.new ≡ undone parts.old (post_changes outbox.old.posts) }
    ensures txns { txns.new ≡ unposted_all outbox.old.sendings outbox.old.posts txns.old }
    ensures outbox { outbox.new ≡ none_made outbox.old.sendings }
{
    laws();
    let count = outbox.held().len();
    for done in 0..count {
        let place = count - 1 - done;
        let sending = outbox.held()[place];
        let mut made = HeldPost::unmade();
        outbox.swap_post(place, &mut made);
        take_one(parts, txns, &sending, made);
    }
}

/// Takes back a post that came to this.
fn take_one(parts: &mut Parts, txns: &mut TxnTable, sending: &Sending, made: HeldPost)
    requires named { AreNamed parts.old (listed_change made.change) }
    requires starter { HasStarter txns.old (kept_post sending.now made.kept) }
    ensures parts { parts.new ≡ undone parts.old (listed_change made.change) }
    ensures txns { txns.new ≡ unposted_in (kept_post sending.now made.kept) txns.old }
{
    if let Some(unpost) = made.kept {
        let starter = sending.target;
        let _taken = take_post(txns, KeptPost { starter, unpost });
    }
    if let Some(change) = made.change {
        let mut change = change;
        change.swap(parts);
    }
}
