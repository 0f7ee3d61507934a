//! Posts to what is kept of live starters.
ghost use Rattle.std.specs.Prelude.{◌≡◌, ◌∷◌, [], ◌<◌, ◌≤◌, length, IfSome, Some};
ghost use Rattle.tx_kernel.specs.Plans.{HasSignal, sending_of, sent_at_once};
ghost use Rattle.tx_content.specs.Inverses.{unposted_at, unposted_if, unposted_in, HasStarter};
ghost use Rattle.tx_content.specs.KeptPosts.{posted_one, PostsKept};
ghost use Rattle.tx_content.specs.Redone.{reposted_at, reposted_by, reposted_in};

use crate::content::BoxedTxn;
use crate::table::TxnTable;
use tx_base::{Pid, Sending};
use tx_kernel::Sends;
use tx_txn::{Repost, Unpost};

/// A post to what is kept of the starter of a live transaction.
#[derive(Clone, Copy)]
pub struct KeptPost {
    pub starter: Pid,
    pub unpost: Unpost,
}

/// A post that was taken back from what is kept of a starter, and what makes it again, if the
/// starter has a live transaction.
#[derive(Clone, Copy)]
pub struct TakenPost {
    pub post: KeptPost,
    pub posted: Option<Repost>,
}

/// Posts what a step sends at once to what is kept of its target, if that is a live starter.
/// Answers what takes the post back, if it changed anything. It takes no memory.
pub(crate) fn post_sends(txns: &mut TxnTable, sends: &Sends) -> Option<KeptPost>
    requires { HasSignal sends.now }
    ensures posted { PostsKept txns.old txns.new (sent_at_once sends.now) }
    ensures back { unposted_in result txns.new ≡ txns.old }
    ensures starter { HasStarter txns.new result }
{
    match sends {
        Sends::Nothing => None,
        Sends::AtOnce(sending) => post_kept(txns, sending),
        Sends::AtCommit(_) => None,
    }
}

/// Posts a signal, whose number must be below 64, to what is kept of its target, if that is a live
/// starter. Answers what takes the post back, if it changed anything.
pub(crate) fn post_kept(txns: &mut TxnTable, sending: &Sending) -> Option<KeptPost>
    requires { sending.now.signo.0 < 64 }
    ensures posted { PostsKept txns.old txns.new (sending_of sending.now ∷ []) }
    ensures back { unposted_in result txns.new ≡ txns.old }
    ensures starter { HasStarter txns.new result }
    ensures target { IfSome result (λ post. post.starter ≡ sending.now.target) }
{
    let starter = sending.target;
    if txns.get(starter).is_none() {
        return None;
    }
    let unpost = post_boxed(txns.value_mut(starter), sending)?;
    Some(KeptPost { starter, unpost })
}

/// Posts a signal, whose number must be below 64, to what is kept of a transaction's starter.
fn post_boxed(boxed: &mut BoxedTxn, sending: &Sending) -> Option<Unpost>
    requires { sending.now.signo.0 < 64 }
    ensures posted { boxed.new ≡ posted_one (sending_of sending.now) boxed.old }
    ensures back { unposted_if result boxed.new ≡ boxed.old }
{
    boxed.txn.kept.post(sending)
}

/// Takes back the last post to what is kept of a starter, and answers what makes it again. Nothing
/// happens if the starter has no transaction.
pub(crate) fn take_post(txns: &mut TxnTable, post: KeptPost) -> TakenPost
    requires { HasStarter txns.old (Some post) }
    ensures taken { txns.new ≡ unposted_in (Some post) txns.old }
    ensures post { result.post ≡ post }
    ensures again { reposted_in (Some result) txns.new ≡ txns.old }
{
    if txns.get(post.starter).is_none() {
        return TakenPost { post, posted: None };
    }
    let posted = unpost_boxed(txns.value_mut(post.starter), post.unpost);
    TakenPost {
        post,
        posted: Some(posted),
    }
}

/// Takes back the last post to what is kept of a transaction's starter. Answers what makes it
/// again.
fn unpost_boxed(boxed: &mut BoxedTxn, unpost: Unpost) -> Repost
    ensures taken { boxed.new ≡ unposted_at unpost boxed.old }
    ensures again { reposted_at result boxed.new ≡ boxed.old }
{
    boxed.txn.kept.unpost(unpost)
}

/// Makes again a post to what is kept of a starter that was taken back. Answers what takes it back.
pub(crate) fn remake_post(txns: &mut TxnTable, taken: TakenPost) -> KeptPost
    requires { HasStarter txns.old (Some taken.post) }
    ensures again { txns.new ≡ reposted_in (Some taken) txns.old }
    ensures post { result ≡ taken.post }
{
    let TakenPost { post, posted } = taken;
    if let Some(posted) = posted {
        remake_post_at(txns, post.starter, posted);
    }
    post
}

/// Makes again a post to what is kept of this starter. Nothing happens if it has no transaction.
fn remake_post_at(txns: &mut TxnTable, starter: Pid, posted: Repost)
    requires low { 1 ≤ starter.0 }
    requires high { starter.0 ≤ length txns.old }
    ensures { txns.new ≡ reposted_by starter (Some posted) txns.old }
{
    if txns.get(starter).is_some() {
        let boxed = txns.value_mut(starter);
        boxed.txn.kept.repost(posted);
    }
}
