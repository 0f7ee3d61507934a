//! Who is in the way of a step.
ghost use Rattle.std.specs.Prelude.{◌≡◌, [], ◌∷◌, option_map};
ghost use Rattle.tx_step.specs.Faces.{sent};
ghost use Rattle.tx_step.specs.InWay.{IsOfMember, gives_two_answers, least_target, passing};
ghost use Rattle.tx_content.specs.Content.{content_of, now_of, view_of};
ghost use Rattle.tx_content.specs.Insides.{IsFootprint};
ghost use Rattle.tx_kernel.specs.Plans.{sending_of};
ghost use Rattle.tx_model.specs.Events.{Event, effect};
ghost use Rattle.tx_model.specs.View.{starter_in_way};
ghost use Rattle.tx_reserve.specs.Reservations.{lesser_of, number_of};
ghost use Rattle.tx_txn.specs.Content.{IsKept};

use crate::faces::Faces;
use tx_base::{Pid, Sending};
use tx_content::Content;
use tx_kernel::Sends;
use tx_reserve::{Object, Objects};
use tx_txn::answers_of_faces;

/// The least starter whose live transaction is in the way of a step: it owns an object of the
/// step's footprint, or a send to the starter is answered differently now than after its abort. The
/// transaction of which the step's process is a member is never in the way. None if none is. It
/// takes no memory.
///
/// The step sends the first signal at once, then what is held if it commits, and last what it hands
/// out.
pub fn find_starter(
    content: &Content,
    own: Option<Pid>,
    footprint: &Objects,
    first: &Sends,
    held: &[Sending],
) -> Option<Pid>
    requires { IsKept (content_of content.now) }
    ensures { (event : Event) → IsFootprint content.now event footprint.now →
        (effect event (now_of content.now)).sends ≡ sent first.now held.now →
        IsOfMember content.now (option_map number_of own) event →
        option_map number_of result ≡ starter_in_way (view_of content.now) event }
{
    answers_of_faces();
    let owner = content.owners.conflict(footprint, own);
    let target = least_target(content, own, first, held);
    lesser(owner, target)
}

/// The least starter of another live transaction at which one of the sends has two answers: it is
/// answered differently now than after the abort. A target is asked once for all its sends, since
/// asking posts each.
fn least_target(content: &Content, own: Option<Pid>, first: &Sends, held: &[Sending]) -> Option<Pid>
    ensures { option_map number_of result
        ≡ least_target (gives_two_answers content.now (option_map number_of own)
        (sent first.now held.now)) (sent first.now held.now) }
{
    if held.is_empty() {
        return target_of_first(content, own, first);
    }
    let mut asked = Objects::new();
    let mut least = match first {
        Sends::Nothing => None,
        Sends::AtOnce(sending) => {
            asked.insert(Object::Proc(sending.target));
            target(content, own, sending.target, first, held)
        }
        Sends::AtCommit(_) => None,
    };
    for place in 0..held.len() {
        let pid = held[place].target;
        if !asked.has(Object::Proc(pid)) {
            asked.insert(Object::Proc(pid));
            least = lesser(least, target(content, own, pid, first, held));
        }
    }
    match first {
        Sends::AtCommit(sending) if !asked.has(Object::Proc(sending.target)) => lesser(
            least,
            target(content, own, sending.target, first, held),
        ),
        _ => least,
    }
}

/// The same where nothing is held.
fn target_of_first(content: &Content, own: Option<Pid>, first: &Sends) -> Option<Pid>
    ensures { option_map number_of result
        ≡ least_target (gives_two_answers content.now (option_map number_of own)
        (sent first.now [])) (sent first.now []) }
{
    match first {
        Sends::Nothing => None,
        Sends::AtOnce(sending) => target_of_one(content, own, sending),
        Sends::AtCommit(sending) => target_of_one(content, own, sending),
    }
}

/// The target of a signal that is sent alone, if it is such a starter.
fn target_of_one(content: &Content, own: Option<Pid>, sending: &Sending) -> Option<Pid>
    ensures { option_map number_of result
        ≡ passing (gives_two_answers content.now (option_map number_of own)
        (sending_of sending.now ∷ [])) sending.now.target.0 }
{
    let pid = sending.target;
    if own == Some(pid) {
        return None;
    }
    let boxed = content.txns.get(pid)?;
    let faces = Faces::of(&content.parts, pid, &boxed.txn.kept);
    if faces.answers(sending).is_some() {
        Some(pid)
    } else {
        None
    }
}

/// The target of a send, if it is such a starter.
fn target(
    content: &Content,
    own: Option<Pid>,
    pid: Pid,
    first: &Sends,
    held: &[Sending],
) -> Option<Pid>
    ensures { option_map number_of result
        ≡ passing (gives_two_answers content.now (option_map number_of own)
        (sent first.now held.now)) pid.0 }
{
    if own == Some(pid) {
        return None;
    }
    let boxed = content.txns.get(pid)?;
    let faces = Faces::of(&content.parts, pid, &boxed.txn.kept);
    if faces.difference(pid, first, held).is_some() {
        Some(pid)
    } else {
        None
    }
}

/// The lesser of two numbers, of which either may be missing.
fn lesser(a: Option<Pid>, b: Option<Pid>) -> Option<Pid>
    ensures { option_map number_of result
        ≡ lesser_of (option_map number_of a) (option_map number_of b) }
{
    match (a, b) {
        (None, b) => b,
        (Some(a), Some(b)) if b.0 < a.0 => Some(b),
        (a, _) => a,
    }
}
