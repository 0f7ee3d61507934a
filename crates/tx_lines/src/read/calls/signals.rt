//! The arguments of the calls on signals.
ghost use Rattle.std.specs.Prelude.{◌≡◌, ◌++◌, ◌∷◌, ℤ, codes, IfSome, Some};
ghost use Rattle.std.specs.Fmt.{signed_decimal};
ghost use Rattle.tx_base.specs.declared.signals.Action.{Action};
ghost use Rattle.tx_base.specs.declared.signals.How.{How};
ghost use Rattle.tx_base.specs.declared.signals.SigSet.{SigSet};
ghost use Rattle.tx_base.specs.declared.steps.Call.{Call};
ghost use Rattle.tx_lines.specs.Calls.{action_text, call_text, how_text, pair_text, triple_text, FitsAction, FitsCall};
ghost use Rattle.tx_lines.specs.Lines.{IsCallOf};
ghost use Rattle.tx_lines.specs.Sets.{set_text};
ghost use Rattle.tx_lines.specs.declared.read.header.Version.{Version};

use crate::read::leading::split_point;
use crate::read::sets::read_set;
use crate::read::split::{after_front, pair, split_number, split_word, triple};
use tx_base::{Action, Call, How};

/// The call that sends a signal, by the text of its arguments.
pub fn kill(arguments: &[u8]) -> Option<Call>
    ensures found { IfSome result (λ c. codes "kill " ++ arguments.now ≡ call_text c) }
    ensures fits { IfSome result FitsCall }
    ensures within { (version : Version) → IfSome result (IsCallOf version) }
    ensures only { (target signo : ℤ) → FitsCall (Call.Kill target signo) →
        arguments.now ≡ pair_text target signo → result ≡ Some (Call.Kill target signo) }
{
    let (target, signo) = pair(arguments)?;
    Some(Call::Kill(target, signo))
}

/// The call that sends a signal with a value, by the text of its arguments.
pub fn sigqueue(arguments: &[u8]) -> Option<Call>
    ensures found { IfSome result (λ c. codes "sigqueue " ++ arguments.now ≡ call_text c) }
    ensures fits { IfSome result FitsCall }
    ensures within { (version : Version) → IfSome result (IsCallOf version) }
    ensures only { (target signo value : ℤ) → FitsCall (Call.Sigqueue target signo value) →
        arguments.now ≡ triple_text target signo value →
        result ≡ Some (Call.Sigqueue target signo value) }
{
    let (target, signo, value) = triple(arguments)?;
    Some(Call::Sigqueue(target, signo, value))
}

/// The call that says what is done about a signal, by the text of its arguments.
pub fn sigaction(arguments: &[u8]) -> Option<Call>
    ensures found { IfSome result (λ c. codes "sigaction " ++ arguments.now ≡ call_text c) }
    ensures fits { IfSome result FitsCall }
    ensures within { (version : Version) → IfSome result (IsCallOf version) }
    ensures only { (signo : ℤ) (action : Action) → FitsCall (Call.Sigaction signo action) →
        arguments.now ≡ signed_decimal signo ++ 32 ∷ action_text action →
        result ≡ Some (Call.Sigaction signo action) }
{
    let (signo, text) = split_number(arguments)?;
    Some(Call::Sigaction(signo, action(text)?))
}

/// What is done about a signal.
fn action(text: &[u8]) -> Option<Action>
    ensures found { IfSome result (λ action. text.now ≡ action_text action) }
    ensures fits { IfSome result FitsAction }
    ensures only { (action : Action) → FitsAction action → text.now ≡ action_text action →
        result ≡ Some action }
{
    match text {
        b"default" => Some(Action::Usual),
        b"ignore" => Some(Action::Ignore),
        _ => catch(after_front(b"catch ", text)?),
    }
}

/// The action that goes on at a point, by the text of its point and its mask.
fn catch(arguments: &[u8]) -> Option<Action>
    ensures found { IfSome result (λ action. codes "catch " ++ arguments.now ≡ action_text action) }
    ensures fits { IfSome result FitsAction }
    ensures only { (action : Action) → FitsAction action →
        codes "catch " ++ arguments.now ≡ action_text action → result ≡ Some action }
{
    let (point, word) = split_point(arguments)?;
    let mask = read_set(word)?;
    Some(Action::Catch { point, mask })
}

/// The call that changes the mask, by the text of its arguments.
pub fn sigprocmask(arguments: &[u8]) -> Option<Call>
    ensures found { IfSome result (λ c. codes "sigprocmask " ++ arguments.now ≡ call_text c) }
    ensures fits { IfSome result FitsCall }
    ensures within { (version : Version) → IfSome result (IsCallOf version) }
    ensures only { (how : How) (set : SigSet) → FitsCall (Call.Sigprocmask how set) →
        arguments.now ≡ how_text how ++ 32 ∷ set_text set →
        result ≡ Some (Call.Sigprocmask how set) }
{
    let (first, rest) = split_word(arguments)?;
    let way = how(first)?;
    let set = read_set(rest)?;
    Some(Call::Sigprocmask(way, set))
}

/// How a mask is changed.
fn how(word: &[u8]) -> Option<How>
    ensures found { IfSome result (λ how. word.now ≡ how_text how) }
    ensures only { (how : How) → word.now ≡ how_text how → result ≡ Some how }
{
    match word {
        b"block" => Some(How::Block),
        b"unblock" => Some(How::Unblock),
        b"set" => Some(How::Set),
        _ => None,
    }
}
