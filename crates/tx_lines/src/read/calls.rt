//! The calls of a schedule's lines, by groups.
ghost use Rattle.std.specs.Prelude.{◌≡◌, ◌≤◌, ◌++◌, IfSome, Some, codes};
ghost use Rattle.std.specs.Bool.{then_some};
ghost use Rattle.tx_base.specs.declared.steps.Call.{Call};
ghost use Rattle.tx_lines.specs.Calls.{call_text, group_of, FitsCall};
ghost use Rattle.tx_lines.specs.Lines.{IsCallOf, SpellsCall};
ghost use Rattle.tx_lines.specs.declared.read.header.Version.{Version};

pub mod descriptors;
pub mod memory;
pub mod place;
pub mod processes;
pub mod script;
pub mod signals;
mod transactions;
pub mod transfers;

use crate::calls::{bare_call, memory_call};
use crate::read::calls::memory::store;
use crate::read::calls::place::put;
use crate::read::calls::transactions::transaction_call;
use crate::read::header::Version;
use crate::read::numbers::number;
use crate::read::small::read_pid;
use crate::read::split::{after_front, split_word};
use tx_base::Call;

/// Reads the call that a text of that version spells. Returns whether it spells one. The most
/// frequent calls are known by the front of their text, without a search for the first word.
#[inline(always)] // it has few callers, and each line of a schedule needs it
pub fn read_call(version: Version, text: &[u8], call: &mut Call) -> bool
    ensures found { IfSome (then_some result call.new) (SpellsCall version text.now) }
    ensures only { (c : Call) → FitsCall c → IsCallOf version c → text.now ≡ call_text c →
        then_some result call.new ≡ Some c }
{
    if let Some(arguments) = after_front(b"store ", text) {
        return store(arguments, call);
    }
    if let Some(address) = after_front(b"load ", text) {
        return put(call, number(address).map(Call::Load));
    }
    if let Some(word) = after_front(b"sys_x", text) {
        return transaction_call(version, word, call);
    }
    named_call(version, text, call)
}

/// As `read_call`, where the call is none of those. More frequent calls are known by their front,
/// the shorter names first, and all others by their first word.
#[inline(always)] // only `read_call` calls it
fn named_call(version: Version, text: &[u8], call: &mut Call) -> bool
    ensures found { IfSome (then_some result call.new) (SpellsCall version text.now) }
    ensures only { (c : Call) → FitsCall c → IsCallOf version c → 1 ≤ group_of c →
        text.now ≡ call_text c → then_some result call.new ≡ Some c }
{
    match text {
        [b'd', b'u', b'p', b' ', fd @ ..] => put(call, number(fd).map(Call::Dup)),
        [b'm', b'a', b'p', b' ', page @ ..] => put(call, number(page).map(Call::Map)),
        _ => call_of_four(version, text, call),
    }
}

/// As `named_call`, where the name has four letters or more.
#[inline(always)] // as `named_call`
fn call_of_four(version: Version, text: &[u8], call: &mut Call) -> bool
    ensures found { IfSome (then_some result call.new) (SpellsCall version text.now) }
    ensures only { (c : Call) → FitsCall c → IsCallOf version c → 1 ≤ group_of c →
        text.now ≡ call_text c → then_some result call.new ≡ Some c }
{
    match text {
        [b'e', b'x', b'i', b't', b' ', status @ ..] => put(call, number(status).map(Call::Exit)),
        [b'f', b'o', b'r', b'k', b' ', child @ ..] => put(call, read_pid(child).map(Call::Fork)),
        [b'k', b'i', b'l', b'l', b' ', arguments @ ..] => put(call, signals::kill(arguments)),
        [b'r', b'e', b'a', b'd', b' ', arguments @ ..] => put(call, transfers::read(arguments)),
        _ => call_of_five(version, text, call),
    }
}

/// As `named_call`, where the name has five letters or more.
#[inline(always)] // as `named_call`
fn call_of_five(version: Version, text: &[u8], call: &mut Call) -> bool
    ensures found { IfSome (then_some result call.new) (SpellsCall version text.now) }
    ensures only { (c : Call) → FitsCall c → IsCallOf version c → 1 ≤ group_of c →
        text.now ≡ call_text c → then_some result call.new ≡ Some c }
{
    match text {
        [b'c', b'l', b'o', b's', b'e', b' ', fd @ ..] => put(call, number(fd).map(Call::Close)),
        [b'u', b'n', b'm', b'a', b'p', b' ', page @ ..] => put(call, number(page).map(Call::Unmap)),
        [b'w', b'r', b'i', b't', b'e', b' ', arguments @ ..] => {
            put(call, transfers::write(arguments))
        }
        _ => call_of_six(version, text, call),
    }
}

/// As `named_call`, where the name has six letters or more.
#[inline(always)] // as `named_call`
fn call_of_six(version: Version, text: &[u8], call: &mut Call) -> bool
    ensures found { IfSome (then_some result call.new) (SpellsCall version text.now) }
    ensures only { (c : Call) → FitsCall c → IsCallOf version c → 1 ≤ group_of c →
        text.now ≡ call_text c → then_some result call.new ≡ Some c }
{
    match text {
        b"getpid" => put(call, Some(Call::Getpid)),
        _ => longer_call(version, text, call),
    }
}

/// As `named_call`, where the name has six letters or more and is another one.
#[inline(never)] // inlined, it would take registers from the calls before it
fn longer_call(version: Version, text: &[u8], call: &mut Call) -> bool
    ensures found { IfSome (then_some result call.new) (SpellsCall version text.now) }
    ensures only { (c : Call) → FitsCall c → IsCallOf version c → 1 ≤ group_of c →
        text.now ≡ call_text c → then_some result call.new ≡ Some c }
{
    match text {
        [
            b'w',
            b'a',
            b'i',
            b't',
            b'p',
            b'i',
            b'd',
            b' ',
            arguments @ ..,
        ] => { put(call, processes::waitpid(arguments)) }
        _ => longest_call(version, text, call),
    }
}

/// As `named_call`, where the name has nine letters or more.
#[inline(always)] // only `longer_call` calls it
fn longest_call(version: Version, text: &[u8], call: &mut Call) -> bool
    ensures found { IfSome (then_some result call.new) (SpellsCall version text.now) }
    ensures only { (c : Call) → FitsCall c → IsCallOf version c → 1 ≤ group_of c →
        text.now ≡ call_text c → then_some result call.new ≡ Some c }
{
    if let Some(arguments) = after_sigaction(text) {
        return put(call, signals::sigaction(arguments));
    }
    if let Some(arguments) = after_console_write(text) {
        return put(call, script::console_write(arguments));
    }
    other_call(version, text, call)
}

/// The arguments of a `sigaction`, where the text begins as one. In two parts: each is compared at
/// once.
fn after_sigaction(text: &[u8]) -> Option<&[u8]>
    ensures { IfSome result (λ rest. text.now ≡ codes "sigaction " ++ rest.now) }
{
    let [b's', b'i', b'g', b'a', b'c', rest @ ..] = text else {
        return None;
    };
    match rest {
        [b't', b'i', b'o', b'n', b' ', arguments @ ..] => Some(arguments),
        _ => None,
    }
}

/// The arguments of a `console_write`, where the text begins as one. In two parts, as
/// `after_sigaction`.
fn after_console_write(text: &[u8]) -> Option<&[u8]>
    ensures { IfSome result (λ rest. text.now ≡ codes "console_write " ++ rest.now) }
{
    let [b'c', b'o', b'n', b's', b'o', b'l', b'e', b'_', rest @ ..] = text else {
        return None;
    };
    match rest {
        [b'w', b'r', b'i', b't', b'e', b' ', arguments @ ..] => Some(arguments),
        _ => None,
    }
}

/// As `named_call`, only by the first word.
fn other_call(version: Version, text: &[u8], call: &mut Call) -> bool
    ensures found { IfSome (then_some result call.new) (SpellsCall version text.now) }
    ensures only { (c : Call) → FitsCall c → IsCallOf version c → 1 ≤ group_of c →
        text.now ≡ call_text c → then_some result call.new ≡ Some c }
{
    match split_word(text) {
        Some((name, arguments)) => memory_call(version, name, arguments, call),
        None => bare_call(text, call),
    }
}
