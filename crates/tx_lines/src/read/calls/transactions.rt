//! The calls of transactions.
ghost use Rattle.std.specs.Prelude.{◌≡◌, ◌++◌, codes, IfSome, Some};
ghost use Rattle.std.specs.Bool.{then_some};
ghost use Rattle.tx_base.specs.declared.steps.Call.{Call};
ghost use Rattle.tx_lines.specs.Calls.{call_text};
ghost use Rattle.tx_lines.specs.Lines.{IsCallOf, SpellsCall};
ghost use Rattle.tx_lines.specs.declared.read.header.Version.{Version};

use crate::read::calls::place::put;
use crate::read::header::Version;
use crate::read::split::after_front;
use tx_base::Call;

/// Reads the call of transactions whose text goes on so after `sys_x`. Returns whether there is
/// one.
#[inline(always)] // as `store`
pub fn transaction_call(version: Version, word: &[u8], call: &mut Call) -> bool
    ensures found { IfSome (then_some result call.new)
        (SpellsCall version (codes "sys_x" ++ word.now)) }
    ensures only { (c : Call) → IsCallOf version c → codes "sys_x" ++ word.now ≡ call_text c →
        then_some result call.new ≡ Some c }
{
    if let Some(rest) = after_front(b"begin", word) {
        return begin(version, rest, call);
    }
    if let Some(rest) = after_front(b"abort", word) {
        return rest.is_empty() && put(call, Some(Call::SysXabort));
    }
    word == b"end".as_slice() && put(call, Some(Call::SysXend))
}

/// Reads the call that begins a transaction and whose text goes on so. Returns whether there is
/// one.
fn begin(version: Version, rest: &[u8], call: &mut Call) -> bool
    ensures found { IfSome (then_some result call.new)
        (SpellsCall version (codes "sys_xbegin" ++ rest.now)) }
    ensures only { (c : Call) → IsCallOf version c → codes "sys_xbegin" ++ rest.now ≡ call_text c →
        then_some result call.new ≡ Some c }
{
    if rest.is_empty() {
        return put(call, Some(Call::SysXbegin));
    }
    match version {
        Version::One => false,
        Version::Two => rest == b" defer".as_slice() && put(call, Some(Call::SysXbeginDefer)),
    }
}
