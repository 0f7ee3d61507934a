//! The arguments of the calls of a script, and on the console.
ghost use Rattle.std.specs.Prelude.{◌≡◌, ◌<◌, ◌++◌, ◌∷◌, ℕ, ℤ, codes, IfSome, Some};
ghost use Rattle.std.specs.Fmt.{decimal};
ghost use Rattle.tx_base.specs.declared.steps.Call.{Call};
ghost use Rattle.tx_base.specs.declared.steps.When.{When};
ghost use Rattle.tx_lines.specs.Calls.{call_text, pair_text, when_text, FitsCall, FitsWhen};
ghost use Rattle.tx_lines.specs.Lines.{IsCallOf};
ghost use Rattle.tx_lines.specs.declared.read.header.Version.{Version};

use crate::read::leading::split_point;
use crate::read::numbers::number;
use crate::read::split::{after_front, pair};
use tx_base::{Call, When};

/// The call that shows bytes, by the text of its arguments.
pub fn console_write(arguments: &[u8]) -> Option<Call>
    ensures found { IfSome result (λ c. codes "console_write " ++ arguments.now ≡ call_text c) }
    ensures fits { IfSome result FitsCall }
    ensures within { (version : Version) → IfSome result (IsCallOf version) }
    ensures only { (address count : ℤ) → FitsCall (Call.ConsoleWrite address count) →
        arguments.now ≡ pair_text address count → result ≡ Some (Call.ConsoleWrite address count) }
{
    let (address, count) = pair(arguments)?;
    Some(Call::ConsoleWrite(address, count))
}

/// The call that goes on at another point, by the text of its arguments.
pub fn jump(arguments: &[u8]) -> Option<Call>
    ensures found { IfSome result (λ c. codes "jump " ++ arguments.now ≡ call_text c) }
    ensures fits { IfSome result FitsCall }
    ensures within { (version : Version) → IfSome result (IsCallOf version) }
    ensures only { (point : ℕ) (when : When) → FitsCall (Call.Jump point when) →
        arguments.now ≡ decimal point ++ 32 ∷ when_text when →
        result ≡ Some (Call.Jump point when) }
{
    let (point, text) = split_point(arguments)?;
    Some(Call::Jump(point, when(text)?))
}

/// When a jump is made.
fn when(text: &[u8]) -> Option<When>
    ensures found { IfSome result (λ when. text.now ≡ when_text when) }
    ensures fits { IfSome result FitsWhen }
    ensures only { (when : When) → FitsWhen when → text.now ≡ when_text when → result ≡ Some when }
{
    match text {
        b"always" => Some(When::Always),
        _ => number(after_front(b"if ", text)?).map(When::IfRet),
    }
}
