//! The arguments of the calls that make, end and wait for processes.
ghost use Rattle.std.specs.Prelude.{◌≡◌, ◌++◌, ◌∷◌, Bool, ℤ, codes, FitsSigned, IfSome, Some};
ghost use Rattle.std.specs.Int.{w64};
ghost use Rattle.std.specs.Fmt.{signed_decimal};
ghost use Rattle.tx_base.specs.declared.steps.Call.{Call};
ghost use Rattle.tx_lines.specs.Calls.{call_text, waiting_text, FitsCall};
ghost use Rattle.tx_lines.specs.Lines.{IsCallOf};
ghost use Rattle.tx_lines.specs.declared.read.header.Version.{Version};

use crate::read::split::split_number;
use tx_base::Call;

/// The call that waits for a child, by the text of its arguments.
pub fn waitpid(arguments: &[u8]) -> Option<Call>
    ensures found { IfSome result (λ c. codes "waitpid " ++ arguments.now ≡ call_text c) }
    ensures fits { IfSome result FitsCall }
    ensures within { (version : Version) → IfSome result (IsCallOf version) }
    ensures only { (target : ℤ) (nohang : Bool) → FitsSigned w64 target →
        arguments.now ≡ signed_decimal target ++ 32 ∷ waiting_text nohang →
        result ≡ Some (Call.Waitpid target nohang) }
{
    let (target, word) = split_number(arguments)?;
    Some(Call::Waitpid(target, nohang(word)?))
}

/// Whether a call does not wait for a child.
fn nohang(word: &[u8]) -> Option<bool>
    ensures found { IfSome result (λ nohang. word.now ≡ waiting_text nohang) }
    ensures only { (nohang : Bool) → word.now ≡ waiting_text nohang → result ≡ Some nohang }
{
    match word {
        b"wait" => Some(false),
        b"nohang" => Some(true),
        _ => None,
    }
}
