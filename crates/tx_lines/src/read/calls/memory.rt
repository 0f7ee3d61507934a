//! The arguments of the calls on memory.
ghost use Rattle.std.specs.Prelude.{◌≡◌, ◌++◌, ◌∷◌, Bool, ℕ, ℤ, codes, FitsSigned, IfSome, Some};
ghost use Rattle.std.specs.Bool.{then_some};
ghost use Rattle.std.specs.Int.{w64};
ghost use Rattle.std.specs.Fmt.{signed_decimal};
ghost use Rattle.arrayvec.specs.ArrayVec.{ArrayVec};
ghost use Rattle.hex.specs.Hex.{encode_lower};
ghost use Rattle.tx_base.specs.declared.steps.Call.{Call};
ghost use Rattle.tx_lines.specs.Calls.{access_text, call_text, FitsCall};
ghost use Rattle.tx_lines.specs.Lines.{IsCallOf};
ghost use Rattle.tx_lines.specs.declared.read.header.Version.{Version};

use crate::read::byte_words::read_bytes;
use crate::read::split::split_number;
use tx_base::Call;

/// The call that says whether a page may be written, by the text of its arguments.
pub fn protect(arguments: &[u8], call: &mut Call) -> bool
    ensures found { IfSome (then_some result call.new) (λ c.
        codes "protect " ++ arguments.now ≡ call_text c) }
    ensures fits { IfSome (then_some result call.new) FitsCall }
    ensures within { (version : Version) → IfSome (then_some result call.new) (IsCallOf version) }
    ensures only { (page : ℤ) (writable : Bool) → FitsSigned w64 page →
        arguments.now ≡ signed_decimal page ++ 32 ∷ access_text writable →
        then_some result call.new ≡ Some (Call.Protect page writable) }
{
    let Some((page, word)) = split_number(arguments) else {
        return false;
    };
    let Some(writable) = access(word) else {
        return false;
    };
    *call = Call::Protect(page, writable);
    true
}

/// What may be done with a page: whether it may be written.
fn access(word: &[u8]) -> Option<bool>
    ensures found { IfSome result (λ w. word.now ≡ access_text w) }
    ensures only { (w : Bool) → word.now ≡ access_text w → result ≡ Some w }
{
    match word {
        b"r" => Some(false),
        b"rw" => Some(true),
        _ => None,
    }
}

/// The call that stores bytes, by the text of its arguments.
#[inline(always)] // only `read_call` calls it, and is itself inlined
pub fn store(arguments: &[u8], call: &mut Call) -> bool
    ensures found { IfSome (then_some result call.new) (λ c.
        codes "store " ++ arguments.now ≡ call_text c) }
    ensures fits { IfSome (then_some result call.new) FitsCall }
    ensures within { (version : Version) → IfSome (then_some result call.new) (IsCallOf version) }
    ensures only { (address : ℤ) (bytes : ArrayVec ℕ) → FitsCall (Call.Store address bytes) →
        arguments.now ≡ signed_decimal address ++ 32 ∷ encode_lower bytes.items →
        then_some result call.new ≡ Some (Call.Store address bytes) }
{
    let Some((address, word)) = split_number(arguments) else {
        return false;
    };
    *call = Call::Store(address, arrayvec::ArrayVec::new());
    match call {
        Call::Store(_, bytes) => read_bytes(word, bytes),
        _ => false,
    }
}
