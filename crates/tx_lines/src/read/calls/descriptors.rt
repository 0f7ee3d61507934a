//! The arguments of the calls on descriptors.
ghost use Rattle.std.specs.Prelude.{◌≡◌, ◌<◌, ◌++◌, ◌∷◌, Bool, ℤ, codes, FitsSigned, IfSome, Some};
ghost use Rattle.std.specs.Int.{w64};
ghost use Rattle.std.specs.Fmt.{decimal, signed_decimal};
ghost use Rattle.tx_base.specs.declared.names.DescNo.{DescNo};
ghost use Rattle.tx_base.specs.declared.names.PipeNo.{PipeNo};
ghost use Rattle.tx_base.specs.declared.steps.Call.{Call};
ghost use Rattle.tx_lines.specs.Calls.{call_text, pair_text, switch_text, FitsCall};
ghost use Rattle.tx_lines.specs.Lines.{IsCallOf};
ghost use Rattle.tx_lines.specs.declared.read.header.Version.{Version};

use crate::read::leading::split_byte;
use crate::read::small::read_byte;
use crate::read::split::{pair, split_number};
use tx_base::{Call, DescNo, PipeNo};

/// The call that makes a pipe, by the text of its arguments.
pub fn pipe(arguments: &[u8]) -> Option<Call>
    ensures found { IfSome result (λ c. codes "pipe " ++ arguments.now ≡ call_text c) }
    ensures fits { IfSome result FitsCall }
    ensures within { (version : Version) → IfSome result (IsCallOf version) }
    ensures only { (pipe : PipeNo) (read write : DescNo) → FitsCall (Call.Pipe pipe read write) →
        arguments.now ≡ decimal pipe.0 ++ 32 ∷ (decimal read.0 ++ 32 ∷ decimal write.0) →
        result ≡ Some (Call.Pipe pipe read write) }
{
    let (pipe, rest) = split_byte(arguments)?;
    let (read, word) = split_byte(rest)?;
    let write = read_byte(word)?;
    Some(Call::Pipe(PipeNo(pipe), DescNo(read), DescNo(write)))
}

/// The call that gives a description a certain descriptor too, by the text of its arguments.
pub fn dup2(arguments: &[u8]) -> Option<Call>
    ensures found { IfSome result (λ c. codes "dup2 " ++ arguments.now ≡ call_text c) }
    ensures fits { IfSome result FitsCall }
    ensures within { (version : Version) → IfSome result (IsCallOf version) }
    ensures only { (from to : ℤ) → FitsCall (Call.Dup2 from to) →
        arguments.now ≡ pair_text from to → result ≡ Some (Call.Dup2 from to) }
{
    let (from, to) = pair(arguments)?;
    Some(Call::Dup2(from, to))
}

/// The call that makes a description nonblocking or not, by the text of its arguments.
pub fn set_nonblock(arguments: &[u8]) -> Option<Call>
    ensures found { IfSome result (λ c. codes "set_nonblock " ++ arguments.now ≡ call_text c) }
    ensures fits { IfSome result FitsCall }
    ensures within { (version : Version) → IfSome result (IsCallOf version) }
    ensures only { (fd : ℤ) (on : Bool) → FitsSigned w64 fd →
        arguments.now ≡ signed_decimal fd ++ 32 ∷ switch_text on →
        result ≡ Some (Call.SetNonblock fd on) }
{
    let (fd, word) = split_number(arguments)?;
    Some(Call::SetNonblock(fd, switch(word)?))
}

/// Whether something is on.
fn switch(word: &[u8]) -> Option<bool>
    ensures found { IfSome result (λ on. word.now ≡ switch_text on) }
    ensures only { (on : Bool) → word.now ≡ switch_text on → result ≡ Some on }
{
    match word {
        b"on" => Some(true),
        b"off" => Some(false),
        _ => None,
    }
}
