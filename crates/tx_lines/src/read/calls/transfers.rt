//! The arguments of the calls that move bytes between memory and pipes.
ghost use Rattle.std.specs.Prelude.{◌≡◌, ◌++◌, ℤ, codes, IfSome, Some};
ghost use Rattle.tx_base.specs.declared.steps.Call.{Call};
ghost use Rattle.tx_lines.specs.Calls.{call_text, triple_text, FitsCall};
ghost use Rattle.tx_lines.specs.Lines.{IsCallOf};
ghost use Rattle.tx_lines.specs.declared.read.header.Version.{Version};

use crate::read::split::triple;
use tx_base::Call;

/// The call that reads from a descriptor, by the text of its arguments.
pub fn read(arguments: &[u8]) -> Option<Call>
    ensures found { IfSome result (λ c. codes "read " ++ arguments.now ≡ call_text c) }
    ensures fits { IfSome result FitsCall }
    ensures within { (version : Version) → IfSome result (IsCallOf version) }
    ensures only { (fd address count : ℤ) → FitsCall (Call.Read fd address count) →
        arguments.now ≡ triple_text fd address count → result ≡ Some (Call.Read fd address count) }
{
    let (fd, address, count) = triple(arguments)?;
    Some(Call::Read(fd, address, count))
}

/// The call that writes to a descriptor, by the text of its arguments.
pub fn write(arguments: &[u8]) -> Option<Call>
    ensures found { IfSome result (λ c. codes "write " ++ arguments.now ≡ call_text c) }
    ensures fits { IfSome result FitsCall }
    ensures within { (version : Version) → IfSome result (IsCallOf version) }
    ensures only { (fd address count : ℤ) → FitsCall (Call.Write fd address count) →
        arguments.now ≡ triple_text fd address count → result ≡ Some (Call.Write fd address count) }
{
    let (fd, address, count) = triple(arguments)?;
    Some(Call::Write(fd, address, count))
}
