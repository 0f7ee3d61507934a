//! Whether a text is right, by reading it once.
ghost use Rattle.std.specs.Prelude.{◌≡◌, IfSome};
ghost use Rattle.tx_check.specs.Kinds.{kind_of};
ghost use Rattle.tx_check.specs.Reads.{IsRead};
ghost use Rattle.tx_translate.specs.Meant.{meant_of};

use crate::kinds::Kind;
use std::alloc::Global;
use tx_translate::{Text, read_text};

/// The kind of a text that the command of its kind reads. Nothing where the text is at fault, or
/// where the reader was refused memory.
pub fn right_kind(alloc: Global, text: &[u8]) -> Option<Kind>
    ensures own { IfSome result (λ kind. kind ≡ kind_of (meant_of text.now)) }
    ensures read { IfSome result (λ kind. IsRead kind (meant_of text.now)) }
{
    match read_text(alloc, text) {
        Ok(Some(Text::Schedule(_schedule))) => Some(Kind::Schedule),
        Ok(Some(Text::Walk(_walk))) => Some(Kind::Walk),
        Ok(Some(Text::Program(_program))) => Some(Kind::Program),
        Ok(None) | Err(_) => None,
    }
}
