//! Reads the first line of what a text means.
ghost use Rattle.std.specs.Prelude.{◌≡◌, ◌<◌, ◌++◌, ◌∷◌, [], MatchOption, MatchResult, length};
ghost use Rattle.tx_lines.specs.Schedule.{FaultsAtHeader, SpellsHeader};
ghost use Rattle.tx_translate.specs.MeantLines.{left_of};

use arrayvec::ArrayVec;
use tx_lines::{Fault, Header, TextKind, first_header};
use tx_translate::{MeantLines, Room};

/// The header in the first line of what a text means, and the lines after it.
pub fn header_of(kind: TextKind, text: MeantLines<'_>) -> Result<(Header, MeantLines<'_>), Fault>
    ensures { MatchResult result
        (λ r. SpellsHeader kind (left_of text.entry) r.0 (left_of r.1))
        (FaultsAtHeader kind (left_of text.entry)) }
{
    let (line, behind) = text.cut();
    let mut room = Room::new();
    let Some(head) = with_end(line.meaning(&mut room)) else {
        return Err(Fault::TooLong { line: 1 });
    };
    if !line.is_ended {
        return Err(Fault::NotALine { line: 1 });
    }
    match first_header(kind, head.as_slice()) {
        Ok((header, _rest)) => Ok((header, behind)),
        Err(fault) => Err(fault),
    }
}

/// A line with its end. Nothing where the line has more than 512 bytes.
fn with_end(line: &[u8]) -> Option<ArrayVec<u8, 513>>
    ensures { MatchOption result (512 < length line.now) (λ r.
        r.items ≡ line.now ++ 10 ∷ []) }
{
    let mut text = ArrayVec::new();
    text.try_extend_from_slice(line).ok()?;
    text.try_push(b'\n').ok()?;
    Some(text)
}
