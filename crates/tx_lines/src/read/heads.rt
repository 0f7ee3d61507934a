//! Reads the first line of a text.
ghost use Rattle.std.specs.Prelude.{◌≡◌, ◌<◌, ◌≤◌, IfSome, MatchResult, Some};
ghost use Rattle.std.specs.Fmt.{decimal};
ghost use Rattle.tx_base.specs.declared.names.Pid.{Pid};
ghost use Rattle.tx_lines.specs.declared.read.header.Header.{Header};
ghost use Rattle.tx_lines.specs.Lines.{header_front, header_text, most_of, FitsHeader};
ghost use Rattle.tx_lines.specs.Schedule.{FaultsAtHeader, SpellsHeader};

use crate::faults::Fault;
use crate::read::header::{Header, TextKind, Version};
use crate::read::lines::line_of;
use crate::read::small::read_pid;
use crate::read::split::after_front;
use tx_base::{PROCESSES, Pid, WIDE_PROCESSES};

/// The header in the first line of a text of that kind, and the text after that line.
pub fn first_header(kind: TextKind, text: &[u8]) -> Result<(Header, &[u8]), Fault>
    ensures { MatchResult result (λ r. SpellsHeader kind text.now r.0 r.1.now)
        (FaultsAtHeader kind text.now) }
{
    let (line, rest) = line_of(1, text)?;
    match read_header(kind, line) {
        Some(header) => Ok((header, rest)),
        None => Err(Fault::NotALine { line: 1 }),
    }
}

/// The header of that kind that a line spells. Nothing where it is another line.
fn read_header(kind: TextKind, line: &[u8]) -> Option<Header>
    ensures found { IfSome result (λ h. line.now ≡ header_text kind h) }
    ensures fits { IfSome result FitsHeader }
    ensures only { (h : Header) → FitsHeader h → line.now ≡ header_text kind h → result ≡ Some h }
{
    read_of(kind, Version::One, line).or_else(|| read_of(kind, Version::Two, line))
}

/// The header of that kind and version that a line spells.
fn read_of(kind: TextKind, version: Version, line: &[u8]) -> Option<Header>
    ensures found { IfSome result (λ h. line.now ≡ header_text kind h) }
    ensures fits { IfSome result FitsHeader }
    ensures same { IfSome result (λ h. h.version ≡ version) }
    ensures only { (h : Header) → h.version ≡ version → FitsHeader h →
        line.now ≡ header_text kind h → result ≡ Some h }
{
    let word = after_front(front(kind, version), line)?;
    let count = read_count(word, most(version))?;
    Some(Header { version, count })
}

/// The text before the number in a header.
fn front(kind: TextKind, version: Version) -> &'static [u8]
    ensures { result.now ≡ header_front kind version }
{
    match (kind, version) {
        (TextKind::Schedule, Version::One) => b"txos 1 schedule ",
        (TextKind::Schedule, Version::Two) => b"txos 2 schedule ",
        (TextKind::Program, Version::One) => b"txos 1 program ",
        (TextKind::Program, Version::Two) => b"txos 2 program ",
    }
}

/// The most processes that a text of that version begins with.
fn most(version: Version) -> u16
    ensures { result ≡ most_of version }
{
    match version {
        Version::One => PROCESSES,
        Version::Two => WIDE_PROCESSES,
    }
}

/// The number that a word spells, from 1 to so many.
fn read_count(word: &[u8], most: u16) -> Option<u16>
    ensures found { IfSome result (λ n. word.now ≡ decimal n) }
    ensures above { IfSome result (λ n. 0 < n) }
    ensures below { IfSome result (λ n. n ≤ most) }
    ensures only { (p : Pid) → 0 < p.0 → p.0 ≤ most → word.now ≡ decimal p.0 → result ≡ Some p.0 }
{
    let Pid(count) = read_pid(word)?;
    if count == 0 {
        return None;
    }
    if count > most {
        return None;
    }
    Some(count)
}
