//! What a line means.
ghost use Rattle.std.specs.Prelude.{◌≡◌, ◌≢◌, ◌++◌, [], ℕ, IfOk, IfSome, List, MatchOption, option_map};
ghost use Rattle.tx_lines.specs.declared.read.header.TextKind.TheVariants.{Schedule};
ghost use Rattle.tx_translate.specs.Lines.{plain_line};
ghost use Rattle.tx_translate.specs.Names.{named};
ghost use Rattle.tx_translate.specs.OwnLines.{without_return};
ghost use Rattle.tx_translate.specs.declared.stage.Stage.TheVariants.{Within};
ghost use Rattle.tx_shell.specs.Meanings.{after_word, asks_of_step, bytes_of, first_word, meant_line, naming_words, own_line, spelled_line, third_line, usual_words, with_step};

use crate::lines::versions::TextVersion;
use std::alloc::Global;
use tx_base::NoMemory;
use tx_lines::{LINE_BYTES, take_line};
use tx_translate::{Naming, Room, naming_in, plain_line, split_word};

/// What a line means, as a line of version 1 or 2.
#[derive(Drop)]
pub enum Words<'a> {
    /// It is in the line itself, or in the room of its caller.
    Lent(&'a [u8]),
    /// It was put together.
    Made(Vec<u8>),
}

impl Words<'_> {
    /// The bytes that are meant.
    pub fn as_bytes(&self) -> &[u8]
        ensures { result.now ≡ bytes_of self.now }
    {
        match self {
            Words::Lent(bytes) => bytes,
            Words::Made(bytes) => bytes.as_slice(),
        }
    }
}

/// What a line of that version means, as a line of version 1 or 2. Nothing where it is one of
/// version 3 and has no word. It is put into the room where it is spelled otherwise.
///
/// NoMemory where a growth is refused.
pub fn meant_line<'a>(
    alloc: Global,
    room: &'a mut Room,
    version: TextVersion,
    line: &'a [u8],
) -> Result<Option<Words<'a>>, NoMemory>
    ensures { IfOk result (λ meant. option_map bytes_of meant ≡ meant_line version line.now) }
{
    Ok(spelled_line(alloc, room, version, line)?.map(usual_words))
}

/// The usual words for what these ask for.
fn usual_words(words: Words<'_>) -> Words<'_>
    ensures { bytes_of result ≡ usual_words (bytes_of words.entry) }
{
    match words.as_bytes() {
        b"exit" => Words::Lent(b"quit"),
        b"?" => Words::Lent(b"help"),
        _ => words,
    }
}

/// What a line of that version spells, as a line of version 1 or 2. Nothing where it is one of
/// version 3 and has no word.
fn spelled_line<'a>(
    alloc: Global,
    room: &'a mut Room,
    version: TextVersion,
    line: &'a [u8],
) -> Result<Option<Words<'a>>, NoMemory>
    ensures { IfOk result (λ meant. option_map bytes_of meant ≡ spelled_line version line.now) }
{
    let (first, _after) = take_line(line);
    match version {
        TextVersion::One | TextVersion::Two => Ok(Some(Words::Lent(first))),
        TextVersion::Three => third_words(alloc, room, first),
    }
}

/// What a line of version 3 means: after `try` and `why` a step as a line of its own, and itself
/// where it gives a name to a process. Nothing where it has no word.
fn third_words<'a>(
    alloc: Global,
    room: &'a mut Room,
    line: &'a [u8],
) -> Result<Option<Words<'a>>, NoMemory>
    ensures { IfOk result (λ meant. option_map bytes_of meant ≡ third_line line.now) }
{
    if line.len() <= LINE_BYTES
        && let Some((word, step)) = split_first(line)
        && asks_of_step(word)
    {
        return Ok(Some(Words::Made(with_step(alloc, room, word, step)?)));
    }
    plain_words(alloc, room, line)
}

/// The first word of a line, and what is left of the line after it. Nothing where there is no word.
#[tactic(auto, using(crate::proofs::FirstWords::left_after))]
fn split_first(line: &[u8]) -> Option<(&[u8], &[u8])>
    ensures word { MatchOption result (first_word line.now ≡ [])
        (λ r. first_word line.now ≡ r.0.now) }
    ensures rest { IfSome result (λ r. after_word line.now ≡ r.1.now) }
{
    split_word(line)
}

/// Whether a word asks about the step after it.
fn asks_of_step(word: &[u8]) -> bool
    ensures { result ≡ asks_of_step word.now }
{
    word == b"try".as_slice() || word == b"why".as_slice()
}

/// What a line means that has this step after a word. The step is put into the room where it is
/// spelled otherwise.
fn with_step(alloc: Global, room: &mut Room, word: &[u8], step: &[u8]) -> Result<Vec<u8>, NoMemory>
    ensures { IfOk result (λ words. words.items
        ≡ with_step word.now (plain_line (Within Schedule) (without_return step.now))) }
{
    let mut words = Vec::from_slice(alloc, word)?;
    if let Some(plain) = plain_line(room, step) {
        words.push(b' ')?;
        words.extend_from_slice(plain)?;
    }
    Ok(words)
}

/// What a line of version 3 means that does not ask about a step. Nothing where it has no word.
fn plain_words<'a>(
    alloc: Global,
    room: &'a mut Room,
    line: &'a [u8],
) -> Result<Option<Words<'a>>, NoMemory>
    ensures { IfOk result (λ meant.
        option_map bytes_of meant ≡ own_line (without_return line.now)) }
{
    if let Some(plain) = plain_line(room, line) {
        return Ok(Some(Words::Lent(plain)));
    }
    match naming_in(before_return(line)) {
        Some(naming) => Ok(Some(Words::Made(naming_words(alloc, naming)?))),
        None => Ok(None),
    }
}

/// The words that give a name to a process, with a space between them.
fn naming_words(alloc: Global, naming: Naming<'_>) -> Result<Vec<u8>, NoMemory>
    ensures { IfOk result (λ words. words.items ≡ naming_words (named naming.entry)) }
{
    let front = format!(in alloc; "name {} ", naming.process.0)?;
    let mut words = front.into_bytes();
    words.extend_from_slice(naming.name)?;
    Ok(words)
}

/// A line without the byte 13 at its end, where it has one.
fn before_return(line: &[u8]) -> &[u8]
    ensures { result.now ≡ without_return line.now }
{
    match before_end(b"\r", line) {
        Some(front) => front,
        None => line,
    }
}

/// What is before that end of a line. Nothing where the line does not end so.
fn before_end<'a>(end: &[u8], line: &'a [u8]) -> Option<&'a [u8]>
    ensures { MatchOption result ((front : List ℕ) → line.now ≢ front ++ end.now) (λ front.
        line.now ≡ front.now ++ end.now) }
{
    line.strip_suffix(end)
}
