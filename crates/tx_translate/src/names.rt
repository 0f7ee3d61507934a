//! The names that the lines of a schedule give to processes.
ghost use Rattle.std.specs.Prelude.{◌≡◌, option_map};
ghost use Rattle.std.specs.List.{list_all};
ghost use Rattle.tx_translate.specs.Names.{is_name, is_name_byte, named, named_by, naming_in, naming_of, names_process, process_in};
ghost use Rattle.tx_translate.specs.Words.{words_in};

use crate::spellings::is;
use crate::stage::Stage;
use crate::words::split_word;
use tx_base::Pid;
use tx_lines::{TextKind, read_pid};

/// How many bytes a name may have.
pub const NAME_BYTES: usize = 16;

/// A name that a line gives to a process.
#[derive(Clone, Copy)]
pub struct Naming<'a> {
    /// 1 to 256.
    pub process: Pid,
    /// 1 to 16 letters, digits, `.`, `_`, `+` and `-`.
    pub name: &'a [u8],
}

/// The name that a line of version 3 gives to a process after the header of a schedule: `name`,
/// the number of the process, and its name. Nothing where it is another line.
pub fn naming_in(line: &[u8]) -> Option<Naming<'_>>
    ensures { option_map named result ≡ naming_in line.now }
{
    let (first, others) = split_word(line)?;
    naming_of(first, others)
}

/// Whether a line gives a name to a process at that stage of a text, by its first word and what
/// follows that. Such a line means none.
#[inline(always)] // each line of a text needs it
pub fn names_process(stage: Stage, first: &[u8], others: &[u8]) -> bool
    ensures { result ≡ names_process stage first.now (words_in others.now) }
{
    match stage {
        Stage::Within(TextKind::Schedule) => naming_of(first, others).is_some(),
        Stage::Within(TextKind::Program) | Stage::Heading => false,
    }
}

/// The name that a line gives to a process, by its first word and what follows that.
#[inline(always)] // the first word of most lines is another one
pub fn naming_of<'a>(first: &[u8], others: &'a [u8]) -> Option<Naming<'a>>
    ensures { option_map named result ≡ naming_of first.now (words_in others.now) }
{
    if !is(first, b"name") {
        return None;
    }
    named_by(others)
}

/// The name that a line gives to a process, by what follows its first word.
fn named_by(others: &[u8]) -> Option<Naming<'_>>
    ensures { option_map named result ≡ named_by (words_in others.now) }
{
    let (number, rest) = split_word(others)?;
    let (name, rest) = split_word(rest)?;
    if split_word(rest).is_some() || !is_name(name) {
        return None;
    }
    let process = process_in(number)?;
    Some(Naming { process, name })
}

/// The number of a process, 1 to 256, that a word spells. Nothing where it is another word.
pub fn process_in(word: &[u8]) -> Option<Pid>
    ensures { option_map (λ process. process.0) result ≡ process_in word.now }
{
    let process = read_pid(word)?;
    if process.0 == 0 || process.0 > 256 {
        return None;
    }
    Some(process)
}

/// Whether a word may be a name.
pub fn is_name(word: &[u8]) -> bool
    ensures { result ≡ is_name word.now }
{
    !word.is_empty() && word.len() <= NAME_BYTES && are_name_bytes(word)
}

/// Whether a name may have all these bytes.
fn are_name_bytes(bytes: &[u8]) -> bool
    ensures { result ≡ list_all is_name_byte bytes.now }
{
    bytes.iter().all(|byte| is_name_byte(*byte))
}

/// Whether a name may have a byte.
fn is_name_byte(byte: u8) -> bool
    ensures { result ≡ is_name_byte byte }
{
    byte.is_ascii_alphanumeric() || byte == b'.' || byte == b'_' || byte == b'+' || byte == b'-'
}
