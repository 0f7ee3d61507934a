//! Puts a line as version 2 spells it.
ghost use Rattle.std.specs.Prelude.{◌≡◌, ◌∷◌, ◌++◌, OnErr, OnOk, option_map};
ghost use Rattle.tx_translate.specs.Lines.{kind_of, line_of_words, plain_arguments, plain_call, plain_line, plain_others, plain_version, spaced, stage_after};
ghost use Rattle.tx_translate.specs.Roles.{plain_word};
ghost use Rattle.tx_translate.specs.Rooms.{IsOver};
ghost use Rattle.tx_translate.specs.Words.{words_in};
ghost use Rattle.tx_translate.specs.declared.stage.Stage.TheVariants.{Heading};

use crate::arguments::put_argument;
use crate::names::names_process;
use crate::roles::{Role, role_of};
use crate::room::{Full, Room, put, put_byte};
use crate::spellings::is;
use crate::stage::Stage;
use crate::words::split_word;
use tx_lines::{LINE_BYTES, TextKind};

/// The line of version 2 that a line means at that stage of a text; nothing where it has no word,
/// or gives a name to a process. What is wrong stays as it is; so does a line that is too long, or
/// would become so, as a whole. A line that is spelled otherwise replaces what was in the room.
pub fn line_meaning<'a>(room: &'a mut Room, stage: Stage, line: &'a [u8]) -> Option<&'a [u8]>
    ensures { option_map (λ meaning. meaning.now) result ≡ plain_line stage line.now }
{
    if line.len() > LINE_BYTES {
        return Some(line);
    }
    let (first, others) = split_word(line)?;
    if names_process(stage, first, others) {
        return None;
    }
    room.clear();
    if let Err(_full) = put_line(room, stage, first, others) {
        return Some(line);
    }
    Some(room.as_slice())
}

/// The stage of a text after a line.
#[inline(always)] // after its header a text stays at its stage
pub fn stage_after(stage: Stage, line: &[u8]) -> Stage
    ensures { result ≡ stage_after stage (words_in line.now) }
{
    match stage {
        Stage::Within(kind) => Stage::Within(kind),
        Stage::Heading => stage_after_heading(line),
    }
}

/// The stage of a text after a line before which none has a word.
fn stage_after_heading(line: &[u8]) -> Stage
    ensures { result ≡ stage_after Heading (words_in line.now) }
{
    match split_word(line) {
        Some((_, others)) => Stage::Within(kind_of(others)),
        None => Stage::Heading,
    }
}

/// The kind of a text, by what follows the first word of its header.
fn kind_of(others: &[u8]) -> TextKind
    ensures { result ≡ kind_of (words_in others.now) }
{
    if let Some((_, kinds)) = split_word(others)
        && let Some((kind, _)) = split_word(kinds)
        && is(kind, b"program")
    {
        return TextKind::Program;
    }
    TextKind::Schedule
}

/// Appends the line of version 2 that a line means, by its first word and what follows that.
fn put_line(room: &mut Room, stage: Stage, first: &[u8], others: &[u8]) -> Result<(), Full>
    ensures put { OnOk result (room.new.items
        ≡ room.old.items ++ line_of_words stage first.now (words_in others.now)) }
    ensures full { OnErr result (IsOver
        (room.old.items ++ line_of_words stage first.now (words_in others.now))) }
{
    put(room, first)?;
    put_others(room, stage, first, others)
}

/// Appends what follows the first word of a line, with a space before each word.
fn put_others(room: &mut Room, stage: Stage, first: &[u8], others: &[u8]) -> Result<(), Full>
    ensures put { OnOk result (room.new.items
        ≡ room.old.items ++ spaced (plain_others stage first.now (words_in others.now))) }
    ensures full { OnErr result (IsOver
        (room.old.items ++ spaced (plain_others stage first.now (words_in others.now)))) }
{
    match stage {
        Stage::Heading => put_version(room, others),
        Stage::Within(TextKind::Program) => put_arguments(room, first, others),
        Stage::Within(TextKind::Schedule) => put_call(room, others),
    }
}

/// Appends what follows the first word of a header.
fn put_version(room: &mut Room, others: &[u8]) -> Result<(), Full>
    ensures put { OnOk result
        (room.new.items ≡ room.old.items ++ spaced (plain_version (words_in others.now))) }
    ensures full { OnErr result
        (IsOver (room.old.items ++ spaced (plain_version (words_in others.now)))) }
{
    let Some((_, rest)) = split_word(others) else {
        return Ok(());
    };
    put(room, b" 2")?;
    put_words(room, rest)
}

/// Appends words as they are.
fn put_words(room: &mut Room, words: &[u8]) -> Result<(), Full>
    ensures put { OnOk result (room.new.items ≡ room.old.items ++ spaced (words_in words.now)) }
    ensures full { OnErr result (IsOver (room.old.items ++ spaced (words_in words.now))) }
{
    let mut left = words;
    while let Some((word, rest)) = split_word(left) {
        put_word(room, word)?;
        left = rest;
    }
    Ok(())
}

/// Appends a word as it is.
fn put_word(room: &mut Room, word: &[u8]) -> Result<(), Full>
    ensures put { OnOk result (room.new.items ≡ room.old.items ++ 32 ∷ word.now) }
    ensures full { OnErr result (IsOver (room.old.items ++ 32 ∷ word.now)) }
{
    put_byte(room, b' ')?;
    put(room, word)
}

/// Appends a call: its name, and its arguments.
fn put_call(room: &mut Room, call: &[u8]) -> Result<(), Full>
    ensures put { OnOk result
        (room.new.items ≡ room.old.items ++ spaced (plain_call (words_in call.now))) }
    ensures full { OnErr result
        (IsOver (room.old.items ++ spaced (plain_call (words_in call.now)))) }
{
    let Some((name, arguments)) = split_word(call) else {
        return Ok(());
    };
    put_word(room, name)?;
    put_arguments(room, name, arguments)
}

/// Appends the arguments of the call of that name.
#[inline(always)] // it has two callers, and each line of a text needs one of them
fn put_arguments(room: &mut Room, name: &[u8], arguments: &[u8]) -> Result<(), Full>
    ensures put { OnOk result (room.new.items
        ≡ room.old.items ++ spaced (plain_arguments name.now 0 (words_in arguments.now))) }
    ensures full { OnErr result (IsOver
        (room.old.items ++ spaced (plain_arguments name.now 0 (words_in arguments.now)))) }
{
    let mut place = 0;
    let mut left = arguments;
    while let Some((word, rest)) = split_word(left) {
        put_next_argument(room, role_of(name, place), word)?;
        place += 1;
        left = rest;
    }
    Ok(())
}

/// Appends an argument as version 2 spells it, by its role, with a space before it.
fn put_next_argument(room: &mut Room, role: Role, word: &[u8]) -> Result<(), Full>
    ensures put { OnOk result (room.new.items ≡ room.old.items ++ 32 ∷ plain_word role word.now) }
    ensures full { OnErr result (IsOver (room.old.items ++ 32 ∷ plain_word role word.now)) }
{
    put_byte(room, b' ')?;
    put_argument(room, role, word)
}
