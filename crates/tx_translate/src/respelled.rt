//! Reads a step that version 3 spells nearly as version 2 does, without translating each word: two
//! spaces follow its first word, or only its last word is a string or the name of a signal.
ghost use Rattle.std.specs.Prelude.{◌≡◌, ◌≢◌, ◌≤◌, ◌++◌, ◌∷◌, [], ℕ, List, IfSome, IsTrue, MatchOption, OnOk, Some, codes, false, length, option_map};
ghost use Rattle.std.specs.Bool.{then_some};
ghost use Rattle.hex.specs.Hex.{encode_lower};
ghost use Rattle.tx_lines.specs.Arguments.Argument.{Bytes};
ghost use Rattle.tx_lines.specs.Arguments.{FitsArgument};
ghost use Rattle.tx_lines.specs.Lines.{step_text};
ghost use Rattle.tx_lines.specs.Schedule.{FitsStepOf};
ghost use Rattle.tx_lines.specs.declared.read.header.TextKind.TheVariants.{Schedule};
ghost use Rattle.tx_translate.specs.ByteWords.{plain_bytes};
ghost use Rattle.tx_translate.specs.Lines.{plain_line};
ghost use Rattle.tx_translate.specs.Respelled.{spaced_byte, squeezed, IsRespelled};
ghost use Rattle.tx_translate.specs.declared.stage.Stage.TheVariants.{Within};

use crate::reading::is_blank;
use crate::room::{Full, Room, put, put_byte};
use crate::signals::named;
use crate::strings::meant;
use crate::words::{from_word, split_word};
use arrayvec::ArrayVec;
use tx_base::{Call, Signo, Step};
use tx_lines::{LINE_BYTES, Version, read_step_into};

/// How many bytes may precede a last word: the most that a line of version 2 has, without those of
/// the longest store.
const FRONT_BYTES: usize = LINE_BYTES - 128;

/// A last word of version 2 in place of each that is read here.
const LAST: &[u8] = b"10";

/// Reads the step that a line of a schedule means, where the line is spelled so. Returns whether
/// it is.
pub fn read_respelled(version: Version, line: &[u8], room: &mut Room, step: &mut Step) -> bool
    ensures found { IfSome (then_some result step.new) (λ s.
        plain_line (Within Schedule) line.now ≡ Some (step_text s)) }
    ensures fits { IfSome (then_some result step.new) (FitsStepOf version) }
{
    if line.len() > LINE_BYTES {
        return false;
    }
    match line {
        [_, b' ', b' ', ..] => read_squeezed(version, line, room, step),
        [.., b'"'] => match line.iter().position(|byte| *byte == b'"') {
            Some(at) => read_last_word(version, line, at, room, step),
            None => false,
        },
        [.., before, _] if before.is_ascii_uppercase() => {
            match line.iter().rposition(|byte| *byte == b' ') {
                Some(at) => read_last_word(version, line, at + 1, room, step),
                None => false,
            }
        }
        _ => false,
    }
}

/// The same where the word that begins at that byte is the last, and a string or the name of a
/// signal.
fn read_last_word(
    version: Version,
    line: &[u8],
    at: usize,
    room: &mut Room,
    step: &mut Step,
) -> bool
    requires short { length line.now ≤ 512 }
    requires inside { at ≤ length line.now }
    ensures found { IfSome (then_some result step.new) (λ s.
        plain_line (Within Schedule) line.now ≡ Some (step_text s)) }
    ensures fits { IfSome (then_some result step.new) (FitsStepOf version) }
{
    let (front, last) = line.split_at(at);
    let Some((word, rest)) = split_word(last) else {
        return false;
    };
    if !may_be_front(front) || !rest.is_empty() || put_front(room, front).is_err() {
        return false;
    }
    read_step_into(version, room.as_slice(), step) && put_last(step, word)
}

/// Puts what a word means in place of the last argument of a step. Returns whether it means one
/// there.
fn put_last(step: &mut Step, word: &[u8]) -> bool
    ensures { IfSome (then_some result step.new) (IsRespelled word.now step.old) }
{
    match with_last(step, word) {
        Some(changed) => {
            *step = changed;
            true
        }
        None => false,
    }
}

/// Whether a front may be that of a store, a kill or a delivery: it ends with a number or with
/// `deliver`, and a space.
fn may_be_front(front: &[u8]) -> bool
    ensures space { IsTrue result → (words : List ℕ) × (front.now ≡ words ++ 32 ∷ []) }
    ensures short { IsTrue result → length front.now ≤ 384 }
{
    match before_space(front) {
        Some([.., byte]) if front.len() <= FRONT_BYTES => byte.is_ascii_digit() || *byte == b'r',
        _ => false,
    }
}

/// What is before the space with which a front ends.
fn before_space(front: &[u8]) -> Option<&[u8]>
    ensures { MatchOption result ((words : List ℕ) → front.now ≢ words ++ 32 ∷ []) (λ words.
        front.now ≡ words.now ++ 32 ∷ []) }
{
    front.strip_suffix(b" ")
}

/// Puts the front of a line in place of what the room had, and a last word after it.
fn put_front(room: &mut Room, front: &[u8]) -> Result<(), Full>
    ensures { OnOk result (room.new.items ≡ front.now ++ codes "10") }
{
    room.clear();
    put(room, front)?;
    put(room, LAST)
}

/// The step with what a word means in place of its last argument: in a store a string, in a kill
/// or a delivery the name of a signal. Nothing where the word does not mean that, or for another
/// step.
fn with_last(step: &Step, word: &[u8]) -> Option<Step>
    ensures { IfSome result (IsRespelled word.now step.now) }
{
    match step {
        Step::Call(pid, Call::Store(address, _)) => {
            Some(Step::Call(*pid, Call::Store(*address, bytes_of(word)?)))
        }
        Step::Call(pid, Call::Kill(target, _)) => {
            let signo = named(word)?;
            Some(Step::Call(*pid, Call::Kill(*target, i64::from(signo))))
        }
        Step::Deliver(pid, _) => Some(Step::Deliver(*pid, Signo(named(word)?))),
        _ => None,
    }
}

/// The bytes that a string means, by its whole word.
fn bytes_of(word: &[u8]) -> Option<ArrayVec<u8, 64>>
    ensures plain { IfSome result (λ bytes. plain_bytes word.now ≡ encode_lower bytes.items) }
    ensures fits { IfSome result (λ bytes. FitsArgument (Bytes bytes.items)) }
{
    match word {
        [b'"', string @ ..] => meant(string),
        _ => None,
    }
}

/// The same where only other blanks separate the words.
fn read_squeezed(version: Version, line: &[u8], room: &mut Room, step: &mut Step) -> bool
    requires { length line.now ≤ 512 }
    ensures found { IfSome (then_some result step.new) (λ s.
        plain_line (Within Schedule) line.now ≡ Some (step_text s)) }
    ensures fits { IfSome (then_some result step.new) (FitsStepOf version) }
{
    room.clear();
    put_squeezed(room, from_word(line)) && read_step_into(version, room.as_slice(), step)
}

/// Appends the words of a line that begins with one, up to a comment, with a space between each
/// two. Returns whether each other byte is one of version 2, and the room was enough.
fn put_squeezed(room: &mut Room, line: &[u8]) -> bool
    ensures { IsTrue result → Some room.new.items
        ≡ option_map (λ text. room.old.items ++ text) (squeezed false line.now) }
{
    let mut gap = false;
    let mut left = line;
    while let Some((byte, rest)) = left.split_first() {
        if is_blank(*byte) {
            gap = true;
        } else {
            if *byte <= b'#' {
                return *byte == b'#';
            }
            if let Err(_full) = put_spaced(room, gap, *byte) {
                return false;
            }
            gap = false;
        }
        left = rest;
    }
    true
}

/// Appends a byte of a word, with a space before it where blanks came before.
#[inline(always)] // each byte of such a line needs it
fn put_spaced(room: &mut Room, gap: bool, byte: u8) -> Result<(), Full>
    ensures { OnOk result (room.new.items ≡ room.old.items ++ spaced_byte gap byte) }
{
    if gap {
        put_byte(room, b' ')?;
    }
    put_byte(room, byte)
}
