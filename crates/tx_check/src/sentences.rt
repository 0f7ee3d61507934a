//! The sentences that say what a trouble is, each in one line.
ghost use Rattle.std.specs.Prelude.{◌≡◌, ◌<◌, ◌++◌, ◌∷◌, [], true, map, OnOk, IfOk, IfSome, string_bytes};
ghost use Rattle.tx_check.specs.Speaking as spec;
ghost use Rattle.tx_check.specs.Speaking.{is_after, is_front, kind_of_what, said_word, shown, word_of, IsOfKind, SaysOfLine, SpeaksAfter, SpeaksOf, SpeaksOfByte};
ghost use Rattle.tx_check.specs.Diagnostics.{IsInLine};

use crate::forms::Form;
use crate::habits::left_out;
use crate::near::{NearName, near_name};
use crate::trouble::{LineTrouble, Names, What, WordTrouble};
use std::alloc::{AllocError, Global};
use std::fmt::Write;
use tx_base::NoMemory;
use tx_lines::{put, put_byte, put_count};
use tx_translate::{OwnLine, Room};

/// How many bytes of a word are shown.
const WORD_BYTES: usize = 48;

/// How many characters are shown in hex.
const HEX_CHARACTERS: usize = 64;

/// What is said of a line that begins with a call, before an example.
const STEP_BEGINS: &str = ": a step begins with the number of its process, as";

/// Which signals there are.
const SIGNALS: &str = ", only 1 HUP, 2 INT, 3 QUIT, 6 ABRT, 9 KILL, 10 USR1, 12 USR2, \
13 PIPE, 14 ALRM, 15 TERM, 17 CHLD and 32 to 39";

/// The sentence that says what is wrong.
pub fn sentence(alloc: Global, what: &What<'_>) -> Result<String, NoMemory>
    ensures in_line { IfOk result (λ sentence. IsInLine (string_bytes sentence)) }
    ensures line { IfOk result (λ sentence. SaysOfLine what.now (string_bytes sentence)) }
    ensures word { IfOk result (λ sentence. IfSome (word_of what.now) (λ word.
        SpeaksOf word (string_bytes sentence))) }
    ensures kind { IfOk result (λ sentence.
        IsOfKind (kind_of_what what.now) (string_bytes sentence)) }
{
    match what {
        What::Line(trouble) => line_sentence(alloc, *trouble),
        What::OddByte(byte) => byte_sentence(alloc, *byte),
        _ => word_sentence(alloc, what),
    }
}

/// The sentence of a trouble with a line as a whole.
fn line_sentence(alloc: Global, trouble: LineTrouble) -> Result<String, NoMemory>
    ensures in_line { IfOk result (λ sentence. IsInLine (string_bytes sentence)) }
    ensures says { IfOk result (λ sentence. string_bytes sentence ≡ spec.line_sentence trouble) }
{
    let mut text = String::new(alloc);
    put(&mut text, trouble.sentence())?;
    Ok(text)
}

/// The sentence of a byte that no line has.
fn byte_sentence(alloc: Global, byte: u8) -> Result<String, NoMemory>
    ensures in_line { IfOk result (λ sentence. IsInLine (string_bytes sentence)) }
    ensures says { IfOk result (λ sentence. SpeaksOfByte byte (string_bytes sentence)) }
{
    let mut text = String::new(alloc);
    put(&mut text, "byte ")?;
    put_count(&mut text, u64::from(byte))?;
    put(&mut text, byte_tail(byte))?;
    Ok(text)
}

/// What is said of a byte after its number.
fn byte_tail(byte: u8) -> &'static str
    ensures in_line { IsInLine result.now }
    ensures after { is_after result.now ≡ true }
{
    match byte {
        b'\t' => ": a tab; only version 3 takes tabs between words",
        _ => ": words are ASCII, with one space between, except in version 3",
    }
}

/// The sentence of a trouble with a word.
fn word_sentence(alloc: Global, what: &What<'_>) -> Result<String, NoMemory>
    ensures in_line { IfOk result (λ sentence. IsInLine (string_bytes sentence)) }
    ensures says { IfOk result (λ sentence. IfSome (word_of what.now) (λ word.
        SpeaksOf word (string_bytes sentence))) }
    ensures kind { IfOk result (λ sentence. IfSome (word_of what.now) (λ word.
        IsOfKind (kind_of_what what.now) (string_bytes sentence))) }
{
    let mut tail = String::new(alloc);
    let What::Word(word, trouble) = what else {
        return Ok(tail);
    };
    match trouble {
        WordTrouble::NoSuch(names) => say_near_name(alloc, &mut tail, *names, word)?,
        _ => say_trouble(&mut tail, word, *trouble)?,
    }
    joined(alloc, what.front(), word, tail.as_bytes())
}

/// That front, a word, and what is said of it, with `?` for each byte that is no character of
/// ASCII.
fn joined(alloc: Global, front: &str, word: &[u8], tail: &[u8]) -> Result<String, NoMemory>
    requires front { is_front front.now ≡ true }
    requires front_in_line { IsInLine front.now }
    ensures in_line { IfOk result (λ sentence. IsInLine (string_bytes sentence)) }
    ensures says { IfOk result (λ sentence. SpeaksOf word.now (string_bytes sentence)) }
    ensures behind { IfOk result (λ sentence.
        SpeaksAfter front.now word.now (string_bytes sentence)) }
{
    let mut text = String::new(alloc);
    put(&mut text, front)?;
    put_word(&mut text, word)?;
    put(&mut text, mark_before(tail))?;
    put_shown(&mut text, tail)?;
    Ok(text)
}

/// What separates a word from what is said of it.
fn mark_before(tail: &[u8]) -> &'static str
    ensures in_line { IsInLine result.now }
    ensures after { is_after (result.now ++ map shown tail.now) ≡ true }
{
    match tail {
        [] | [b' ' | b',' | b':' | b';', ..] => "",
        _ => ": ",
    }
}

/// Says after a word what is wrong with it. A name that is none has a function of its own.
fn say_trouble(text: &mut String, word: &[u8], trouble: WordTrouble<'_>) -> Result<(), AllocError> {
    match trouble {
        WordTrouble::Takes(form, got) => say_takes(text, form, got),
        WordTrouble::LineAlone(line) => {
            write!(text, "{STEP_BEGINS} 2 ")?;
            put_word(text, line)
        }
        WordTrouble::CallAlone(form) => say_call_alone(text, form),
        WordTrouble::OutOfRange(range) => write!(text, ": expected a number, {range}"),
        WordTrouble::NoneOf(choices) => {
            put(text, ": expected ")?;
            if choices.contains(&b'|') {
                put(text, "one of ")?;
            }
            put_word(text, choices)
        }
        WordTrouble::InHex => say_in_hex(text, characters_of(word)),
        WordTrouble::NoSignal => put(text, SIGNALS),
        WordTrouble::NoSignalIn(member) => {
            put(text, ": there is no signal ")?;
            put_word(text, member)?;
            put(text, SIGNALS)
        }
        WordTrouble::SecondLabel(line) => write!(text, " is in line {line} already"),
        _ => put(text, trouble.sentence()),
    }
}

/// Says after a name that is none of those that there are why it is left out, or which of them is
/// near.
fn say_near_name(
    alloc: Global,
    text: &mut String,
    names: Names<'_>,
    word: &[u8],
) -> Result<(), NoMemory> {
    if let Some(reason) = left_out(names, word) {
        write!(text, " is left out on purpose: {reason}")?;
        return Ok(());
    }
    match near_name(alloc, names, word)? {
        Some(NearName::Form(form)) => write!(text, "; did you mean {}?", form.name)?,
        Some(NearName::Step(Form { name, words, .. })) => {
            let space = before(words, " ");
            write!(text, "; did you mean the step 2 {name}{space}{words}?")?;
        }
        Some(NearName::Label(line)) => say_near_label(text, line)?,
        None => {}
    }
    Ok(())
}

/// Says that the label is near which a line means.
fn say_near_label(text: &mut String, line: OwnLine<'_>) -> Result<(), AllocError> {
    let mut room = Room::new();
    if let Some(name) = line.meaning(&mut room).strip_prefix(b"label ") {
        put(text, "; did you mean @")?;
        put_word(text, name)?;
        put(text, "?")?;
    }
    Ok(())
}

/// Says that no process is before a call of that form.
fn say_call_alone(text: &mut String, form: Form) -> Result<(), AllocError> {
    let Form {
        name,
        words,
        meaning,
    } = form;
    let space = before(words, " ");
    let colon = before(meaning, ": ");
    put(text, STEP_BEGINS)?;
    write!(text, " in 2 {name}{space}{words}{colon}{meaning}")
}

/// Says what a name takes, and how many words it got.
fn say_takes(text: &mut String, form: Form, got: usize) -> Result<(), AllocError> {
    let Form { words, meaning, .. } = form;
    let no = if words.is_empty() { "no words" } else { "" };
    let colon = before(meaning, ": ");
    let noun = if got == 1 { "word" } else { "words" };
    write!(text, " takes {no}{words}{colon}{meaning}; got {got} {noun}")
}

/// What separates some words from those before them. Nothing where there are none.
fn before(words: &str, mark: &'static str) -> &'static str {
    if words.is_empty() { "" } else { mark }
}

/// The characters of a word that begins with a quotation mark, and may end with one.
fn characters_of(word: &[u8]) -> &[u8] {
    let left = word.strip_prefix(b"\"".as_slice()).unwrap_or(word);
    left.strip_suffix(b"\"".as_slice()).unwrap_or(left)
}

/// Says that characters are spelled by their bytes in hex.
fn say_in_hex(text: &mut String, characters: &[u8]) -> Result<(), AllocError> {
    put(text, ": bytes are hex before version 3")?;
    if characters.is_empty() || characters.len() > HEX_CHARACTERS {
        return Ok(());
    }
    put(text, ": ")?;
    for byte in characters {
        put_byte(text, *byte)?;
    }
    Ok(())
}

/// Puts a word of a text: its first bytes, with `?` for each that is no character of ASCII.
fn put_word(text: &mut String, word: &[u8]) -> Result<(), AllocError>
    ensures { OnOk result (string_bytes text.new ≡ string_bytes text.old ++ said_word word.now) }
{
    if word.len() > WORD_BYTES {
        let (front, _rest) = word.split_at(WORD_BYTES);
        put_shown(text, front)?;
        return put(text, "..");
    }
    put_shown(text, word)
}

/// Appends bytes, with `?` for each that is no character of ASCII.
///
/// The only error is that a growth of memory was refused: the text may then have some of them after
/// what it had.
pub fn put_shown(text: &mut String, bytes: &[u8]) -> Result<(), AllocError>
    ensures { OnOk result (string_bytes text.new ≡ string_bytes text.old ++ map shown bytes.now) }
{
    for at in 0..bytes.len() {
        put_ascii(text, shown(bytes[at]))?;
    }
    Ok(())
}

/// Puts a character of ASCII.
fn put_ascii(text: &mut String, byte: u8) -> Result<(), AllocError>
    requires { byte < 128 }
    ensures { OnOk result (string_bytes text.new ≡ string_bytes text.old ++ byte ∷ []) }
{
    text.push(byte as char)
}

/// What is said of a byte.
fn shown(byte: u8) -> u8
    ensures shown { result ≡ spec.shown byte }
    ensures ascii { result < 128 }
{
    if byte == b' ' || byte.is_ascii_graphic() {
        return byte;
    }
    b'?'
}
