//! What is wrong with a line, by what must be in its place.
ghost use Rattle.std.specs.Prelude.{◌≡◌, ◌≤◌, ◌⊎◌, ◌<◌, IfNone, IfSome, IsFalse, IsTrue, false, length};
ghost use Rattle.tx_check.specs.Labels.{AreKnown};
ghost use Rattle.tx_check.specs.Right.{IsNoneThere, IsRight, IsTooMany};
ghost use Rattle.tx_check.specs.Contexts.{Context, IsPlaceOf};
ghost use Rattle.tx_check.specs.Speaking.{kind_of_what, IsKindAt, OfGrammar, OfLabel};
ghost use Rattle.tx_check.specs.Wrong.{IsLinkedLine, IsTwice, IsWrong, NamesNowhere};
ghost use Rattle.tx_check.specs.declared.places.Part.TheVariants as parts;
ghost use Rattle.tx_check.specs.declared.trouble.LineTrouble.TheVariants as troubles;
ghost use Rattle.tx_check.specs.declared.trouble.What.TheVariants as whats;
ghost use Rattle.tx_translate.specs.MeantLines.{left_of};

pub mod alone;
pub mod bytes;
pub mod calls;
mod commands;
pub mod fields;
pub mod headers;
pub mod labels;
pub mod numbers;
mod program_lines;
pub mod shapes;
mod signals;
pub mod steps;

use crate::diagnose::commands::command_trouble;
use crate::diagnose::headers::header_trouble;
use crate::diagnose::labels::{link_trouble, second_label};
use crate::diagnose::program_lines::program_line_trouble;
use crate::diagnose::shapes::shape_trouble;
use crate::diagnose::steps::step_trouble;
use crate::labels::Labels;
use crate::places::{Part, Place, TextLine, is_debug};
use crate::trouble::{LineTrouble, Trouble};
use tx_lines::{LINE_BYTES, read_command, read_line, read_step};
use tx_translate::MeantLines;

/// What is wrong with the line of a text at that place. Nothing where it is right.
pub fn trouble_of<'a>(
    lines: MeantLines<'a>,
    text: &Labels<'_>,
    place: &Place,
    line: TextLine<'a>,
) -> Option<Trouble<'a>>
    requires { AreKnown text.now }
    ensures right { IfNone result
        (IsRight place.now.part place.now.version line.entry.bytes.now) }
    ensures short { IfNone result (length line.entry.bytes.now ≤ 512) }
    ensures ended { IfNone result (IsTrue line.entry.is_ended) }
    ensures room { IfNone result (IsTooMany place.now.part place.now.count place.now.labels
        line.entry.bytes.now → ⊥) }
    ensures once { IfNone result (place.now.part ≡ parts.ProgramLine →
        IsTwice (left_of text.now.text) line.entry.number line.entry.bytes.now → ⊥) }
    ensures linked { IfNone result (place.now.part ≡ parts.Link →
        IsLinkedLine place.now.version (left_of text.now.text) line.entry.bytes.now) }
    ensures wrong { IfSome result (λ trouble. (context : Context) → IsPlaceOf context place.now →
        IsWrong place.now.version (left_of text.now.text) line.entry.number context
        line.entry.bytes.now line.entry.is_ended) }
    ensures kind { IfSome result (λ trouble. IsKindAt place.now (left_of text.now.text)
        line.entry.number line.entry.bytes.now line.entry.is_ended (kind_of_what trouble.what)) }
    ensures long { IfSome result (λ trouble. trouble.what ≡ whats.Line troubles.TooLong →
        512 < length line.entry.bytes.now) }
{
    if line.bytes.len() > LINE_BYTES {
        return Some(Trouble::of_line(LINE_BYTES + 1, LineTrouble::TooLong));
    }
    if let Some(trouble) = place.one_too_many(line.bytes) {
        return Some(Trouble::of_line(1, trouble));
    }
    if !is_right(place, line.bytes) {
        return Some(trouble_in(place, line.bytes, line.is_ended));
    }
    match trouble_between(lines, text, place, line.number, line.bytes) {
        Some(trouble) => Some(trouble),
        None => no_end(line.bytes, line.is_ended),
    }
}

/// Whether a line is right by itself.
pub fn is_right(place: &Place, line: &[u8]) -> bool
    requires { length line.now ≤ 512 }
    ensures right { IsTrue result → IsRight place.now.part place.now.version line.now }
    ensures wrong { IsFalse result → IsNoneThere place.now.part place.now.version line.now }
{
    match place.part {
        Part::Header(_kind) => false,
        Part::Step => is_debug(line) || read_step(place.version, line).is_some(),
        Part::Command => read_command(place.version, line).is_some(),
        Part::ProgramLine | Part::Link => read_line(place.version, line).is_some(),
    }
}

/// What is wrong with a line that is not right: with its bytes, its words or its end, or else with
/// the whole of it.
fn trouble_in<'a>(place: &Place, line: &'a [u8], is_ended: bool) -> Trouble<'a>
    ensures { kind_of_what result.what ≡ OfGrammar }
{
    if let Some(trouble) = trouble_in_words(place, line)
        && trouble.what.is_of_grammar()
    {
        return trouble;
    }
    no_end(line, is_ended).unwrap_or(unknown())
}

/// The trouble with a line without an end.
fn no_end(line: &[u8], is_ended: bool) -> Option<Trouble<'static>>
    ensures ended { IfNone result (IsTrue is_ended) }
    ensures unended { IfSome result (λ trouble. is_ended ≡ false) }
    ensures kind { IfSome result (λ trouble. kind_of_what trouble.what ≡ OfGrammar) }
{
    (!is_ended).then_some(Trouble::of_line(line.len() + 1, LineTrouble::NoEnd))
}

/// The trouble with a line at fault where nothing else is found that is wrong with it.
pub fn unknown() -> Trouble<'static>
    ensures { kind_of_what result.what ≡ OfGrammar }
{
    Trouble::of_line(1, LineTrouble::NoneOfTheGrammar)
}

/// What is wrong with a line that is right by itself, among the other lines of the text.
fn trouble_between<'a>(
    lines: MeantLines<'a>,
    text: &Labels<'_>,
    place: &Place,
    number: u64,
    line: &'a [u8],
) -> Option<Trouble<'a>>
    requires known { AreKnown text.now }
    requires right { IsRight place.now.part place.now.version line.now }
    requires short { length line.now ≤ 512 }
    ensures wrong { IfSome result (λ trouble.
        IsTwice (left_of text.now.text) number line.now
        ⊎ NamesNowhere (left_of text.now.text) line.now) }
    ensures program { IfSome result (λ trouble.
        (place.now.part ≡ parts.ProgramLine) ⊎ (place.now.part ≡ parts.Link)) }
    ensures once { IfNone result (place.now.part ≡ parts.ProgramLine →
        IsTwice (left_of text.now.text) number line.now → ⊥) }
    ensures linked { IfNone result (place.now.part ≡ parts.Link →
        IsLinkedLine place.now.version (left_of text.now.text) line.now) }
    ensures kind { IfSome result (λ trouble.
        ((place.now.part ≡ parts.Link) × (kind_of_what trouble.what ≡ OfLabel))
        ⊎ ((place.now.part ≡ parts.ProgramLine) × IsTwice (left_of text.now.text) number line.now
        × (kind_of_what trouble.what ≡ OfGrammar))) }
{
    match place.part {
        Part::ProgramLine => second_label(text, number, line),
        Part::Link => link_trouble(lines, text, place.version, line),
        _ => None,
    }
}

/// What is wrong with the bytes of a line, or with its words.
fn trouble_in_words<'a>(place: &Place, line: &'a [u8]) -> Option<Trouble<'a>> {
    if let Part::Header(_kind) = place.part
        && (line.is_empty() || line[0] == b'#')
    {
        return Some(Trouble::of_line(1, LineTrouble::NoHeader));
    }
    shape_trouble(line).or_else(|| match place.part {
        Part::Header(kind) => header_trouble(kind, line),
        Part::Step => step_trouble(place.version, line),
        Part::Command => command_trouble(place.version, line),
        Part::ProgramLine | Part::Link => program_line_trouble(place.version, line),
    })
}
