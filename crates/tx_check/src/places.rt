//! What a line must be, by the kind of its text and the lines before it.
ghost use Rattle.std.specs.Prelude.{◌≡◌, ◌≢◌, ◌+◌, ◌↔◌, ℕ, List, IfNone, IfSome, IsTrue, is_some};
ghost use Rattle.tx_check.specs.Kinds.{head_of};
ghost use Rattle.tx_check.specs.Numbered as spec;
ghost use Rattle.tx_check.specs.Right.{IsTooMany};
ghost use Rattle.tx_check.specs.Speaking.{kind_of_line, OfLength};
ghost use Rattle.tx_check.specs.Contexts.{begins_label, counted, next_context, AmongLines, AmongSteps, AtHeader, Context, IsPastAll, IsPlaceOf, IsVersionOf};
ghost use Rattle.tx_check.specs.declared.places.Part.TheVariants as parts;
ghost use Rattle.tx_check.specs.declared.trouble.LineTrouble.TheVariants as troubles;
ghost use Rattle.tx_lines.specs.Programs.{BeginsLabel};
ghost use Rattle.tx_lines.specs.Schedule.{after_line, first_line};
ghost use Rattle.tx_lines.specs.Walks.{debug_line};
ghost use Rattle.tx_translate.specs.MeantLines.{left_of};

use crate::heads::header_of;
use crate::kinds::Kind;
use crate::trouble::LineTrouble;
use tx_lines::{INSTRUCTIONS, LABELS, LINES, TextKind, Version, take_line};
use tx_translate::MeantLines;

/// A line of a text.
#[derive(Clone, Copy)]
pub struct TextLine<'a> {
    /// Lines count from 1.
    pub number: u64,
    pub bytes: &'a [u8],
    /// Whether it has an end.
    pub is_ended: bool,
}

/// What a line must be.
#[derive(Clone, Copy)]
pub enum Part {
    /// The first line of such a text.
    Header(TextKind),
    /// A step, or the line before commands.
    Step,
    /// A command.
    Command,
    /// An instruction or a label.
    ProgramLine,
    /// A line of a program that is right but for the label that it may name.
    Link,
}

/// The place of a line in a text.
#[derive(Clone, Copy)]
pub struct Place {
    pub part: Part,
    /// The version of the text: the second where the first line does not say it.
    pub version: Version,
    /// How many lines of its part are before it, without labels.
    pub count: usize,
    /// How many labels are before it.
    pub labels: usize,
}

impl TextLine<'_> {
    /// The first line of what is left of a text, which has that number.
    pub fn first_of(number: u64, left: &[u8]) -> TextLine<'_>
        ensures number { result.number ≡ number }
        ensures bytes { result.bytes.now ≡ first_line left.now }
        ensures ended { result.is_ended ≡ is_some (after_line left.now) }
    {
        let (bytes, rest) = take_line(left);
        TextLine {
            number,
            bytes,
            is_ended: rest.is_some(),
        }
    }
}

impl Place {
    /// The place of the first line of a text.
    pub fn first(kind: Kind, text: MeantLines<'_>) -> Place
        ensures version { IsVersionOf (head_of kind) (left_of text.entry) result.version }
        ensures in_context { IsPlaceOf (AtHeader (head_of kind)) result }
    {
        let kind = kind_of_head(kind);
        Place {
            part: Part::Header(kind),
            version: version_of(kind, text),
            count: 0,
            labels: 0,
        }
    }

    /// The place of the line after a header of that kind and version.
    pub fn after_header(kind: TextKind, version: Version) -> Place
        ensures version { result.version ≡ version }
        ensures link { result.part ≡ parts.Link → ⊥ }
        ensures in_context { (line : List ℕ) →
            IsPlaceOf (next_context (AtHeader kind) line) result }
    {
        let part = match kind {
            TextKind::Schedule => Part::Step,
            TextKind::Program => Part::ProgramLine,
        };
        Place {
            part,
            version,
            count: 0,
            labels: 0,
        }
    }

    /// The place of the line after that one.
    pub fn after(self, line: &[u8]) -> Place
        ensures version { result.version ≡ self.version }
        ensures link { result.part ≡ parts.Link → self.part ≡ parts.Link }
        ensures linked { self.part ≡ parts.Link → result.part ≡ parts.Link }
        ensures in_context { (context : Context) → IsPlaceOf context self →
            IsPlaceOf (next_context context line.now) result }
    {
        match self.part {
            Part::Header(kind) => Place::after_header(kind, self.version),
            Part::Step => self.after_step(line),
            Part::ProgramLine => self.after_line(line),
            Part::Command | Part::Link => self.after_one(),
        }
    }

    /// The place of the line after a step, or after the line before commands.
    fn after_step(self, line: &[u8]) -> Place
        requires { self.part ≡ parts.Step }
        ensures version { result.version ≡ self.version }
        ensures link { result.part ≡ parts.Link → ⊥ }
        ensures in_context { (steps : ℕ) → self.count ≡ counted steps →
            IsPlaceOf (next_context (AmongSteps steps) line.now) result }
    {
        if is_debug(line) {
            return Place {
                part: Part::Command,
                count: 0,
                ..self
            };
        }
        self.after_one()
    }

    /// The place of the line after one of a program.
    fn after_line(self, line: &[u8]) -> Place
        requires { self.part ≡ parts.ProgramLine }
        ensures version { result.version ≡ self.version }
        ensures link { result.part ≡ parts.Link → ⊥ }
        ensures in_context { (instructions labels : ℕ) → self.count ≡ counted instructions →
            self.labels ≡ counted labels →
            IsPlaceOf (next_context (AmongLines instructions labels) line.now) result }
    {
        if is_label(line) {
            return Place {
                labels: self.labels.saturating_add(1),
                ..self
            };
        }
        self.after_one()
    }

    /// The place after one more line of the same part.
    fn after_one(self) -> Place
        ensures part { result.part ≡ self.part }
        ensures version { result.version ≡ self.version }
        ensures labels { result.labels ≡ self.labels }
        ensures count { (number : ℕ) → self.count ≡ counted number →
            result.count ≡ counted (number + 1) }
    {
        Place {
            count: self.count.saturating_add(1),
            ..self
        }
    }

    /// Whether a line that was one too many is before it: none is where all lines are right but for
    /// their labels.
    pub fn is_past_all(&self) -> bool
        ensures past { IsTrue result → (context : Context) → IsPlaceOf context self.now →
            IsPastAll context }
        ensures link { IsTrue result → self.now.part ≢ parts.Link }
    {
        match self.part {
            Part::ProgramLine => self.count > INSTRUCTIONS || self.labels > LABELS,
            Part::Link => false,
            _ => self.count > LINES,
        }
    }

    /// The trouble with a line that is one too many, whatever it says.
    pub fn one_too_many(&self, line: &[u8]) -> Option<LineTrouble>
        ensures over { IfSome result (λ trouble.
            IsTooMany self.now.part self.now.count self.now.labels line.now) }
        ensures room { IfNone result
            (IsTooMany self.now.part self.now.count self.now.labels line.now → ⊥) }
        ensures kind { IfSome result (λ trouble. kind_of_line trouble ≡ OfLength) }
        ensures other { IfSome result (λ trouble. trouble ≢ troubles.TooLong) }
    {
        let trouble = match self.part {
            Part::Step if self.count >= LINES && !is_debug(line) => { LineTrouble::TooManySteps }
            Part::Command if self.count >= LINES => LineTrouble::TooManyCommands,
            Part::ProgramLine if is_label(line) && self.labels >= LABELS => {
                LineTrouble::TooManyLabels
            }
            Part::ProgramLine if !is_label(line) && self.count >= INSTRUCTIONS => {
                LineTrouble::TooManyInstructions
            }
            _ => return None,
        };
        Some(trouble)
    }
}

/// The kind of the header of such a text.
pub fn kind_of_head(kind: Kind) -> TextKind
    ensures { result ≡ head_of kind }
{
    match kind {
        Kind::Program => TextKind::Program,
        Kind::Schedule | Kind::Walk => TextKind::Schedule,
    }
}

/// The version of a text: the second where the first line does not say it.
fn version_of(kind: TextKind, text: MeantLines<'_>) -> Version
    ensures { IsVersionOf kind (left_of text.entry) result }
{
    match header_of(kind, text) {
        Ok((header, _rest)) => header.version,
        Err(_fault) => Version::Two,
    }
}

/// Whether a line is the one between steps and commands.
pub fn is_debug(line: &[u8]) -> bool
    ensures { IsTrue result ↔ (line.now ≡ debug_line) }
{
    line == b"debug".as_slice()
}

/// Whether a line begins as a label's does.
pub fn is_label(line: &[u8]) -> bool
    ensures is { result ≡ begins_label line.now }
    ensures begins { IsTrue result ↔ BeginsLabel line.now }
{
    line.len() >= 6 && &line[..6] == b"label ".as_slice()
}

/// What follows the first line of a text.
pub fn after_first_line(text: &[u8]) -> &[u8]
    ensures { result.now ≡ spec.behind text.now }
{
    take_line(text).1.unwrap_or(b"")
}
