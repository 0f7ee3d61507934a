//! The lines that a text of any version means, one after another.
ghost use Rattle.std.specs.Prelude.{◌≡◌, ◌≢◌, ◌+◌, ◌<◌, ◌++◌, ◌⊎◌, ◌↔◌, [], ℕ, List, codes, IfNone, IfSome, IsFalse, IsTrue, MatchOption, None, Some, is_some, length, true};
ghost use Rattle.std.specs.Bool.{then_some};
ghost use Rattle.tx_base.specs.declared.steps.Step.{Step as TheStep};
ghost use Rattle.tx_lines.specs.Lines.{step_text, FitsStep};
ghost use Rattle.tx_lines.specs.Programs.{BeginsLabel};
ghost use Rattle.tx_lines.specs.Schedule.{first_line, FitsStepOf};
ghost use Rattle.tx_lines.specs.Walks.{debug_line};
ghost use Rattle.tx_translate.specs.Lines.{plain_line, plain_of_words};
ghost use Rattle.tx_translate.specs.Meant.{meant_of};
ghost use Rattle.tx_translate.specs.MeantLines.{left_of, line_of, IsNextLine, OwnsFrom, OwnsNext};
ghost use Rattle.tx_translate.specs.Plain as plain;
ghost use Rattle.tx_translate.specs.Words.{words_in};
ghost use Rattle.tx_translate.specs.declared.stage.Stage.{Stage};

use crate::lines::split_line;
use crate::names::names_process;
use crate::plain::is_third;
use crate::plain_lines::{line_meaning, stage_after};
use crate::respelled::read_respelled;
use crate::room::Room;
use crate::spellings::is;
use crate::stage::Stage;
use crate::words::{from_word, split_word};
use tx_base::Step;
use tx_lines::{LINE_BYTES, TextKind, Version, read_step_into, take_line};

/// What is left of a text of any version, as the lines of the first two versions that it means.
#[derive(Clone, Copy)]
pub struct MeantLines<'a> {
    /// The place in a text of version 3. Nothing in another, whose lines mean themselves.
    stage: Option<Stage>,
    left: &'a [u8],
    /// The number of the first own line that is left. Lines count from 1.
    number: u64,
}

/// A line of a text that means one of the first two versions.
#[derive(Clone, Copy, Default)]
pub struct OwnLine<'a> {
    stage: Option<Stage>,
    bytes: &'a [u8],
    /// Its number in the text. Lines count from 1.
    pub number: u64,
    /// Whether the line that it means has an end.
    pub is_ended: bool,
}

impl<'a> MeantLines<'a> {
    /// All lines that a text means.
    pub fn of(text: &'a [u8]) -> MeantLines<'a>
        ensures left { left_of result ≡ meant_of text.now }
        ensures own { OwnsFrom text.now 1 result }
    {
        MeantLines {
            stage: is_third(text).then_some(Stage::Heading),
            left: text,
            number: 1,
        }
    }

    /// Whether the text is one of version 3.
    pub fn are_third(self) -> bool
        ensures { (text : List ℕ) (number : ℕ) → OwnsFrom text number self.entry →
            result ≡ plain.is_third text }
    {
        self.stage.is_some()
    }

    /// How many bytes of the text are left.
    pub fn bytes_left(self) -> usize
        ensures { result ≡ length self.entry.left.now }
    {
        self.left.len()
    }

    /// The first line, and those after it. Nothing where none is left.
    #[inline(always)] // passing lines in memory costs 60 instructions each
    pub fn split(self) -> Option<(OwnLine<'a>, MeantLines<'a>)>
        ensures none { IfNone result (left_of self.entry ≡ []) }
        ensures some { IfSome result (λ r. left_of self.entry ≢ []) }
        ensures line { IfSome result (λ r. IsNextLine (left_of self.entry) r.0 (left_of r.1)) }
        ensures own { IfSome result (λ r. (text : List ℕ) (number : ℕ) →
            OwnsFrom text number self.entry → OwnsNext text number r.0 r.1) }
        ensures shorter { IfSome result (λ r.
            length r.1.left.now < length self.entry.left.now) }
    {
        let (line, rest) = self.cut();
        if line.is_ended || !line.bytes.is_empty() {
            Some((line, rest))
        } else {
            None
        }
    }

    /// The first line, and those after it. An empty line without an end where none is left; its
    /// number is that after the last line.
    #[inline(always)] // as `split`, which calls it
    pub fn cut(self) -> (OwnLine<'a>, MeantLines<'a>)
        ensures line { IsNextLine (left_of self.entry) result.0 (left_of result.1) }
        ensures end { IsFalse result.0.is_ended →
            result.0.bytes.now ≡ first_line (left_of self.entry) }
        ensures own { (text : List ℕ) (number : ℕ) → OwnsFrom text number self.entry →
            OwnsNext text number result.0 result.1 }
        ensures shorter { 0 < length self.entry.left.now →
            length result.1.left.now < length self.entry.left.now }
    {
        match self.stage {
            Some(stage) => self.cut_third(stage),
            None => self.cut_second(),
        }
    }

    /// The same in a text of the first two versions.
    fn cut_second(self) -> (OwnLine<'a>, MeantLines<'a>)
        requires { self.stage ≡ None }
        ensures line { IsNextLine (left_of self.entry) result.0 (left_of result.1) }
        ensures end { result.0.bytes.now ≡ first_line (left_of self.entry) }
        ensures own { (text : List ℕ) (number : ℕ) → OwnsFrom text number self.entry →
            OwnsNext text number result.0 result.1 }
        ensures shorter { 0 < length self.entry.left.now →
            length result.1.left.now < length self.entry.left.now }
    {
        let (bytes, rest) = take_line(self.left);
        let line = OwnLine {
            stage: None,
            bytes,
            number: self.number,
            is_ended: rest.is_some(),
        };
        let following = MeantLines {
            stage: None,
            left: rest.unwrap_or(b""),
            number: self.number.saturating_add(1),
        };
        (line, following)
    }

    /// The same in a text of version 3 at that stage.
    #[inline(always)] // as `split`
    fn cut_third(self, stage: Stage) -> (OwnLine<'a>, MeantLines<'a>)
        requires { self.stage ≡ Some stage }
        ensures line { IsNextLine (left_of self.entry) result.0 (left_of result.1) }
        ensures end { IsFalse result.0.is_ended →
            result.0.bytes.now ≡ first_line (left_of self.entry) }
        ensures own { (text : List ℕ) (number : ℕ) → OwnsFrom text number self.entry →
            OwnsNext text number result.0 result.1 }
        ensures shorter { 0 < length self.entry.left.now →
            length result.1.left.now < length self.entry.left.now }
    {
        let mut left = self.left;
        let mut number = self.number;
        while let Some((bytes, rest)) = split_line(left) {
            if means_one(stage, bytes) {
                let line = OwnLine {
                    stage: Some(stage),
                    bytes,
                    number,
                    is_ended: true,
                };
                let following = MeantLines {
                    stage: Some(stage_after(stage, bytes)),
                    left: rest,
                    number: number.saturating_add(1),
                };
                return (line, following);
            }
            number = number.saturating_add(1);
            left = rest;
        }
        let line = OwnLine {
            stage: None,
            bytes: b"",
            number,
            is_ended: false,
        };
        let following = MeantLines {
            stage: Some(stage),
            left: b"",
            number,
        };
        (line, following)
    }
}

/// Whether a line means one at that stage of a text of version 3.
fn means_one(stage: Stage, line: &[u8]) -> bool
    ensures { result ≡ is_some (plain_line stage line.now) }
{
    if line.len() > LINE_BYTES {
        return true;
    }
    let Some((byte, _rest)) = from_word(line).split_first() else {
        return false;
    };
    *byte != b'n' || is_unnamed(stage, line)
}

/// Whether a line has a word, and gives no name to a process at that stage of a text of version 3.
#[inline(never)] // few lines need it
fn is_unnamed(stage: Stage, line: &[u8]) -> bool
    ensures { result ≡ is_some (plain_of_words stage (words_in line.now)) }
{
    match split_word(line) {
        Some((first, others)) => !names_process(stage, first, others),
        None => false,
    }
}

impl<'a> OwnLine<'a> {
    /// The line that it means, put into the room where it is spelled otherwise.
    pub fn meaning(self, room: &'a mut Room) -> &'a [u8]
        ensures { result.now ≡ line_of self.entry }
    {
        let Some(stage) = self.stage else {
            return self.bytes;
        };
        line_meaning(room, stage, self.bytes).unwrap_or(b"")
    }

    /// Reads the step that the line means, at once where the line spells it itself. Returns
    /// whether it means one.
    #[inline(always)] // a call of its own costs each line of a schedule 30 instructions
    pub fn read_step_into(self, version: Version, room: &mut Room, step: &mut Step) -> bool
        ensures found { IfSome (then_some result step.new) (λ s. line_of self.entry ≡ step_text s) }
        ensures fits { IfSome (then_some result step.new) (FitsStepOf version) }
    {
        if self.may_be_step()
            && !is_spelled_otherwise(self.bytes)
            && read_step_into(version, self.bytes, step)
        {
            return true;
        }
        self.read_spelled_otherwise(version, room, step)
    }

    /// The same where the line does not spell the step itself.
    #[inline(never)] // inlined, a line that does pays for it
    fn read_spelled_otherwise(self, version: Version, room: &mut Room, step: &mut Step) -> bool
        ensures found { IfSome (then_some result step.new) (λ s. line_of self.entry ≡ step_text s) }
        ensures fits { IfSome (then_some result step.new) (FitsStepOf version) }
    {
        if let Some(Stage::Within(TextKind::Schedule)) = self.stage
            && read_respelled(version, self.bytes, room, step)
        {
            return true;
        }
        read_step_into(version, self.meaning(room), step)
    }

    /// Whether a step that the line itself spells is the one that it means.
    fn may_be_step(self) -> bool
        ensures { IsTrue result → (step : TheStep) → FitsStep step →
            self.entry.bytes.now ≡ step_text step → line_of self.entry ≡ step_text step }
    {
        match self.stage {
            None => true,
            Some(Stage::Within(TextKind::Schedule)) => true,
            Some(_stage) => false,
        }
    }

    /// The line that it means, where that begins as a label. Nothing else is translated.
    pub fn label(self, room: &'a mut Room) -> Option<&'a [u8]>
        ensures same { IfSome result (λ meaning. meaning.now ≡ line_of self.entry) }
        ensures label { IfSome result (λ meaning. BeginsLabel (line_of self.entry)) }
        ensures other { IfNone result (BeginsLabel (line_of self.entry) → ⊥) }
    {
        if !self.may_begin(b"label") {
            return None;
        }
        let meaning = self.meaning(room);
        begins_so(b"label ", meaning).then_some(meaning)
    }

    /// Whether the line that it means is the one before commands. A line that begins with another
    /// word is not translated.
    #[inline(always)] // a call of its own costs each line that is looked at 50 instructions
    pub fn is_debug(self, room: &mut Room) -> bool
        ensures { IsTrue result ↔ (line_of self.entry ≡ debug_line) }
    {
        self.may_begin(b"debug") && is(self.meaning(room), b"debug")
    }

    /// Whether the line that it means may begin with that word, by the front of the line itself.
    #[inline(always)] // it compares with a word that is known
    fn may_begin(self, word: &[u8]) -> bool
        requires { (word.now ≡ codes "label") ⊎ (word.now ≡ codes "debug") }
        ensures { (rest : List ℕ) → line_of self.entry ≡ word.now ++ rest → IsTrue result }
    {
        match self.stage {
            Some(_stage) => begins_so(word, from_word(self.bytes)),
            None => begins_so(word, self.bytes),
        }
    }
}

/// Whether a line is seen not to be of version 2: it has two spaces after its first word, or ends
/// with a string or the name of a signal.
fn is_spelled_otherwise(line: &[u8]) -> bool {
    match line {
        [_, b' ', b' ', ..] => true,
        [.., before, last] => *last == b'"' || before.is_ascii_uppercase(),
        _ => false,
    }
}

/// Whether a line begins so.
fn begins_so(front: &[u8], line: &[u8]) -> bool
    ensures found { IsTrue result → (rest : List ℕ) × (line.now ≡ front.now ++ rest) }
    ensures only { (rest : List ℕ) → line.now ≡ front.now ++ rest → IsTrue result }
{
    after_front(front, line).is_some()
}

/// What follows that front of a line. Nothing where the line does not begin so.
fn after_front<'a>(front: &[u8], line: &'a [u8]) -> Option<&'a [u8]>
    ensures { MatchOption result ((rest : List ℕ) → line.now ≢ front.now ++ rest) (λ rest.
        line.now ≡ front.now ++ rest.now) }
{
    line.strip_prefix(front)
}
