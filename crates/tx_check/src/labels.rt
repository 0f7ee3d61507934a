//! The labels among the lines that a text means.
ghost use Rattle.std.specs.Prelude.{◌≡◌, ◌≢◌, ◌+◌, ◌<◌, ◌++◌, ◌↔◌, ℕ, IfNone, IfSome, IsFalse, IsTrue, map};
ghost use Rattle.tx_check.specs.Labels.{label_at, with_label, AreKnown, IsFirstLabel};
ghost use Rattle.tx_check.specs.Numbered.{after_lines, line_at};
ghost use Rattle.tx_lines.specs.Programs.{label_front};
ghost use Rattle.tx_lines.specs.Schedule.{first_line};
ghost use Rattle.tx_translate.specs.MeantLines.{left_of, line_of};

use crate::places::is_label;
use arrayvec::ArrayVec;
use tx_translate::{MeantLines, OwnLine, Room};

/// How many bytes a label's line has before the name.
pub const LABEL_FRONT: usize = 6;

/// A line that means a label, and its number among the lines that are meant.
#[derive(Clone, Copy, Default)]
pub struct LabelLine<'a> {
    number: u64,
    line: OwnLine<'a>,
}

/// Where a label is. Lines count from 1.
#[derive(Clone, Copy)]
pub struct LabelPlace {
    /// The line among those that the text means.
    pub number: u64,
    /// The line of the text itself.
    pub own: u64,
}

/// The lines that a text means, and where the first labels are among them: as many as a program may
/// have.
#[derive(Drop)]
pub struct Labels<'a> {
    /// All lines.
    pub text: MeantLines<'a>,
    known: ArrayVec<LabelLine<'a>, 256>,
    /// How many lines were searched for them.
    passed: u64,
    /// The lines after those.
    behind: MeantLines<'a>,
}

impl<'a> Labels<'a> {
    /// The labels of a text.
    pub fn of(text: MeantLines<'a>) -> Labels<'a>
        ensures text { result.text ≡ text.entry }
        ensures known { AreKnown result }
    {
        let mut known = ArrayVec::new();
        let mut passed: u64 = 0;
        let mut left = text;
        while let Some((line, behind)) = left.split() {
            if !put_label(&mut known, passed + 1, line) {
                break;
            }
            passed += 1;
            left = behind;
        }
        Labels {
            text,
            known,
            passed,
            behind: left,
        }
    }

    /// Where the first line is that is the label of that name.
    pub fn place_of(&self, name: &[u8]) -> Option<LabelPlace>
        requires { AreKnown self.now }
        ensures first { IfSome result (IsFirstLabel (left_of self.now.text) name.now) }
        ensures none { IfNone result
            ((number : ℕ) → line_at number (left_of self.now.text) ≢ label_front ++ name.now) }
    {
        match self.known_place(name) {
            Some(place) => Some(place),
            None => self.later_place(name),
        }
    }

    /// Where the first of the known labels is that has that name.
    fn known_place(&self, name: &[u8]) -> Option<LabelPlace>
        requires { AreKnown self.now }
        ensures first { IfSome result (IsFirstLabel (left_of self.now.text) name.now) }
        ensures none { IfNone result ((count : ℕ) → count < self.now.passed →
            first_line (after_lines count (left_of self.now.text)) ≢ label_front ++ name.now) }
    {
        for at in 0..self.known.len() {
            let label = self.known.as_slice()[at];
            if means_label(label.line, name) {
                return Some(LabelPlace {
                    number: label.number,
                    own: label.line.number,
                });
            }
        }
        None
    }

    /// Where the first line is that is the label of that name, where none is among those that were
    /// searched.
    fn later_place(&self, name: &[u8]) -> Option<LabelPlace>
        requires known { AreKnown self.now }
        requires none { (count : ℕ) → count < self.now.passed →
            first_line (after_lines count (left_of self.now.text)) ≢ label_front ++ name.now }
        ensures first { IfSome result (IsFirstLabel (left_of self.now.text) name.now) }
        ensures none { IfNone result
            ((number : ℕ) → line_at number (left_of self.now.text) ≢ label_front ++ name.now) }
    {
        let mut left = self.behind;
        let mut passed = self.passed;
        while let Some((line, rest)) = left.split() {
            passed += 1;
            if means_label(line, name) {
                return Some(LabelPlace {
                    number: passed,
                    own: line.number,
                });
            }
            left = rest;
        }
        None
    }
}

/// Adds a line of that number to the labels, where it means one. Says whether there was room for
/// it.
fn put_label<'a>(known: &mut ArrayVec<LabelLine<'a>, 256>, number: u64, line: OwnLine<'a>) -> bool
    ensures put { IsTrue result → map label_at known.new.items
        ≡ with_label number (line_of line.entry) (map label_at known.old.items) }
    ensures full { IsFalse result → known.new.items ≡ known.old.items }
{
    let mut room = Room::new();
    line.label(&mut room).is_none() || known.try_push(LabelLine { number, line }).is_ok()
}

/// Whether a line means the label of that name.
fn means_label(line: OwnLine<'_>, name: &[u8]) -> bool
    ensures { IsTrue result ↔ (line_of line.entry ≡ label_front ++ name.now) }
{
    let mut room = Room::new();
    line.label(&mut room)
        .is_some_and(|label| is_label_of(label, name))
}

/// Whether a line is the label of that name.
fn is_label_of(line: &[u8], name: &[u8]) -> bool
    ensures { IsTrue result ↔ (line.now ≡ label_front ++ name.now) }
{
    is_label(line) && &line[LABEL_FRONT..] == name
}
