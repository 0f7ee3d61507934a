//! The lines of a text itself, in which the faults of the lines that they mean are reported.
ghost use Rattle.std.specs.Prelude.{◌≡◌, ◌-◌, ◌≤◌, IfSome};
ghost use Rattle.tx_check.specs.Numbered.{after_lines};
ghost use Rattle.tx_check.specs.Speaking.{kind_of_what};
ghost use Rattle.tx_check.specs.Diagnostics.{IsColumn};
ghost use Rattle.tx_check.specs.declared.trouble.LineTrouble.TheVariants as troubles;
ghost use Rattle.tx_check.specs.declared.trouble.What.TheVariants as whats;
ghost use Rattle.tx_lines.specs.Schedule.{first_line};

use crate::places::{Part, TextLine, after_first_line};
use crate::third::third_trouble;
use crate::trouble::Trouble;
use crate::words::{Word, count_words, word_at};
use tx_translate::split_word;

/// A text from one of its lines on.
#[derive(Clone, Copy)]
pub struct TextFrom<'a> {
    /// The number of that line. Lines count from 1.
    pub number: u64,
    pub left: &'a [u8],
}

impl<'a> TextFrom<'a> {
    /// A text from its first line on.
    pub fn first(text: &'a [u8]) -> TextFrom<'a>
        ensures number { result.number ≡ 1 }
        ensures left { result.left.now ≡ text.now }
    {
        TextFrom {
            number: 1,
            left: text,
        }
    }

    /// The same text from a later line on.
    pub fn moved_to(self, number: u64) -> TextFrom<'a>
        requires { self.number ≤ number }
        ensures number { result.number ≡ number }
        ensures left { result.left.now
            ≡ after_lines (number - self.entry.number) self.entry.left.now }
    {
        let mut left = self.left;
        for _passed in 0..number - self.number {
            left = after_first_line(left);
        }
        TextFrom { number, left }
    }

    /// That line.
    pub fn line(self) -> TextLine<'a>
        ensures number { result.number ≡ self.entry.number }
        ensures bytes { result.bytes.now ≡ first_line self.entry.left.now }
    {
        TextLine::first_of(self.number, self.left)
    }
}

/// What is wrong with a line that is meant, in the own line that means it, and in the words of
/// version 3 where that is the text's.
pub fn own_trouble<'a>(
    is_third: bool,
    part: Part,
    line: &'a [u8],
    own: &'a [u8],
    trouble: Trouble<'a>,
) -> Trouble<'a>
    ensures kind { kind_of_what result.what ≡ kind_of_what trouble.entry.what }
    ensures long { result.what ≡ whats.Line troubles.TooLong →
        trouble.entry.what ≡ whats.Line troubles.TooLong }
{
    let trouble = trouble.within(line);
    let place = count_words(&line[..trouble.column - 1]) - 1;
    let moved = Trouble {
        column: own_column(line, own, place, trouble.column),
        what: trouble.what,
    };
    if !is_third || !trouble.what.is_of_grammar() {
        return moved;
    }
    let third = third_trouble(part, line, place, own, moved);
    if third.what.is_of_grammar() {
        third
    } else {
        moved
    }
}

/// The column in an own line of what is at a column of the line that it means, in the word of that
/// place: that of the own word in the same place, or the one after it for the end of the line.
fn own_column(line: &[u8], own: &[u8], place: usize, column: usize) -> usize {
    if line == own {
        return column;
    }
    match (own_word(own, place), word_at(line, place)) {
        (Some(word), _) if column > line.len() => word.column.saturating_add(word.bytes.len()),
        (Some(word), Some(meant)) => {
            let inside = column.saturating_sub(meant.column);
            word.column.saturating_add(inside.min(word.bytes.len()))
        }
        _ => 1,
    }
}

/// The word at that place of an own line. Places count from 0.
pub fn own_word(line: &[u8], place: usize) -> Option<Word<'_>>
    ensures { IfSome result (λ word. IsColumn line.now word.column) }
{
    let mut left = line;
    for _earlier in 0..place {
        let (_word, rest) = split_word(left)?;
        left = rest;
    }
    let (bytes, rest) = split_word(left)?;
    Some(Word {
        column: line.len() - rest.len() - bytes.len() + 1,
        bytes,
    })
}
