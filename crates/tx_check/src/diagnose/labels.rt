//! The labels in the text of a program: which are there twice, and which nowhere.
ghost use Rattle.std.specs.Prelude.{◌≡◌, ◌≤◌, IfNone, IfSome, length};
ghost use Rattle.tx_check.specs.Labels.{AreKnown};
ghost use Rattle.tx_check.specs.Right.{SpellsLine};
ghost use Rattle.tx_check.specs.Speaking.{kind_of_what, OfGrammar, OfLabel};
ghost use Rattle.tx_check.specs.Wrong.{IsLinkedLine, IsTwice, NamesNowhere};
ghost use Rattle.tx_translate.specs.MeantLines.{left_of};

use crate::faults::is_unlinked;
use crate::labels::{LABEL_FRONT, Labels};
use crate::places::is_label;
use crate::trouble::{Names, Trouble, What, WordTrouble};
use crate::words::{Word, count_words, word_at};
use tx_lines::Version;
use tx_translate::MeantLines;

/// What is wrong with the line of that number, where it is a label whose name is in a line before
/// it.
pub fn second_label<'a>(text: &Labels<'_>, number: u64, line: &'a [u8]) -> Option<Trouble<'a>>
    requires { AreKnown text.now }
    ensures twice { IfSome result (λ trouble. IsTwice (left_of text.now.text) number line.now) }
    ensures once { IfNone result (IsTwice (left_of text.now.text) number line.now → ⊥) }
    ensures kind { IfSome result (λ trouble. kind_of_what trouble.what ≡ OfGrammar) }
{
    if !is_label(line) {
        return None;
    }
    let name = &line[LABEL_FRONT..];
    let earlier = text.place_of(name)?;
    if earlier.number >= number {
        return None;
    }
    Some(Trouble {
        column: LABEL_FRONT + 1,
        what: What::Word(name, WordTrouble::SecondLabel(earlier.own)),
    })
}

/// What is wrong with a line of a program of that version, where it names a label that is nowhere.
pub fn link_trouble<'a>(
    lines: MeantLines<'a>,
    text: &Labels<'_>,
    version: Version,
    line: &'a [u8],
) -> Option<Trouble<'a>>
    requires known { AreKnown text.now }
    requires right { SpellsLine version line.now }
    requires short { length line.now ≤ 512 }
    ensures nowhere { IfSome result (λ trouble. NamesNowhere (left_of text.now.text) line.now) }
    ensures linked { IfNone result (IsLinkedLine version (left_of text.now.text) line.now) }
    ensures kind { IfSome result (λ trouble. kind_of_what trouble.what ≡ OfLabel) }
{
    if is_unlinked(text, version, line) {
        let names = Names::Labels(lines);
        return Some(Trouble::of_word(label_named(text, line), WordTrouble::NoSuch(names)));
    }
    None
}

/// The first word of a line that names a label that is nowhere; all of the line where none does.
fn label_named<'a>(text: &Labels<'_>, line: &'a [u8]) -> Word<'a>
    requires { AreKnown text.now }
{
    for place in 0..count_words(line) {
        if let Some(word) = word_at(line, place)
            && let [b'@', name @ ..] = word.bytes
            && text.place_of(name).is_none()
        {
            return word;
        }
    }
    Word {
        column: 1,
        bytes: line,
    }
}
