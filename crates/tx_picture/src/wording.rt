//! The texts of steps: what each is, as its author wrote it, and what it was answered.
ghost use Rattle.std.specs.Prelude.{◌≡◌, ◌≤◌, ◌++◌, [], IfOk, OnOk, length, map, option_map};
ghost use Rattle.tx_picture.specs.Captions.{short};
ghost use Rattle.tx_picture.specs.Sheets.{page_as};
ghost use Rattle.tx_picture.specs.Steps.{joined, shown_words, step_words, whole_words};
ghost use Rattle.tx_translate.specs.Lines.{spaced};
ghost use Rattle.tx_translate.specs.Words.{words_in};

use crate::captions::put_short;
use crate::rows::Row;
use crate::sheets::Sheet;
use std::alloc::{AllocError, Global};
use tx_base::Step;
use tx_lines::{put, put_step};
use tx_state_text::put_named_reply;
use tx_translate::split_word;

/// A text, of which long words are cut.
#[derive(Drop)]
pub(crate) struct Wording {
    /// As it is shown.
    pub shown: Vec<u8>,
    pub whole: Vec<u8>,
}

/// How many bytes of a word of a step are shown.
const WORD_BYTES: usize = 24;

/// The text of the step in a row: what it is, and what it was answered, with the name of an error.
pub(crate) fn words_of(
    alloc: Global,
    sheet: Sheet<'_>,
    number: u16,
    row: &Row,
) -> Result<Wording, AllocError>
    ensures shown { IfOk result (λ words.
        words.shown.items ≡ shown_words (page_as sheet.entry) number row.now) }
    ensures whole { IfOk result (λ words.
        words.whole.items ≡ whole_words (page_as sheet.entry) number row.now) }
{
    let mut words = Wording::new(alloc);
    let step = usize::from(sheet.before) + usize::from(number);
    words.add_step(alloc, sheet.captions.line_of(step), &row.step)?;
    let mut answer = String::new(alloc);
    put(&mut answer, " : ")?;
    put_named_reply(&mut answer, &row.reply)?;
    words.add(answer.as_bytes())?;
    Ok(words)
}

impl Wording {
    /// A text without a word.
    pub fn new(alloc: Global) -> Wording
        ensures shown { result.shown.items ≡ [] }
        ensures whole { result.whole.items ≡ [] }
    {
        Wording {
            shown: Vec::new(alloc),
            whole: Vec::new(alloc),
        }
    }

    /// How many characters are shown.
    pub fn width(&self) -> u64
        ensures { result ≡ length self.now.shown.items }
    {
        self.shown.len() as u64
    }

    /// Appends a step: the words of its line, or as version 2 spells it where there is none.
    fn add_step(
        &mut self,
        alloc: Global,
        line: Option<&[u8]>,
        step: &Step,
    ) -> Result<(), AllocError>
        ensures shown { OnOk result (self.new.shown.items ≡ self.old.shown.items
            ++ step_words (short 24) (option_map (λ line. line.now) line.entry) step.now) }
        ensures whole { OnOk result (self.new.whole.items ≡ self.old.whole.items
            ++ step_words (λ word. word) (option_map (λ line. line.now) line.entry) step.now) }
    {
        match line {
            Some(line) => self.add_line(line),
            None => {
                let mut spelled = String::new(alloc);
                put_step(&mut spelled, step)?;
                self.add(spelled.as_bytes())
            }
        }
    }

    /// Appends the words of a line, with a space between each two.
    fn add_line(&mut self, line: &[u8]) -> Result<(), AllocError>
        ensures shown { OnOk result (self.new.shown.items ≡ self.old.shown.items
            ++ joined (map (short 24) (words_in line.now))) }
        ensures whole { OnOk result (self.new.whole.items ≡ self.old.whole.items
            ++ joined (map (λ word. word) (words_in line.now))) }
    {
        let Some((first, others)) = split_word(line) else {
            return Ok(());
        };
        self.add_word(first, WORD_BYTES)?;
        self.add_others(others)
    }

    /// Appends the words of what is left of a line, with a space before each.
    fn add_others(&mut self, others: &[u8]) -> Result<(), AllocError>
        ensures shown { OnOk result (self.new.shown.items ≡ self.old.shown.items
            ++ spaced (map (short 24) (words_in others.now))) }
        ensures whole { OnOk result (self.new.whole.items ≡ self.old.whole.items
            ++ spaced (map (λ word. word) (words_in others.now))) }
    {
        let mut left = others;
        while let Some((word, rest)) = split_word(left) {
            self.add(b" ")?;
            self.add_word(word, WORD_BYTES)?;
            left = rest;
        }
        Ok(())
    }

    /// Appends a word, of which so many bytes are shown.
    pub fn add_word(&mut self, word: &[u8], most: usize) -> Result<(), AllocError>
        requires { 2 ≤ most }
        ensures shown { OnOk result
            (self.new.shown.items ≡ self.old.shown.items ++ short most word.now) }
        ensures whole { OnOk result (self.new.whole.items ≡ self.old.whole.items ++ word.now) }
    {
        put_short(&mut self.shown, word, most)?;
        self.whole.extend_from_slice(word)
    }

    /// Appends bytes that are shown.
    fn add(&mut self, bytes: &[u8]) -> Result<(), AllocError>
        ensures shown { OnOk result (self.new.shown.items ≡ self.old.shown.items ++ bytes.now) }
        ensures whole { OnOk result (self.new.whole.items ≡ self.old.whole.items ++ bytes.now) }
    {
        self.shown.extend_from_slice(bytes)?;
        self.whole.extend_from_slice(bytes)
    }
}
