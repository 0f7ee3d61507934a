//! Translates a text of version 3 to the text of version 2 that it means.
ghost use Rattle.std.specs.Prelude.{◌≡◌, ◌+◌, ◌-◌, ◌^◌, ◌<◌, ◌++◌, [], MatchOption, IfOk, OnOk, false, true};
ghost use Rattle.tx_translate.specs.Lines.{plain_line};
ghost use Rattle.tx_translate.specs.Plain.{ended, is_third, numbered, own_line_of, IsPlainOf};

use crate::lines::split_line;
use crate::plain_lines::{line_meaning, stage_after};
use crate::room::Room;
use crate::spellings::{begins_with, is};
use crate::stage::Stage;
use crate::words::split_word;
use std::alloc::{AllocError, Global};
use tx_base::NoMemory;

/// The text of version 2 that a text of version 3 means, and which of its lines are whose.
#[derive(Drop)]
pub struct Plain {
    text: Vec<u8>,
    /// The number of the person's line of each line of the text.
    numbers: Vec<u64>,
    /// The number after that of the person's last line.
    after: u64,
}

impl Plain {
    /// The text of version 2.
    pub fn as_bytes(&self) -> &[u8]
        ensures { result.now ≡ self.now.text.items }
    {
        self.text.as_slice()
    }

    /// The number of the person's line that a line of the text of version 2 comes from. Lines
    /// count from 1. After the last line it is the number after the person's last line; 0, the
    /// text as a whole, stays 0.
    pub fn own_line(&self, line: u64) -> u64
        ensures { result ≡ own_line_of self.now line }
    {
        if line == 0 {
            return 0;
        }
        self.numbers
            .get((line - 1) as usize)
            .copied()
            .unwrap_or(self.after)
    }

    /// Appends what the person's next line means at that stage of a text, by way of the room.
    /// After an error the text may have a part of it.
    fn put_line(&mut self, room: &mut Room, stage: Stage, line: &[u8]) -> Result<(), AllocError>
        requires { self.old.after < 2 ^ 64 - 1 }
        ensures text { OnOk result
            (self.new.text.items ≡ self.old.text.items ++ ended (plain_line stage line.now)) }
        ensures numbers { OnOk result (self.new.numbers.items
            ≡ self.old.numbers.items ++ numbered self.old.after (plain_line stage line.now) []) }
        ensures after { OnOk result (self.new.after ≡ self.old.after + 1) }
    {
        if let Some(meaning) = line_meaning(room, stage, line) {
            self.text.extend_from_slice(meaning)?;
            self.text.push(b'\n')?;
            self.numbers.push(self.after)?;
        }
        self.after += 1;
        Ok(())
    }
}

/// Whether a text is one of version 3: the first line that has a word begins with the words `txos`
/// and `3`.
pub fn is_third(text: &[u8]) -> bool
    ensures { result ≡ is_third text.now }
{
    let mut left = text;
    while let Some((line, rest)) = split_line(left) {
        if let Some((first, others)) = split_word(line) {
            return is(first, b"txos") && begins_with(b"3", others);
        }
        left = rest;
    }
    false
}

/// The text of version 2 that a text of version 3 means; nothing where the text is of another
/// version. Each line of the text is that of one line of the person's; lines without a word are
/// left out. What is wrong stays as it is, a line of more than 512 bytes as a whole: a reader of
/// the text of version 2 finds its first fault in the line of the first line at fault. The only
/// error is a refused growth of memory.
pub fn plain_text(alloc: Global, text: &[u8]) -> Result<Option<Plain>, NoMemory>
    ensures { IfOk result (λ r. MatchOption r (is_third text.now ≡ false) (λ plain.
        (is_third text.now ≡ true) × IsPlainOf text.now plain)) }
{
    if !is_third(text) {
        return Ok(None);
    }
    Ok(Some(translated(alloc, text)?))
}

/// The lines of version 2 that the lines of a text mean. The first of these with a word is a
/// header.
fn translated(alloc: Global, text: &[u8]) -> Result<Plain, NoMemory>
    ensures { IfOk result (IsPlainOf text.now) }
{
    let mut plain = Plain {
        text: Vec::new(alloc),
        numbers: Vec::new(alloc),
        after: 1,
    };
    let mut room = Room::new();
    let mut stage = Stage::Heading;
    let mut left = text;
    while let Some((line, rest)) = split_line(left) {
        plain.put_line(&mut room, stage, line)?;
        stage = stage_after(stage, line);
        left = rest;
    }
    Ok(plain)
}
