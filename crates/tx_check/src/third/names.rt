//! What is wrong with a line that must give a name to a process.
ghost use Rattle.std.specs.Prelude.{◌≡◌, false, is_some, true, IfNone, IfSome};
ghost use Rattle.tx_translate.specs.Names.{is_name, process_in};

use crate::diagnose::numbers::no_number;
use crate::forms::form_of_ask;
use crate::own::own_word;
use crate::placed::before_return;
use crate::places::Part;
use crate::trouble::{Trouble, What, WordTrouble};
use crate::words::Word;
use tx_translate::{is_name, process_in, split_word};

/// What is wrong with an own line that must give a name, where such a line was found wrong as it is
/// before version 3. Else what was found.
pub fn naming_trouble<'a>(part: Part, own: &'a [u8], found: Trouble<'a>) -> Trouble<'a> {
    match (part, found.what) {
        (Part::Step | Part::Command, What::Word(_, WordTrouble::NoNames)) => {
            wrong_in(before_return(own)).unwrap_or(found)
        }
        _ => found,
    }
}

/// What is wrong with the words of a line that begins with `name`. Nothing where it gives a name.
fn wrong_in<'a>(line: &'a [u8]) -> Option<Trouble<'a>> {
    let first = own_word(line, 0)?;
    let form = form_of_ask(first.bytes)?;
    let count = count_own_words(line).saturating_sub(1);
    if count != 2 {
        return Some(Trouble::of_word(first, WordTrouble::Takes(form, count)));
    }
    number_trouble(own_word(line, 1)?).or_else(|| name_trouble(own_word(line, 2)?))
}

/// What is wrong where the number of a process is expected.
fn number_trouble<'a>(word: Word<'a>) -> Option<Trouble<'a>>
    ensures wrong { IfSome result (λ trouble. is_some (process_in word.entry.bytes.now) ≡ false) }
    ensures right { IfNone result (is_some (process_in word.entry.bytes.now) ≡ true) }
{
    if process_in(word.bytes).is_some() {
        return None;
    }
    Some(no_number(word, "1 to 256"))
}

/// What is wrong where a name is expected.
fn name_trouble<'a>(word: Word<'a>) -> Option<Trouble<'a>>
    ensures wrong { IfSome result (λ trouble. is_name word.entry.bytes.now ≡ false) }
    ensures right { IfNone result (is_name word.entry.bytes.now ≡ true) }
{
    if is_name(word.bytes) {
        return None;
    }
    Some(Trouble::of_word(word, WordTrouble::NoProcessName))
}

/// How many words an own line has.
fn count_own_words(line: &[u8]) -> usize {
    let mut left = line;
    for count in 0..line.len() {
        let Some((_word, rest)) = split_word(left) else {
            return count;
        };
        left = rest;
    }
    line.len()
}
