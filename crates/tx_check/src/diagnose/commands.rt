//! What is wrong with a command of a debugger.
use crate::diagnose::calls::form_trouble;
use crate::forms::{form_of_ask, form_of_command};
use crate::trouble::{LineTrouble, Names, Trouble, WordTrouble};
use crate::words::{Word, word_at};
use tx_lines::{TextKind, Version, read_pid};

/// What is wrong with the words of a line that must be a command.
pub fn command_trouble<'a>(version: Version, line: &'a [u8]) -> Option<Trouble<'a>> {
    let name = word_at(line, 0)?;
    match form_of_command(name.bytes) {
        Some(form) => form_trouble(TextKind::Schedule, version, form, line, 0),
        None => Some(no_command(name)),
    }
}

/// What is wrong with a first word that is no command: what it would be elsewhere, or the name.
fn no_command<'a>(name: Word<'a>) -> Trouble<'a> {
    if name.bytes == b"debug".as_slice() {
        return Trouble::of_line(name.column, LineTrouble::DebugAgain);
    }
    if name.bytes == b"kernel".as_slice() || read_pid(name.bytes).is_some() {
        return Trouble::of_line(name.column, LineTrouble::StepAmongCommands);
    }
    if name.bytes == b"name".as_slice() {
        return Trouble::of_word(name, WordTrouble::NoNames);
    }
    if form_of_ask(name.bytes).is_some() {
        return Trouble::of_word(name, WordTrouble::SessionCommand);
    }
    Trouble::of_word(name, WordTrouble::NoSuch(Names::Commands))
}
