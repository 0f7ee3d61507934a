//! How a fault is reported.
ghost use Rattle.std.specs.Prelude.{◌≡◌, ◌++◌, IfOk, string_bytes};
ghost use Rattle.std.specs.Fmt.{decimal};
ghost use Rattle.tx_answers.specs.Faults.{fault_text, ReportsFault};

use crate::answers::Answer;
use std::alloc::{AllocError, Global};
use tx_lines::{Fault, put, put_count};

/// The answer to a text with that fault: its words, but where it is that memory was refused.
pub fn unread(alloc: Global, fault: Fault) -> Answer
    ensures { ReportsFault fault result }
{
    if let Fault::NoMemory = fault {
        return Answer::NoMemory;
    }
    match words_of(alloc, fault) {
        Ok(words) => Answer::Unread(words),
        Err(AllocError) => Answer::NoMemory,
    }
}

/// The words of a fault, as the program prints them.
fn words_of(alloc: Global, fault: Fault) -> Result<String, AllocError>
    ensures { IfOk result (λ words. string_bytes words ≡ fault_text fault) }
{
    match fault {
        Fault::NotALine { line } => word_with(alloc, "F1 line ", line),
        Fault::NoLabel { line } => word_with(alloc, "F2 line ", line),
        Fault::TooLong { line } => word_with(alloc, "F3 line ", line),
        Fault::Reader => word(alloc, "F4"),
        Fault::Writer => word(alloc, "F5"),
        Fault::NoMemory => word(alloc, "F6"),
    }
}

/// A word and the number of a line.
fn word_with(alloc: Global, word: &str, line: u64) -> Result<String, AllocError>
    ensures { IfOk result (λ text. string_bytes text ≡ word.now ++ decimal line) }
{
    let mut text = self::word(alloc, word)?;
    put_count(&mut text, line)?;
    Ok(text)
}

/// A word on its own.
fn word(alloc: Global, word: &str) -> Result<String, AllocError>
    ensures { IfOk result (λ text. string_bytes text ≡ word.now) }
{
    let mut text = String::new(alloc);
    put(&mut text, word)?;
    Ok(text)
}
