//! What whole texts are answered.
ghost use Rattle.tx_script.specs.Grammars.{schedules, walks};
ghost use Rattle.tx_answers.specs.Texts.{IsAnswered, IsChecked};

use crate::answers::Answer;
use crate::faults::unread;
use std::alloc::Global;
use tx_base::NoMemory;
use tx_check::check_text;
use tx_lines::{Fault, TEXT_BYTES};
use tx_script::{debug_text, replay_text};

/// The fault of a longer one.
const TOO_LONG: Fault = Fault::TooLong { line: 0 };

/// The report of a schedule, or its fault.
pub fn replayed(alloc: Global, text: &[u8]) -> Answer
    ensures { IsAnswered schedules text.now result }
{
    if text.len() > TEXT_BYTES {
        return unread(alloc, TOO_LONG);
    }
    match replay_text(alloc, text) {
        Ok(report) => Answer::Read(report),
        Err(fault) => unread(alloc, fault),
    }
}

/// What the commands of a text answer, or its fault.
pub fn walked(alloc: Global, text: &[u8]) -> Answer
    ensures { IsAnswered walks text.now result }
{
    if text.len() > TEXT_BYTES {
        return unread(alloc, TOO_LONG);
    }
    match debug_text(alloc, text) {
        Ok(answers) => Answer::Read(answers),
        Err(fault) => unread(alloc, fault),
    }
}

/// What is wrong with a text, which is nothing exactly where it can be read.
pub fn checked(alloc: Global, text: &[u8]) -> Answer
    ensures { IsChecked text.now result }
{
    if text.len() > TEXT_BYTES {
        return unread(alloc, TOO_LONG);
    }
    match check_text(alloc, text) {
        Ok(report) if report.is_empty() => Answer::Read(report),
        Ok(report) => Answer::Unread(report),
        Err(NoMemory) => Answer::NoMemory,
    }
}
