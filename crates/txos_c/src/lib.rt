//! The library for C: a text in, and its answer out, into the caller's buffer.
//!
//! Each function hands out the answer of the program's command of that name (tx_answers).
//! `include/txos.h` declares the functions and their statuses, and says what a caller owes. A
//! slice crosses as a pointer and a length, and the allocator as nothing. Nothing is kept between
//! calls, so calls on several threads don't meet.
#![tactic(auto)]

ghost use Rattle.tx_answers.specs.Handed.{Gives};
ghost use Rattle.tx_answers.specs.Sessions.{form_of, AnswersLines};
ghost use Rattle.tx_answers.specs.Texts.{IsAnswered, IsChecked};
ghost use Rattle.tx_script.specs.Grammars.{schedules, walks};

use std::alloc::Global;
use tx_answers::{checked, replayed, served, walked};

/// The report of a schedule, as `txos replay` writes it.
#[unsafe(no_mangle)]
pub extern "C" fn txos_replay(
    alloc: Global,
    text: &[u8],
    answer: &mut [u8],
    size: &mut usize,
) -> i32
    ensures { Gives (IsAnswered schedules text.now) answer.old result answer.new size.new }
{
    replayed(alloc, text).hand_out(answer, size)
}

/// What the commands after a schedule answer, as `txos debug` writes it.
#[unsafe(no_mangle)]
pub extern "C" fn txos_debug(alloc: Global, text: &[u8], answer: &mut [u8], size: &mut usize) -> i32
    ensures { Gives (IsAnswered walks text.now) answer.old result answer.new size.new }
{
    walked(alloc, text).hand_out(answer, size)
}

/// What is wrong with a text of any kind, as `txos check` writes it.
#[unsafe(no_mangle)]
pub extern "C" fn txos_check(alloc: Global, text: &[u8], answer: &mut [u8], size: &mut usize) -> i32
    ensures { Gives (IsChecked text.now) answer.old result answer.new size.new }
{
    checked(alloc, text).hand_out(answer, size)
}

/// The answers to the lines of a session, as `txos shell` writes them. The form is 0 for text; any
/// other number is for JSON. The status is never 1.
#[unsafe(no_mangle)]
pub extern "C" fn txos_shell(
    alloc: Global,
    text: &[u8],
    form: i32,
    answer: &mut [u8],
    size: &mut usize,
) -> i32
    ensures { Gives (AnswersLines (form_of form) text.now) answer.old result answer.new size.new }
{
    served(alloc, tx_answers::form_of(form), text).hand_out(answer, size)
}
