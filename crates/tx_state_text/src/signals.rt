//! Prints the signals of a process.
ghost use Rattle.std.specs.Prelude.{◌≡◌, ◌++◌, OnOk, string_bytes};
ghost use Rattle.tx_base.specs.Signals.{bits_of};
ghost use Rattle.tx_proc.specs.Parts.{process_of};
ghost use Rattle.tx_state_text.specs.Signals.{action_line, actions_text, entry_text, frame_text, frames_text, queued_line, set_line, signals_text};

use crate::registers::put_slots;
use bitflags::Flags;
use std::alloc::AllocError;
use std::fmt::Write;
use tx_base::{Action, Regs, SIGNALS, SigSet, Signo};
use tx_lines::{put, put_set};
use tx_proc::Proc;
use tx_signal::{Actions, Frame, Queued};

/// Appends the lines of a process's signals: its mask, actions, pending standard signals, queue and
/// frames.
pub fn put_signals(text: &mut String, proc: &Proc) -> Result<(), AllocError>
    ensures { OnOk result
        (string_bytes text.new ≡ string_bytes text.old ++ signals_text (process_of proc.now)) }
{
    put_set_line(text, "mask ", proc.mask)?;
    put_actions(text, &proc.actions)?;
    put_set_line(text, "pending ", proc.pending.standard())?;
    put_queued_line(text, proc.pending.queued())?;
    put_frames(text, proc.frames.frames())
}

/// Appends the line of a set after a word, where the set is not empty.
pub fn put_set_line(text: &mut String, word: &str, set: SigSet) -> Result<(), AllocError>
    ensures { OnOk result
        (string_bytes text.new ≡ string_bytes text.old ++ set_line word.now (bits_of set)) }
{
    if set.is_empty() {
        return Ok(());
    }
    put(text, word)?;
    put_set(text, set)?;
    put(text, "\n")
}

/// Appends the line of each action that is not the usual one, by rising signal.
fn put_actions(text: &mut String, actions: &Actions) -> Result<(), AllocError>
    ensures { OnOk result
        (string_bytes text.new ≡ string_bytes text.old ++ actions_text actions.now) }
{
    for number in 0..SIGNALS {
        let signo = Signo(number as u8);
        put_action_line(text, signo, actions.get(signo))?;
    }
    Ok(())
}

/// Appends the line of the action of a signal, where it is not the usual one.
fn put_action_line(text: &mut String, signo: Signo, action: Action) -> Result<(), AllocError>
    ensures { OnOk result
        (string_bytes text.new ≡ string_bytes text.old ++ action_line signo.0 action) }
{
    match action {
        Action::Usual => Ok(()),
        Action::Ignore => write!(text, "action {} ignore\n", signo.0),
        Action::Catch { point, mask } => {
            write!(text, "action {} catch {point} ", signo.0)?;
            put_set(text, mask)?;
            put(text, "\n")
        }
    }
}

/// Appends the line of the queue, where there is an entry.
pub fn put_queued_line(text: &mut String, entries: &[Queued]) -> Result<(), AllocError>
    ensures { OnOk result
        (string_bytes text.new ≡ string_bytes text.old ++ queued_line entries.now) }
{
    if entries.is_empty() {
        return Ok(());
    }
    put(text, "queued")?;
    for i in 0..entries.len() {
        put_entry(text, &entries[i])?;
    }
    put(text, "\n")
}

/// Appends an entry of the queue.
fn put_entry(text: &mut String, entry: &Queued) -> Result<(), AllocError>
    ensures { OnOk result (string_bytes text.new ≡ string_bytes text.old ++ entry_text entry.now) }
{
    write!(text, " {}:{}", entry.signo.0, entry.value)
}

/// Appends the line of each frame, the oldest first.
fn put_frames(text: &mut String, frames: &[Frame]) -> Result<(), AllocError>
    ensures { OnOk result
        (string_bytes text.new ≡ string_bytes text.old ++ frames_text frames.now) }
{
    for i in 0..frames.len() {
        put_frame(text, &frames[i])?;
    }
    Ok(())
}

/// Appends the line of a frame.
fn put_frame(text: &mut String, frame: &Frame) -> Result<(), AllocError>
    ensures { OnOk result (string_bytes text.new ≡ string_bytes text.old ++ frame_text frame.now) }
{
    let Regs { point, ret, slots } = &frame.registers;
    write!(text, "frame {point} {ret} ")?;
    put_set(text, frame.mask)?;
    put_slots(text, slots)
}
