//! Appends the signals of a process.
ghost use Rattle.std.specs.Prelude.{◌≡◌, ◌++◌, OnOk};
ghost use Rattle.tx_json.specs.Signals.{action_item, actions_member, entry_item, frame_item, frames_member, queued_member, signals_members};
ghost use Rattle.tx_proc.specs.Parts.{process_of};

use crate::line::LineWriter;
use crate::lists::{put_numbers, put_set};
use crate::members::{
    begin_list, begin_object, end_list, end_object, put_count, put_number, put_word,
};
use std::alloc::AllocError;
use tx_base::{Action, SIGNALS, Signo};
use tx_proc::Proc;
use tx_signal::{Actions, Frame, Queued};

/// Appends a process's signals: its mask, actions, pending standard signals, queue and frames.
pub fn put_signals(writer: &mut LineWriter, proc: &Proc) -> Result<(), AllocError>
    ensures { OnOk result
        (writer.new ≡ writer.old ++ signals_members (process_of proc.now)) }
{
    put_set(writer, "mask", proc.mask)?;
    put_actions(writer, &proc.actions)?;
    put_set(writer, "pending", proc.pending.standard())?;
    put_queued(writer, proc.pending.queued())?;
    put_frames(writer, proc.frames.frames())
}

/// Appends each action that is not the usual one, by rising signal.
fn put_actions(writer: &mut LineWriter, actions: &Actions) -> Result<(), AllocError>
    ensures { OnOk result (writer.new ≡ writer.old ++ actions_member actions.now) }
{
    begin_list(writer, "actions")?;
    for number in 0..SIGNALS {
        let signo = Signo(number as u8);
        put_action(writer, signo, actions.get(signo))?;
    }
    end_list(writer)
}

/// Appends the action of a signal, where it is not the usual one.
fn put_action(writer: &mut LineWriter, signo: Signo, action: Action) -> Result<(), AllocError>
    ensures { OnOk result (writer.new ≡ writer.old ++ action_item signo.0 action) }
{
    match action {
        Action::Usual => Ok(()),
        Action::Ignore => {
            begin_object(writer)?;
            put_count(writer, "signo", u64::from(signo.0))?;
            put_word(writer, "action", "ignore")?;
            end_object(writer)
        }
        Action::Catch { point, mask } => {
            begin_object(writer)?;
            put_count(writer, "signo", u64::from(signo.0))?;
            put_word(writer, "action", "catch")?;
            put_count(writer, "point", u64::from(point))?;
            put_set(writer, "mask", mask)?;
            end_object(writer)
        }
    }
}

/// Appends the queue, the first to be taken first.
fn put_queued(writer: &mut LineWriter, entries: &[Queued]) -> Result<(), AllocError>
    ensures { OnOk result (writer.new ≡ writer.old ++ queued_member entries.now) }
{
    begin_list(writer, "queued")?;
    for i in 0..entries.len() {
        put_entry(writer, &entries[i])?;
    }
    end_list(writer)
}

/// Appends an entry of the queue.
fn put_entry(writer: &mut LineWriter, entry: &Queued) -> Result<(), AllocError>
    ensures { OnOk result (writer.new ≡ writer.old ++ entry_item entry.now) }
{
    begin_object(writer)?;
    put_count(writer, "signo", u64::from(entry.signo.0))?;
    put_number(writer, "value", entry.value)?;
    end_object(writer)
}

/// Appends what caught signals saved, the oldest first.
fn put_frames(writer: &mut LineWriter, frames: &[Frame]) -> Result<(), AllocError>
    ensures { OnOk result (writer.new ≡ writer.old ++ frames_member frames.now) }
{
    begin_list(writer, "frames")?;
    for i in 0..frames.len() {
        put_frame(writer, &frames[i])?;
    }
    end_list(writer)
}

/// Appends what a caught signal saved.
fn put_frame(writer: &mut LineWriter, frame: &Frame) -> Result<(), AllocError>
    ensures { OnOk result (writer.new ≡ writer.old ++ frame_item frame.now) }
{
    begin_object(writer)?;
    put_count(writer, "point", u64::from(frame.registers.point))?;
    put_number(writer, "ret", frame.registers.ret)?;
    put_set(writer, "mask", frame.mask)?;
    put_numbers(writer, "slots", &frame.registers.slots)?;
    end_object(writer)
}
