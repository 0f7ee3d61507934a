//! Writes the answers to a line, an object each.
ghost use Rattle.std.specs.Prelude.{◌≡◌, ◌++◌, IfOk, OnOk, map, string_bytes};
ghost use Rattle.std.specs.Str.Lines.{lines};
ghost use Rattle.tx_json.specs.Answers.{empty_answer, entry_answer, error_answer, line_item, lines_front, lines_member, number_members, position_answer, state_answer, state_key, step_answer, trial_answer};
ghost use Rattle.tx_json.specs.Each.{each_tokens};
ghost use Rattle.tx_json.specs.Line.{IsLineOf};
ghost use Rattle.tx_json.specs.Members.{end_object};
ghost use Rattle.tx_content.specs.Content.{view_of};

use crate::line::LineWriter;
use crate::members::{begin_list, begin_object, end_list, end_object, put_count, put_word};
use crate::replies::put_reply;
use crate::state::put_state;
use std::alloc::{AllocError, Global};
use std::mem;
use tx_base::{NoMemory, Reply};
use tx_core::Machine;

/// An empty object.
///
/// NoMemory where a growth is refused.
pub fn empty_answer(alloc: Global) -> Result<String, NoMemory>
    ensures { IfOk result (λ text. IsLineOf empty_answer (string_bytes text)) }
{
    let mut writer = LineWriter::new(alloc);
    begin_object(&mut writer)?;
    end_object(&mut writer)?;
    writer.into_text()
}

/// A position, as `{"at":7}`.
///
/// NoMemory where a growth is refused.
pub fn position_answer(alloc: Global, position: usize) -> Result<String, NoMemory>
    ensures { IfOk result (λ text. IsLineOf (position_answer position) (string_bytes text)) }
{
    let mut writer = LineWriter::new(alloc);
    begin_object(&mut writer)?;
    put_count(&mut writer, "at", position as u64)?;
    end_object(&mut writer)?;
    writer.into_text()
}

/// A line that begins with a position and the lines of a text, and may have more members.
pub fn begin_lines(alloc: Global, position: usize, text: &str) -> Result<LineWriter, AllocError>
    ensures { IfOk result (λ writer. writer ≡ lines_front position text.now) }
{
    let mut writer = LineWriter::new(alloc);
    begin_object(&mut writer)?;
    put_count(&mut writer, "at", position as u64)?;
    put_lines(alloc, &mut writer, text)?;
    Ok(writer)
}

/// The text of a line, once its object is ended.
///
/// NoMemory where a growth is refused.
pub fn end_answer(writer: LineWriter) -> Result<String, NoMemory>
    ensures { IfOk result (λ text. IsLineOf (writer ++ end_object) (string_bytes text)) }
{
    let mut writer = writer;
    end_object(&mut writer)?;
    writer.into_text()
}

/// Appends the lines of a text.
fn put_lines(alloc: Global, writer: &mut LineWriter, text: &str) -> Result<(), AllocError>
    ensures { OnOk result (writer.new ≡ writer.old ++ lines_member text.now) }
{
    let lines = lines_in(alloc, text)?;
    begin_list(writer, "lines")?;
    put_items(writer, lines.as_slice())?;
    end_list(writer)
}

/// The lines of a text.
fn lines_in(alloc: Global, text: &str) -> Result<Vec<&str>, AllocError>
    ensures { IfOk result (λ found. map (λ line. line.now) found.items ≡ lines text.now) }
{
    text.lines().collect(alloc)
}

/// Appends lines as items of a list.
fn put_items(writer: &mut LineWriter, lines: &[&str]) -> Result<(), AllocError>
    ensures { OnOk result (writer.new ≡ writer.old
        ++ each_tokens line_item (map (λ line. line.now) lines.now)) }
{
    for i in 0..lines.len() {
        put_item(writer, lines[i])?;
    }
    Ok(())
}

/// Appends a line as an item of a list.
#[tactic(auto, unfolding(crate::specs::Answers::line_item))]
fn put_item(writer: &mut LineWriter, line: &str) -> Result<(), AllocError>
    ensures { OnOk result (writer.new ≡ writer.old ++ line_item line.now) }
{
    writer.string(line)
}

/// Replaces a text by the reply of a step, in its room: if it was accepted, with its number, as
/// `{"step":7,"reply":"ok","ret":0}`.
///
/// NoMemory where a growth is refused; the text is empty then.
pub fn put_step_answer(
    alloc: Global,
    text: &mut String,
    number: usize,
    reply: &Reply,
) -> Result<(), NoMemory>
    ensures { OnOk result
        (IsLineOf (step_answer number reply.now) (string_bytes text.new)) }
{
    let mut writer = LineWriter::over(mem::replace(text, String::new(alloc)));
    begin_object(&mut writer)?;
    put_number(&mut writer, number, reply)?;
    put_reply(alloc, &mut writer, reply)?;
    end_object(&mut writer)?;
    *text = writer.into_text()?;
    Ok(())
}

/// Appends the number of a step, where it was accepted.
fn put_number(writer: &mut LineWriter, number: usize, reply: &Reply) -> Result<(), AllocError>
    ensures { OnOk result (writer.new ≡ writer.old ++ number_members number reply.now) }
{
    match reply {
        Reply::No(_) => Ok(()),
        Reply::Done(_)
        | Reply::Ended
        | Reply::Committed { .. }
        | Reply::Aborted(_)
        | Reply::Out(_) => put_count(writer, "step", number as u64),
    }
}

/// An entry of a journal, with the step's text, as
/// `{"step":7,"worker":1,"text":"2 map 0","reply":"ok","ret":0}`.
///
/// NoMemory where a growth is refused.
pub fn entry_answer(
    alloc: Global,
    number: usize,
    worker: u16,
    step: &str,
    reply: &Reply,
) -> Result<String, NoMemory>
    ensures { IfOk result (λ text.
        IsLineOf (entry_answer number worker step.now reply.now) (string_bytes text)) }
{
    let mut writer = LineWriter::new(alloc);
    put_entry(alloc, &mut writer, number, worker, step, reply)?;
    writer.into_text()
}

/// Appends an entry of a journal, as `entry_answer` writes it.
pub fn put_entry(
    alloc: Global,
    writer: &mut LineWriter,
    number: usize,
    worker: u16,
    step: &str,
    reply: &Reply,
) -> Result<(), AllocError>
    ensures { OnOk result (writer.new
        ≡ writer.old ++ entry_answer number worker step.now reply.now) }
{
    begin_object(writer)?;
    put_count(writer, "step", number as u64)?;
    put_count(writer, "worker", u64::from(worker))?;
    put_word(writer, "text", step)?;
    put_reply(alloc, writer, reply)?;
    end_object(writer)
}

/// A position, the reply that a step would get there, and the lines of a text.
///
/// NoMemory where a growth is refused.
pub fn trial_answer(
    alloc: Global,
    position: usize,
    reply: &Reply,
    text: &str,
) -> Result<String, NoMemory>
    ensures { IfOk result (λ told.
        IsLineOf (trial_answer position reply.now text.now) (string_bytes told)) }
{
    let mut writer = LineWriter::new(alloc);
    begin_object(&mut writer)?;
    put_count(&mut writer, "at", position as u64)?;
    put_reply(alloc, &mut writer, reply)?;
    put_lines(alloc, &mut writer, text)?;
    end_object(&mut writer)?;
    writer.into_text()
}

/// A position, and the state of a machine.
///
/// NoMemory where a growth is refused.
pub fn state_answer(alloc: Global, position: usize, machine: &Machine) -> Result<String, NoMemory>
    ensures { IfOk result (λ text.
        IsLineOf (state_answer position (view_of machine.now)) (string_bytes text)) }
{
    let mut writer = LineWriter::new(alloc);
    begin_object(&mut writer)?;
    put_count(&mut writer, "at", position as u64)?;
    put_state_key(&mut writer)?;
    put_state(alloc, &mut writer, machine)?;
    end_object(&mut writer)?;
    writer.into_text()
}

/// Appends the key of a state.
#[tactic(auto, unfolding(crate::specs::Answers::state_key))]
fn put_state_key(writer: &mut LineWriter) -> Result<(), AllocError>
    ensures { OnOk result (writer.new ≡ writer.old ++ state_key) }
{
    writer.key("state")
}

/// What is wrong, as `{"error":"column 3: no such call: stroe; did you mean store?"}`.
///
/// NoMemory where a growth is refused.
pub fn error_answer(alloc: Global, sentence: &str) -> Result<String, NoMemory>
    ensures { IfOk result (λ text. IsLineOf (error_answer sentence.now) (string_bytes text)) }
{
    let mut writer = LineWriter::new(alloc);
    begin_object(&mut writer)?;
    put_word(&mut writer, "error", sentence)?;
    end_object(&mut writer)?;
    writer.into_text()
}
