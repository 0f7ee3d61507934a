//! Prints what a command responds as a line of JSON.
ghost use Rattle.std.specs.Prelude.{◌≡◌, ◌++◌, IfOk, OnOk, string_bytes};
ghost use Rattle.tx_journal.specs.Entries.{history_of};
ghost use Rattle.tx_journal.specs.Moved.{moving_in};
ghost use Rattle.tx_journal.specs.Sessions.{position_of, start_of};
ghost use Rattle.tx_json.specs.Answers.{lines_with};
ghost use Rattle.tx_json.specs.Each.{each_tokens};
ghost use Rattle.tx_json.specs.Line.{IsLineOf};
ghost use Rattle.tx_json.specs.Lists.{count_item};
ghost use Rattle.tx_script.specs.Debug.{responded_in, response_text};
ghost use Rattle.tx_script.specs.JsonLines.{line_of, moved_members, response_line, response_members};

use crate::responses::{Response, put_response};
use std::alloc::{AllocError, Global};
use tx_base::NoMemory;
use tx_journal::{Moved, Session};
use tx_json::{
    LineWriter, begin_lines, begin_list, end_answer, end_list, put_count_item, put_flag, put_null,
    state_answer,
};
use tx_lines::put;

/// Appends the line of a response.
///
/// NoMemory where a growth is refused: the text may then end with a part of the line.
pub fn put_line(
    alloc: Global,
    text: &mut String,
    session: &Session,
    response: &Response,
) -> Result<(), NoMemory>
    ensures { OnOk result (string_bytes text.new ≡ string_bytes text.old
        ++ line_of (response_line (start_of session.now) (history_of session.now.entries)
        (position_of session.now) (responded_in response.now))) }
{
    let line = response_line(alloc, session, response)?;
    put(text, line.as_str())?;
    Ok(())
}

/// The line of a response, printed as `put_response` prints its text.
///
/// NoMemory where a growth is refused.
pub fn response_line(
    alloc: Global,
    session: &Session,
    response: &Response,
) -> Result<String, NoMemory>
    ensures { IfOk result (λ text. IsLineOf (response_line (start_of session.now)
        (history_of session.now.entries) (position_of session.now) (responded_in response.now))
        (string_bytes text)) }
{
    match response {
        Response::State => state_answer(alloc, session.position(), session.machine()),
        Response::Position
        | Response::NoStart
        | Response::NoEnd
        | Response::NoPlace
        | Response::Moved(_)
        | Response::NoCommit => with_lines(alloc, session, response),
    }
}

/// The position, the lines of a response's text, and what else JSON has of it.
fn with_lines(alloc: Global, session: &Session, response: &Response) -> Result<String, NoMemory>
    ensures { IfOk result (λ text. IsLineOf (lines_with (position_of session.now)
        (response_text (start_of session.now) (history_of session.now.entries)
        (position_of session.now) (responded_in response.now))
        (response_members (responded_in response.now))) (string_bytes text)) }
{
    let mut lines = String::new(alloc);
    put_response(&mut lines, session, response)?;
    let mut writer = begin_lines(alloc, session.position(), lines.as_str())?;
    put_members(&mut writer, response)?;
    end_answer(writer)
}

/// Appends what JSON has of a response after the lines of its text.
fn put_members(writer: &mut LineWriter, response: &Response) -> Result<(), AllocError>
    ensures { OnOk result
        (writer.new ≡ writer.old ++ response_members (responded_in response.now)) }
{
    match response {
        Response::Moved(moved) => put_moved(writer, moved),
        Response::NoCommit => put_null(writer, "entries"),
        Response::Position
        | Response::State
        | Response::NoStart
        | Response::NoEnd
        | Response::NoPlace => Ok(()),
    }
}

/// Appends whether a transaction may count as one moment, and the entries with its steps together.
fn put_moved(writer: &mut LineWriter, moved: &Moved) -> Result<(), AllocError>
    ensures { OnOk result (writer.new ≡ writer.old ++ moved_members (moving_in moved.now)) }
{
    put_flag(writer, "one_moment", moved.one_moment)?;
    begin_list(writer, "entries")?;
    put_items(writer, moved.entries.as_slice())?;
    end_list(writer)
}

/// Appends numbers as items of a list.
fn put_items(writer: &mut LineWriter, numbers: &[usize]) -> Result<(), AllocError>
    ensures { OnOk result (writer.new ≡ writer.old ++ each_tokens count_item numbers.now) }
{
    for number in numbers {
        put_count_item(writer, *number as u64)?;
    }
    Ok(())
}
