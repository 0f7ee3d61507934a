//! What a command of the debugger responds, and how that is printed as text.
ghost use Rattle.std.specs.Prelude.{◌≡◌, ◌++◌, OnOk, string_bytes};
ghost use Rattle.tx_journal.specs.Entries.{history_of};
ghost use Rattle.tx_journal.specs.Moved.{moving_in};
ghost use Rattle.tx_journal.specs.Sessions.{position_of, start_of};
ghost use Rattle.tx_script.specs.Debug.{moved_line, position_text, responded_in, response_text};

use std::alloc::AllocError;
use tx_journal::{Moved, Session, put_state};
use tx_lines::{put, put_count, put_numbers};

/// The response to a command. It is printed with the session at the position to which the command
/// led: the position and the state are printed from there.
#[derive(Drop)]
pub enum Response {
    /// The position.
    Position,
    /// The state.
    State,
    /// That no entry is made, so there is none to take back.
    NoStart,
    /// That all entries are made, so there is none to make again.
    NoEnd,
    /// That there is no such position.
    NoPlace,
    /// The entries, with the steps of a transaction put directly before the entry that commits it.
    /// In a place of its own, since any other response is small.
    Moved(Box<Moved>),
    /// That the entry commits no transaction, or is not there.
    NoCommit,
}

/// Appends a response. The only error is a refused growth of memory: the text may then have some
/// of it.
#[inline(always)] // as `walk`
pub fn put_response(
    text: &mut String,
    session: &Session,
    response: &Response,
) -> Result<(), AllocError>
    ensures { OnOk result (string_bytes text.new ≡ string_bytes text.old
        ++ response_text (start_of session.now) (history_of session.now.entries)
        (position_of session.now) (responded_in response.now)) }
{
    match response {
        Response::Position => put_position(text, session.position()),
        Response::State => put_state(text, session.machine()),
        Response::NoStart => put(text, "no start\n"),
        Response::NoEnd => put(text, "no end\n"),
        Response::NoPlace => put(text, "no place\n"),
        Response::Moved(moved) => put_moved(text, moved),
        Response::NoCommit => put(text, "no commit\n"),
    }
}

/// Appends the line of a position.
fn put_position(text: &mut String, position: usize) -> Result<(), AllocError>
    ensures { OnOk result
        (string_bytes text.new ≡ string_bytes text.old ++ position_text position) }
{
    put(text, "at ")?;
    put_count(text, position as u64)?;
    put(text, "\n")
}

/// Appends the line of a history in which the steps of a transaction are together.
fn put_moved(text: &mut String, moved: &Moved) -> Result<(), AllocError>
    ensures { OnOk result
        (string_bytes text.new ≡ string_bytes text.old ++ moved_line (moving_in moved.now)) }
{
    let kind = if moved.one_moment {
        "moved one "
    } else {
        "moved many "
    };
    put(text, kind)?;
    put_numbers(text, moved.entries.as_slice())?;
    put(text, "\n")
}
