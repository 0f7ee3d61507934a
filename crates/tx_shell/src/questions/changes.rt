//! Finds the step that changed a piece of the state last, or changes it next.
ghost use Rattle.std.specs.Prelude.{◌≡◌, ◌≤◌, ◌<◌, ◌+◌, IfOk, IfSome, MatchOption, OnErr, OnOk, length, string_bytes};
ghost use Rattle.tx_journal.specs.Entries.{history_of};
ghost use Rattle.tx_journal.specs.Sessions.{position_of, IsBetween, SameJournal};
ghost use Rattle.tx_shell.specs.Changes.{AllShow, FindsLast, FindsNext, MeetsBack, MeetsNext};
ghost use Rattle.tx_shell.specs.Changes.{shown_in, ReportsFound, ShowsOthers};
ghost use Rattle.tx_shell.specs.Names.{named};
ghost use Rattle.tx_shell.specs.Places.{place_of};

use crate::answers::reserving::reserve_walk;
use crate::names::{Names, put_step_made};
use crate::questions::differences::put_differing;
use std::alloc::Global;
use tx_base::NoMemory;
use tx_journal::{Piece, Session, put_piece};
use tx_lines::{Command, put};

/// How the step directly before the position changed a piece of the state.
#[derive(Drop)]
pub struct Change {
    /// The lines that the piece had before it.
    before: String,
    /// The lines that it has after it.
    after: String,
}

/// Goes back to the position after the step that changed a piece last: how it did. Nothing where
/// none did, and the position is the start. It costs the steps between.
///
/// NoMemory where a growth is refused: the position is then the old one, or before it.
pub fn find_last(
    alloc: Global,
    session: &mut Session,
    piece: Piece,
) -> Result<Option<Change>, NoMemory>
    ensures found { IfOk result (λ found.
        FindsLast (shown_in session.old piece) (place_of session.old) found
        (place_of session.new)) }
    ensures back { IsBetween (position_of session.old) (position_of session.new) 0 }
    ensures journal { SameJournal session.new session.old }
{
    let after = lines_there(alloc, session, piece)?;
    match go_back(alloc, session, piece, after.as_str())? {
        Some(before) => {
            make_next(alloc, session)?;
            Ok(Some(Change { before, after }))
        }
        None => Ok(None),
    }
}

/// Goes on to the position after the step that changes a piece next: how it does. Nothing where
/// none does, and the position is the end. It costs the steps between.
///
/// NoMemory where a growth is refused: the position is then the old one, or after it.
pub fn find_next(
    alloc: Global,
    session: &mut Session,
    piece: Piece,
) -> Result<Option<Change>, NoMemory>
    ensures found { IfOk result (λ found.
        FindsNext (shown_in session.old piece) (place_of session.old) found
        (place_of session.new)) }
    ensures on { IsBetween (position_of session.old) (position_of session.new)
        (length (history_of session.old.entries)) }
    ensures journal { SameJournal session.new session.old }
{
    let before = lines_there(alloc, session, piece)?;
    match go_on(alloc, session, piece, before.as_str())? {
        Some(after) => Ok(Some(Change { before, after })),
        None => Ok(None),
    }
}

/// The lines that report the step directly before the position, which was found to change a piece,
/// or that none was.
///
/// NoMemory where a growth is refused.
pub fn report_found(
    alloc: Global,
    session: &Session,
    names: Names<'_>,
    found: &Option<Change>,
) -> Result<String, NoMemory>
    requires { IfSome found.now (λ change. 1 ≤ position_of session.now) }
    ensures { IfOk result (λ text.
        ReportsFound (named names.entry) (history_of session.now.entries) (position_of session.now)
        found.now (string_bytes text)) }
{
    let position = session.position();
    let Some(change) = found else {
        return Ok(format!(in alloc; "at {position}: no change\n")?);
    };
    let Some(entry) = session.entry(position) else {
        unreachable!()
    };
    let mut text = format!(in alloc; "at {position}: ")?;
    put_step_made(&mut text, names, &entry.step)?;
    put(&mut text, "\n")?;
    put_differing(&mut text, change.before.as_str(), change.after.as_str())?;
    Ok(text)
}

/// Takes steps back as long as a piece has these lines. Answers the lines that it has then; nothing
/// at the start.
fn go_back(
    alloc: Global,
    session: &mut Session,
    piece: Piece,
    lines: &str,
) -> Result<Option<String>, NoMemory>
    requires { lines.now ≡ shown_in session.old piece (position_of session.old) }
    ensures found { IfOk result (λ found. MatchOption found
        ((position_of session.new ≡ 0)
        × AllShow (shown_in session.old piece) lines.now 0 (position_of session.old))
        (λ before. MeetsBack (shown_in session.old piece) lines.now (string_bytes before)
        (position_of session.new) (position_of session.old))) }
    ensures back { position_of session.new ≤ position_of session.old }
    ensures journal { SameJournal session.new session.old }
{
    while session.position() > 0 {
        take_back(session);
        if let Some(before) = others_there(alloc, session, piece, lines)? {
            return Ok(Some(before));
        }
    }
    Ok(None)
}

/// Makes steps again as long as a piece has these lines. Answers the lines that it has then;
/// nothing at the end.
fn go_on(
    alloc: Global,
    session: &mut Session,
    piece: Piece,
    lines: &str,
) -> Result<Option<String>, NoMemory>
    requires { lines.now ≡ shown_in session.old piece (position_of session.old) }
    ensures found { IfOk result (λ found. MatchOption found
        ((position_of session.new ≡ length session.old.entries)
        × AllShow (shown_in session.old piece) lines.now (position_of session.old)
        (position_of session.new))
        (λ after. MeetsNext (shown_in session.old piece) lines.now (string_bytes after)
        (position_of session.old) (position_of session.new))) }
    ensures on { position_of session.old ≤ position_of session.new }
    ensures inside { position_of session.new ≤ length session.old.entries }
    ensures journal { SameJournal session.new session.old }
{
    while session.position() < session.len() {
        make_next(alloc, session)?;
        if let Some(after) = others_there(alloc, session, piece, lines)? {
            return Ok(Some(after));
        }
    }
    Ok(None)
}

/// Takes the step before the position back, and keeps what makes it again, where there is room.
fn take_back(session: &mut Session)
    requires { 0 < position_of session.old }
    ensures moved { position_of session.new + 1 ≡ position_of session.old }
    ensures journal { SameJournal session.new session.old }
{
    reserve_walk(session, Command::Back);
    let _taken = session.back();
}

/// Makes the step after the position again.
///
/// NoMemory where a growth is refused, or there is none; nothing has changed then.
fn make_next(alloc: Global, session: &mut Session) -> Result<(), NoMemory>
    ensures moved { OnOk result (position_of session.new ≡ position_of session.old + 1) }
    ensures refused { OnErr result (session.new ≡ session.old) }
    ensures journal { SameJournal session.new session.old }
{
    match session.forward(alloc) {
        Ok(()) => Ok(()),
        Err(_refused) => Err(NoMemory),
    }
}

/// The lines of a piece at the position, where they are others than these.
///
/// NoMemory where a growth is refused.
fn others_there(
    alloc: Global,
    session: &Session,
    piece: Piece,
    lines: &str,
) -> Result<Option<String>, NoMemory>
    ensures { IfOk result (λ found. MatchOption found
        (shown_in session.now piece (position_of session.now) ≡ lines.now)
        (λ others. ShowsOthers (shown_in session.now piece) lines.now (string_bytes others)
        (position_of session.now))) }
{
    let others = lines_there(alloc, session, piece)?;
    if others.as_str() == lines {
        Ok(None)
    } else {
        Ok(Some(others))
    }
}

/// The lines of a piece at the position.
fn lines_there(alloc: Global, session: &Session, piece: Piece) -> Result<String, NoMemory>
    ensures { IfOk result (λ text.
        string_bytes text ≡ shown_in session.now piece (position_of session.now)) }
{
    let mut text = String::new(alloc);
    put_piece(&mut text, session.machine(), piece)?;
    Ok(text)
}
