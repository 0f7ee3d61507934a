//! Prints an answer as text.
ghost use Rattle.std.specs.Prelude.{◌≡◌, ◌++◌, ◌∷◌, IfOk, string_bytes};
ghost use Rattle.tx_journal.specs.Entries.{history_of};
ghost use Rattle.tx_journal.specs.Sessions.{made_of, position_of, start_of};
ghost use Rattle.tx_script.specs.Debug.{responded_in, response_text};
ghost use Rattle.tx_shell.specs.Names.{named};
ghost use Rattle.tx_shell.specs.Places.{origin_of, place_of};
ghost use Rattle.tx_shell.specs.Forms.{IsPlaced, ReportsAnswer};
ghost use Rattle.tx_state_text.specs.Replies.{named_reply_text};

use crate::answers::answer::Answer;
use crate::answers::helps::text_as;
use crate::answers::journals::{list_steps, position_line, print_schedule};
use crate::lines::versions::TextVersion;
use crate::names::Names;
use crate::questions::changes::report_found;
use crate::questions::held::{report_desc, report_pipe};
use crate::questions::owners::{list_owner, list_owners};
use crate::questions::reasons::report_why;
use std::alloc::Global;
use std::fmt::Write;
use tx_base::{NoMemory, Reply};
use tx_journal::Session;
use tx_script::{Response, put_response};
use tx_state_text::put_named_reply;

/// The lines of an answer.
///
/// NoMemory where a growth is refused.
pub fn answer_text(
    alloc: Global,
    version: TextVersion,
    session: &Session,
    names: Names<'_>,
    answer: &Answer,
) -> Result<String, NoMemory>
    requires { IsPlaced (position_of session.now) answer.now }
    ensures { IfOk result (λ text. ReportsAnswer (origin_of version session.now)
        (named names.entry) (history_of (made_of session.now)) (place_of session.now) answer.now
        (string_bytes text)) }
{
    match answer {
        Answer::Walked(response) => response_text(alloc, session, response),
        Answer::Position => position_line(alloc, session.position()),
        Answer::Steps(first, last) => list_steps(alloc, session, *first, *last),
        Answer::Schedule => print_schedule(alloc, version, session),
        Answer::Trial(reply, differences) => trial_text(alloc, reply, differences.as_str()),
        Answer::Without(_, Some(differences)) => text_as(alloc, differences.as_str()),
        Answer::Without(_, None) => text_as(alloc, "no transaction\n"),
        Answer::Diff(_, _, Some(differences)) => text_as(alloc, differences.as_str()),
        Answer::Diff(_, _, None) => text_as(alloc, "no place\n"),
        Answer::Change(found) => report_found(alloc, session, names, found),
        Answer::Why(step, reply, attempt) => {
            report_why(alloc, session, names, step, reply, attempt)
        }
        Answer::NothingRefused => text_as(alloc, "nothing was refused\n"),
        Answer::Owners => list_owners(alloc, session, names),
        Answer::OwnersOf(starter) => list_owner(alloc, session, names, *starter),
        Answer::PipeHolders(found) => report_pipe(alloc, names, found),
        Answer::DescHolders(found) => report_desc(alloc, names, found),
        Answer::Page(page) => text_as(alloc, page),
    }
}

/// What a command of the debugger responds.
fn response_text(alloc: Global, session: &Session, response: &Response) -> Result<String, NoMemory>
    ensures { IfOk result (λ text. string_bytes text ≡ response_text (start_of session.now)
        (history_of session.now.entries) (position_of session.now) (responded_in response.now)) }
{
    let mut text = String::new(alloc);
    put_response(&mut text, session, response)?;
    Ok(text)
}

/// The reply that a step would get, and the lines by which the state would differ.
fn trial_text(alloc: Global, reply: &Reply, differences: &str) -> Result<String, NoMemory>
    ensures { IfOk result (λ text. string_bytes text
        ≡ named_reply_text reply.now ++ 10 ∷ differences.now) }
{
    let mut text = String::new(alloc);
    put_named_reply(&mut text, reply)?;
    write!(&mut text, "\n{differences}")?;
    Ok(text)
}
