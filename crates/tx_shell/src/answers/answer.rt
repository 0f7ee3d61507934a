//! Finds the answer to what is asked for, once for every form.
ghost use Rattle.std.specs.Prelude.{◌≡◌, IfOk};
ghost use Rattle.tx_journal.specs.Entries.{history_of};
ghost use Rattle.tx_journal.specs.Sessions.{made_of, position_of, start_of, IsBetween, SameJournal};
ghost use Rattle.tx_script.specs.Debug.{position_after};
ghost use Rattle.tx_shell.specs.Answers.{last_why, why, IsAnswer, StopsShort, Walks};
ghost use Rattle.tx_shell.specs.Places.{place_of};
ghost use Rattle.tx_shell.specs.Forms.{shows_names, IsPlaced};

use crate::answers::count_steps;
use crate::answers::helps::meaning;
use crate::answers::refused::Refused;
use crate::answers::reserving::reserve_walk;
use crate::lines::asks::Ask;
use crate::questions::attempts::{Attempt, child_attempt};
use crate::questions::changes::{Change, find_last, find_next};
use crate::questions::comparing::compare;
use crate::questions::held::{DescHolders, PipeHolders, desc_holders, pipe_holders};
use crate::questions::trials::{try_at, without};
use std::alloc::Global;
use tx_base::{NoMemory, Reply, Step};
use tx_explain::session_page;
use tx_journal::Session;
use tx_lines::Command;
use tx_script::Response;

/// The answer to what is asked for. It is printed with the session at the position to which that
/// led: the state, the steps and the position are printed from there.
#[derive(Drop)]
pub enum Answer {
    /// What a command of the debugger responds.
    Walked(Response),
    /// The position.
    Position,
    /// The steps from one number to another, and the position among them.
    Steps(u64, u64),
    /// The text of the schedule that makes the steps up to the position.
    Schedule,
    /// The reply that a step would get, and by which lines the state after it would differ.
    Trial(Reply, String),
    /// By which lines the state at the second of these positions differs from that at the first.
    /// Nothing where they are not both there.
    Diff(u64, u64, Option<String>),
    /// By which lines the state would differ without the transaction of this starter. Nothing where
    /// it has none.
    Without(u16, Option<String>),
    /// How the step directly before the position changed a piece. Nothing where no step does.
    Change(Option<Change>),
    /// Why a step would get this reply, and the last refused step of the child that it waits for.
    Why(Step, Reply, Option<Attempt>),
    /// That no step was refused.
    NothingRefused,
    /// What each live transaction has reserved.
    Owners,
    /// What the live transaction of this starter has reserved.
    OwnersOf(u16),
    /// Who has a pipe open. Nothing where it is not there.
    PipeHolders(Option<PipeHolders>),
    /// Who has a description open. Nothing where it is not there.
    DescHolders(Option<DescHolders>),
    /// A page of help.
    Page(&'static str),
}

impl Answer {
    /// Whether it shows the names of processes.
    pub fn shows_names(&self) -> bool
        ensures { result ≡ shows_names self.now }
    {
        match self {
            Answer::Change(_)
            | Answer::Why(..)
            | Answer::NothingRefused
            | Answer::Owners
            | Answer::OwnersOf(_)
            | Answer::PipeHolders(_)
            | Answer::DescHolders(_) => true,
            Answer::Walked(_)
            | Answer::Position
            | Answer::Steps(..)
            | Answer::Schedule
            | Answer::Trial(..)
            | Answer::Diff(..)
            | Answer::Without(..)
            | Answer::Page(_) => false,
        }
    }
}

/// Goes where what is asked for leads, and gives its answer. A cut drops no step yet.
///
/// NoMemory where a growth is refused: no step came or went then, and the position is between the
/// old one and the one that is asked for.
pub fn find_answer(
    alloc: Global,
    session: &mut Session,
    refused: &Refused,
    ask: &Ask<'_>,
) -> Result<Answer, NoMemory>
    ensures answer { IfOk result (λ answer. IsAnswer (start_of session.old)
        (history_of (made_of session.old)) refused.now.own (place_of session.old) refused.now.last
        ask.now answer
        (place_of session.new)) }
    ensures placed { IfOk result (λ answer. IsPlaced (position_of session.new) answer) }
    ensures between { StopsShort (place_of session.old) ask.now (place_of session.new) }
    ensures journal { SameJournal session.new session.old }
{
    let last = count_steps(session) as u64;
    match ask {
        Ask::Walk(command) => walk(alloc, session, *command),
        Ask::GotoEnd => walk(alloc, session, Command::Goto(last)),
        Ask::Steps => Ok(Answer::Steps(1, last)),
        Ask::StepsFrom(first) => Ok(Answer::Steps(*first, last)),
        Ask::StepsBetween(first, last) => Ok(Answer::Steps(*first, *last)),
        Ask::Text => Ok(Answer::Schedule),
        Ask::Try(step) => {
            let (reply, differences) = try_at(alloc, session, step)?;
            Ok(Answer::Trial(reply, differences))
        }
        Ask::When(piece) => Ok(Answer::Change(find_last(alloc, session, *piece)?)),
        Ask::Next(piece) => Ok(Answer::Change(find_next(alloc, session, *piece)?)),
        Ask::Diff(from, to) => {
            let lines = compare(alloc, session, *from as usize, *to as usize)?;
            Ok(Answer::Diff(*from, *to, lines))
        }
        Ask::Without(starter) => {
            let lines = without(alloc, session, *starter)?;
            Ok(Answer::Without(*starter, lines))
        }
        Ask::Why(step) => why(alloc, session, refused, step),
        Ask::WhyRefused => why_refused(alloc, session, refused),
        Ask::Owns => Ok(Answer::Owners),
        Ask::OwnsOf(starter) => Ok(Answer::OwnersOf(*starter)),
        Ask::HoldsPipe(number) => {
            let found = pipe_holders(alloc, session, *number)?;
            Ok(Answer::PipeHolders(found))
        }
        Ask::HoldsDesc(number) => {
            let found = desc_holders(alloc, session, *number)?;
            Ok(Answer::DescHolders(found))
        }
        Ask::Name(..) | Ask::Cut => Ok(Answer::Position),
        Ask::Help => Ok(Answer::Page(session_page())),
        Ask::HelpOn(word) => Ok(Answer::Page(meaning(word))),
    }
}

/// Does what a command of the debugger says, and gives its answer.
fn walk(alloc: Global, session: &mut Session, command: Command) -> Result<Answer, NoMemory>
    ensures answer { IfOk result (λ answer. Walks (start_of session.old) (place_of session.old)
        command answer (place_of session.new)) }
    ensures placed { IfOk result (λ answer. IsPlaced (position_of session.new) answer) }
    ensures between { IsBetween (position_of session.old) (position_of session.new)
        (position_after (history_of session.old.entries) (position_of session.old) command) }
    ensures journal { SameJournal session.new session.old }
{
    reserve_walk(session, command);
    Ok(Answer::Walked(tx_script::walk(alloc, session, command)?))
}

/// Why a step would be refused at the position, or what it would be answered.
fn why(
    alloc: Global,
    session: &mut Session,
    refused: &Refused,
    step: &Step,
) -> Result<Answer, NoMemory>
    ensures answer { IfOk result (λ answer. answer ≡ why (start_of session.old)
        (history_of (made_of session.old)) refused.now.own step.now) }
    ensures same { session.new ≡ session.old }
{
    let reply = session.reply_to(alloc, step)?;
    let attempt = child_attempt(alloc, session, refused, step, &reply)?;
    Ok(Answer::Why(step.copy(), reply, attempt))
}

/// Why the step would be refused at the position that was refused last, or that none was.
fn why_refused(alloc: Global, session: &mut Session, refused: &Refused) -> Result<Answer, NoMemory>
    ensures answer { IfOk result (λ answer. answer ≡ last_why (start_of session.old)
        (history_of (made_of session.old)) refused.now.own refused.now.last) }
    ensures same { session.new ≡ session.old }
{
    match &refused.last {
        Some(step) => why(alloc, session, refused, step),
        None => Ok(Answer::NothingRefused),
    }
}
