//! What a run of workers gives back.
ghost use Rattle.std.specs.Prelude.{◌≡◌, ◌+◌, ◌≤◌, IfErr, IfOk, ℕ, Some, length};
ghost use Rattle.tx_journal.specs.Sessions.{SessionState};
ghost use Rattle.tx_lines.specs.declared.programs.Program.{Program};
ghost use Rattle.tx_workers.specs.Runs.{AreNoted, IsOutcome, IsWorked};
ghost use Rattle.tx_workers.specs.Teams.{IsTeam, made, noted, notes_of};
ghost use Rattle.tx_workers.specs.declared.faults.WorkFault.TheVariants.{NoMemory, Strayed};

use crate::compare::are_noted;
use crate::desk::{Desk, Work};
use crate::faults::WorkFault;
use crate::floor::Post;
use crate::runner::Runner;
use crate::team::Team;
use crate::turns::note_of;
use crate::worker::Worker;
use std::alloc::{AllocError, Global};
use std::sync::Mutex;
use tx_base::Accepted;
use tx_journal::{Entry, Session};
use tx_lines::Program;

/// What workers give back: the session, and each of them, at the place before its number.
#[derive(Drop)]
pub struct Worked {
    pub session: Session,
    pub workers: Vec<Worker>,
}

/// The same before notes are made.
#[derive(Drop)]
pub struct Outcome {
    pub session: Session,
    pub runners: Vec<Runner>,
}

impl Outcome {
    /// The workers with their notes, which are made of the entries that the journal has after so
    /// many.
    ///
    /// `NoMemory` where a growth is refused; the session is then gone.
    pub fn noted(self, alloc: Global, start: usize) -> Result<Worked, WorkFault>
        requires { start ≤ length self.session.entries }
        ensures worked { (program : Program) (given : SessionState) (count : ℕ) (turns : ℕ) →
            length given.entries ≡ start →
            IsOutcome program given count turns self.session self.runners.items →
            IfOk result (λ worked.
            IsWorked program given count turns worked.session worked.workers.items) }
        ensures noted { (program : Program) (given : SessionState) (count : ℕ) (turns : ℕ) →
            length given.entries ≡ start →
            IsOutcome program given count turns self.session self.runners.items →
            IfOk result (λ worked. noted worked.workers.items ≡ made self.runners.items) }
        ensures fault { IfErr result (λ fault. fault ≡ NoMemory) }
    {
        let Outcome { session, runners } = self;
        let (_, made) = session.entries().split_at(start);
        let Ok(workers) = workers_of(alloc, made, runners.as_slice()) else {
            return Err(WorkFault::NoMemory);
        };
        Ok(Worked { session, workers })
    }
}

/// The workers with the notes of those entries that are their own.
fn workers_of(alloc: Global, added: &[Entry], runners: &[Runner]) -> Result<Vec<Worker>, AllocError>
    ensures { IfOk result (λ workers. AreNoted added.now runners.now workers.items) }
{
    let mut workers = Vec::new(alloc);
    let mut left = runners;
    while let Some((runner, later)) = left.split_first() {
        workers.push(Worker {
            number: runner.number,
            total: runner.total,
            last: runner.last,
            notes: notes_of(alloc, added, runner)?,
        })?;
        left = later;
    }
    Ok(workers)
}

/// The notes of a worker: those of the entries of its number, in order.
fn notes_of(alloc: Global, added: &[Entry], runner: &Runner) -> Result<Vec<Accepted>, AllocError>
    ensures { IfOk result (λ notes. notes.items ≡ notes_of runner.now.number added.now) }
{
    let mut notes = Vec::with_capacity(alloc, runner.made.len())?;
    let mut left = added;
    while let Some((entry, later)) = left.split_first() {
        if entry.worker == runner.number {
            notes.push(note_of(entry))?;
        }
        left = later;
    }
    Ok(notes)
}

/// Takes the session from under the lock, and checks that each worker kept exactly the places that
/// the journal has of it after so many entries: `Strayed` where one did not.
pub fn checked<J: Work>(
    desk: Mutex<Desk<J>>,
    program: &Program,
    start: usize,
    post: Post,
    team: Team<J>,
) -> Result<Outcome, WorkFault>
    requires program { J.program ≡ Some program.now }
    requires given { (given : SessionState) × (J.given ≡ Some given)
        × (start ≡ length given.entries) }
    requires parts { J.parts ≡ post.number + 1 }
    requires team { IsTeam post.number post.turns team.runners.items team.share.parts
        team.share.amount }
    ensures outcome { (given : SessionState) → J.given ≡ Some given →
        IfOk result (λ outcome.
        IsOutcome program.now given post.number post.turns outcome.session outcome.runners.items) }
    ensures runners { IfOk result (λ outcome. outcome.runners.items ≡ team.runners.items) }
    ensures fault { IfErr result (λ fault. fault ≡ Strayed) }
{
    let Team { runners, share } = team;
    let mut all = share;
    let session = desk.into_inner().close(&mut all);
    let (_, added) = session.entries().split_at(start);
    if !are_noted(added, start, runners.as_slice()) {
        return Err(WorkFault::Strayed);
    }
    Ok(Outcome { session, runners })
}
