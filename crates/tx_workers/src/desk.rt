//! What is under the lock.
ghost use Rattle.std.specs.Prelude.{◌≡◌, ◌+◌, ◌<◌, ◌≤◌, ◌++◌, ◌∷◌, [], IfOk, OnOk, Some, length, vec_len};
ghost use Rattle.tx_journal.specs.Sessions.{IsAtEnd};
ghost use Rattle.tx_workers.specs.Desks.{IsDesk};
ghost use Rattle.tx_workers.specs.declared.turns.Took.TheVariants.{Idle};

use crate::next::next_process;
use crate::runner::Runner;
use crate::tops::{top_after, top_of};
use crate::turns::{Took, make_turn};
use std::alloc::Global;
use std::marker::{Brand, Model};
use std::sync::ledger::{Book, Ledger, Share};
use tx_base::{NoMemory, Pid};
use tx_journal::Session;
use tx_lines::Program;

/// Which program is run, and on which session. Each run picks them; only contracts see them.
pub trait Work: Ledger {
    ghost use Rattle.std.specs.Prelude.{Option};
    ghost use Rattle.tx_journal.specs.Sessions.{SessionState};
    ghost use Rattle.tx_lines.specs.declared.programs.Program.{Program};

    ghost program: { Option Program };

    ghost given: { Option SessionState };
}

impl Work for Brand {
    ghost use Rattle.std.specs.Prelude.{None};

    ghost program = { None };

    ghost given = { None };
}

/// The session, beside the book of what the workers added.
#[derive(Drop)]
pub struct Desk<J: Work> {
    session: Session,
    added: Book<J>,
    /// No process has a greater number.
    top: u16,
}

impl<J: Work> Model for Desk<J> {
    ghost use Rattle.std.specs.Prelude.{◌≡◌, ℕ};
    ghost use Rattle.tx_journal.specs.Sessions.{SessionState};
    ghost use Rattle.tx_workers.specs.Desks.{IsDesk};
    ghost use Rattle.tx_workers.specs.Tops.{HasTop};

    ghost Value = { SessionState × ℕ };

    ghost view = { λ desk. (desk.session, desk.added.total) };

    ghost invariant = { λ desk. IsDesk J.program J.given desk.session desk.added.total
        × HasTop desk.top desk.session };
}

impl<J: Work> Desk<J> {
    /// The desk of the session that is handed in.
    pub fn new(session: Session, added: Book<J>) -> Desk<J>
        requires given { J.given ≡ Some session }
        requires at_end { IsAtEnd session }
        requires empty { added.total ≡ 0 }
        ensures { result.0 ≡ session }
    {
        let top = top_of(&session);
        Desk {
            session,
            added,
            top,
        }
    }

    /// A turn of a worker, whose share counts what it adds: that of its next running process.
    pub fn turn(
        &mut self,
        alloc: Global,
        program: &Program,
        runner: &mut Runner,
        share: &mut Share<J>,
    ) -> Result<(), NoMemory>
        requires program { J.program ≡ Some program.now }
        requires part { 0 < share.old.parts }
        requires low { 1 ≤ runner.old.number }
        requires high { runner.old.number ≤ runner.old.total }
        ensures counted { share.new.amount + vec_len runner.old.made
            ≡ share.old.amount + vec_len runner.new.made }
        ensures parts { share.new.parts ≡ share.old.parts }
        ensures number { runner.new.number ≡ runner.old.number }
        ensures total { runner.new.total ≡ runner.old.total }
        ensures few { vec_len runner.new.made ≤ vec_len runner.old.made + 1 }
    {
        let machine = self.session.machine();
        let Some(pid) = next_process(machine, runner.number, runner.total, runner.last, self.top)
        else {
            return Ok(());
        };
        self.turn_of(alloc, program, pid, runner, share)?;
        runner.last = pid.0;
        Ok(())
    }

    /// The turn of a process, made by a worker, whose share counts what it adds.
    pub fn turn_of(
        &mut self,
        alloc: Global,
        program: &Program,
        pid: Pid,
        runner: &mut Runner,
        share: &mut Share<J>,
    ) -> Result<Took, NoMemory>
        requires program { J.program ≡ Some program.now }
        requires part { 0 < share.old.parts }
        ensures counted { share.new.amount + vec_len runner.old.made
            ≡ share.old.amount + vec_len runner.new.made }
        ensures parts { share.new.parts ≡ share.old.parts }
        ensures number { runner.new.number ≡ runner.old.number }
        ensures total { runner.new.total ≡ runner.old.total }
        ensures few { vec_len runner.new.made ≤ vec_len runner.old.made + 1 }
        ensures made { OnOk result (length self.old.0.entries < length self.new.0.entries →
            runner.new.made.items ≡ runner.old.made.items ++ length self.old.0.entries ∷ []) }
        ensures idle { IfOk result (λ took.
            took ≡ Idle → vec_len runner.new.made ≡ vec_len runner.old.made) }
    {
        runner.made.reserve(1)?;
        let before = self.session.len();
        let took = make_turn(alloc, &mut self.session, runner.number, program, pid)?;
        let after = self.session.len();
        self.added.add(share, (after - before) as u64);
        self.top = top_after(&self.session, before, self.top);
        runner.note(before, after);
        Ok(took)
    }

    /// The session, which has grown by all that was counted.
    pub fn close(self, all: &mut Share<J>) -> Session
        requires { all.old.parts ≡ J.parts }
        ensures { IsDesk J.program J.given result all.old.amount }
    {
        let Desk {
            session,
            mut added,
            ..
        } = self;
        added.audit(all);
        session
    }
}
