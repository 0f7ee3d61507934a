//! What a step may change of the state.
ghost use Rattle.std.specs.Prelude.{◌≡◌, ℕ, IfOk, true};
ghost use Rattle.tx_base.specs.Slots.{slot_at};
ghost use Rattle.tx_base.specs.declared.steps.Step.{Step as TheStep};
ghost use Rattle.tx_journal.specs.Reach.{is_reached, may_change, own_mark};
ghost use Rattle.tx_journal.specs.Reaches.{IsSmall, Reaches};
ghost use Rattle.tx_content.specs.Content.{view_of};
ghost use Rattle.tx_reserve.specs.Objects.{is_small, object_of};

use crate::making::{has_place, starter_of};
use crate::pieces::Piece;
use std::alloc::Global;
use tx_base::{Mark, NoMemory, Pid, Slots, Step};
use tx_core::Machine;
use tx_reserve::{Object, Objects, footprint};

/// What a step may change of the state: nothing else has other lines after it. Own rule.
#[derive(Clone, Copy)]
pub(crate) struct Reach {
    /// Whose transaction the step is of, or may begin or end; its process if none.
    starter: Pid,
    /// Whether it aborts that transaction, so that all that this has reserved may change.
    aborts: bool,
    /// What it names if no other transaction is live: so the targets of its sends are among it.
    names: Objects,
}

impl Reach {
    /// What a step may change.
    ///
    /// NoMemory where a growth is refused.
    pub(crate) fn of(alloc: Global, machine: &Machine, step: &Step) -> Result<Reach, NoMemory>
        ensures { IfOk result (λ reach. Reaches reach (view_of machine.now) step.now) }
    {
        machine.is_kept();
        let starter = starter_of(machine, step);
        let own = own_marks(alloc, machine, starter)?;
        let names = footprint(machine.parts(), &own, machine.held(starter), step);
        Ok(Reach {
            starter,
            aborts: has_place(machine, step),
            names,
        })
    }

    /// Whether the step may change the lines of a piece.
    pub(crate) fn has(&self, machine: &Machine, piece: Piece) -> bool
        ensures { (step : TheStep) → Reaches self.now (view_of machine.now) step → IsSmall piece →
            result ≡ is_reached (view_of machine.now) step piece }
    {
        match piece {
            Piece::Proc(pid)
            | Piece::Page(pid, _)
            | Piece::Fd(pid, _)
            | Piece::Pending(pid)
            | Piece::Queue(pid)
            | Piece::Ids(pid) => self.has_object(machine, Object::Proc(pid)),
            Piece::Desc(number) => self.has_object(machine, Object::Desc(number)),
            Piece::Pipe(number) => self.has_object(machine, Object::Pipe(number)),
            Piece::Txn(starter) => starter == self.starter,
        }
    }

    /// Whether the step may change an object.
    fn has_object(&self, machine: &Machine, object: Object) -> bool
        ensures { (step : TheStep) → Reaches self.now (view_of machine.now) step →
            is_small (object_of object) ≡ true →
            result ≡ may_change (view_of machine.now) step (object_of object) }
    {
        self.names.has(object) || self.aborts && machine.has_reserved(self.starter, object)
    }
}

/// Only the marks of the members of a starter's transaction.
///
/// NoMemory where a growth is refused.
fn own_marks(alloc: Global, machine: &Machine, starter: Pid) -> Result<Slots<Mark>, NoMemory>
    ensures { IfOk result (λ own. (n : ℕ) →
        slot_at own n ≡ own_mark starter.0 ((view_of machine.now).table.marks n)) }
{
    let width = machine.processes();
    let mut own = Slots::new(alloc, width)?;
    for done in 0..width {
        let pid = Pid(done + 1);
        if let Some(mark) = own_mark(machine.marks(), starter, pid) {
            own.put(pid, mark);
        }
    }
    Ok(own)
}

/// The mark of a process, where it is a member of a starter's transaction.
fn own_mark(marks: &Slots<Mark>, starter: Pid, pid: Pid) -> Option<Mark>
    ensures { result ≡ own_mark starter.0 (slot_at marks.now pid.0) }
{
    let mark = marks.get(pid)?;
    (mark.starter == starter).then_some(*mark)
}
