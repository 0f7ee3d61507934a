//! What would be if a step were made now.
ghost use Rattle.std.specs.Prelude.{◌≡◌, IfOk, map, string_bytes};
ghost use Rattle.tx_core.specs.Undo.{LeadsBack};
ghost use Rattle.tx_journal.specs.Reach.{CoverChanges};
ghost use Rattle.tx_journal.specs.Rows.{lines_of};
ghost use Rattle.tx_journal.specs.Trials.{answer_there, shown_at, shown_with};
ghost use Rattle.tx_content.specs.Content.{view_of};
ghost use Rattle.tx_content.specs.Inverses.{Undoes};
ghost use Rattle.tx_content.specs.declared.content.Content.{Content};

use crate::pieces::{Piece, print_pieces};
use crate::reach_laws::reach_laws;
use crate::rows::list_reached;
use crate::session::Session;
use std::alloc::Global;
use tx_base::{NoMemory, Reply, Step};
use tx_content::Inverse;
use tx_core::Machine;

impl Session {
    /// The reply that a step would get at the position, and the lines that each of some pieces of
    /// the state would have after it: its present lines if the step is refused. The step is made
    /// and taken back in any case: the session is as it was.
    ///
    /// `NoMemory` where a growth is refused.
    pub fn trial(
        &mut self,
        alloc: Global,
        step: &Step,
        pieces: &[Piece],
    ) -> Result<(Reply, Vec<String>), NoMemory>
        ensures same { self.new ≡ self.old }
        ensures reply { IfOk result (λ r. r.0 ≡ answer_there self.old step.now) }
        ensures lines { IfOk result (λ r.
            map string_bytes r.1.items ≡ lines_of pieces.now (shown_with self.old step.now)) }
    {
        let mut reply = Reply::Ended;
        let mut inverse = Inverse::blank();
        let is_made = self
            .machine
            .step_into(alloc, step, &mut reply, &mut inverse);
        if is_made {
            let texts = print_and_undo(alloc, &mut self.machine, inverse, pieces)?;
            return Ok((reply, texts));
        }
        if reply.wants_memory() {
            return Err(NoMemory);
        }
        let texts = print_pieces(alloc, &self.machine, pieces)?;
        Ok((reply, texts))
    }

    /// The pieces of the state whose lines a step may change at the position, in the order of the
    /// state's text: what it names, what it gives up if it aborts, and its own transaction. Every
    /// other piece has the same lines after the step.
    ///
    /// `NoMemory` where a growth is refused.
    pub fn pieces_reached(&self, alloc: Global, step: &Step) -> Result<Vec<Piece>, NoMemory>
        ensures { IfOk result (λ found.
            CoverChanges (shown_at self.now) (shown_with self.now step.now) found.items) }
    {
        reach_laws();
        self.is_lawful();
        list_reached(alloc, self.machine(), step)
    }

    /// The reply that a step would get at the position. It is made and taken back: the session is
    /// as it was.
    ///
    /// `NoMemory` where a growth is refused.
    pub fn reply_to(&mut self, alloc: Global, step: &Step) -> Result<Reply, NoMemory>
        ensures same { self.new ≡ self.old }
        ensures reply { IfOk result (λ reply. reply ≡ answer_there self.old step.now) }
    {
        let mut reply = Reply::Ended;
        let mut inverse = Inverse::blank();
        let is_made = self
            .machine
            .step_into(alloc, step, &mut reply, &mut inverse);
        if is_made {
            self.machine.undo(inverse);
            return Ok(reply);
        }
        if reply.wants_memory() {
            return Err(NoMemory);
        }
        Ok(reply)
    }
}

/// The lines of some pieces of a machine's state, as the step with this inverse left it. The step
/// is taken back in any case.
///
/// NoMemory where a growth is refused.
fn print_and_undo(
    alloc: Global,
    machine: &mut Machine,
    inverse: Inverse,
    pieces: &[Piece],
) -> Result<Vec<String>, NoMemory>
    requires { LeadsBack machine.old inverse }
    ensures lines { IfOk result (λ texts.
        map string_bytes texts.items ≡ lines_of pieces.now (view_of machine.old)) }
    ensures back { (before : Content) → Undoes machine.old inverse before →
        machine.new ≡ before }
{
    let texts = print_pieces(alloc, machine, pieces);
    machine.undo(inverse);
    texts
}
