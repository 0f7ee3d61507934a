//! What can be read of a machine.
ghost use Rattle.std.specs.Prelude.{◌≡◌, ◌≤◌, ◌↔◌, ℕ, true, length, map, option_map, IfSome, IsSome};
ghost use Rattle.tx_base.specs.Slots.{slot_at};
ghost use Rattle.tx_change.specs.States.{state_of};
ghost use Rattle.tx_core.specs.Lives.{lives};
ghost use Rattle.tx_core.specs.Machines.{IsWidth};
ghost use Rattle.tx_core.specs.Owners.{other_owner};
ghost use Rattle.tx_kernel.specs.Actors.{IsWhole};
ghost use Rattle.tx_kernel.specs.Plans.{sending_of};
ghost use Rattle.tx_content.specs.Content.{held_of, view_of};
ghost use Rattle.tx_model.specs.Events.{process_of};
ghost use Rattle.tx_model.specs.Footprints.{footprint};
ghost use Rattle.tx_model.specs.Membership.{is_live};
ghost use Rattle.tx_model.specs.View.{kernel_status, present};
ghost use Rattle.tx_reserve.specs.Footprints.{IsSetOf};
ghost use Rattle.tx_reserve.specs.Objects.{object_of};
ghost use Rattle.tx_reserve.specs.Reservations.{number_of};
ghost use Rattle.tx_step.specs.TwoAnswers.{two_answers};

use crate::free::other_owner;
use crate::laws::laws;
use crate::machine::{Machine, maker};
use tx_base::{Mark, Pid, Sending, Slots, Step};
use tx_change::Parts;
use tx_reserve::{Object, Objects};
use tx_step::{TwoAnswers, contents_are_whole, footprint, kernel_status, two_answers};

impl Machine {
    /// How many process numbers there are: 64, or 256 of a wide machine.
    pub fn processes(&self) -> u16
        ensures width { IsWidth result }
        ensures procs { result ≡ length self.now.parts.procs }
        ensures table { result ≡ (view_of self.now).table.width }
    {
        self.content.parts.procs.width() as u16
    }

    /// The parts, whose state, with what transactions hold, is that of the machine's view.
    pub fn parts(&self) -> &Parts
        ensures parts { result.now ≡ self.now.parts }
        ensures state { state_of (held_of self.now) result.now ≡ present (view_of self.now) }
        ensures whole { IsWhole result.now }
    {
        laws();
        contents_are_whole();
        &self.content.parts
    }

    /// For each process number its mark, if it is a member of a live transaction.
    pub fn marks(&self) -> &Slots<Mark>
        ensures marks { result.now ≡ self.now.marks }
        ensures table { (n : ℕ) → slot_at result.now n ≡ (view_of self.now).table.marks n }
    {
        &self.content.marks
    }

    /// The sends that the live transaction of a starter holds, in order; none if it has begun none.
    pub fn held(&self, starter: Pid) -> &[Sending]
        ensures { map sending_of result.now ≡ (present (view_of self.now)).held starter.0 }
    {
        laws();
        match self.content.txns.get(starter) {
            Some(boxed) => boxed.txn.outbox.held(),
            None => &[],
        }
    }

    /// The starter of the live transaction that the process is a member of.
    pub fn txn_of(&self, pid: Pid) -> Option<Pid>
        ensures { result ≡ option_map (λ m. m.starter) ((view_of self.now).table.marks pid.0) }
    {
        match self.content.marks.get(pid) {
            Some(mark) => Some(mark.starter),
            None => None,
        }
    }

    /// Whether a process has begun a transaction that is live.
    pub fn is_live(&self, starter: Pid) -> bool
        ensures { result ≡ is_live (view_of self.now).table starter.0 }
    {
        self.txn_of(starter) == Some(starter)
    }

    /// How many transactions are live.
    pub fn live_count(&self) -> usize
        ensures count { result ≡ lives (view_of self.now).table }
        ensures few { result ≤ 256 }
    {
        self.content.txns.live_count()
    }

    /// Whether the live transaction of a starter has reserved the object: false for an object of a
    /// number out of range, and if the starter has begun none.
    pub fn has_reserved(&self, starter: Pid, object: Object) -> bool
        ensures { result ≡ (view_of self.now).reserved starter.0 (object_of object) }
    {
        match self.content.owners.owner(object) {
            Some(owner) => owner == starter,
            None => false,
        }
    }

    /// The starter of the live transaction that has reserved the object and that a step's process
    /// is not in; none if there is none.
    pub fn other_owner(&self, step: &Step, object: Object) -> Option<Pid>
        ensures { option_map number_of result
            ≡ other_owner (view_of self.now) (process_of step.now) (object_of object) }
    {
        other_owner(&self.content, maker(step), object)
    }

    /// The objects, of numbers in range, that a step names: those that it reserves if its process
    /// is a member of a transaction. A missing process names only itself, and the kernel's abort
    /// names nothing. It takes no memory.
    pub fn footprint(&self, step: &Step) -> Objects
        ensures { IsSetOf result
            (footprint (view_of self.now).table step.now (present (view_of self.now))) }
    {
        footprint(&self.content, step)
    }

    /// The first signal of a step to the starter of a live transaction that has two answers: it is
    /// answered differently now than if that transaction were aborted first. Each signal is
    /// answered as if those that the step sends before it had been posted.
    ///
    /// None if there is no such signal, if the starter has no live transaction, if the step names
    /// it, and if the step's process does not run. It does not matter whether the step is refused
    /// for another reason. It takes no memory.
    pub fn two_answers(&self, step: &Step, starter: Pid) -> Option<TwoAnswers>
        ensures { result ≡ two_answers (view_of self.now) step.now starter.0 }
    {
        two_answers(&self.content, step, starter)
    }

    /// The status that `kernel_abort` of a starter's live transaction gives: 203 if it is doomed,
    /// else 202. None if the starter has no live transaction. It takes no memory. Own rule.
    pub fn kernel_status(&self, starter: Pid) -> Option<u16>
        ensures status { IfSome result (λ status.
            status ≡ kernel_status (view_of self.now) starter.0) }
        ensures live { IsSome result ↔ (is_live (view_of self.now).table starter.0 ≡ true) }
    {
        kernel_status(&self.content, starter)
    }
}
