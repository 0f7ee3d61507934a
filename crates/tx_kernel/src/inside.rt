//! The transaction that a step is made inside.
ghost use Rattle.std.specs.Prelude.{◌≡◌, ◌==◌};
ghost use Rattle.tx_base.specs.Slots.{slot_at};
ghost use Rattle.tx_model.specs.Membership.{is_of};

use tx_base::{Mark, Pid, Slots};

/// The transaction that a step is made inside.
#[derive(Clone, Copy)]
pub struct Inside<'a> {
    /// The process that began it.
    pub starter: Pid,
    /// For each process number its mark: who is a member.
    pub marks: &'a Slots<Mark>,
    /// How many sends of its members are held: 0 to 32.
    pub held: usize,
    /// Whether it defers deliveries to its members.
    pub defers: bool,
}

impl Inside<'_> {
    /// Whether the process is a member.
    pub fn has_member(&self, pid: Pid) -> bool
        ensures { result ≡ is_of self.now.starter.0 (slot_at self.now.marks.now pid.0) }
    {
        match self.marks.get(pid) {
            Some(mark) => mark.starter == self.starter,
            None => false,
        }
    }
}
