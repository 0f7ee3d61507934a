//! The newest old part of a log, where that is an answer.
ghost use Rattle.std.specs.Prelude.{◌≡◌};
ghost use Rattle.tx_change.specs.Answered.{change_of};
ghost use Rattle.tx_change.specs.Exchange.{parts_after, change_after, IsNamed};

use crate::change::Change;
use crate::parts::Parts;
use tx_base::Pid;
use tx_proc::{Answer, Part};

/// The change of the answer of a process. Most steps end with one, so a log has its newest apart
/// from its list: there it takes no memory, and no exchange has to find out what it is.
#[derive(Clone, Copy)]
pub(crate) struct Answered {
    pub pid: Pid,
    pub answer: Answer,
}

impl Answered {
    /// The same, as any other change.
    pub fn change(self) -> Change
        ensures { result ≡ change_of self }
    {
        Change::Part(self.pid, Part::Answer(self.answer))
    }

    /// Exchanges the answer with the present one.
    pub fn swap(&mut self, parts: &mut Parts)
        requires { IsNamed parts.old (change_of self.old) }
        ensures parts { parts.new ≡ parts_after parts.old (change_of self.old) }
        ensures change { change_of self.new ≡ change_after parts.old (change_of self.old) }
    {
        parts.procs.swap_answer(self.pid, &mut self.answer);
    }
}
