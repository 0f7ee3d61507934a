//! One part of the kernel, and its old or new value.
ghost use Rattle.std.specs.Prelude.{◌≡◌};
ghost use Rattle.tx_change.specs.Exchange.{parts_after, change_after, IsNamed};

use crate::parts::Parts;
use crate::pipes::PipePart;
use tx_base::{DescNo, Pid, PipeNo};
use tx_desc::Opened;
use tx_proc::{BoxedProc, Part};

/// One part of the kernel, and its old or new value. It owns that value, so an exchange takes no
/// memory. Own rule.
#[derive(Drop)]
pub enum Change {
    /// What a process number has.
    Slot(Pid, Option<BoxedProc>),
    /// A part of a process.
    Part(Pid, Part),
    /// What a description number has.
    Description(DescNo, Option<Opened>),
    /// What a pipe number has, or some bytes of its pipe.
    Pipe(PipeNo, PipePart),
}

impl Change {
    /// Exchanges the part that the change has with the present one. Each number must be valid.
    /// Nothing happens to a part of a process, or to some bytes of a pipe, that is not there.
    pub fn swap(&mut self, parts: &mut Parts)
        requires { IsNamed parts.old self.old }
        ensures parts { parts.new ≡ parts_after parts.old self.old }
        ensures change { self.new ≡ change_after parts.old self.old }
    {
        match self {
            Change::Slot(pid, slot) => parts.procs.swap(*pid, slot),
            Change::Part(pid, part) => parts.procs.swap_part(*pid, part),
            Change::Description(number, opened) => {
                parts.descs.sized();
                parts.descs.swap(*number, opened)
            }
            Change::Pipe(number, part) => parts.pipes.swap_part(*number, part),
        }
    }
}
