//! The faults that the readers find in texts.
ghost use Rattle.std.specs.Prelude.{◌≢◌, Some, IfOk};
ghost use Rattle.tx_check.specs.Reads.{Finds};
ghost use Rattle.tx_lines.specs.declared.faults.Fault.TheVariants as faults;

use crate::kinds::Kind;
use std::alloc::Global;
use tx_base::NoMemory;
use tx_lines::{Fault, read_program_text, read_schedule, read_walk};

/// The fault at which the reader of that kind finds a text of the first two versions.
pub fn fault_in(alloc: Global, kind: Kind, text: &[u8]) -> Result<Option<Fault>, NoMemory>
    ensures { IfOk result (Finds kind text.now) }
{
    match fault_of(alloc, kind, text) {
        Some(Fault::NoMemory) => Err(NoMemory),
        fault => Ok(fault),
    }
}

/// What that reader answers in place of the text, where it is at fault or memory was refused.
fn fault_of(alloc: Global, kind: Kind, text: &[u8]) -> Option<Fault>
    ensures { result ≢ Some faults.NoMemory → Finds kind text.now result }
{
    match kind {
        Kind::Schedule => read_schedule(alloc, text).err(),
        Kind::Walk => read_walk(alloc, text).err(),
        Kind::Program => read_program_text(alloc, text).err(),
    }
}
