//! Boots a machine as a header says.
ghost use Rattle.std.specs.Prelude.{◌≡◌, IfErr, IfOk};
ghost use Rattle.tx_lines.specs.Lines.{FitsHeader};
ghost use Rattle.tx_lines.specs.declared.faults.Fault.TheVariants.{NoMemory};
ghost use Rattle.tx_content.specs.Content.{view_of};
ghost use Rattle.tx_script.specs.Report.{start_of};

use std::alloc::Global;
use tx_core::Machine;
use tx_lines::{Fault, Header, Version};

/// A machine before its first step, with the processes of a header: of 64 that it may have in
/// version 1, and of 256 in version 2.
///
/// The only fault is `NoMemory`.
pub fn boot(alloc: Global, header: Header) -> Result<Machine, Fault>
    requires { FitsHeader header }
    ensures view { IfOk result (λ machine. view_of machine ≡ start_of header) }
    ensures fault { IfErr result (λ fault. fault ≡ NoMemory) }
{
    let machine = match header.version {
        Version::One => Machine::boot(alloc, header.count)?,
        Version::Two => Machine::boot_wide(alloc, header.count)?,
    };
    Ok(machine)
}
