//! Reports as JSON which positions are compared.
ghost use Rattle.std.specs.Prelude.{◌≡◌, ◌++◌, OnOk};
ghost use Rattle.tx_shell.specs.Members.{compared_members, not_compared_members};

use std::alloc::AllocError;
use tx_json::{LineWriter, put_count, put_null};

/// Appends the two positions that are compared.
pub fn put_compared(writer: &mut LineWriter, from: u64, to: u64) -> Result<(), AllocError>
    ensures { OnOk result (writer.new ≡ writer.old ++ compared_members from to) }
{
    put_count(writer, "from", from)?;
    put_count(writer, "to", to)
}

/// Appends that no two positions are.
pub fn put_not_compared(writer: &mut LineWriter) -> Result<(), AllocError>
    ensures { OnOk result (writer.new ≡ writer.old ++ not_compared_members) }
{
    put_null(writer, "from")?;
    put_null(writer, "to")
}
