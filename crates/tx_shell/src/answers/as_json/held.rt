//! Reports as JSON who has a pipe or a description open.
ghost use Rattle.std.specs.Prelude.{◌≡◌, ◌++◌, OnOk, Some, option_map};
ghost use Rattle.tx_shell.specs.Held.{desc_held, desc_members, pipe_held, pipe_members};

use crate::questions::held::{DescHolders, PipeHolders};
use crate::questions::holders::word;
use std::alloc::AllocError;
use tx_json::{LineWriter, put_count, put_holder_list, put_null, put_word};

/// Appends who has each side of a pipe open, or that it is not there.
pub fn put_pipe(writer: &mut LineWriter, found: &Option<PipeHolders>) -> Result<(), AllocError>
    ensures { OnOk result
        (writer.new ≡ writer.old ++ pipe_members (option_map pipe_held found.now)) }
{
    match found {
        Some(found) => put_sides(writer, found),
        None => {
            put_null(writer, "readers")?;
            put_null(writer, "writers")
        }
    }
}

/// Appends who has each side of a pipe open.
fn put_sides(writer: &mut LineWriter, found: &PipeHolders) -> Result<(), AllocError>
    ensures { OnOk result
        (writer.new ≡ writer.old ++ pipe_members (Some (pipe_held found.now))) }
{
    put_holder_list(writer, "readers", found.readers.as_slice())?;
    put_holder_list(writer, "writers", found.writers.as_slice())
}

/// Appends which side of which pipe a description is, and who has it open, or that it is not there.
pub fn put_desc(writer: &mut LineWriter, found: &Option<DescHolders>) -> Result<(), AllocError>
    ensures { OnOk result
        (writer.new ≡ writer.old ++ desc_members (option_map desc_held found.now)) }
{
    match found {
        Some(found) => put_side(writer, found),
        None => {
            put_null(writer, "pipe")?;
            put_null(writer, "side")?;
            put_null(writer, "holders")
        }
    }
}

/// Appends which side of which pipe a description is, and who has it open.
fn put_side(writer: &mut LineWriter, found: &DescHolders) -> Result<(), AllocError>
    ensures { OnOk result
        (writer.new ≡ writer.old ++ desc_members (Some (desc_held found.now))) }
{
    put_count(writer, "pipe", u64::from(found.pipe.0))?;
    put_word(writer, "side", word(found.side))?;
    put_holder_list(writer, "holders", found.holders.as_slice())
}
