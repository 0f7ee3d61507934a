//! Prints descriptors, descriptions and pipes.
ghost use Rattle.std.specs.Option.{option_copied};
ghost use Rattle.std.specs.Prelude.{◌≡◌, ◌++◌, OnOk, string_bytes};
ghost use Rattle.tx_change.specs.Exchange.{pipe_at};
ghost use Rattle.tx_desc.specs.Descriptions.{described, description_at, description_of, end_for};
ghost use Rattle.tx_desc.specs.Places.{number_in};
ghost use Rattle.tx_state_text.specs.Descriptors.{desc_line, desc_text, descs_text, fd_line, fds_text, pipe_line, pipes_text, side_text, wait_text};

use std::alloc::AllocError;
use std::fmt::Write;
use tx_base::{DESCRIPTIONS, DESCRIPTORS, DescNo, PIPES, PipeNo};
use tx_change::PipeTable;
use tx_desc::{Desc, Descs, FdTable, Opened, Side};
use tx_lines::{put, put_bytes};
use tx_pipe::Pipe;

/// Appends the line of each open descriptor, by rising number.
pub fn put_fds(text: &mut String, table: &FdTable) -> Result<(), AllocError>
    ensures { OnOk result (string_bytes text.new ≡ string_bytes text.old ++ fds_text table.now) }
{
    for fd in 0..DESCRIPTORS {
        put_fd_line(text, fd, table.get(fd))?;
    }
    Ok(())
}

/// Appends the line of a descriptor, where it is open.
pub fn put_fd_line(text: &mut String, fd: usize, name: Option<DescNo>) -> Result<(), AllocError>
    ensures { OnOk result
        (string_bytes text.new ≡ string_bytes text.old ++ fd_line fd (number_in name)) }
{
    match name {
        Some(number) => write!(text, "fd {fd} {}\n", number.0),
        None => Ok(()),
    }
}

/// Appends the line of each description, by rising number.
pub fn put_descs(text: &mut String, descs: &Descs) -> Result<(), AllocError>
    ensures { OnOk result
        (string_bytes text.new ≡ string_bytes text.old ++ descs_text (description_at descs.now)) }
{
    for number in 0..DESCRIPTIONS {
        put_desc_line(text, number, descs.get(DescNo(number as u8)))?;
    }
    Ok(())
}

/// Appends the line of the description of a number: none if there is none.
pub fn put_desc_line(
    text: &mut String,
    number: usize,
    opened: Option<Opened>,
) -> Result<(), AllocError>
    ensures { OnOk result
        (string_bytes text.new ≡ string_bytes text.old ++ desc_line number (described opened)) }
{
    match opened {
        Some(opened) => put_desc(text, number, opened.desc),
        None => Ok(()),
    }
}

/// Appends the line of a description.
fn put_desc(text: &mut String, number: usize, desc: Desc) -> Result<(), AllocError>
    ensures { OnOk result
        (string_bytes text.new ≡ string_bytes text.old ++ desc_text number (description_of desc)) }
{
    let pipe = desc.pipe.0;
    write!(
        text,
        "desc {number} {pipe}{}{}",
        side(desc.side),
        wait(desc.nonblock)
    )
}

/// The letter of a side, after a space.
fn side(side: Side) -> &'static str
    ensures { result.now ≡ side_text (end_for side) }
{
    match side {
        Side::Read => " r",
        Side::Write => " w",
    }
}

/// The word for whether a description waits, after a space, and the end of its line.
fn wait(nonblock: bool) -> &'static str
    ensures { result.now ≡ wait_text nonblock }
{
    if nonblock { " nonblock\n" } else { " block\n" }
}

/// Appends the line of each pipe, by rising number.
pub fn put_pipes(text: &mut String, pipes: &PipeTable) -> Result<(), AllocError>
    ensures { OnOk result
        (string_bytes text.new ≡ string_bytes text.old ++ pipes_text (pipe_at pipes.now)) }
{
    for number in 0..PIPES {
        put_pipe_line(text, number, pipes.get(PipeNo(number as u8)))?;
    }
    Ok(())
}

/// Appends the line of the pipe of a number: none if there is none.
pub fn put_pipe_line(
    text: &mut String,
    number: usize,
    pipe: Option<&Pipe>,
) -> Result<(), AllocError>
    ensures { OnOk result
        (string_bytes text.new ≡ string_bytes text.old
        ++ pipe_line number (option_copied pipe.entry)) }
{
    match pipe {
        Some(pipe) => {
            write!(text, "pipe {number} ")?;
            put_bytes(text, pipe.bytes())?;
            put(text, "\n")
        }
        None => Ok(()),
    }
}
