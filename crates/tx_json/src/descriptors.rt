//! Appends descriptors, descriptions and pipes.
ghost use Rattle.std.specs.Option.{option_copied};
ghost use Rattle.std.specs.Prelude.{◌≡◌, ◌++◌, OnOk};
ghost use Rattle.tx_change.specs.Exchange.{pipe_at};
ghost use Rattle.tx_desc.specs.Descriptions.{described, description_at, end_for};
ghost use Rattle.tx_desc.specs.Places.{number_in};
ghost use Rattle.tx_json.specs.Descriptors.{desc_item, descs_member, fd_item, fds_member, pipe_item, pipes_member, side_word};

use crate::line::LineWriter;
use crate::members::{
    begin_list, begin_object, end_list, end_object, put_bytes, put_count, put_flag, put_word,
};
use std::alloc::{AllocError, Global};
use tx_base::{DESCRIPTIONS, DESCRIPTORS, DescNo, PIPES, PipeNo};
use tx_change::PipeTable;
use tx_desc::{Descs, FdTable, Opened, Side};
use tx_pipe::Pipe;

/// Appends the open descriptors, by rising number.
pub fn put_fds(writer: &mut LineWriter, table: &FdTable) -> Result<(), AllocError>
    ensures { OnOk result (writer.new ≡ writer.old ++ fds_member table.now) }
{
    begin_list(writer, "fds")?;
    for fd in 0..DESCRIPTORS {
        put_fd(writer, fd, table.get(fd))?;
    }
    end_list(writer)
}

/// Appends a descriptor, where it is open.
fn put_fd(writer: &mut LineWriter, fd: usize, name: Option<DescNo>) -> Result<(), AllocError>
    ensures { OnOk result
        (writer.new ≡ writer.old ++ fd_item fd (number_in name)) }
{
    match name {
        Some(number) => {
            begin_object(writer)?;
            put_count(writer, "fd", fd as u64)?;
            put_count(writer, "desc", u64::from(number.0))?;
            end_object(writer)
        }
        None => Ok(()),
    }
}

/// Appends the descriptions, by rising number.
pub fn put_descs(writer: &mut LineWriter, descs: &Descs) -> Result<(), AllocError>
    ensures { OnOk result
        (writer.new ≡ writer.old ++ descs_member (description_at descs.now)) }
{
    begin_list(writer, "descs")?;
    for number in 0..DESCRIPTIONS {
        put_desc(writer, number, descs.get(DescNo(number as u8)))?;
    }
    end_list(writer)
}

/// Appends a description: none where there is none of the number.
fn put_desc(
    writer: &mut LineWriter,
    number: usize,
    opened: Option<Opened>,
) -> Result<(), AllocError>
    ensures { OnOk result
        (writer.new ≡ writer.old ++ desc_item number (described opened)) }
{
    match opened {
        Some(opened) => {
            begin_object(writer)?;
            put_count(writer, "desc", number as u64)?;
            put_count(writer, "pipe", u64::from(opened.desc.pipe.0))?;
            put_word(writer, "side", side(opened.desc.side))?;
            put_flag(writer, "nonblock", opened.desc.nonblock)?;
            end_object(writer)
        }
        None => Ok(()),
    }
}

/// The word for a side of a pipe.
fn side(side: Side) -> &'static str
    ensures { result.now ≡ side_word (end_for side) }
{
    match side {
        Side::Read => "read",
        Side::Write => "write",
    }
}

/// Appends the pipes, by rising number.
pub fn put_pipes(
    alloc: Global,
    writer: &mut LineWriter,
    pipes: &PipeTable,
) -> Result<(), AllocError>
    ensures { OnOk result
        (writer.new ≡ writer.old ++ pipes_member (pipe_at pipes.now)) }
{
    begin_list(writer, "pipes")?;
    for number in 0..PIPES {
        put_pipe(alloc, writer, number, pipes.get(PipeNo(number as u8)))?;
    }
    end_list(writer)
}

/// Appends a pipe, with all its bytes: none where there is none of the number.
fn put_pipe(
    alloc: Global,
    writer: &mut LineWriter,
    number: usize,
    pipe: Option<&Pipe>,
) -> Result<(), AllocError>
    ensures { OnOk result
        (writer.new ≡ writer.old ++ pipe_item number (option_copied pipe.entry)) }
{
    match pipe {
        Some(pipe) => {
            begin_object(writer)?;
            put_count(writer, "pipe", number as u64)?;
            put_bytes(alloc, writer, "bytes", pipe.bytes())?;
            end_object(writer)
        }
        None => Ok(()),
    }
}
