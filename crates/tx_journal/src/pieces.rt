//! Prints pieces of the state of a machine.
ghost use Rattle.std.specs.Prelude.{◌≡◌, ◌++◌, IfOk, OnOk, map, string_bytes};
ghost use Rattle.tx_journal.specs.Pieces.{piece_text};
ghost use Rattle.tx_journal.specs.Rows.{lines_of};
ghost use Rattle.tx_journal.specs.declared.pieces.Piece.TheVariants.{Txn};
ghost use Rattle.tx_content.specs.Content.{view_of};

use std::alloc::{AllocError, Global};
use tx_base::{DescNo, NoMemory, Pid, PipeNo};
use tx_core::Machine;
use tx_state_text::{
    Links, put_desc_line, put_fd_of, put_ids_of, put_page_of, put_pending_of, put_pipe_line,
    put_queue_of, put_slot_lines, put_txn_lines,
};

/// A piece of a state that has lines of its own in the state's text.
#[derive(Clone, Copy)]
pub enum Piece {
    /// A process, with all that it has.
    Proc(Pid),
    /// A page of a process.
    Page(Pid, u8),
    /// A descriptor of a process.
    Fd(Pid, u8),
    /// The standard signals that are pending at a process.
    Pending(Pid),
    /// The signals that are queued at a process.
    Queue(Pid),
    /// The ids of a process.
    Ids(Pid),
    /// A description.
    Desc(DescNo),
    /// A pipe, with its bytes.
    Pipe(PipeNo),
    /// The live transaction of a starter, with what it holds.
    Txn(Pid),
}

/// The lines of each of some pieces of a machine's state: none for one that does not exist.
///
/// NoMemory where a growth is refused.
pub fn print_pieces(
    alloc: Global,
    machine: &Machine,
    pieces: &[Piece],
) -> Result<Vec<String>, NoMemory>
    ensures { IfOk result (λ texts.
        map string_bytes texts.items ≡ lines_of pieces.now (view_of machine.now)) }
{
    let mut texts = Vec::new(alloc);
    for piece in pieces {
        texts.push(print_piece(alloc, machine, *piece)?)?;
    }
    Ok(texts)
}

/// The lines of a piece of a machine's state.
fn print_piece(alloc: Global, machine: &Machine, piece: Piece) -> Result<String, AllocError>
    ensures { IfOk result (λ text.
        string_bytes text ≡ piece_text piece (view_of machine.now)) }
{
    let mut text = String::new(alloc);
    put_piece(&mut text, machine, piece)?;
    Ok(text)
}

/// Appends the lines of a piece of a machine's state: none if it does not exist. The only error is
/// that a growth of memory was refused: the text may then end in some of them.
pub fn put_piece(text: &mut String, machine: &Machine, piece: Piece) -> Result<(), AllocError>
    ensures { OnOk result
        (string_bytes text.new ≡ string_bytes text.old ++ piece_text piece (view_of machine.now)) }
{
    let parts = machine.parts();
    match piece {
        Piece::Proc(pid) => put_slot_lines(text, pid, parts.proc(pid)),
        Piece::Page(pid, number) => put_page_of(text, parts.proc(pid), number as usize),
        Piece::Fd(pid, fd) => put_fd_of(text, parts.proc(pid), fd as usize),
        Piece::Pending(pid) => put_pending_of(text, parts.proc(pid)),
        Piece::Queue(pid) => put_queue_of(text, parts.proc(pid)),
        Piece::Ids(pid) => put_ids_of(text, parts.proc(pid)),
        Piece::Desc(number) => { put_desc_line(text, number.0 as usize, parts.descs.get(number)) }
        Piece::Pipe(number) => { put_pipe_line(text, number.0 as usize, parts.pipes.get(number)) }
        Piece::Txn(starter) => put_txn(text, machine, starter),
    }
}

/// Appends the lines of the live transaction of a starter: none where it has begun none.
fn put_txn(text: &mut String, machine: &Machine, starter: Pid) -> Result<(), AllocError>
    ensures { OnOk result (string_bytes text.new
        ≡ string_bytes text.old ++ piece_text (Txn starter) (view_of machine.now)) }
{
    let width = machine.processes();
    if starter.0 > width {
        return Ok(());
    }
    let marks = machine.marks();
    let links = Links::new(*text.allocator(), marks, width)?;
    put_txn_lines(text, marks, &links, width, starter, machine.held(starter))
}
