//! Lists the pieces of a state: all, or those that a step may change.
ghost use Rattle.std.specs.List.{filter};
ghost use Rattle.std.specs.Prelude.{◌≡◌, ◌<◌, ◌++◌, IfOk, OnOk};
ghost use Rattle.tx_base.specs.declared.steps.Step.{Step as TheStep};
ghost use Rattle.tx_core.specs.Machines.{IsWidth};
ghost use Rattle.tx_journal.specs.Reach.{is_reached, reached_pieces};
ghost use Rattle.tx_journal.specs.Reaches.{Reaches};
ghost use Rattle.tx_journal.specs.Rows.{limit_of, piece_in, row_pieces, state_pieces};
ghost use Rattle.tx_content.specs.Content.{view_of};

use crate::pieces::Piece;
use crate::reach::Reach;
use std::alloc::{AllocError, Global};
use tx_base::{DESCRIPTIONS, DescNo, NoMemory, PIPES, Pid, PipeNo, Step};
use tx_core::Machine;

/// Pieces of one kind, which are one after another in the text of a state.
#[derive(Clone, Copy)]
pub(crate) enum Row {
    /// The processes.
    Procs,
    /// The descriptions.
    Descs,
    /// The pipes.
    Pipes,
    /// The live transactions.
    Txns,
}

impl Row {
    /// How many pieces it has, with this many process numbers.
    fn limit(self, width: u16) -> u16
        ensures { result ≡ limit_of self width }
    {
        match self {
            Row::Procs => width,
            Row::Descs => DESCRIPTIONS as u16,
            Row::Pipes => PIPES as u16,
            Row::Txns => width,
        }
    }

    /// The piece that comes after this many.
    fn piece(self, number: u16) -> Piece
        requires { number < limit_of self 256 }
        ensures { result ≡ piece_in self number }
    {
        match self {
            Row::Procs => Piece::Proc(Pid(number + 1)),
            Row::Descs => Piece::Desc(DescNo(number as u8)),
            Row::Pipes => Piece::Pipe(PipeNo(number as u8)),
            Row::Txns => Piece::Txn(Pid(number + 1)),
        }
    }
}

/// All pieces that a machine's state may have, in the order of the state's text: its processes,
/// descriptions, pipes and live transactions.
///
/// NoMemory where a growth is refused.
pub fn all_pieces(alloc: Global, machine: &Machine) -> Result<Vec<Piece>, NoMemory>
    ensures { IfOk result (λ found.
        found.items ≡ state_pieces (view_of machine.now).table.width) }
{
    let width = machine.processes();
    let mut found = Vec::new(alloc);
    put_all(&mut found, width, Row::Procs)?;
    put_all(&mut found, width, Row::Descs)?;
    put_all(&mut found, width, Row::Pipes)?;
    put_all(&mut found, width, Row::Txns)?;
    Ok(found)
}

/// Appends the pieces of a row, with this many process numbers.
fn put_all(found: &mut Vec<Piece>, width: u16, row: Row) -> Result<(), AllocError>
    requires { IsWidth width }
    ensures { OnOk result (found.new.items ≡ found.old.items ++ row_pieces row width) }
{
    for number in 0..row.limit(width) {
        found.push(row.piece(number))?;
    }
    Ok(())
}

/// The pieces of a machine's state that a step may change, in the order of the state's text. It
/// goes over all numbers, and prints nothing.
///
/// NoMemory where a growth is refused.
pub(crate) fn list_reached(
    alloc: Global,
    machine: &Machine,
    step: &Step,
) -> Result<Vec<Piece>, NoMemory>
    ensures { IfOk result (λ found.
        found.items ≡ reached_pieces (view_of machine.now) step.now) }
{
    let reach = Reach::of(alloc, machine, step)?;
    let mut found = Vec::new(alloc);
    put_row(&mut found, machine, &reach, Row::Procs)?;
    put_row(&mut found, machine, &reach, Row::Descs)?;
    put_row(&mut found, machine, &reach, Row::Pipes)?;
    put_row(&mut found, machine, &reach, Row::Txns)?;
    Ok(found)
}

/// Appends the pieces of a row that are reached.
fn put_row(
    found: &mut Vec<Piece>,
    machine: &Machine,
    reach: &Reach,
    row: Row,
) -> Result<(), AllocError>
    ensures { (step : TheStep) → Reaches reach.now (view_of machine.now) step →
        OnOk result (found.new.items ≡ found.old.items
        ++ filter (is_reached (view_of machine.now) step)
        (row_pieces row (view_of machine.now).table.width)) }
{
    let limit = row.limit(machine.processes());
    for number in 0..limit {
        let piece = row.piece(number);
        if reach.has(machine, piece) {
            found.push(piece)?;
        }
    }
    Ok(())
}
