//! Which column a process has.
ghost use Rattle.std.specs.Prelude.{◌≡◌, IfOk, OnOk, position};
ghost use Rattle.std.specs.List.{list_any};
ghost use Rattle.tx_picture.specs.Columns.{column_of, columns_of, is_at, noted, noted_row, noted_rows, noted_spans, noted_tie, noted_waits, noted_writers};
ghost use Rattle.tx_picture.specs.Drawn.{drawn_as};

use crate::drawing::Drawing;
use crate::passages::Passage;
use crate::rows::Row;
use crate::spans::Span;
use crate::ties::{Tie, tie_of};
use crate::waits::Wait;
use std::alloc::{AllocError, Global};
use tx_base::Pid;
use tx_core::maker;

/// The processes that have a column, from the left to the right: in the order in which they come,
/// and then those that never run, and whose steps are refused or to which only something leads.
pub(crate) fn columns_of(alloc: Global, drawing: &Drawing) -> Result<Vec<Pid>, AllocError>
    ensures { IfOk result (λ columns. columns.items ≡ columns_of (drawn_as drawing.now)) }
{
    let mut columns = Vec::new(alloc);
    note_spans(&mut columns, drawing.lanes.as_slice())?;
    note_spans(&mut columns, drawing.strips.as_slice())?;
    note_writers(&mut columns, drawing.passages.as_slice())?;
    note_rows(&mut columns, drawing.rows.as_slice())?;
    note_waits(&mut columns, drawing.waits.as_slice())?;
    Ok(columns)
}

/// A column for the process of each stretch.
fn note_spans(columns: &mut Vec<Pid>, spans: &[Span]) -> Result<(), AllocError>
    ensures { OnOk result (columns.new.items ≡ noted_spans columns.old.items spans.now) }
{
    for i in 0..spans.len() {
        note(columns, spans[i].process)?;
    }
    Ok(())
}

/// A column for the writer of what goes through a pipe.
fn note_writers(columns: &mut Vec<Pid>, passages: &[Passage]) -> Result<(), AllocError>
    ensures { OnOk result (columns.new.items ≡ noted_writers columns.old.items passages.now) }
{
    for i in 0..passages.len() {
        note(columns, passages[i].writer)?;
    }
    Ok(())
}

/// Columns for the processes of each row.
fn note_rows(columns: &mut Vec<Pid>, rows: &[Row]) -> Result<(), AllocError>
    ensures { OnOk result (columns.new.items ≡ noted_rows columns.old.items rows.now) }
{
    for i in 0..rows.len() {
        note_row(columns, &rows[i])?;
    }
    Ok(())
}

/// A column for the process whose step it is, and for that to which something leads from it.
fn note_row(columns: &mut Vec<Pid>, row: &Row) -> Result<(), AllocError>
    ensures { OnOk result (columns.new.items ≡ noted_row columns.old.items row.now) }
{
    note(columns, maker(&row.step))?;
    note_tie(columns, tie_of(&row.step, &row.reply))
}

/// A column for the process that something leads to.
fn note_tie(columns: &mut Vec<Pid>, tie: Option<Tie>) -> Result<(), AllocError>
    ensures { OnOk result (columns.new.items ≡ noted_tie columns.old.items tie) }
{
    match tie {
        None => Ok(()),
        Some(Tie::Holder(process) | Tie::Child(process) | Tie::Signal(process)) => {
            note(columns, process)
        }
    }
}

/// A column for each process that could end a wait.
fn note_waits(columns: &mut Vec<Pid>, waits: &[Wait]) -> Result<(), AllocError>
    ensures { OnOk result (columns.new.items ≡ noted_waits columns.old.items waits.now) }
{
    for i in 0..waits.len() {
        note(columns, waits[i].awaited)?;
    }
    Ok(())
}

/// A column for the process, if it has none.
pub(crate) fn note(columns: &mut Vec<Pid>, process: Pid) -> Result<(), AllocError>
    ensures { OnOk result (columns.new.items ≡ noted columns.old.items process) }
{
    if !has_column(columns.as_slice(), process) {
        columns.push(process)?;
    }
    Ok(())
}

/// Whether the process has a column.
fn has_column(columns: &[Pid], process: Pid) -> bool
    ensures { result ≡ list_any (is_at process.0) columns.now }
{
    columns.iter().any(|column| is_at(*column, process))
}

/// Whether the column is that of the process.
fn is_at(column: Pid, process: Pid) -> bool
    ensures { result ≡ is_at process.0 column }
{
    column == process
}

/// The number of the process's column, from 0; 0 where it has none.
pub(crate) fn column_of(columns: &[Pid], process: Pid) -> u64
    ensures { result ≡ column_of columns.now process.0 }
{
    match position_of(columns, process) {
        Some(column) => column.min(1000) as u64,
        None => 0,
    }
}

/// The place of the process among those that have a column.
fn position_of(columns: &[Pid], process: Pid) -> Option<usize>
    ensures { result ≡ position (is_at process.0) columns.now }
{
    columns.iter().position(|column| is_at(*column, process))
}
