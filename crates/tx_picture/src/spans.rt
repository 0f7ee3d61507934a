//! Stretches of columns: from where a process runs, or is a member of a transaction, to where it is
//! none any more.
ghost use Rattle.std.specs.Prelude.{◌≡◌, OnOk};
ghost use Rattle.tx_picture.specs.Spans.{begun, has_open, is_open_at};

use std::alloc::AllocError;
use tx_base::Pid;

/// Where a stretch ends.
#[derive(Clone, Copy)]
pub struct End {
    /// The row of the step that ended it. Steps count from 1.
    pub row: u16,
    /// Whether that step aborted a transaction.
    pub aborted: bool,
}

/// A stretch of a process's column.
#[derive(Clone, Copy)]
pub struct Span {
    pub process: Pid,
    /// Whose stretch it is: the starter of the transaction that the process is a member of, or the
    /// process itself, while it runs.
    pub holder: Pid,
    /// The row of the step that began it, or 0 where it was there at the start.
    pub from: u16,
    /// Where it ends; nothing where it lasts to the schedule's end.
    pub end: Option<End>,
}

/// What a stretch is of.
#[derive(Clone, Copy)]
pub(crate) enum Stretch {
    /// Of a process, while it runs.
    Lane,
    /// Of the transaction that a process is a member of.
    Strip,
}

/// Begins a stretch of a process in a row, where it has a holder and no open stretch.
///
/// The only error is that a growth of memory was refused: the list is then as it was.
pub(crate) fn begin(
    spans: &mut Vec<Span>,
    process: Pid,
    holder: Option<Pid>,
    row: u16,
) -> Result<(), AllocError>
    ensures { OnOk result (spans.new.items ≡ begun process.0 holder row spans.old.items) }
{
    match holder {
        None => Ok(()),
        Some(holder) => {
            if has_open(spans.as_slice(), process) {
                return Ok(());
            }
            spans.push(Span {
                process,
                holder,
                from: row,
                end: None,
            })?;
            Ok(())
        }
    }
}

/// Whether a process has an open stretch.
fn has_open(spans: &[Span], process: Pid) -> bool
    ensures { result ≡ has_open process.0 spans.now }
{
    spans.iter().any(|span| is_open_at(span, process))
}

/// Whether it is an open stretch of a process.
fn is_open_at(span: &Span, process: Pid) -> bool
    ensures { result ≡ is_open_at process.0 span.now }
{
    span.end.is_none() && span.process == process
}
