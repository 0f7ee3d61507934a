//! Where things are in a picture, in pixels.
ghost use Rattle.std.specs.Prelude.{◌≡◌, ◌*◌, ◌+◌};
ghost use Rattle.tx_picture.specs.Layout.{guide_left, heads_above, heads_y, is_wide, words_left, x_of, y_of};

use crate::columns::column_of;
use tx_base::Pid;

/// The middle of a process's column.
pub(crate) fn x_of(columns: &[Pid], process: Pid) -> u64
    ensures { result ≡ x_of columns.now process.0 }
{
    96 + 48 * column_of(columns, process)
}

/// Where the texts begin, to the right of the columns.
pub(crate) fn words_left(columns: &[Pid]) -> u64
    ensures { result ≡ words_left columns.now }
{
    96 + 48 * columns.len().min(1000) as u64
}

/// Whether there are so many columns that the texts are to their left too.
pub(crate) fn is_wide(columns: &[Pid]) -> bool
    ensures { result ≡ is_wide columns.now }
{
    columns.len() > 24
}

/// Where the line to the texts begins, of a step whose mark is there.
pub(crate) fn guide_left(columns: &[Pid], x: u64) -> u64
    ensures { result ≡ guide_left columns.now x }
{
    if is_wide(columns) { 72 } else { x }
}

/// The middle of a row.
pub(crate) fn y_of(row: u16) -> u64
    ensures { result ≡ y_of row }
{
    52 + 24 * u64::from(row) + 48 * u64::from(heads_above(row))
}

/// How often the numbers of the processes come again above a row: after each 40 rows.
pub(crate) fn heads_above(row: u16) -> u16
    ensures { result ≡ heads_above row }
{
    row.saturating_sub(1) / 40
}

/// Where the numbers of the processes are above 40 rows, before which there are so many times 40.
pub(crate) fn heads_y(before: u16) -> u64
    ensures { result ≡ heads_y before }
{
    28 + 1008 * u64::from(before)
}
