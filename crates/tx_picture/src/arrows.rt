//! Draws what goes through pipes: arrows from the marks of writes to those of reads.
ghost use Rattle.std.specs.Prelude.{◌≡◌, ◌≤◌, ◌++◌, [], OnOk, string_bytes};
ghost use Rattle.tx_picture.specs.Arrows.{bent_text, passage_text, passages_text, y_between};

use crate::elements::{Numbers, Shape, put_shape};
use crate::fans::{Fan, ROWS, moved_aside, no_counts};
use crate::layout::{x_of, y_of};
use crate::passages::Passage;
use std::alloc::{AllocError, Global};
use tx_base::Pid;

/// Appends an arrow for each passage, aside from those before it at its marks.
pub(crate) fn put_passages(
    alloc: Global,
    text: &mut String,
    columns: &[Pid],
    passages: &[Passage],
) -> Result<(), AllocError>
    ensures { OnOk result (string_bytes text.new
        ≡ string_bytes text.old ++ passages_text columns.now [] passages.now) }
{
    let mut left = no_counts(alloc, ROWS)?;
    let mut entered = no_counts(alloc, ROWS)?;
    let leaving = left.as_mut_slice();
    let entering = entered.as_mut_slice();
    for i in 0..passages.len() {
        let passage = passages[i];
        let fan = Fan {
            below: moved_aside(leaving, passage.written),
            above: moved_aside(entering, passage.read),
        };
        put_passage(text, columns, fan, passage)?;
    }
    Ok(())
}

/// Appends the arrow of a passage, from the writer's column to the reader's.
fn put_passage(
    text: &mut String,
    columns: &[Pid],
    fan: Fan,
    passage: Passage,
) -> Result<(), AllocError>
    requires below { fan.below ≤ 9 }
    requires above { fan.above ≤ 9 }
    ensures { OnOk result (string_bytes text.new
        ≡ string_bytes text.old ++ passage_text columns.now fan passage) }
{
    let x = x_of(columns, passage.writer);
    if passage.writer == passage.reader {
        return put_bent(text, x, fan, passage);
    }
    let first = y_of(passage.written) + fan.below;
    let last = y_of(passage.read) - fan.above;
    let numbers = Numbers(x, first, x_of(columns, passage.reader), last);
    put_shape(text, Shape::Line, "pipe", numbers)
}

/// Appends the arrow to a process that reads what it wrote, beside its line.
fn put_bent(text: &mut String, x: u64, fan: Fan, passage: Passage) -> Result<(), AllocError>
    requires left { 23 ≤ x }
    requires below { fan.below ≤ 9 }
    requires above { fan.above ≤ 9 }
    ensures { OnOk result (string_bytes text.new
        ≡ string_bytes text.old ++ bent_text x fan passage) }
{
    let left = x - (14 + fan.below);
    let y = y_between(passage.written, passage.read);
    let numbers = Numbers(x, y_of(passage.written) + fan.below, left, y);
    put_shape(text, Shape::Line, "bend", numbers)?;
    let numbers = Numbers(left, y, x, y_of(passage.read) - fan.above);
    put_shape(text, Shape::Line, "pipe", numbers)
}

/// The middle between two rows.
fn y_between(row: u16, other: u16) -> u64
    ensures { result ≡ y_between row other }
{
    (y_of(row) + y_of(other)) / 2
}
