//! Excerpts: the steps of a schedule that a picture shows, and what there is to draw of them.
ghost use Rattle.std.specs.Prelude.{◌≡◌, ◌-◌, ◌≤◌, IfOk, OnOk, filter, length, map, min, take};
ghost use Rattle.tx_picture.specs.Drawn.{drawn_as};
ghost use Rattle.tx_picture.specs.Excerpts as spec;
ghost use Rattle.tx_picture.specs.Excerpts.{end_after, is_read_after, is_span_after, is_wait_after, passage_after, span_after, wait_after};

use crate::drawing::Drawing;
use crate::passages::Passage;
use crate::spans::{End, Span};
use crate::waits::Wait;
use std::alloc::{AllocError, Global};
use tx_base::Step;

/// The steps of a schedule that a picture shows.
#[derive(Clone, Copy)]
pub struct Excerpt {
    /// The first of them. Steps count from 1.
    pub from: u16,
    /// The last of them, or the schedule's last one, where it has fewer.
    pub to: u16,
}

impl Excerpt {
    /// All steps of a schedule, which has at most 4,096.
    pub const WHOLE: Excerpt = Excerpt { from: 1, to: 4096 };

    /// The steps of a schedule to the last one that is shown.
    pub(crate) fn made(self, steps: &[Step]) -> &[Step]
        ensures { result.now ≡ take self.to steps.now }
    {
        let last = usize::from(self.to);
        if last < steps.len() {
            &steps[..last]
        } else {
            steps
        }
    }

    /// How many of so many steps are before the first one that is shown.
    pub(crate) fn before(self, made: u16) -> u16
        ensures { result ≡ min (self.from - 1) made }
    {
        self.from.saturating_sub(1).min(made)
    }
}

/// Leaves out what there is to draw in the rows before an excerpt, of which there are so many. What
/// reaches into the excerpt from there begins at its top edge, in row 0.
pub(crate) fn leave_out(alloc: Global, drawing: &mut Drawing, before: u16) -> Result<(), AllocError>
    requires { before ≤ length drawing.old.rows.items }
    ensures { OnOk result (drawn_as drawing.new ≡ spec.excerpt_of before (drawn_as drawing.old)) }
{
    drawing.rows = drawing.rows.split_off(usize::from(before))?;
    drawing.lanes = spans_after(alloc, drawing.lanes.as_slice(), before)?;
    drawing.strips = spans_after(alloc, drawing.strips.as_slice(), before)?;
    drawing.passages = passages_after(alloc, drawing.passages.as_slice(), before)?;
    drawing.waits = waits_after(alloc, drawing.waits.as_slice(), before)?;
    drawing.before = before;
    Ok(())
}

/// The stretches that reach past so many rows.
fn spans_after(alloc: Global, spans: &[Span], before: u16) -> Result<Vec<Span>, AllocError>
    ensures { IfOk result (λ after. after.items
        ≡ map (span_after before) (filter (is_span_after before) spans.now)) }
{
    spans
        .iter()
        .filter(|span| is_span_after(before, span))
        .map(|span| span_after(before, *span))
        .collect(alloc)
}

/// Whether a stretch reaches past so many rows.
fn is_span_after(before: u16, span: &Span) -> bool
    ensures { result ≡ is_span_after before span.now }
{
    span.end.is_none_or(|end| before < end.row)
}

/// A stretch after so many rows.
fn span_after(before: u16, span: Span) -> Span
    ensures { result ≡ span_after before span }
{
    Span {
        from: span.from.saturating_sub(before),
        end: span.end.map(|end| end_after(before, end)),
        ..span
    }
}

/// An end after so many rows.
fn end_after(before: u16, end: End) -> End
    ensures { result ≡ end_after before end }
{
    End {
        row: end.row.saturating_sub(before),
        ..end
    }
}

/// What goes through pipes to reads that are after so many rows.
fn passages_after(
    alloc: Global,
    passages: &[Passage],
    before: u16,
) -> Result<Vec<Passage>, AllocError>
    ensures { IfOk result (λ after. after.items
        ≡ map (passage_after before) (filter (is_read_after before) passages.now)) }
{
    passages
        .iter()
        .filter(|passage| is_read_after(before, passage))
        .map(|passage| passage_after(before, *passage))
        .collect(alloc)
}

/// Whether the bytes are read after so many rows.
fn is_read_after(before: u16, passage: &Passage) -> bool
    ensures { result ≡ is_read_after before passage.now }
{
    before < passage.read
}

/// A passage after so many rows.
fn passage_after(before: u16, passage: Passage) -> Passage
    ensures { result ≡ passage_after before passage }
{
    Passage {
        written: passage.written.saturating_sub(before),
        read: passage.read.saturating_sub(before),
        ..passage
    }
}

/// Who could end the waits that are after so many rows.
fn waits_after(alloc: Global, waits: &[Wait], before: u16) -> Result<Vec<Wait>, AllocError>
    ensures { IfOk result (λ after. after.items
        ≡ map (wait_after before) (filter (is_wait_after before) waits.now)) }
{
    waits
        .iter()
        .filter(|wait| is_wait_after(before, wait))
        .map(|wait| wait_after(before, *wait))
        .collect(alloc)
}

/// Whether a wait is after so many rows.
fn is_wait_after(before: u16, wait: &Wait) -> bool
    ensures { result ≡ is_wait_after before wait.now }
{
    before < wait.row
}

/// A wait after so many rows.
fn wait_after(before: u16, wait: Wait) -> Wait
    ensures { result ≡ wait_after before wait }
{
    Wait {
        row: wait.row.saturating_sub(before),
        ..wait
    }
}
