//! Draws signals, also those that a transaction holds until its commit.
ghost use Rattle.std.specs.Prelude.{◌≡◌, ◌≤◌, ◌+◌, ◌++◌, OnOk, find, string_bytes};
ghost use Rattle.tx_picture.specs.Held.{covers, end_at, held_text, kept_text, reaches, sent_text, signal_text};
ghost use Rattle.std.specs.Option.{option_copied};

use crate::elements::{Numbers, Shape, put_shape};
use crate::layout::y_of;
use crate::rows::Row;
use crate::spans::{End, Span};
use std::alloc::AllocError;
use tx_base::Pid;
use tx_core::maker;

/// Where a signal leaves, and the column that it goes to.
#[derive(Clone, Copy)]
pub(crate) struct Place {
    /// The middle of the sender's column.
    pub x: u64,
    /// The middle of the step's row.
    pub y: u64,
    /// The middle of the target's column.
    pub to: u64,
}

/// Appends a signal: an arrow to its target, which is bent to the commit where a transaction holds
/// it.
#[tactic(auto, unfolding(crate::specs::Held::signal_text))]
pub(crate) fn put_signal(
    text: &mut String,
    place: Place,
    strips: &[Span],
    last: u16,
    number: u16,
    row: &Row,
) -> Result<(), AllocError>
    requires { place.x ≤ 100000 }
    ensures { OnOk result (string_bytes text.new
        ≡ string_bytes text.old ++ signal_text place strips.now last number row.now) }
{
    if row.holder.is_none() {
        let numbers = Numbers(place.x, place.y, place.to, place.y);
        return put_shape(text, Shape::Line, "signal", numbers);
    }
    put_held(text, place, last, end_at(strips, maker(&row.step), number))
}

/// Appends a signal that a transaction holds, which ends there.
fn put_held(text: &mut String, place: Place, last: u16, end: Option<End>) -> Result<(), AllocError>
    requires { place.x ≤ 100000 }
    ensures { OnOk result
        (string_bytes text.new ≡ string_bytes text.old ++ held_text place last end) }
{
    match end {
        None => put_kept(text, place, y_of(last) + 8),
        Some(end) => {
            let bottom = y_of(end.row) + 8;
            put_kept(text, place, bottom)?;
            put_sent(text, place, bottom, end.aborted)
        }
    }
}

/// Appends the way of a held signal down to where it stays.
fn put_kept(text: &mut String, place: Place, bottom: u64) -> Result<(), AllocError>
    requires { place.x ≤ 100000 }
    ensures { OnOk result
        (string_bytes text.new ≡ string_bytes text.old ++ kept_text place bottom) }
{
    let x = place.x + 12;
    let aside = Numbers(place.x, place.y, x, place.y);
    put_shape(text, Shape::Line, "held", aside)?;
    put_shape(text, Shape::Line, "held", Numbers(x, place.y, x, bottom))
}

/// Appends the way of a held signal from a commit to its target, or that it is dropped at an abort.
fn put_sent(text: &mut String, place: Place, bottom: u64, aborted: bool) -> Result<(), AllocError>
    requires { place.x ≤ 100000 }
    ensures { OnOk result
        (string_bytes text.new ≡ string_bytes text.old ++ sent_text place bottom aborted) }
{
    let x = place.x + 12;
    if aborted {
        let bar = Numbers(x - 6, bottom, x + 6, bottom);
        return put_shape(text, Shape::Line, "dropped", bar);
    }
    put_shape(
        text,
        Shape::Line,
        "signal",
        Numbers(x, bottom, place.to, bottom),
    )
}

/// Where the transaction ends that a process is a member of in a row; nothing where it does not
/// end.
fn end_at(strips: &[Span], process: Pid, row: u16) -> Option<End>
    ensures { result ≡ end_at strips.now process.0 row }
{
    strip_at(strips, process, row)?.end
}

/// The stretch of a process that has a row.
fn strip_at(strips: &[Span], process: Pid, row: u16) -> Option<&Span>
    ensures { option_copied result ≡ find (covers process.0 row) strips.now }
{
    strips.iter().find(|strip| covers(strip, process, row))
}

/// Whether it is a stretch of that process, and has that row.
fn covers(strip: &Span, process: Pid, row: u16) -> bool
    ensures { result ≡ covers process.0 row strip.now }
{
    strip.process == process && strip.from <= row && reaches(strip.end, row)
}

/// Whether a stretch that ends so reaches a row.
fn reaches(end: Option<End>, row: u16) -> bool
    ensures { result ≡ reaches end row }
{
    end.is_none_or(|end| row <= end.row)
}
