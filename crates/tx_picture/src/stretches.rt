//! Draws stretches of columns: lanes, and the boxes of transactions.
ghost use Rattle.std.specs.Prelude.{◌≡◌, ◌≤◌, ◌++◌, OnOk, string_bytes};
ghost use Rattle.std.specs.List.{flat_map};
ghost use Rattle.tx_picture.specs.Stretches.{bar_text, box_text, lane_text, last_row, starter_text, strip_class, strip_text, torn_text};

use crate::elements::{Numbers, Shape, put_shape};
use crate::layout::{x_of, y_of};
use crate::spans::{End, Span};
use crate::steps::put_numeral;
use std::alloc::{AllocError, Global};
use tx_base::Pid;

/// Appends the stretches in which processes are members of transactions. The last row is that of
/// the schedule's last step.
pub(crate) fn put_strips(
    text: &mut String,
    columns: &[Pid],
    last: u16,
    strips: &[Span],
) -> Result<(), AllocError>
    ensures { OnOk result (string_bytes text.new
        ≡ string_bytes text.old ++ flat_map (strip_text columns.now last) strips.now) }
{
    for i in 0..strips.len() {
        put_strip(text, columns, last, &strips[i])?;
    }
    Ok(())
}

/// Appends a stretch in which a process is a member of a transaction.
fn put_strip(text: &mut String, columns: &[Pid], last: u16, strip: &Span) -> Result<(), AllocError>
    ensures { OnOk result (string_bytes text.new
        ≡ string_bytes text.old ++ strip_text columns.now last strip.now) }
{
    let x = x_of(columns, strip.process);
    put_box(text, x, last, strip)?;
    put_torn(text, x, strip.from)
}

/// Appends the numbers of the transactions' starters, each at the top of a box.
pub(crate) fn put_starters(
    alloc: Global,
    text: &mut String,
    columns: &[Pid],
    strips: &[Span],
) -> Result<(), AllocError>
    ensures { OnOk result (string_bytes text.new
        ≡ string_bytes text.old ++ flat_map (starter_text columns.now) strips.now) }
{
    for i in 0..strips.len() {
        put_starter(alloc, text, columns, &strips[i])?;
    }
    Ok(())
}

/// Appends the number of a transaction's starter, at the top of a box.
fn put_starter(
    alloc: Global,
    text: &mut String,
    columns: &[Pid],
    strip: &Span,
) -> Result<(), AllocError>
    ensures { OnOk result
        (string_bytes text.new ≡ string_bytes text.old ++ starter_text columns.now strip.now) }
{
    let x = x_of(columns, strip.process) - 20;
    let y = y_of(strip.from) - 2;
    put_numeral(alloc, text, "starter", x, y, u64::from(strip.holder.0))
}

/// Breaks the top of a box that was there before the first row.
fn put_torn(text: &mut String, x: u64, from: u16) -> Result<(), AllocError>
    requires low { 22 ≤ x }
    requires high { x ≤ 100000 }
    ensures { OnOk result
        (string_bytes text.new ≡ string_bytes text.old ++ torn_text x from) }
{
    if from != 0 {
        return Ok(());
    }
    let top = y_of(0) - 11;
    put_shape(text, Shape::Line, "torn", Numbers(x - 22, top, x + 22, top))
}

/// Appends the box of a stretch, in a column with that middle.
fn put_box(text: &mut String, x: u64, last: u16, strip: &Span) -> Result<(), AllocError>
    requires { 22 ≤ x }
    ensures { OnOk result
        (string_bytes text.new ≡ string_bytes text.old ++ box_text x last strip.now) }
{
    let first = y_of(strip.from);
    let high = y_of(last_row(last, strip.end)).saturating_sub(first) + 22;
    let numbers = Numbers(x - 22, first - 11, 44, high);
    put_shape(text, Shape::Rect, strip_class(strip.end), numbers)
}

/// How a stretch is shown that ends so.
fn strip_class(end: Option<End>) -> &'static str
    ensures { result.now ≡ strip_class end }
{
    match end {
        None => "open",
        Some(end) => { if end.aborted { "aborted" } else { "committed" } }
    }
}

/// The last row of a stretch that ends so.
pub(crate) fn last_row(last: u16, end: Option<End>) -> u16
    ensures { result ≡ last_row last end }
{
    match end {
        None => last,
        Some(end) => end.row,
    }
}

/// Appends the stretches in which processes run.
pub(crate) fn put_lanes(
    text: &mut String,
    columns: &[Pid],
    last: u16,
    lanes: &[Span],
) -> Result<(), AllocError>
    ensures { OnOk result (string_bytes text.new
        ≡ string_bytes text.old ++ flat_map (lane_text columns.now last) lanes.now) }
{
    for i in 0..lanes.len() {
        put_lane(text, columns, last, &lanes[i])?;
    }
    Ok(())
}

/// Appends a stretch in which a process runs.
fn put_lane(text: &mut String, columns: &[Pid], last: u16, lane: &Span) -> Result<(), AllocError>
    ensures { OnOk result (string_bytes text.new
        ≡ string_bytes text.old ++ lane_text columns.now last lane.now) }
{
    let x = x_of(columns, lane.process);
    let bottom = y_of(last_row(last, lane.end)) + 8;
    let numbers = Numbers(x, y_of(lane.from), x, bottom);
    put_shape(text, Shape::Line, "lane", numbers)?;
    put_bar(text, x, bottom, lane.end)
}

/// Appends the bar at the end of a stretch in which a process runs, where it has one.
fn put_bar(text: &mut String, x: u64, y: u64, end: Option<End>) -> Result<(), AllocError>
    requires low { 8 ≤ x }
    requires high { x ≤ 100000 }
    ensures { OnOk result (string_bytes text.new ≡ string_bytes text.old ++ bar_text x y end) }
{
    match end {
        None => Ok(()),
        Some(_) => put_shape(text, Shape::Line, "end", Numbers(x - 8, y, x + 8, y)),
    }
}
