//! Draws the steps of a schedule: a mark in the column of the process, what leads from it to
//! another column, and the text beside it.
ghost use Rattle.std.specs.Prelude.{◌≡◌, ◌≤◌, ◌+◌, ◌++◌, OnOk, length, string_bytes};
ghost use Rattle.std.specs.Fmt.{decimal};
ghost use Rattle.tx_picture.specs.Sheets.{page_as};
ghost use Rattle.tx_picture.specs.Steps.{anew_text, child_text, label_text, left_text, mark_text, row_text, rows_text, tied_text};
ghost use Rattle.tx_picture.specs.Svg.{words_text};

use crate::elements::{Numbers, Shape, put_shape, put_titled, put_words};
use crate::heads::put_name;
use crate::held::{Place, put_signal};
use crate::layout::{guide_left, is_wide, words_left, x_of, y_of};
use crate::rows::Row;
use crate::sheets::Sheet;
use crate::ties::{Tie, tie_of};
use crate::wording::{Wording, words_of};
use std::alloc::{AllocError, Global};
use tx_base::{Pid, Reply};
use tx_core::maker;
use tx_lines::put_count;

/// Appends the steps.
pub(crate) fn put_rows(
    alloc: Global,
    text: &mut String,
    sheet: Sheet<'_>,
    rows: &[Row],
) -> Result<(), AllocError>
    requires { length rows.now ≤ 4096 }
    ensures { OnOk result (string_bytes text.new
        ≡ string_bytes text.old ++ rows_text (page_as sheet.entry) 1 rows.now) }
{
    for i in 0..rows.len() {
        put_row(alloc, text, sheet, i as u16 + 1, &rows[i])?;
    }
    Ok(())
}

/// Appends a step.
fn put_row(
    alloc: Global,
    text: &mut String,
    sheet: Sheet<'_>,
    number: u16,
    row: &Row,
) -> Result<(), AllocError>
    ensures { OnOk result (string_bytes text.new
        ≡ string_bytes text.old ++ row_text (page_as sheet.entry) number row.now) }
{
    let columns = sheet.columns;
    let x = x_of(columns, maker(&row.step));
    let y = y_of(number);
    let guide = Numbers(guide_left(columns, x), y, words_left(columns), y);
    put_shape(text, Shape::Line, "guide", guide)?;
    put_tie(text, sheet, number, row)?;
    put_mark(text, x, y, &row.reply)?;
    put_anew(alloc, text, sheet, number, tie_of(&row.step, &row.reply))?;
    put_labels(alloc, text, sheet, number, row)
}

/// Appends what leads from a step's mark to another column.
fn put_tie(text: &mut String, sheet: Sheet<'_>, number: u16, row: &Row) -> Result<(), AllocError>
    ensures { OnOk result (string_bytes text.new
        ≡ string_bytes text.old ++ tied_text (page_as sheet.entry) number row.now) }
{
    let columns = sheet.columns;
    let x = x_of(columns, maker(&row.step));
    let y = y_of(number);
    match tie_of(&row.step, &row.reply) {
        None => Ok(()),
        Some(Tie::Holder(starter)) => {
            let to = x_of(columns, starter);
            put_shape(text, Shape::Line, "refusal", Numbers(x, y, to, y))
        }
        Some(Tie::Child(child)) => {
            let to = x_of(columns, child);
            put_shape(text, Shape::Line, "fork", Numbers(x, y, to, y))
        }
        Some(Tie::Signal(target)) => {
            let place = Place {
                x,
                y,
                to: x_of(columns, target),
            };
            put_signal(text, place, sheet.strips, sheet.last, number, row)
        }
    }
}

/// Appends the name of the child to which a tie leads, where its number was that of another
/// process.
fn put_anew(
    alloc: Global,
    text: &mut String,
    sheet: Sheet<'_>,
    number: u16,
    tie: Option<Tie>,
) -> Result<(), AllocError>
    ensures { OnOk result (string_bytes text.new
        ≡ string_bytes text.old ++ anew_text (page_as sheet.entry) number tie) }
{
    match tie {
        Some(Tie::Child(child)) => put_child(alloc, text, sheet, number, child),
        None | Some(Tie::Holder(_) | Tie::Signal(_)) => Ok(()),
    }
}

/// Appends the name of a child below its fork, where its number was that of another process.
fn put_child(
    alloc: Global,
    text: &mut String,
    sheet: Sheet<'_>,
    number: u16,
    child: Pid,
) -> Result<(), AllocError>
    ensures { OnOk result (string_bytes text.new
        ≡ string_bytes text.old ++ child_text (page_as sheet.entry) number child) }
{
    let position = usize::from(sheet.before) + usize::from(number);
    if !sheet.captions.is_anew(child, position) {
        return Ok(());
    }
    put_name(alloc, text, sheet, position, y_of(number) + 14, child)
}

/// Appends the mark of a step that was answered so.
fn put_mark(text: &mut String, x: u64, y: u64, reply: &Reply) -> Result<(), AllocError>
    ensures { OnOk result
        (string_bytes text.new ≡ string_bytes text.old ++ mark_text x y reply.now) }
{
    let class = match reply {
        Reply::No(_) => "refused",
        Reply::Done(ret) if *ret < 0 => "failed",
        _ => "accepted",
    };
    put_shape(text, Shape::Ellipse, class, Numbers(x, y, 5, 5))
}

/// Appends the number of a step, and its text.
fn put_labels(
    alloc: Global,
    text: &mut String,
    sheet: Sheet<'_>,
    number: u16,
    row: &Row,
) -> Result<(), AllocError>
    ensures { OnOk result (string_bytes text.new
        ≡ string_bytes text.old ++ label_text (page_as sheet.entry) number row.now) }
{
    let y = y_of(number) + 4;
    let step = u64::from(sheet.before) + u64::from(number);
    put_numeral(alloc, text, "number", 64, y, step)?;
    let words = words_of(alloc, sheet, number, row)?;
    put_left(text, is_wide(sheet.columns), y, &words)?;
    put_titled(text, "step", words_left(sheet.columns) + 8, y, &words)
}

/// Appends the text of a step to the left of the columns, where there are many.
fn put_left(text: &mut String, wide: bool, y: u64, words: &Wording) -> Result<(), AllocError>
    ensures { OnOk result (string_bytes text.new ≡ string_bytes text.old
        ++ left_text wide y words.now.shown.items words.now.whole.items) }
{
    if !wide {
        return Ok(());
    }
    put_titled(text, "left", 24, y, words)
}

/// Appends a number as a text.
pub(crate) fn put_numeral(
    alloc: Global,
    text: &mut String,
    class: &str,
    x: u64,
    y: u64,
    number: u64,
) -> Result<(), AllocError>
    ensures { OnOk result (string_bytes text.new
        ≡ string_bytes text.old ++ words_text class.now x y (decimal number)) }
{
    let mut numeral = String::new(alloc);
    put_count(&mut numeral, number)?;
    put_words(text, class, x, y, numeral.as_bytes())
}
