//! Writes the picture of what there is to draw.
ghost use Rattle.std.specs.Prelude.{◌≡◌, ◌≤◌, ◌++◌, IfOk, OnOk, length, string_bytes};
ghost use Rattle.tx_picture.specs.Captions.{captioned_as};
ghost use Rattle.tx_picture.specs.Drawn.{drawn_as};
ghost use Rattle.tx_picture.specs.Pictures.{between, body_text, drawn_text, inner_text, legend_text, longer, margin_of, meanings_text, moved_text};
ghost use Rattle.tx_picture.specs.Pictures.{picture_in, picture_of, point_text, seen_text, size_text, style_text, widest, width_of, words_width};
ghost use Rattle.tx_picture.specs.Sheets.{page_as};

use crate::arrows::put_passages;
use crate::captions::Captions;
use crate::columns::columns_of;
use crate::drawing::Drawing;
use crate::elements::{put_number, put_word};
use crate::heads::put_lines_of_heads;
use crate::layout::{heads_above, is_wide, words_left, y_of};
use crate::rows::Row;
use crate::sheets::Sheet;
use crate::steps::put_rows;
use crate::stretches::{put_lanes, put_starters, put_strips};
use crate::styles::{LEGEND, STYLE};
use crate::waits::put_waits;
use crate::wording::words_of;
use std::alloc::{AllocError, Global};
use tx_base::Pid;
use tx_lines::{put, put_count};

/// The picture of what there is to draw of a schedule, with what is written beside it. The only
/// error is that a growth of memory was refused.
pub(crate) fn picture_of(
    alloc: Global,
    captions: &Captions<'_>,
    drawing: &Drawing,
) -> Result<String, AllocError>
    requires { length drawing.now.rows.items ≤ 4096 }
    ensures { IfOk result (λ text. string_bytes text
        ≡ picture_of (captioned_as captions.now) (drawn_as drawing.now)) }
{
    let columns = columns_of(alloc, drawing)?;
    let sheet = Sheet {
        columns: columns.as_slice(),
        strips: drawing.strips.as_slice(),
        before: drawing.before,
        last: drawing.rows.len() as u16,
        captions,
    };
    let mut text = String::new(alloc);
    put_picture(alloc, &mut text, sheet, drawing)?;
    Ok(text)
}

/// Appends the picture, whose rows are drawn by that sheet.
fn put_picture(
    alloc: Global,
    text: &mut String,
    sheet: Sheet<'_>,
    drawing: &Drawing,
) -> Result<(), AllocError>
    requires { length drawing.now.rows.items ≤ 4096 }
    ensures { OnOk result (string_bytes text.new
        ≡ string_bytes text.old ++ picture_in (page_as sheet.entry) (drawn_as drawing.now)) }
{
    let columns = sheet.columns;
    let most = widest(alloc, sheet, drawing.rows.as_slice())?;
    put(text, "<svg")?;
    put_size(text, width_of(columns, most), y_of(sheet.last) + 88)?;
    put(text, ">")?;
    put_inner(alloc, text, sheet, margin_of(columns, most), drawing)?;
    put(text, "</svg>\n")
}

/// Appends the attributes of the whole.
#[tactic(auto, unfolding(crate::specs::Pictures::size_text))]
fn put_size(text: &mut String, width: u64, height: u64) -> Result<(), AllocError>
    ensures { OnOk result
        (string_bytes text.new ≡ string_bytes text.old ++ size_text width height) }
{
    put_word(text, "xmlns", "http://www.w3.org/2000/svg")?;
    put_number(text, "width", width)?;
    put_number(text, "height", height)?;
    put_seen(text, width, height)
}

/// Appends the attribute that says what is seen of the picture: all of it.
#[tactic(auto, unfolding(crate::specs::Pictures::seen_text))]
fn put_seen(text: &mut String, width: u64, height: u64) -> Result<(), AllocError>
    ensures { OnOk result
        (string_bytes text.new ≡ string_bytes text.old ++ seen_text width height) }
{
    put(text, " viewBox=\"")?;
    put_between(text, "0 0 ", width, " ")?;
    put_count(text, height)?;
    put(text, "\"")
}

/// Appends a number between two texts.
#[tactic(auto, unfolding(crate::specs::Pictures::between))]
fn put_between(text: &mut String, front: &str, number: u64, back: &str) -> Result<(), AllocError>
    ensures { OnOk result (string_bytes text.new
        ≡ string_bytes text.old ++ between front.now number back.now) }
{
    put(text, front)?;
    put_count(text, number)?;
    put(text, back)
}

/// Appends what the picture has in it.
fn put_inner(
    alloc: Global,
    text: &mut String,
    sheet: Sheet<'_>,
    margin: u64,
    drawing: &Drawing,
) -> Result<(), AllocError>
    requires { length drawing.now.rows.items ≤ 4096 }
    ensures { OnOk result (string_bytes text.new
        ≡ string_bytes text.old ++ inner_text (page_as sheet.entry) margin (drawn_as drawing.now)) }
{
    put_style(text)?;
    put_body(alloc, text, sheet, margin, drawing)?;
    put_legend(text, y_of(sheet.last) + 32)
}

/// Appends what there is to draw, and the numbers of the processes in front of it, moved to the
/// right.
#[tactic(auto, unfolding(crate::specs::Pictures::body_text))]
fn put_body(
    alloc: Global,
    text: &mut String,
    sheet: Sheet<'_>,
    margin: u64,
    drawing: &Drawing,
) -> Result<(), AllocError>
    requires { length drawing.now.rows.items ≤ 4096 }
    ensures { OnOk result (string_bytes text.new
        ≡ string_bytes text.old ++ body_text (page_as sheet.entry) margin (drawn_as drawing.now)) }
{
    put(text, "<g")?;
    put_moved(text, margin, 0)?;
    put(text, ">")?;
    put_drawn(alloc, text, sheet, drawing)?;
    put_lines_of_heads(alloc, text, sheet, heads_above(sheet.last) + 1)?;
    put(text, "</g>\n")
}

/// Appends what there is to draw: the boxes of transactions behind all else, then the processes,
/// what goes through pipes, who could end waits, and the steps, and in front of them the numbers of
/// the boxes.
#[tactic(auto, unfolding(crate::specs::Pictures::drawn_text))]
fn put_drawn(
    alloc: Global,
    text: &mut String,
    sheet: Sheet<'_>,
    drawing: &Drawing,
) -> Result<(), AllocError>
    requires { length drawing.now.rows.items ≤ 4096 }
    ensures { OnOk result (string_bytes text.new
        ≡ string_bytes text.old ++ drawn_text (page_as sheet.entry) (drawn_as drawing.now)) }
{
    let columns = sheet.columns;
    put_strips(text, columns, sheet.last, sheet.strips)?;
    put_lanes(text, columns, sheet.last, drawing.lanes.as_slice())?;
    put_passages(alloc, text, columns, drawing.passages.as_slice())?;
    put_waits(text, columns, drawing.waits.as_slice())?;
    put_rows(alloc, text, sheet, drawing.rows.as_slice())?;
    put_starters(alloc, text, columns, sheet.strips)
}

/// Appends the styles.
#[tactic(auto, unfolding(crate::specs::Pictures::style_text))]
fn put_style(text: &mut String) -> Result<(), AllocError>
    ensures { OnOk result (string_bytes text.new ≡ string_bytes text.old ++ style_text) }
{
    put(text, STYLE)
}

/// Appends the parts of the legend.
#[tactic(auto, unfolding(crate::specs::Pictures::meanings_text))]
fn put_meanings(text: &mut String) -> Result<(), AllocError>
    ensures { OnOk result (string_bytes text.new ≡ string_bytes text.old ++ meanings_text) }
{
    put(text, LEGEND)
}

/// Appends the attribute that says to where it is moved.
#[tactic(auto, unfolding(crate::specs::Pictures::moved_text))]
fn put_moved(text: &mut String, x: u64, y: u64) -> Result<(), AllocError>
    ensures { OnOk result (string_bytes text.new ≡ string_bytes text.old ++ moved_text x y) }
{
    put(text, " transform=\"")?;
    put_point(text, x, y)?;
    put(text, "\"")
}

/// Appends a place to which something is moved.
#[tactic(auto, unfolding(crate::specs::Pictures::point_text))]
fn put_point(text: &mut String, x: u64, y: u64) -> Result<(), AllocError>
    ensures { OnOk result (string_bytes text.new ≡ string_bytes text.old ++ point_text x y) }
{
    put_between(text, "translate(", x, ",")?;
    put_between(text, "", y, ")")
}

/// Appends what the boxes, the marks and the arrows mean.
#[tactic(auto, unfolding(crate::specs::Pictures::legend_text))]
fn put_legend(text: &mut String, y: u64) -> Result<(), AllocError>
    ensures { OnOk result (string_bytes text.new ≡ string_bytes text.old ++ legend_text y) }
{
    put(text, "<g")?;
    put_moved(text, 72, y)?;
    put(text, ">")?;
    put_meanings(text)?;
    put(text, "</g>\n")
}

/// How wide the picture is: the legend has room in each.
fn width_of(columns: &[Pid], most: u64) -> u64
    ensures { result ≡ width_of columns.now most }
{
    let right = words_left(columns) + words_width(most) + 24;
    longer(480, margin_of(columns, most) + right)
}

/// How far what is drawn is moved to the right, for the texts to its left.
fn margin_of(columns: &[Pid], most: u64) -> u64
    ensures { result ≡ margin_of columns.now most }
{
    if is_wide(columns) {
        words_width(most)
    } else {
        0
    }
}

/// How wide the texts are, of which the longest has so many characters.
fn words_width(most: u64) -> u64
    ensures { result ≡ words_width most }
{
    8 * most.min(2000)
}

/// How many characters the longest text of a step has.
fn widest(alloc: Global, sheet: Sheet<'_>, rows: &[Row]) -> Result<u64, AllocError>
    requires { length rows.now ≤ 4096 }
    ensures { IfOk result (λ most. most ≡ widest (page_as sheet.entry) 1 0 rows.now) }
{
    let mut most = 0;
    for i in 0..rows.len() {
        let words = words_of(alloc, sheet, i as u16 + 1, &rows[i])?;
        most = longer(most, words.width());
    }
    Ok(most)
}

/// The greater number.
fn longer(a: u64, b: u64) -> u64
    ensures { result ≡ longer a b }
{
    if a < b { b } else { a }
}
