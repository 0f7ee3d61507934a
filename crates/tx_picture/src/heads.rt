//! Writes the numbers of the processes above their columns, and their names.
ghost use Rattle.std.specs.Prelude.{◌≡◌, ◌+◌, ◌++◌, OnOk, option_map, string_bytes};
ghost use Rattle.std.specs.List.{flat_map};
ghost use Rattle.tx_picture.specs.Heads.{head_text, heads_text, heads_upto, name_text, named_text};
ghost use Rattle.tx_picture.specs.Sheets.{page_as};

use crate::elements::{put_titled, put_words};
use crate::layout::{heads_y, x_of};
use crate::sheets::Sheet;
use crate::steps::put_numeral;
use crate::wording::Wording;
use std::alloc::{AllocError, Global};
use tx_base::Pid;

/// How many bytes of a name are shown.
const NAME_BYTES: usize = 8;

/// Appends so many lines of the numbers of the processes, one above each 40 rows.
pub(crate) fn put_lines_of_heads(
    alloc: Global,
    text: &mut String,
    sheet: Sheet<'_>,
    count: u16,
) -> Result<(), AllocError>
    ensures { OnOk result (string_bytes text.new
        ≡ string_bytes text.old ++ heads_upto (page_as sheet.entry) count) }
{
    for line in 0..count {
        put_line_of_heads(alloc, text, sheet, line)?;
    }
    Ok(())
}

/// Appends a line of the numbers of the processes, each in its column, with what they are.
fn put_line_of_heads(
    alloc: Global,
    text: &mut String,
    sheet: Sheet<'_>,
    line: u16,
) -> Result<(), AllocError>
    ensures { OnOk result (string_bytes text.new
        ≡ string_bytes text.old ++ heads_text (page_as sheet.entry) line) }
{
    put_words(text, "number", 64, heads_y(line), b"process")?;
    put_heads(alloc, text, sheet, line)
}

/// Appends the numbers of the processes, each in its column.
fn put_heads(
    alloc: Global,
    text: &mut String,
    sheet: Sheet<'_>,
    line: u16,
) -> Result<(), AllocError>
    ensures { OnOk result (string_bytes text.new ≡ string_bytes text.old
        ++ flat_map (head_text (page_as sheet.entry) line) sheet.entry.columns.now) }
{
    for i in 0..sheet.columns.len() {
        put_head(alloc, text, sheet, line, sheet.columns[i])?;
    }
    Ok(())
}

/// Appends the number of a process, in its column, and the name that it has there.
fn put_head(
    alloc: Global,
    text: &mut String,
    sheet: Sheet<'_>,
    line: u16,
    process: Pid,
) -> Result<(), AllocError>
    ensures { OnOk result (string_bytes text.new
        ≡ string_bytes text.old ++ head_text (page_as sheet.entry) line process) }
{
    let x = x_of(sheet.columns, process);
    let y = heads_y(line);
    put_numeral(alloc, text, "head", x, y, u64::from(process.0))?;
    let position = usize::from(sheet.before) + 40 * usize::from(line);
    put_name(alloc, text, sheet, position, y + 10, process)
}

/// Appends the name of the process of a number that is there after so many steps, in its column.
pub(crate) fn put_name(
    alloc: Global,
    text: &mut String,
    sheet: Sheet<'_>,
    position: usize,
    y: u64,
    process: Pid,
) -> Result<(), AllocError>
    ensures { OnOk result (string_bytes text.new
        ≡ string_bytes text.old ++ name_text (page_as sheet.entry) position y process) }
{
    let name = sheet.captions.name_of(process, position);
    put_named(alloc, text, x_of(sheet.columns, process), y, name)
}

/// Appends a name, where there is one.
fn put_named(
    alloc: Global,
    text: &mut String,
    x: u64,
    y: u64,
    name: Option<&[u8]>,
) -> Result<(), AllocError>
    ensures { OnOk result (string_bytes text.new ≡ string_bytes text.old
        ++ named_text x y (option_map (λ name. name.now) name.entry)) }
{
    let Some(name) = name else {
        return Ok(());
    };
    let mut words = Wording::new(alloc);
    words.add_word(name, NAME_BYTES)?;
    put_titled(text, "name", x, y, &words)
}
