//! Prints lists of numbers.
ghost use Rattle.std.specs.Fmt.{decimal};
ghost use Rattle.std.specs.Prelude.{◌≡◌, ◌++◌, ◌∷◌, OnOk, string_bytes};
ghost use Rattle.tx_lines.specs.Lists.{list_text};

use crate::print::words::{put, put_count};
use std::alloc::AllocError;
use std::fmt::Write;

/// Appends numbers, joined by commas; `-` where there are none.
pub fn put_numbers(text: &mut String, numbers: &[usize]) -> Result<(), AllocError>
    ensures { OnOk result (string_bytes text.new ≡ string_bytes text.old ++ list_text numbers.now) }
{
    let Some((first, others)) = numbers.split_first() else {
        return put(text, "-");
    };
    put_count(text, *first as u64)?;
    for number in others {
        put_more(text, *number)?;
    }
    Ok(())
}

/// Appends a number that is not the first of a list.
fn put_more(text: &mut String, number: usize) -> Result<(), AllocError>
    ensures { OnOk result (string_bytes text.new ≡ string_bytes text.old ++ 44 ∷ decimal number) }
{
    write!(text, ",{number}")
}
