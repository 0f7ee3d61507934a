//! Reports who has a side of a pipe open.
ghost use Rattle.std.specs.Prelude.{◌≡◌, ◌++◌, ◌∷◌, OnOk, string_bytes};
ghost use Rattle.tx_desc.specs.Descriptions.{end_for};
ghost use Rattle.tx_shell.specs.Holders.{holders_line, next_text, nobody_line, side_word};
ghost use Rattle.tx_shell.specs.Names.{named};
ghost use Rattle.tx_state_text.specs.Each.{each_text};

use crate::names::{Names, Suffix};
use std::alloc::AllocError;
use std::fmt::Write;
use tx_desc::Side;
use tx_json::Holder;
use tx_lines::put;

/// Appends the line of those that have a side of a pipe open.
pub fn put_holders(
    text: &mut String,
    names: Names<'_>,
    side: Side,
    holders: &[Holder],
) -> Result<(), AllocError>
    ensures { OnOk result (string_bytes text.new ≡ string_bytes text.old
        ++ holders_line (named names.entry) (end_for side) holders.now) }
{
    match holders {
        [first, others @ ..] => put_open(text, names, side, *first, others),
        [] => put_nobody(text, side),
    }
}

/// Appends that nobody has a side of a pipe open.
fn put_nobody(text: &mut String, side: Side) -> Result<(), AllocError>
    ensures { OnOk result
        (string_bytes text.new ≡ string_bytes text.old ++ nobody_line (end_for side)) }
{
    write!(text, "nobody has its {} side open\n", word(side))
}

/// Appends the line of the first that has a side of a pipe open, and of the others.
fn put_open(
    text: &mut String,
    names: Names<'_>,
    side: Side,
    first: Holder,
    others: &[Holder],
) -> Result<(), AllocError>
    ensures { OnOk result (string_bytes text.new ≡ string_bytes text.old
        ++ holders_line (named names.entry) (end_for side) (first ∷ others.now)) }
{
    write!(
        text,
        "its {} side is open: descriptor {} of process {}{}",
        word(side),
        first.descriptor,
        first.process,
        Suffix(names.of(first.process))
    )?;
    put_others(text, names, others)?;
    put(text, "\n")
}

/// Appends the others.
pub fn put_others(text: &mut String, names: Names<'_>, others: &[Holder]) -> Result<(), AllocError>
    ensures { OnOk result (string_bytes text.new ≡ string_bytes text.old
        ++ each_text (next_text (named names.entry)) others.now) }
{
    for i in 0..others.len() {
        put_other(text, names, others[i])?;
    }
    Ok(())
}

/// Appends another.
fn put_other(text: &mut String, names: Names<'_>, holder: Holder) -> Result<(), AllocError>
    ensures { OnOk result (string_bytes text.new
        ≡ string_bytes text.old ++ next_text (named names.entry) holder) }
{
    write!(
        text,
        ", {} of process {}{}",
        holder.descriptor,
        holder.process,
        Suffix(names.of(holder.process))
    )
}

/// The word for a side.
pub fn word(side: Side) -> &'static str
    ensures { result.now ≡ side_word (end_for side) }
{
    match side {
        Side::Read => "read",
        Side::Write => "write",
    }
}
