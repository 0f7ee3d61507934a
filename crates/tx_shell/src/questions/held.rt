//! Reports who has a pipe or a description open.
ghost use Rattle.std.specs.Prelude.{◌≡◌, ◌++◌, ◌∷◌, IfOk, OnOk, Some, is_some, option_map, string_bytes};
ghost use Rattle.tx_desc.specs.Descriptions.{described};
ghost use Rattle.tx_model.specs.View.{present};
ghost use Rattle.tx_shell.specs.Held.{desc_held, desc_text, held_desc, held_pipe, named_text, pipe_held, pipe_text};
ghost use Rattle.tx_waits.specs.Holders.{holders_by, is_sought};
ghost use Rattle.tx_shell.specs.Names.{named};
ghost use Rattle.tx_shell.specs.Places.{view_at};

use crate::names::{Names, Suffix};
use crate::questions::holders::{put_holders, put_others, word};
use std::alloc::{AllocError, Global};
use std::fmt::Write;
use tx_base::{DescNo, NoMemory, PipeNo};
use tx_desc::{Opened, Side};
use tx_journal::Session;
use tx_json::Holder;
use tx_lines::put;
use tx_waits::{Sought, add_holders};

/// Who has the sides of a pipe open, by rising processes and descriptors.
#[derive(Drop)]
pub struct PipeHolders {
    pub readers: Vec<Holder>,
    pub writers: Vec<Holder>,
}

/// Of which pipe a description is which side, and who has it open, by rising processes and
/// descriptors.
#[derive(Drop)]
pub struct DescHolders {
    pub pipe: PipeNo,
    pub side: Side,
    pub holders: Vec<Holder>,
}

/// Who has a pipe open at the position. Nothing where there is no such pipe.
///
/// NoMemory where a growth is refused.
pub fn pipe_holders(
    alloc: Global,
    session: &Session,
    number: PipeNo,
) -> Result<Option<PipeHolders>, NoMemory>
    ensures { IfOk result (λ found. option_map pipe_held found
        ≡ held_pipe (present (view_at session.now)) number.0) }
{
    if !has_pipe(session, number) {
        return Ok(None);
    }
    let number = u16::from(number.0);
    Ok(Some(PipeHolders {
        readers: holders_of(alloc, session, Sought::End(Side::Read, number))?,
        writers: holders_of(alloc, session, Sought::End(Side::Write, number))?,
    }))
}

/// Who has a description open at the position. Nothing where there is no such description.
///
/// NoMemory where a growth is refused.
pub fn desc_holders(
    alloc: Global,
    session: &Session,
    number: DescNo,
) -> Result<Option<DescHolders>, NoMemory>
    ensures { IfOk result (λ found. option_map desc_held found
        ≡ held_desc (present (view_at session.now)) number.0) }
{
    let Some(opened) = opened_at(session, number) else {
        return Ok(None);
    };
    Ok(Some(DescHolders {
        pipe: opened.desc.pipe,
        side: opened.desc.side,
        holders: holders_of(alloc, session, Sought::Desc(number))?,
    }))
}

/// Whether there is a pipe of a number at the position.
fn has_pipe(session: &Session, number: PipeNo) -> bool
    ensures { result ≡ is_some ((present (view_at session.now)).pipes number.0) }
{
    session.machine().parts().pipes.get(number).is_some()
}

/// The description of a number at the position. Nothing where there is none.
fn opened_at(session: &Session, number: DescNo) -> Option<Opened>
    ensures { described result ≡ (present (view_at session.now)).descs number.0 }
{
    session.machine().parts().descs.get(number)
}

/// Each descriptor that names what is sought.
fn holders_of(alloc: Global, session: &Session, sought: Sought) -> Result<Vec<Holder>, AllocError>
    ensures { IfOk result (λ found. found.items
        ≡ holders_by (is_sought (present (view_at session.now)) sought)
        (present (view_at session.now))) }
{
    let mut found = Vec::new(alloc);
    add_holders(&mut found, session.machine(), sought)?;
    Ok(found)
}

/// The lines of who has a pipe open.
///
/// NoMemory where a growth is refused.
pub fn report_pipe(
    alloc: Global,
    names: Names<'_>,
    found: &Option<PipeHolders>,
) -> Result<String, NoMemory>
    ensures { IfOk result (λ text.
        string_bytes text ≡ pipe_text (named names.entry) (option_map pipe_held found.now)) }
{
    let mut text = String::new(alloc);
    match found {
        Some(found) => {
            put_holders(&mut text, names, Side::Read, found.readers.as_slice())?;
            put_holders(&mut text, names, Side::Write, found.writers.as_slice())?;
        }
        None => put(&mut text, "no pipe\n")?,
    }
    Ok(text)
}

/// The line of who has a description open.
///
/// NoMemory where a growth is refused.
pub fn report_desc(
    alloc: Global,
    names: Names<'_>,
    found: &Option<DescHolders>,
) -> Result<String, NoMemory>
    ensures { IfOk result (λ text.
        string_bytes text ≡ desc_text (named names.entry) (option_map desc_held found.now)) }
{
    let mut text = String::new(alloc);
    match found {
        Some(found) => put_desc(&mut text, names, found)?,
        None => put(&mut text, "no description\n")?,
    }
    Ok(text)
}

/// Appends which side of which pipe a description is, and who has it open.
fn put_desc(text: &mut String, names: Names<'_>, found: &DescHolders) -> Result<(), AllocError>
    ensures { OnOk result (string_bytes text.new
        ≡ string_bytes text.old ++ desc_text (named names.entry) (Some (desc_held found.now))) }
{
    write!(
        text,
        "it is the {} side of pipe {}: ",
        word(found.side),
        found.pipe.0
    )?;
    put_named(text, names, found.holders.as_slice())?;
    put(text, "\n")
}

/// Appends descriptors, or that there are none.
fn put_named(text: &mut String, names: Names<'_>, holders: &[Holder]) -> Result<(), AllocError>
    ensures { OnOk result
        (string_bytes text.new
        ≡ string_bytes text.old ++ named_text (named names.entry) holders.now) }
{
    match holders {
        [first, others @ ..] => put_listed(text, names, *first, others),
        [] => put(text, "nobody has it open"),
    }
}

/// Appends the first descriptor, and the others.
fn put_listed(
    text: &mut String,
    names: Names<'_>,
    first: Holder,
    others: &[Holder],
) -> Result<(), AllocError>
    ensures { OnOk result (string_bytes text.new
        ≡ string_bytes text.old ++ named_text (named names.entry) (first ∷ others.now)) }
{
    write!(
        text,
        "descriptor {} of process {}{}",
        first.descriptor,
        first.process,
        Suffix(names.of(first.process))
    )?;
    put_others(text, names, others)
}
