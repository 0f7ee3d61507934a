//! Reports what live transactions have reserved.
ghost use Rattle.std.specs.Prelude.{◌≡◌, ◌++◌, IfOk, OnOk, string_bytes};
ghost use Rattle.tx_lines.specs.Lists.{some_after};
ghost use Rattle.tx_content.specs.Content.{view_of};
ghost use Rattle.tx_shell.specs.Names.{named};
ghost use Rattle.tx_shell.specs.Owners.{member_said, number_said, or_no_transaction, owned_text, owner_line, owner_lines};
ghost use Rattle.tx_shell.specs.Places.{view_at};

use crate::names::{Names, Suffix};
use std::alloc::{AllocError, Global};
use std::fmt::Write;
use tx_base::{NoMemory, Pid};
use tx_core::Machine;
use tx_journal::Session;
use tx_lines::{dash, put};
use tx_waits::Kind;

/// What each live transaction has reserved at the position, a line a transaction, by rising
/// starters.
///
/// NoMemory where a growth is refused.
pub fn list_owners(alloc: Global, session: &Session, names: Names<'_>) -> Result<String, NoMemory>
    ensures { IfOk result (λ text. string_bytes text
        ≡ or_no_transaction (owner_lines (named names.entry) (view_at session.now))) }
{
    let mut text = String::new(alloc);
    put_owners(&mut text, names, session.machine())?;
    or_no_transaction(alloc, text)
}

/// What the live transaction that a process began has reserved at the position.
///
/// NoMemory where a growth is refused.
pub fn list_owner(
    alloc: Global,
    session: &Session,
    names: Names<'_>,
    starter: u16,
) -> Result<String, NoMemory>
    ensures { IfOk result (λ text. string_bytes text
        ≡ or_no_transaction (owner_line (named names.entry) (view_at session.now) starter)) }
{
    let mut text = String::new(alloc);
    put_owner(&mut text, names, session.machine(), Pid(starter))?;
    or_no_transaction(alloc, text)
}

/// The lines, or that no transaction is live where there is none.
fn or_no_transaction(alloc: Global, lines: String) -> Result<String, NoMemory>
    ensures { IfOk result (λ text. string_bytes text ≡ or_no_transaction (string_bytes lines)) }
{
    if lines.is_empty() {
        return Ok("no transaction\n".to_string(alloc)?);
    }
    Ok(lines)
}

/// Appends the line of each live transaction, by rising starters.
fn put_owners(text: &mut String, names: Names<'_>, machine: &Machine) -> Result<(), AllocError>
    ensures { OnOk result (string_bytes text.new
        ≡ string_bytes text.old ++ owner_lines (named names.entry) (view_of machine.now)) }
{
    for done in 0..machine.processes() {
        put_owner(text, names, machine, Pid(done + 1))?;
    }
    Ok(())
}

/// Appends the line of the live transaction that a process began: nothing where there is none.
fn put_owner(
    text: &mut String,
    names: Names<'_>,
    machine: &Machine,
    starter: Pid,
) -> Result<(), AllocError>
    ensures { OnOk result (string_bytes text.new
        ≡ string_bytes text.old ++ owner_line (named names.entry) (view_of machine.now) starter.0) }
{
    if !machine.is_live(starter) {
        return Ok(());
    }
    write!(text, "owns {}{}", starter.0, Suffix(names.of(starter.0)))?;
    put_owned(text, names, machine, starter, Kind::Processes)?;
    put_owned(text, names, machine, starter, Kind::Descriptions)?;
    put_owned(text, names, machine, starter, Kind::Pipes)?;
    put(text, "\n")
}

/// Appends the numbers of a kind that the transaction of a starter has reserved, in rising order,
/// after the word for the kind.
fn put_owned(
    text: &mut String,
    names: Names<'_>,
    machine: &Machine,
    starter: Pid,
    kind: Kind,
) -> Result<(), AllocError>
    ensures { OnOk result (string_bytes text.new
        ≡ string_bytes text.old
        ++ owned_text (named names.entry) (view_of machine.now) starter.0 kind) }
{
    write!(text, " {}", kind.word())?;
    let mut some = false;
    for number in 0..kind.limit() {
        let listed = machine.has_reserved(starter, kind.object(number));
        some = put_number(text, names, kind, some, listed, number)?;
    }
    put(text, dash(some))
}

/// Appends a number of a kind where it is listed, after a comma where it is not the first, and the
/// name of a process after its number. Answers whether there is one so far.
fn put_number(
    text: &mut String,
    names: Names<'_>,
    kind: Kind,
    some: bool,
    listed: bool,
    number: u16,
) -> Result<bool, AllocError>
    ensures text { OnOk result (string_bytes text.new ≡ string_bytes text.old
        ++ member_said some listed (number_said (named names.entry) kind number)) }
    ensures some { IfOk result (λ after. after ≡ some_after some listed) }
{
    if !listed {
        return Ok(some);
    }
    if some {
        put(text, ",")?;
    }
    write!(text, "{number}{}", Suffix(names.of_object(kind, number)))?;
    Ok(true)
}
