//! Finds which objects are in the way of a step, who has them, and since when.
ghost use Rattle.std.specs.Prelude.{◌≡◌, ◌++◌, ◌<◌, IfOk, OnOk, map, option_map, string_bytes};
ghost use Rattle.tx_core.specs.Owners.{other_owner};
ghost use Rattle.tx_journal.specs.Entries.{history_of};
ghost use Rattle.tx_journal.specs.Sessions.{made_of, start_of};
ghost use Rattle.tx_journal.specs.Since.{numbered};
ghost use Rattle.tx_model.specs.Events.{process_of};
ghost use Rattle.tx_model.specs.Footprints.{footprint};
ghost use Rattle.tx_model.specs.View.{present};
ghost use Rattle.tx_reserve.specs.Footprints.{IsSetOf};
ghost use Rattle.tx_reserve.specs.Objects.{object_of};
ghost use Rattle.tx_reserve.specs.Reservations.{number_of};
ghost use Rattle.tx_shell.specs.Blockers.{blocked, blocked_at, blocked_in, blocked_of};
ghost use Rattle.tx_waits.specs.Kinds.{limit_of};
ghost use Rattle.tx_shell.specs.Names.{named};
ghost use Rattle.tx_shell.specs.Places.{view_at};
ghost use Rattle.tx_shell.specs.Reasons.{blocked_line, since_text};
ghost use Rattle.tx_state_text.specs.Each.{each_text};

use crate::names::{Names, Suffix, put_step_made};
use std::alloc::{AllocError, Global};
use std::fmt::Write;
use tx_base::{Pid, Step};
use tx_journal::{Session, Touch};
use tx_lines::put;
use tx_reserve::{Object, Objects};
use tx_waits::Kind;

/// An object that a step names, and that is reserved by a live transaction of which its process is
/// no member.
#[derive(Clone, Copy)]
pub struct Blocker<'a> {
    pub kind: Kind,
    pub number: u16,
    /// The starter of that transaction.
    pub owner: Pid,
    /// The first step since which it has the object.
    pub since: Option<Touch<'a>>,
}

/// The objects in the way of a step, by kinds and rising numbers.
pub fn blockers<'a>(
    alloc: Global,
    session: &'a Session,
    step: &Step,
) -> Result<Vec<Blocker<'a>>, AllocError>
    ensures { IfOk result (λ found. map blocked_of found.items
        ≡ blocked (start_of session.now) (history_of (made_of session.now)) step.now) }
{
    let names = names(session, step);
    let mut found = Vec::new(alloc);
    add_kind(&mut found, session, step, &names, Kind::Processes)?;
    add_kind(&mut found, session, step, &names, Kind::Descriptions)?;
    add_kind(&mut found, session, step, &names, Kind::Pipes)?;
    Ok(found)
}

/// Appends the objects of a kind that are in the way.
fn add_kind<'a>(
    found: &mut Vec<Blocker<'a>>,
    session: &'a Session,
    step: &Step,
    names: &Objects,
    kind: Kind,
) -> Result<(), AllocError>
    requires { IsSetOf names.now (footprint (view_at session.now).table step.now
        (present (view_at session.now))) }
    ensures { OnOk result (map blocked_of found.new.items ≡ map blocked_of found.old.items
        ++ blocked_in (start_of session.now) (history_of (made_of session.now)) step.now kind) }
{
    for number in 0..kind.limit() {
        add_object(found, session, step, names, kind, number)?;
    }
    Ok(())
}

/// Appends the object of a kind and a number, where it is in the way.
fn add_object<'a>(
    found: &mut Vec<Blocker<'a>>,
    session: &'a Session,
    step: &Step,
    names: &Objects,
    kind: Kind,
    number: u16,
) -> Result<(), AllocError>
    requires number { number < limit_of kind }
    requires names { IsSetOf names.now (footprint (view_at session.now).table step.now
        (present (view_at session.now))) }
    ensures { OnOk result (map blocked_of found.new.items ≡ map blocked_of found.old.items
        ++ blocked_at (start_of session.now) (history_of (made_of session.now)) step.now kind
        number) }
{
    let object = kind.object(number);
    if !names.has(object) {
        return Ok(());
    }
    if let Some(owner) = other_owner(session, step, object) {
        found.push(Blocker {
            kind,
            number,
            owner,
            since: session.first_touch(owner, object),
        })?;
    }
    Ok(())
}

/// Appends the lines of objects in the way.
pub fn put_objects(
    text: &mut String,
    names: Names<'_>,
    blockers: &[Blocker<'_>],
) -> Result<(), AllocError>
    ensures { OnOk result (string_bytes text.new ≡ string_bytes text.old
        ++ each_text (blocked_line (named names.entry)) (map blocked_of blockers.now)) }
{
    for i in 0..blockers.len() {
        put_object(text, names, blockers[i])?;
    }
    Ok(())
}

/// Appends the line of an object in the way: whose it is, and since which step, where one is found.
fn put_object(text: &mut String, names: Names<'_>, blocker: Blocker<'_>) -> Result<(), AllocError>
    ensures { OnOk result (string_bytes text.new
        ≡ string_bytes text.old ++ blocked_line (named names.entry) (blocked_of blocker.entry)) }
{
    write!(
        text,
        "{}{}{}: the transaction of {}{} has it",
        blocker.kind.word(),
        blocker.number,
        Suffix(names.of_object(blocker.kind, blocker.number)),
        blocker.owner.0,
        Suffix(names.of(blocker.owner.0))
    )?;
    put_since(text, names, blocker.since)?;
    put(text, "\n")
}

/// Appends since which step that is so, where one is found.
fn put_since(
    text: &mut String,
    names: Names<'_>,
    since: Option<Touch<'_>>,
) -> Result<(), AllocError>
    ensures { OnOk result (string_bytes text.new
        ≡ string_bytes text.old
        ++ since_text (named names.entry) (option_map numbered since.entry)) }
{
    match since {
        Some(touch) => {
            write!(text, " since step {}: ", touch.number)?;
            put_step_made(text, names, touch.step)
        }
        None => Ok(()),
    }
}

/// The objects that a step names at the position.
pub fn names(session: &Session, step: &Step) -> Objects
    ensures { IsSetOf result (footprint (view_at session.now).table step.now
        (present (view_at session.now))) }
{
    session.machine().footprint(step)
}

/// The starter of the live transaction that has reserved the object, and of which the process of
/// the step is no member, if there is one.
fn other_owner(session: &Session, step: &Step, object: Object) -> Option<Pid>
    ensures { option_map number_of result
        ≡ other_owner (view_at session.now) (process_of step.now) (object_of object) }
{
    session.machine().other_owner(step, object)
}
