//! Reports as JSON which objects are in the way of a step.
ghost use Rattle.std.specs.Prelude.{◌≡◌, ◌++◌, OnOk, map, option_map};
ghost use Rattle.tx_journal.specs.Since.{numbered};
ghost use Rattle.tx_json.specs.Each.{each_tokens};
ghost use Rattle.tx_shell.specs.Blockers.{blocked_of};
ghost use Rattle.tx_shell.specs.Members.{blocked_tokens, blockers_members, since_members};

use crate::questions::blockers::Blocker;
use std::alloc::{AllocError, Global};
use tx_journal::Touch;
use tx_json::{LineWriter, begin_list, begin_object, end_list, end_object, put_count, put_word};

/// Appends the objects in the way of a step, where there are some.
pub fn put_blockers(
    alloc: Global,
    writer: &mut LineWriter,
    blockers: &[Blocker<'_>],
) -> Result<(), AllocError>
    ensures { OnOk result
        (writer.new ≡ writer.old ++ blockers_members (map blocked_of blockers.now)) }
{
    if blockers.is_empty() {
        return Ok(());
    }
    begin_list(writer, "blockers")?;
    put_items(alloc, writer, blockers)?;
    end_list(writer)
}

/// Appends them as items of a list.
fn put_items(
    alloc: Global,
    writer: &mut LineWriter,
    blockers: &[Blocker<'_>],
) -> Result<(), AllocError>
    ensures { OnOk result (writer.new
        ≡ writer.old ++ each_tokens blocked_tokens (map blocked_of blockers.now)) }
{
    for i in 0..blockers.len() {
        put_blocker(alloc, writer, blockers[i])?;
    }
    Ok(())
}

/// Appends an object in the way: what it is called, whose it is, and since which step.
fn put_blocker(
    alloc: Global,
    writer: &mut LineWriter,
    blocker: Blocker<'_>,
) -> Result<(), AllocError>
    ensures { OnOk result (writer.new ≡ writer.old ++ blocked_tokens (blocked_of blocker.entry)) }
{
    let name = format!(in alloc; "{}{}", blocker.kind.word(), blocker.number)?;
    begin_object(writer)?;
    put_word(writer, "object", name.as_str())?;
    put_count(writer, "holder", u64::from(blocker.owner.0))?;
    put_since(writer, blocker.since)?;
    end_object(writer)
}

/// Appends since which step, where one is found.
fn put_since(writer: &mut LineWriter, since: Option<Touch<'_>>) -> Result<(), AllocError>
    ensures { OnOk result
        (writer.new ≡ writer.old ++ since_members (option_map numbered since.entry)) }
{
    match since {
        Some(touch) => put_count(writer, "since", touch.number as u64),
        None => Ok(()),
    }
}
