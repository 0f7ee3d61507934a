//! Reports as JSON what live transactions have reserved, and what would be without one.
ghost use Rattle.std.specs.Prelude.{◌≡◌, ◌++◌, ◌<◌, OnOk};
ghost use Rattle.tx_content.specs.Content.{view_of};
ghost use Rattle.tx_waits.specs.Kinds.{limit_of};
ghost use Rattle.tx_shell.specs.Members.{listed_item, owned_member, owner_item, owner_member, owners_member};
ghost use Rattle.tx_shell.specs.Owners.{owns_one};

use std::alloc::AllocError;
use tx_base::Pid;
use tx_core::Machine;
use tx_json::{
    LineWriter, begin_list, begin_object, end_list, end_object, put_count, put_count_item,
};
use tx_waits::Kind;

/// Appends each live transaction, by rising starters.
pub fn put_owners(writer: &mut LineWriter, machine: &Machine) -> Result<(), AllocError>
    ensures { OnOk result
        (writer.new ≡ writer.old ++ owners_member (view_of machine.now)) }
{
    begin_list(writer, "owners")?;
    for done in 0..machine.processes() {
        put_owner(writer, machine, Pid(done + 1))?;
    }
    end_list(writer)
}

/// Appends the live transaction that a process began, as a list.
pub fn put_owner_alone(
    writer: &mut LineWriter,
    machine: &Machine,
    starter: Pid,
) -> Result<(), AllocError>
    ensures { OnOk result
        (writer.new ≡ writer.old ++ owner_member (view_of machine.now) starter.0) }
{
    begin_list(writer, "owners")?;
    put_owner(writer, machine, starter)?;
    end_list(writer)
}

/// Appends the live transaction that a process began: nothing where there is none.
fn put_owner(writer: &mut LineWriter, machine: &Machine, starter: Pid) -> Result<(), AllocError>
    ensures { OnOk result
        (writer.new ≡ writer.old ++ owner_item (view_of machine.now) starter.0) }
{
    if !machine.is_live(starter) {
        return Ok(());
    }
    begin_object(writer)?;
    put_count(writer, "starter", u64::from(starter.0))?;
    put_owned(writer, machine, starter, Kind::Processes)?;
    put_owned(writer, machine, starter, Kind::Descriptions)?;
    put_owned(writer, machine, starter, Kind::Pipes)?;
    end_object(writer)
}

/// Appends the numbers of a kind that the transaction of a starter has reserved, rising.
fn put_owned(
    writer: &mut LineWriter,
    machine: &Machine,
    starter: Pid,
    kind: Kind,
) -> Result<(), AllocError>
    ensures { OnOk result
        (writer.new ≡ writer.old ++ owned_member (view_of machine.now) starter.0 kind) }
{
    begin_list(writer, kind.list())?;
    for number in 0..kind.limit() {
        put_number(writer, machine, starter, kind, number)?;
    }
    end_list(writer)
}

/// Appends a number of a kind, where the transaction of a starter has reserved it.
fn put_number(
    writer: &mut LineWriter,
    machine: &Machine,
    starter: Pid,
    kind: Kind,
    number: u16,
) -> Result<(), AllocError>
    requires { number < limit_of kind }
    ensures { OnOk result (writer.new ≡ writer.old
        ++ listed_item (owns_one (view_of machine.now) starter.0 kind) number) }
{
    if machine.has_reserved(starter, kind.object(number)) {
        return put_count_item(writer, u64::from(number));
    }
    Ok(())
}
