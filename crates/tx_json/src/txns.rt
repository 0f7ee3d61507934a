//! Appends a live transaction.
ghost use Rattle.std.specs.Prelude.{◌≡◌, ◌++◌, OnOk, false, map, true};
ghost use Rattle.tx_base.specs.Slots.{slot_at};
ghost use Rattle.tx_json.specs.Each.{each_tokens};
ghost use Rattle.tx_json.specs.Txns.{held_item, held_list, member_item, members_list, txn_item, txn_lists};
ghost use Rattle.tx_kernel.specs.Plans.{sending_of};

use crate::line::LineWriter;
use crate::lists::put_count_item;
use crate::members::{
    begin_list, begin_object, end_list, end_object, put_count, put_flag, put_number,
};
use std::alloc::AllocError;
use tx_base::{Mark, Pid, Sending, Slots};
use tx_state_text::is_listed;

/// Appends a live transaction, with what it holds.
pub fn put_txn(
    writer: &mut LineWriter,
    marks: &Slots<Mark>,
    width: u16,
    starter: Pid,
    defers: bool,
    sendings: &[Sending],
) -> Result<(), AllocError>
    ensures { OnOk result (writer.new ≡ writer.old
        ++ txn_item width (slot_at marks.now) starter.0 defers (map sending_of sendings.now)) }
{
    begin_object(writer)?;
    put_count(writer, "txn", u64::from(starter.0))?;
    put_flag(writer, "defers", defers)?;
    put_lists(writer, marks, width, starter, sendings)?;
    end_object(writer)
}

/// Appends a transaction's members, and what it holds.
fn put_lists(
    writer: &mut LineWriter,
    marks: &Slots<Mark>,
    width: u16,
    starter: Pid,
    sendings: &[Sending],
) -> Result<(), AllocError>
    ensures { OnOk result (writer.new ≡ writer.old
        ++ txn_lists width (slot_at marks.now) starter.0 (map sending_of sendings.now)) }
{
    put_members(writer, "open", marks, width, starter, false)?;
    put_members(writer, "ended", marks, width, starter, true)?;
    put_held(writer, sendings)
}

/// Appends the members of a starter's transaction that have ended their part, or those that have
/// not, by rising number.
fn put_members(
    writer: &mut LineWriter,
    name: &str,
    marks: &Slots<Mark>,
    width: u16,
    starter: Pid,
    ended: bool,
) -> Result<(), AllocError>
    ensures { OnOk result (writer.new ≡ writer.old
        ++ members_list name.now width (slot_at marks.now) starter.0 ended) }
{
    begin_list(writer, name)?;
    for done in 0..width {
        put_member(writer, marks, Pid(done + 1), starter, ended)?;
    }
    end_list(writer)
}

/// Appends a member, where its mark is one of that transaction and its part has ended or not.
fn put_member(
    writer: &mut LineWriter,
    marks: &Slots<Mark>,
    pid: Pid,
    starter: Pid,
    ended: bool,
) -> Result<(), AllocError>
    ensures { OnOk result (writer.new ≡ writer.old
        ++ member_item (slot_at marks.now) starter.0 ended pid.0) }
{
    if is_listed(marks.get(pid), starter, ended) {
        return put_count_item(writer, u64::from(pid.0));
    }
    Ok(())
}

/// Appends the sends that a transaction holds, in order.
fn put_held(writer: &mut LineWriter, sendings: &[Sending]) -> Result<(), AllocError>
    ensures { OnOk result (writer.new ≡ writer.old
        ++ held_list (map sending_of sendings.now)) }
{
    begin_list(writer, "held")?;
    put_sends(writer, sendings)?;
    end_list(writer)
}

/// Appends sends as items of a list.
fn put_sends(writer: &mut LineWriter, sendings: &[Sending]) -> Result<(), AllocError>
    ensures { OnOk result (writer.new ≡ writer.old
        ++ each_tokens held_item (map sending_of sendings.now)) }
{
    for i in 0..sendings.len() {
        put_send(writer, &sendings[i])?;
    }
    Ok(())
}

/// Appends a send that is held: its target, its signal and its value.
fn put_send(writer: &mut LineWriter, sending: &Sending) -> Result<(), AllocError>
    ensures { OnOk result (writer.new ≡ writer.old
        ++ held_item (sending_of sending.now)) }
{
    begin_object(writer)?;
    put_count(writer, "target", u64::from(sending.target.0))?;
    put_count(writer, "signo", u64::from(sending.signo.0))?;
    put_number(writer, "value", sending.value)?;
    end_object(writer)
}
