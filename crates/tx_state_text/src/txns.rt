//! Prints the lines of a live transaction.
ghost use Rattle.std.specs.Option.{option_copied};
ghost use Rattle.std.specs.Prelude.{◌≡◌, ◌≤◌, ◌++◌, OnOk, map, string_bytes};
ghost use Rattle.tx_base.specs.Slots.{slot_at};
ghost use Rattle.tx_kernel.specs.Plans.{sending_of};
ghost use Rattle.tx_state_text.specs.Links.{AreLinkedAbove};
ghost use Rattle.tx_state_text.specs.Txns.{flag_of, held_text, helds_text, is_listed_in, mark_text, members_text, txn_text};

use crate::links::Links;
use std::alloc::AllocError;
use std::fmt::Write;
use tx_base::{Mark, Pid, Sending, Slots};
use tx_lines::{dash, put, put_member};

/// Appends the lines of a starter's live transaction, with what it holds: none where the process
/// has begun none. It goes over the members twice, once for each list.
#[inline(always)] // each number up to the width asks it, and few have begun one
pub fn put_txn_lines(
    text: &mut String,
    marks: &Slots<Mark>,
    links: &Links,
    width: u16,
    pid: Pid,
    sendings: &[Sending],
) -> Result<(), AllocError>
    requires links { AreLinkedAbove 0 width (slot_at marks.now) links.now.firsts.items
        links.now.nexts.items }
    requires inside { pid.0 ≤ width }
    ensures { OnOk result
        (string_bytes text.new ≡ string_bytes text.old
        ++ mark_text width (slot_at marks.now) pid.0 (map sending_of sendings.now)
        (slot_at marks.now pid.0)) }
{
    match marks.get(pid) {
        Some(mark) if mark.starter.0 == pid.0 => {
            put_txn(text, marks, links, width, pid, mark.defers)?;
            put_helds(text, sendings)
        }
        _ => Ok(()),
    }
}

/// Appends the line of a transaction.
fn put_txn(
    text: &mut String,
    marks: &Slots<Mark>,
    links: &Links,
    width: u16,
    starter: Pid,
    defers: bool,
) -> Result<(), AllocError>
    requires links { AreLinkedAbove 0 width (slot_at marks.now) links.now.firsts.items
        links.now.nexts.items }
    requires inside { starter.0 ≤ width }
    ensures { OnOk result
        (string_bytes text.new ≡ string_bytes text.old
        ++ txn_text width (slot_at marks.now) starter.0 defers) }
{
    write!(text, "txn {}{}", starter.0, flag(defers))?;
    put_members(text, marks, links, width, starter, false)?;
    put(text, " ended ")?;
    put_members(text, marks, links, width, starter, true)?;
    put(text, "\n")
}

/// What is between a transaction's starter and its first list.
fn flag(defers: bool) -> &'static str
    ensures { result.now ≡ flag_of defers }
{
    if defers { " defer open " } else { " open " }
}

/// Appends the members of a starter's transaction that have ended their part, or those that have
/// not, by rising number.
fn put_members(
    text: &mut String,
    marks: &Slots<Mark>,
    links: &Links,
    width: u16,
    starter: Pid,
    ended: bool,
) -> Result<(), AllocError>
    requires links { AreLinkedAbove 0 width (slot_at marks.now) links.now.firsts.items
        links.now.nexts.items }
    requires inside { starter.0 ≤ width }
    ensures { OnOk result
        (string_bytes text.new ≡ string_bytes text.old
        ++ members_text width (slot_at marks.now) starter.0 ended) }
{
    let mut some = false;
    let mut number = links.firsts[starter.0 as usize];
    while number <= width as usize {
        let pid = Pid(number as u16);
        let listed = is_listed(marks.get(pid), starter, ended);
        some = put_member(text, some, listed, pid.0)?;
        number = links.nexts[number];
    }
    put(text, dash(some))
}

/// Whether the mark is one of that transaction, and the member's part has ended or not.
pub fn is_listed(mark: Option<&Mark>, starter: Pid, ended: bool) -> bool
    ensures { result ≡ is_listed_in (option_copied mark.entry) starter.0 ended }
{
    mark.is_some_and(|mark| mark.starter.0 == starter.0 && mark.ended == ended)
}

/// Appends the line of each send that is held, in order.
fn put_helds(text: &mut String, sendings: &[Sending]) -> Result<(), AllocError>
    ensures { OnOk result
        (string_bytes text.new ≡ string_bytes text.old
        ++ helds_text (map sending_of sendings.now)) }
{
    for i in 0..sendings.len() {
        put_held(text, &sendings[i])?;
    }
    Ok(())
}

/// Appends the line of a send that is held: its target, its signal and its value.
fn put_held(text: &mut String, sending: &Sending) -> Result<(), AllocError>
    ensures { OnOk result
        (string_bytes text.new ≡ string_bytes text.old ++ held_text (sending_of sending.now)) }
{
    let (target, signo) = (sending.target.0, sending.signo.0);
    write!(text, "held {target}:{signo}:{}\n", sending.value)
}
