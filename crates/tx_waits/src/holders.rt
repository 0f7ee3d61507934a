//! Who has a side of a pipe or a description open, and who could end the wait of a step.
ghost use Rattle.std.specs.Option.{option_copied};
ghost use Rattle.std.specs.Prelude.{◌≡◌, ◌++◌, ◌<◌, ℕ, IfOk, List, OnOk, option_map};
ghost use Rattle.tx_change.specs.States.{state_of};
ghost use Rattle.tx_desc.specs.Descriptions.{described, end_for};
ghost use Rattle.tx_desc.specs.Places.{number_in};
ghost use Rattle.tx_content.specs.Content.{view_of};
ghost use Rattle.tx_model.specs.Footprints.{footprint};
ghost use Rattle.tx_model.specs.State.{Sending};
ghost use Rattle.tx_model.specs.View.{present};
ghost use Rattle.tx_proc.specs.Parts.{process_in};
ghost use Rattle.tx_reserve.specs.Footprints.{IsSetOf};
ghost use Rattle.tx_waits.specs.Holders.{awaited_by, holder_at, holders_by, holders_in, is_end, is_sought, named_by};
ghost use Rattle.tx_waits.specs.Holders.{named_holders, names_desc, names_end, other_side, side_holders};
ghost use Rattle.tx_waits.specs.Kinds.{limit_of};
ghost use Rattle.tx_waits.specs.declared.kinds.Kind.TheVariants.{Pipes};

use crate::kinds::Kind;
use std::alloc::{AllocError, Global};
use tx_base::{Call, DESCRIPTORS, DescNo, Pid, Refusal, Reply, Step};
use tx_change::Parts;
use tx_core::Machine;
use tx_desc::{Opened, Side};
use tx_json::Holder;
use tx_proc::Proc;
use tx_reserve::Objects;

/// What descriptors may name, by which they are searched for.
#[derive(Clone, Copy)]
pub enum Sought {
    /// A side of the pipe of a number.
    End(Side, u16),
    /// A description.
    Desc(DescNo),
}

/// Each descriptor that could end the wait of a step with this reply: those that are open for the
/// other side of the pipe that it reads or writes, by rising processes and descriptors. None if it
/// does not wait for a pipe. The only error is that a growth of memory was refused.
pub fn awaited_holders(
    alloc: Global,
    machine: &Machine,
    step: &Step,
    reply: &Reply,
) -> Result<Option<Vec<Holder>>, AllocError>
    ensures { IfOk result (λ found. option_map (λ held. held.items) found
        ≡ awaited_by (view_of machine.now) step.now reply.now) }
{
    match (reply, other_side(step)) {
        (Reply::No(Refusal::Wait), Some(side)) => {
            Ok(Some(side_holders(alloc, machine, step, side)?))
        }
        _ => Ok(None),
    }
}

/// The side of its pipe that a step waits for. None if it neither reads nor writes.
fn other_side(step: &Step) -> Option<Side>
    ensures { option_map end_for result ≡ other_side step.now }
{
    match step {
        Step::Call(_, Call::Read(..)) => Some(Side::Write),
        Step::Call(_, Call::Write(..)) => Some(Side::Read),
        _ => None,
    }
}

/// Each descriptor that is open for a side of the pipe that a step names.
fn side_holders(
    alloc: Global,
    machine: &Machine,
    step: &Step,
    side: Side,
) -> Result<Vec<Holder>, AllocError>
    ensures { IfOk result (λ found.
        found.items ≡ side_holders (view_of machine.now) step.now (end_for side)) }
{
    let mut found = Vec::new(alloc);
    let names = machine.footprint(step);
    for number in 0..Kind::Pipes.limit() {
        add_named(&mut found, machine, step, &names, side, number)?;
    }
    Ok(found)
}

/// Appends each descriptor that is open for a side of the pipe of a number, if the step names it.
fn add_named(
    found: &mut Vec<Holder>,
    machine: &Machine,
    step: &Step,
    names: &Objects,
    side: Side,
    number: u16,
) -> Result<(), AllocError>
    requires number { number < limit_of Pipes }
    requires names { IsSetOf names.now (footprint (view_of machine.now).table step.now
        (present (view_of machine.now))) }
    ensures { OnOk result (found.new.items ≡ found.old.items
        ++ named_holders (view_of machine.now) step.now (end_for side) number) }
{
    if !names.has(Kind::Pipes.object(number)) {
        return Ok(());
    }
    add_holders(found, machine, Sought::End(side, number))
}

/// Appends each descriptor that names what is sought, by rising processes and descriptors.
pub fn add_holders(
    found: &mut Vec<Holder>,
    machine: &Machine,
    sought: Sought,
) -> Result<(), AllocError>
    ensures { OnOk result (found.new.items ≡ found.old.items
        ++ holders_by (is_sought (present (view_of machine.now)) sought)
        (present (view_of machine.now))) }
{
    let parts = machine.parts();
    for process in 0..Kind::Processes.limit() {
        add_holders_in(found, parts, sought, process)?;
    }
    Ok(())
}

/// Appends each descriptor of a process that names what is sought.
fn add_holders_in(
    found: &mut Vec<Holder>,
    parts: &Parts,
    sought: Sought,
    process: u16,
) -> Result<(), AllocError>
    ensures { (held : ℕ → List Sending) → OnOk result (found.new.items ≡ found.old.items
        ++ holders_in (is_sought (state_of held parts.now) sought) (state_of held parts.now)
        process) }
{
    for descriptor in 0..DESCRIPTORS {
        add_holder(found, parts, sought, process, descriptor as u8)?;
    }
    Ok(())
}

/// Appends a descriptor of a process, where it names what is sought.
fn add_holder(
    found: &mut Vec<Holder>,
    parts: &Parts,
    sought: Sought,
    process: u16,
    descriptor: u8,
) -> Result<(), AllocError>
    ensures { (held : ℕ → List Sending) → OnOk result (found.new.items ≡ found.old.items
        ++ holder_at (is_sought (state_of held parts.now) sought) (state_of held parts.now)
        process descriptor) }
{
    let name = named_by(parts.proc(Pid(process)), descriptor as usize);
    if is_sought(parts, sought, name) {
        found.push(Holder {
            process,
            descriptor,
        })?;
    }
    Ok(())
}

/// The description that a descriptor of a process names.
fn named_by(slot: Option<&Proc>, descriptor: usize) -> Option<DescNo>
    ensures { number_in result ≡ named_by descriptor (process_in (option_copied slot.entry)) }
{
    slot?.descriptors.get(descriptor)
}

/// Whether what a descriptor names is sought.
fn is_sought(parts: &Parts, sought: Sought, name: Option<DescNo>) -> bool
    ensures { (held : ℕ → List Sending) →
        result ≡ is_sought (state_of held parts.now) sought (number_in name) }
{
    match sought {
        Sought::End(side, number) => names_end(parts, side, number, name),
        Sought::Desc(number) => names_desc(number, name),
    }
}

/// Whether what a descriptor names is a description.
fn names_desc(number: DescNo, name: Option<DescNo>) -> bool
    ensures { result ≡ names_desc number.0 (number_in name) }
{
    name.is_some_and(|name| name == number)
}

/// Whether what a descriptor names is a side of a pipe.
fn names_end(parts: &Parts, side: Side, number: u16, name: Option<DescNo>) -> bool
    ensures { (held : ℕ → List Sending) →
        result ≡ names_end (state_of held parts.now) number (end_for side) (number_in name) }
{
    name.is_some_and(|name| is_end(parts.descs.get(name), side, number))
}

/// Whether a description is a side of a pipe.
fn is_end(opened: Option<Opened>, side: Side, number: u16) -> bool
    ensures { result ≡ is_end number (end_for side) (described opened) }
{
    let Some(Opened { desc, .. }) = opened else {
        return false;
    };
    match (side, desc.side) {
        (Side::Read, Side::Read) | (Side::Write, Side::Write) => {
            u16::from(desc.pipe.0) == number
        }
        _ => false,
    }
}
