//! Makes the steps of a schedule, and notes what there is to draw of them.
ghost use Rattle.std.specs.Prelude.{◌≡◌, ◌≤◌, ◌<◌, List, IfErr, IfOk, OnOk, Some, None, length, map};
ghost use Rattle.tx_base.specs.declared.steps.Accepted.{Accepted};
ghost use Rattle.tx_core.specs.Runs.{IsAfter};
ghost use Rattle.tx_lines.specs.Lines.{FitsHeader};
ghost use Rattle.tx_lines.specs.declared.faults.Fault.TheVariants.{NoMemory};
ghost use Rattle.tx_content.specs.Content.{view_of};
ghost use Rattle.tx_model.specs.Answer.{answer};
ghost use Rattle.tx_model.specs.Schedules.{history_with};
ghost use Rattle.tx_model.specs.State.{State};
ghost use Rattle.tx_model.specs.View.{present, role_on};
ghost use Rattle.tx_picture.specs.Drawings.{drawing_of, drawn_from, drawn_with, first_drawn, holder_of, holders, is_abort, runner};
ghost use Rattle.tx_picture.specs.Drawn.{drawn_as};
ghost use Rattle.tx_picture.specs.Spans.{ended_by, followed_upto};

use crate::drawing::Drawing;
use crate::passages::{note_passages, note_written};
use crate::rows::Row;
use crate::spans::{End, Span, Stretch, begin};
use crate::ties::sent_to;
use crate::transfers::transfer_of;
use crate::waits::{awaited, note_waits};
use std::alloc::{AllocError, Global};
use tx_base::{Call, Pid, Reply, Step};
use tx_content::Inverse;
use tx_core::{Machine, maker};
use tx_lines::{Fault, Header};
use tx_script::{boot, make_step};

/// Makes the steps of a schedule, and notes what there is to draw of them.
///
/// The only fault is `NoMemory`.
pub fn draw(alloc: Global, header: Header, steps: &[Step]) -> Result<Drawing, Fault>
    requires fits { FitsHeader header }
    requires few { length steps.now ≤ 4096 }
    ensures drawn { IfOk result (λ drawing. drawn_as drawing ≡ drawing_of header steps.now) }
    ensures fault { IfErr result (λ fault. fault ≡ NoMemory) }
{
    let mut machine = boot(alloc, header)?;
    let mut drawing = first_drawing(alloc, &machine)?;
    draw_steps(alloc, &mut drawing, &mut machine, steps)?;
    Ok(drawing)
}

/// What there is to draw of a machine before its first step.
fn first_drawing(alloc: Global, machine: &Machine) -> Result<Drawing, AllocError>
    ensures { IfOk result (λ drawing. drawn_as drawing ≡ first_drawn (view_of machine.now)) }
{
    let start = End {
        row: 0,
        aborted: false,
    };
    let mut lanes = Vec::new(alloc);
    follow(&mut lanes, machine, Stretch::Lane, start)?;
    Ok(Drawing {
        before: 0,
        rows: Vec::new(alloc),
        lanes,
        strips: Vec::new(alloc),
        written: Vec::new(alloc),
        passages: Vec::new(alloc),
        waits: Vec::new(alloc),
    })
}

/// Makes the steps, and notes what there is to draw of each.
fn draw_steps(
    alloc: Global,
    drawing: &mut Drawing,
    machine: &mut Machine,
    steps: &[Step],
) -> Result<(), Fault>
    requires { length steps.now ≤ 4096 }
    ensures drawn { OnOk result
        ((start : State) (earlier : List Accepted) → IsAfter start earlier machine.old →
        drawn_as drawing.new ≡ drawn_from start earlier steps.now 1 (drawn_as drawing.old)) }
    ensures fault { IfErr result (λ fault. fault ≡ NoMemory) }
{
    let mut inverse = Inverse::blank();
    for i in 0..steps.len() {
        draw_step(
            alloc,
            drawing,
            machine,
            &steps[i],
            i as u16 + 1,
            &mut inverse,
        )?;
    }
    Ok(())
}

/// Makes a step, which is never taken back, and notes what there is to draw of it in its row.
fn draw_step(
    alloc: Global,
    drawing: &mut Drawing,
    machine: &mut Machine,
    step: &Step,
    row: u16,
    inverse: &mut Inverse,
) -> Result<(), Fault>
    ensures drawn { OnOk result
        (drawn_as drawing.new ≡ drawn_with (view_of machine.old) step.now row
        (view_of machine.new) (drawn_as drawing.old)) }
    ensures after { OnOk result
        ((start : State) (earlier : List Accepted) → IsAfter start earlier machine.old →
        IsAfter start (history_with earlier step.now (answer (view_of machine.old) step.now))
        machine.new) }
    ensures fault { IfErr result (λ fault. fault ≡ NoMemory) }
{
    let aborted = is_abort(machine, step);
    let holder = holder_of(machine, step);
    let transfer = transfer_of(machine, step, row);
    let mut reply = Reply::Ended;
    make_step(alloc, machine, step, &mut reply, inverse)?;
    note_passages(
        &mut drawing.passages,
        drawing.written.as_slice(),
        transfer,
        &reply,
    )?;
    note_written(&mut drawing.written, transfer, &reply)?;
    let processes = awaited(alloc, machine, step, &reply)?;
    note_waits(&mut drawing.waits, row, maker(step), processes.as_slice())?;
    let made = Row {
        step: step.copy(),
        reply,
        holder,
    };
    if drawing.rows.push(made).is_err() {
        return Err(Fault::NoMemory);
    }
    let end = End { row, aborted };
    follow(&mut drawing.lanes, machine, Stretch::Lane, end)?;
    follow(&mut drawing.strips, machine, Stretch::Strip, end)?;
    Ok(())
}

/// Whether a step, if it is accepted, aborts a transaction.
fn is_abort(machine: &Machine, step: &Step) -> bool
    ensures { result ≡ is_abort (role_on (view_of machine.now) step.now) }
{
    match step {
        Step::KernelAbort(_) => true,
        Step::Call(pid, Call::SysXabort) => machine.txn_of(*pid).is_some(),
        _ => false,
    }
}

/// The starter whose transaction holds the signal that a step sends, if it sends one: its process
/// is a member, and its target is none.
fn holder_of(machine: &Machine, step: &Step) -> Option<Pid>
    ensures { result ≡ holder_of (view_of machine.now) step.now }
{
    let target = sent_to(step)?;
    let starter = machine.txn_of(maker(step))?;
    if machine.txn_of(target) == Some(starter) {
        return None;
    }
    Some(starter)
}

/// Follows the processes over a step: the open stretch of one without a holder then ends, and one
/// begins of each process that has a holder and no open stretch.
fn follow(
    spans: &mut Vec<Span>,
    machine: &Machine,
    stretch: Stretch,
    end: End,
) -> Result<(), AllocError>
    ensures { OnOk result (spans.new.items ≡ followed_upto
        (holders stretch (view_of machine.now)) end (view_of machine.now).table.width
        spans.old.items) }
{
    end_open(spans.as_mut_slice(), machine, stretch, end);
    for done in 0..machine.processes() {
        let process = Pid(done + 1);
        begin(spans, process, holder(machine, stretch, process), end.row)?;
    }
    Ok(())
}

/// Ends each open stretch of a process without a holder.
fn end_open(spans: &mut [Span], machine: &Machine, stretch: Stretch, end: End)
    ensures { spans.new ≡ map (ended_by (holders stretch (view_of machine.now)) end) spans.old }
{
    for span in spans.iter_mut() {
        *span = ended_by(*span, machine, stretch, end);
    }
}

/// The stretch, which ends there if it is an open one of a process without a holder.
fn ended_by(span: Span, machine: &Machine, stretch: Stretch, end: End) -> Span
    ensures { result ≡ ended_by (holders stretch (view_of machine.now)) end span }
{
    if span.end.is_none() && holder(machine, stretch, span.process).is_none() {
        return Span {
            end: Some(end),
            ..span
        };
    }
    span
}

/// Whose a stretch of a process is: its own where it runs, or that of the starter of the
/// transaction that it is a member of.
fn holder(machine: &Machine, stretch: Stretch, process: Pid) -> Option<Pid>
    ensures { result ≡ holders stretch (view_of machine.now) process.0 }
{
    match stretch {
        Stretch::Lane => runner(machine, process),
        Stretch::Strip => machine.txn_of(process),
    }
}

/// The process itself, where it runs.
fn runner(machine: &Machine, process: Pid) -> Option<Pid>
    ensures { result ≡ runner process.0 ((present (view_of machine.now)).procs process.0) }
{
    let proc = machine.parts().proc(process)?;
    match proc.status {
        Some(_) => None,
        None => Some(process),
    }
}
