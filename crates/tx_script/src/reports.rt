//! Runs a schedule, and prints what it answers and the state that it leaves.
ghost use Rattle.std.specs.Prelude.{◌≡◌, ◌++◌, List, IfErr, IfOk, OnOk, string_bytes};
ghost use Rattle.tx_base.specs.declared.steps.Accepted.{Accepted};
ghost use Rattle.tx_core.specs.Runs.{IsAfter};
ghost use Rattle.tx_model.specs.Schedules.{answers_of, history_of};
ghost use Rattle.tx_model.specs.State.{State};
ghost use Rattle.tx_lines.specs.Lines.{FitsHeader};
ghost use Rattle.tx_script.specs.Report.{line_text, lines_text, report_text};
ghost use Rattle.tx_lines.specs.declared.faults.Fault.TheVariants.{NoMemory};

use crate::answered::make_step;
use crate::machines::boot;
use std::alloc::{AllocError, Global};
use tx_base::{ABORTED_BY_CALL, Reply, Step};
use tx_content::Inverse;
use tx_core::Machine;
use tx_journal::put_state;
use tx_lines::{Fault, Numeral, Schedule, put, put_number};
use tx_state_text::put_reply;

/// The report of a schedule: a line for each step's reply, and the text of the state after the
/// last one. The only fault is `NoMemory`.
pub fn report(alloc: Global, schedule: &Schedule) -> Result<String, Fault>
    requires { FitsHeader schedule.now.header }
    ensures text { IfOk result (λ text.
        string_bytes text ≡ report_text schedule.now.header schedule.now.steps.items) }
    ensures fault { IfErr result (λ fault. fault ≡ NoMemory) }
{
    let mut machine = boot(alloc, schedule.header)?;
    let mut text = String::new(alloc);
    put_replies(alloc, &mut text, &mut machine, schedule.steps.as_slice())?;
    put_state(&mut text, &machine)?;
    Ok(text)
}

/// Makes the steps, and appends the line of each reply.
fn put_replies(
    alloc: Global,
    text: &mut String,
    machine: &mut Machine,
    steps: &[Step],
) -> Result<(), Fault>
    ensures text { OnOk result
        ((start : State) (earlier : List Accepted) → IsAfter start earlier machine.old →
        string_bytes text.new ≡ string_bytes text.old
        ++ lines_text 1 (answers_of start earlier steps.now)) }
    ensures after { OnOk result
        ((start : State) (earlier : List Accepted) → IsAfter start earlier machine.old →
        IsAfter start (history_of start earlier steps.now) machine.new) }
    ensures fault { IfErr result (λ fault. fault ≡ NoMemory) }
{
    let mut reply = Reply::Ended;
    let mut inverse = Inverse::blank();
    let mut number = Numeral::one(alloc);
    for i in 0..steps.len() {
        make_step(alloc, machine, &steps[i], &mut reply, &mut inverse)?;
        put_reply_line(text, &number, &reply)?;
        number.raise()?;
    }
    Ok(())
}

/// Appends the line of the reply to a step. Steps count from 1.
fn put_reply_line(text: &mut String, number: &Numeral, reply: &Reply) -> Result<(), AllocError>
    ensures { OnOk result
        (string_bytes text.new ≡ string_bytes text.old ++ line_text number.now reply.now) }
{
    number.append_to(text)?;
    if let Reply::Done(ret) = reply {
        if *ret == 0 {
            return put(text, " ok 0\n"); // the reply to most steps
        }
        put(text, " ok ")?;
        put_number(text, *ret)?;
        return put(text, "\n");
    }
    if let Reply::Aborted(status) = reply {
        if *status == ABORTED_BY_CALL {
            return put(text, " aborted 201\n"); // and to most aborts
        }
    }
    put(text, " ")?;
    put_reply(text, reply)?;
    put(text, "\n")
}
