//! Prints steps.
ghost use Rattle.std.specs.Prelude.{◌≡◌, ◌++◌, OnOk, string_bytes};
ghost use Rattle.tx_lines.specs.Lines.{step_text};

use crate::calls::put_call;
use crate::print::words::put_count_first;
use std::alloc::AllocError;
use std::fmt::Write;
use tx_base::Step;

/// Appends the line of a step, without its end. The only error is a refused growth of memory: the
/// text may then end with a part of the step.
pub fn put_step(text: &mut String, step: &Step) -> Result<(), AllocError>
    ensures { OnOk result (string_bytes text.new ≡ string_bytes text.old ++ step_text step.now) }
{
    match step {
        Step::Call(pid, call) => {
            put_count_first(text, u64::from(pid.0))?;
            put_call(text, call)
        }
        Step::Deliver(pid, signo) => write!(text, "{} deliver {}", pid.0, signo.0),
        Step::KernelAbort(starter) => write!(text, "kernel {}", starter.0),
    }
}
