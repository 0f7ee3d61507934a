//! Reads the lines of a schedule after the first.
ghost use Rattle.std.specs.Prelude.{◌≡◌, ◌<◌, ◌^◌, ◌++◌, ◌∷◌, codes, IfSome, Some};
ghost use Rattle.std.specs.Bool.{then_some};
ghost use Rattle.std.specs.Fmt.{decimal};
ghost use Rattle.tx_base.specs.declared.names.Pid.{Pid};
ghost use Rattle.tx_base.specs.declared.names.Signo.{Signo};
ghost use Rattle.tx_base.specs.declared.steps.Call.{Call};
ghost use Rattle.tx_base.specs.declared.steps.Step.{Step};
ghost use Rattle.tx_lines.specs.declared.read.header.Version.{Version};
ghost use Rattle.tx_lines.specs.Calls.{call_text, FitsCall};
ghost use Rattle.tx_lines.specs.Lines.{step_text, FitsStep, IsCallOf, IsOf};

use crate::read::calls::read_call;
use crate::read::header::Version;
use crate::read::leading::split_pid;
use crate::read::small::{read_byte, read_pid};
use crate::read::split::after_front;
use tx_base::{Call, Pid, Signo, Step};

/// The step that a line of a text of that version spells. Nothing where it is another line.
pub fn read_step(version: Version, line: &[u8]) -> Option<Step>
    ensures found { IfSome result (λ s. line.now ≡ step_text s) }
    ensures fits { IfSome result FitsStep }
    ensures within { IfSome result (IsOf version) }
    ensures only { (s : Step) → FitsStep s → IsOf version s → line.now ≡ step_text s →
        result ≡ Some s }
{
    let mut step = Step::blank();
    if read_step_into(version, line, &mut step) {
        Some(step)
    } else {
        None
    }
}

/// Reads a step as `read_step` does, into the caller's own: for a caller that reads many, since a
/// step is large. Returns whether the line spells one.
pub fn read_step_into(version: Version, line: &[u8], step: &mut Step) -> bool
    ensures found { IfSome (then_some result step.new) (λ s. line.now ≡ step_text s) }
    ensures fits { IfSome (then_some result step.new) FitsStep }
    ensures within { IfSome (then_some result step.new) (IsOf version) }
    ensures only { (s : Step) → FitsStep s → IsOf version s → line.now ≡ step_text s →
        then_some result step.new ≡ Some s }
{
    match split_pid(line) {
        Some((pid, rest)) => process_step(version, pid, rest, step),
        None => kernel_step(line, step),
    }
}

/// Reads the step of the kernel that a line spells.
fn kernel_step(line: &[u8], step: &mut Step) -> bool
    ensures found { IfSome (then_some result step.new) (λ s. line.now ≡ step_text s) }
    ensures fits { IfSome (then_some result step.new) FitsStep }
    ensures within { (version : Version) → IfSome (then_some result step.new) (IsOf version) }
    ensures only { (p : Pid) → p.0 < 2 ^ 16 → line.now ≡ step_text (Step.KernelAbort p) →
        then_some result step.new ≡ Some (Step.KernelAbort p) }
{
    match after_front(b"kernel ", line) {
        Some(word) => kernel_abort(word, step),
        None => false,
    }
}

/// Reads the abort of the transaction of the starter that a word spells.
fn kernel_abort(word: &[u8], step: &mut Step) -> bool
    ensures found { IfSome (then_some result step.new) (λ s.
        codes "kernel " ++ word.now ≡ step_text s) }
    ensures fits { IfSome (then_some result step.new) FitsStep }
    ensures within { (version : Version) → IfSome (then_some result step.new) (IsOf version) }
    ensures only { (p : Pid) → p.0 < 2 ^ 16 → word.now ≡ decimal p.0 →
        then_some result step.new ≡ Some (Step.KernelAbort p) }
{
    match read_pid(word) {
        Some(starter) => {
            *step = Step::KernelAbort(starter);
            true
        }
        None => false,
    }
}

/// Reads the step of a process that a text spells, without its first word.
fn process_step(version: Version, pid: Pid, rest: &[u8], step: &mut Step) -> bool
    requires { pid.0 < 2 ^ 16 }
    ensures found { IfSome (then_some result step.new) (λ s.
        decimal pid.0 ++ 32 ∷ rest.now ≡ step_text s) }
    ensures fits { IfSome (then_some result step.new) FitsStep }
    ensures within { IfSome (then_some result step.new) (IsOf version) }
    ensures call { (c : Call) → FitsCall c → IsCallOf version c → rest.now ≡ call_text c →
        then_some result step.new ≡ Some (Step.Call pid c) }
    ensures delivery { (signo : Signo) → signo.0 < 2 ^ 8 →
        rest.now ≡ codes "deliver " ++ decimal signo.0 →
        then_some result step.new ≡ Some (Step.Deliver pid signo) }
{
    match after_front(b"deliver ", rest) {
        Some(word) => delivery(pid, word, step),
        None => call_step(version, pid, rest, step),
    }
}

/// Reads the delivery of the signal that a word spells.
fn delivery(pid: Pid, word: &[u8], step: &mut Step) -> bool
    requires { pid.0 < 2 ^ 16 }
    ensures found { IfSome (then_some result step.new) (λ s.
        decimal pid.0 ++ 32 ∷ (codes "deliver " ++ word.now) ≡ step_text s) }
    ensures fits { IfSome (then_some result step.new) FitsStep }
    ensures within { (version : Version) → IfSome (then_some result step.new) (IsOf version) }
    ensures only { (signo : Signo) → signo.0 < 2 ^ 8 → word.now ≡ decimal signo.0 →
        then_some result step.new ≡ Some (Step.Deliver pid signo) }
{
    match read_byte(word) {
        Some(number) => {
            *step = Step::Deliver(pid, Signo(number));
            true
        }
        None => false,
    }
}

/// Reads the call of a process that a text spells.
fn call_step(version: Version, pid: Pid, rest: &[u8], step: &mut Step) -> bool
    requires { pid.0 < 2 ^ 16 }
    ensures found { IfSome (then_some result step.new) (λ s.
        decimal pid.0 ++ 32 ∷ rest.now ≡ step_text s) }
    ensures fits { IfSome (then_some result step.new) FitsStep }
    ensures within { IfSome (then_some result step.new) (IsOf version) }
    ensures only { (c : Call) → FitsCall c → IsCallOf version c → rest.now ≡ call_text c →
        then_some result step.new ≡ Some (Step.Call pid c) }
{
    make_call(pid, step);
    match step {
        Step::Call(_, call) => read_call(version, rest, call),
        _ => false,
    }
}

/// Makes a step a call of that process. Where it is one already, only the process is written.
fn make_call(pid: Pid, step: &mut Step)
    ensures { (call : Call) × (step.new ≡ Step.Call pid call) }
{
    match step {
        Step::Call(caller, _) => *caller = pid,
        _ => *step = Step::Call(pid, Call::Getpid),
    }
}
