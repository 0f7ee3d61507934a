//! Calls that concern only their own process, and calls that send nothing.
ghost use Rattle.std.specs.Prelude.{IsTrue};
ghost use Rattle.tx_step.specs.Ways.{ConcernsItself, SendsNothing};

use tx_base::Call;
use tx_kernel::quiet_calls_send_nothing;

/// Whether a call, whoever makes it, names only its process and sends nothing.
pub(crate) fn concerns_itself(call: &Call) -> bool
    ensures { IsTrue result → ConcernsItself call.now }
{
    match call {
        Call::Fork(_)
        | Call::Exit(_)
        | Call::Waitpid(_, _)
        | Call::Pipe(_, _, _)
        | Call::Dup(_)
        | Call::Dup2(_, _)
        | Call::Close(_)
        | Call::SetNonblock(_, _)
        | Call::Read(_, _, _)
        | Call::Write(_, _, _)
        | Call::Kill(_, _)
        | Call::Sigqueue(_, _, _)
        | Call::SysXend
        | Call::SysXabort => false,
        _ => true,
    }
}

/// Whether a call, whoever makes it, sends nothing.
pub(crate) fn sends_nothing(call: &Call) -> bool
    ensures { IsTrue result → SendsNothing call.now }
{
    quiet_calls_send_nothing();
    match call {
        Call::Kill(_, _) | Call::Sigqueue(_, _, _) | Call::Exit(_) | Call::Write(_, _, _) => false,
        _ => true,
    }
}
