//! The signal that a turn delivers.
ghost use Rattle.std.specs.Option.{option_copied};
ghost use Rattle.std.specs.Prelude.{◌≡◌, option_map};
ghost use Rattle.tx_model.specs.Deliveries.{is_deferred};
ghost use Rattle.tx_model.specs.Membership.{Table, inside_by};
ghost use Rattle.tx_proc.specs.Parts.{process_of};
ghost use Rattle.tx_workers.specs.Offers.{is_catch, is_offered, is_passed_over, offered};
ghost use Rattle.tx_workers.specs.Names.{signal_number};

use tx_base::{Action, Mark, SIGKILL, Signo};
use tx_proc::Proc;

/// The signals in the order in which turns deliver them.
const IN_ORDER: [u8; 20] = [
    9, 1, 2, 3, 6, 9, 10, 12, 13, 14, 15, 17, 32, 33, 34, 35, 36, 37, 38, 39,
];

/// The signal that a turn delivers to a process with that mark: the first one that may be delivered
/// now. One that is caught is passed over where there is no room for what is saved then, and one
/// that the transaction defers.
pub(crate) fn offered(proc: &Proc, mark: Option<&Mark>) -> Option<Signo>
    ensures { (t : Table) →
        option_map signal_number result
        ≡ offered (inside_by t (option_copied mark.entry)) (process_of proc.now) }
{
    if proc.pending.is_empty() {
        return None;
    }
    for i in 0..IN_ORDER.len() {
        let signo = Signo(IN_ORDER[i]);
        if is_offered(proc, mark, signo) {
            return Some(signo);
        }
    }
    None
}

/// Whether a turn may deliver the signal.
fn is_offered(proc: &Proc, mark: Option<&Mark>, signo: Signo) -> bool
    ensures { (t : Table) →
        result ≡ is_offered (inside_by t (option_copied mark.entry)) (process_of proc.now) signo.0 }
{
    if !proc.pending.deliverable(signo, proc.mask) || is_deferred(mark, signo) {
        return false;
    }
    !is_passed_over(proc, signo)
}

/// Whether the transaction defers the delivery: that of SIGKILL never.
fn is_deferred(mark: Option<&Mark>, signo: Signo) -> bool
    ensures { (t : Table) → result ≡ is_deferred (inside_by t (option_copied mark.entry)) signo.0 }
{
    mark.is_some_and(|mark| mark.defers && signo != SIGKILL)
}

/// Whether the signal is caught, and there is no room for what is saved then.
fn is_passed_over(proc: &Proc, signo: Signo) -> bool
    ensures { result ≡ is_passed_over (process_of proc.now) signo.0 }
{
    proc.frames.is_full() && is_catch(proc.actions.get(signo))
}

/// Whether the action is to catch the signal.
fn is_catch(action: Action) -> bool
    ensures { result ≡ is_catch action }
{
    matches!(action, Action::Catch { .. })
}
