//! The number above which there is no process.
ghost use Rattle.std.specs.Prelude.{◌+◌, ◌≤◌, All, length, take};
ghost use Rattle.tx_workers.specs.Tops.{HasTop, IsWithin};

use tx_base::{Call, Step};
use tx_journal::Session;

/// A number above which no process of a session was booted or made.
pub(crate) fn top_of(session: &Session) -> u16
    ensures { HasTop result session.now }
{
    let mut top = session.count();
    for entry in session.entries() {
        top = raised(top, &entry.step);
    }
    top
}

/// The same after at most one entry more than so many.
pub(crate) fn top_after(session: &Session, before: usize, top: u16) -> u16
    requires few { length session.now.entries ≤ before + 1 }
    requires booted { session.now.count ≤ top }
    requires made { All (λ entry. IsWithin top entry.step) (take before session.now.entries) }
    ensures { HasTop result session.now }
{
    match session.entries().get(before) {
        Some(entry) => raised(top, &entry.step),
        None => top,
    }
}

/// The greater of the number and that of the process that a step makes.
fn raised(top: u16, step: &Step) -> u16
    ensures higher { top ≤ result }
    ensures within { IsWithin result step.now }
{
    match step {
        Step::Call(_, Call::Fork(child)) if child.0 > top => child.0,
        _ => top,
    }
}
