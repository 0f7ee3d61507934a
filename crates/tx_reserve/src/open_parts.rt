//! Whose part of a transaction is open.
ghost use Rattle.std.specs.Prelude.{◌≡◌, ◌≤◌, ◌==◌, false, if◌then◌else◌, length};
ghost use Rattle.tx_base.specs.Slots.{slot_at};
ghost use Rattle.tx_model.specs.Membership.{is_open_of, others_open};
ghost use Rattle.tx_reserve.specs.Footprints.{table_of};

use tx_base::{Mark, Pid, Slots};
use tx_change::Parts;

/// Whether the part of another member of the starter's transaction is open.
pub(crate) fn others_open(parts: &Parts, marks: &Slots<Mark>, starter: Pid, pid: Pid) -> bool
    requires { length parts.now.procs ≤ 256 }
    ensures { result ≡ others_open (table_of parts.now marks.now) starter.0 pid.0
        (length parts.now.procs) }
{
    let mut is_any = false;
    for below in 0..parts.procs.width() {
        if is_other_open(marks, starter, pid, Pid(below as u16 + 1)) {
            is_any = true;
        }
    }
    is_any
}

/// Whether a number is that of a member of the starter's transaction other than this process, and
/// its part is open.
pub fn is_other_open(marks: &Slots<Mark>, starter: Pid, pid: Pid, other: Pid) -> bool
    ensures { result ≡ (if other.0 == pid.0 then false
        else is_open_of starter.0 (slot_at marks.now other.0)) }
{
    if other == pid {
        return false;
    }
    match marks.get(other) {
        Some(mark) => !mark.ended && mark.starter == starter,
        None => false,
    }
}
