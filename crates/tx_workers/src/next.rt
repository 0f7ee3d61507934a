//! Whose turn is next.
ghost use Rattle.std.specs.Prelude.{◌≡◌, ◌≤◌, option_map};
ghost use Rattle.tx_content.specs.Content.{view_of};
ghost use Rattle.tx_workers.specs.Names.{process_number};
ghost use Rattle.tx_workers.specs.Tops.{NoneRunsOver};
ghost use Rattle.tx_workers.specs.Turns.{belongs_to, is_next_of, next_process};

use crate::named::running;
use tx_base::Pid;
use tx_core::Machine;

/// The next running process of a worker of that number and total after the one whose turn was last,
/// where none above the top runs. The numbers go round.
pub(crate) fn next_process(
    machine: &Machine,
    number: u16,
    total: u16,
    last: u16,
    top: u16,
) -> Option<Pid>
    requires total { 1 ≤ total }
    requires top { NoneRunsOver top (view_of machine.now) }
    ensures { option_map process_number result
        ≡ next_process (view_of machine.now) number total last }
{
    let width = u32::from(machine.processes());
    let mut places = 0;
    while places < width {
        let before = (u32::from(last) + places) % width;
        if before >= u32::from(top) {
            places += width - before;
        } else {
            let pid = Pid(before as u16 + 1);
            if is_next(machine, number, total, pid) {
                return Some(pid);
            }
            places += 1;
        }
    }
    None
}

/// Whether a process is one of the worker's of that number and total, and runs.
fn is_next(machine: &Machine, number: u16, total: u16, pid: Pid) -> bool
    requires low { 1 ≤ pid.0 }
    requires total { 1 ≤ total }
    ensures { result ≡ is_next_of (view_of machine.now) number total pid.0 }
{
    belongs_to(number, total, pid) && running(machine, pid).is_some()
}

/// Whether a process is one of the worker's of that number and total.
fn belongs_to(number: u16, total: u16, pid: Pid) -> bool
    requires low { 1 ≤ pid.0 }
    requires total { 1 ≤ total }
    ensures { result ≡ belongs_to number total pid.0 }
{
    (pid.0 - 1) % total + 1 == number
}
