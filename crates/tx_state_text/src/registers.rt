//! Prints registers.
ghost use Rattle.std.specs.Prelude.{◌≡◌, ◌++◌, OnOk, string_bytes};
ghost use Rattle.tx_state_text.specs.Registers.{is_blank_of, run_text, slot_text, slots_end, slots_line};

use std::alloc::AllocError;
use std::fmt::Write;
use tx_base::Regs;
use tx_lines::{put, put_number};

/// Appends the end of a running process's line.
pub fn put_run(text: &mut String, regs: &Regs) -> Result<(), AllocError>
    ensures { OnOk result (string_bytes text.new ≡ string_bytes text.old ++ run_text regs.now) }
{
    write!(text, " run point {} ret {}\n", regs.point, regs.ret)
}

/// Appends the line of the slots, where one is not 0.
pub fn put_slots_line(text: &mut String, slots: &[i64; 8]) -> Result<(), AllocError>
    ensures { OnOk result (string_bytes text.new ≡ string_bytes text.old ++ slots_line slots.now) }
{
    if is_blank(slots) {
        return Ok(());
    }
    put(text, "slots")?;
    put_slots(text, slots)
}

/// Whether every slot is 0.
fn is_blank(slots: &[i64; 8]) -> bool
    ensures { result ≡ is_blank_of slots.now }
{
    slots.iter().all(|slot| *slot == 0)
}

/// Appends the numbers in the slots, and the end of the line.
pub fn put_slots(text: &mut String, slots: &[i64; 8]) -> Result<(), AllocError>
    ensures { OnOk result (string_bytes text.new ≡ string_bytes text.old ++ slots_end slots.now) }
{
    for i in 0..slots.len() {
        put_slot(text, &slots[i])?;
    }
    put(text, "\n")
}

/// Appends the number in a slot.
fn put_slot(text: &mut String, slot: &i64) -> Result<(), AllocError>
    ensures { OnOk result (string_bytes text.new ≡ string_bytes text.old ++ slot_text slot.now) }
{
    put(text, " ")?;
    put_number(text, *slot)
}
