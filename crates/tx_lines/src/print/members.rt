//! Prints lists of numbers, and sets of signals.
ghost use Rattle.std.specs.Prelude.{◌≡◌, ◌++◌, [], IfOk, OnOk, codes, if◌then◌else◌, string_bytes};
ghost use Rattle.tx_base.specs.Signals.{bits_of};
ghost use Rattle.tx_model.specs.SignalSets.{is_in_set};
ghost use Rattle.tx_lines.specs.Lists.{member_text, some_after};
ghost use Rattle.tx_lines.specs.Sets.{set_text};

use crate::print::words::{put, put_count};
use std::alloc::AllocError;
use tx_base::{SigSet, Signo};
use tx_signal::has;

/// The known signals, by rising number.
const KNOWN: [u8; 19] = [
    1, 2, 3, 6, 9, 10, 12, 13, 14, 15, 17, 32, 33, 34, 35, 36, 37, 38, 39,
];

/// Appends a number that is listed, and says whether the list has one now.
pub fn put_member(
    text: &mut String,
    some: bool,
    listed: bool,
    number: u16,
) -> Result<bool, AllocError>
    ensures text { OnOk result
        (string_bytes text.new ≡ string_bytes text.old ++ member_text some listed number) }
    ensures some { IfOk result (λ after. after ≡ some_after some listed) }
{
    if !listed {
        return Ok(some);
    }
    if some {
        put(text, ",")?;
    }
    put_count(text, u64::from(number))?;
    Ok(true)
}

/// Appends the known signals of a set, by rising number.
pub fn put_set(text: &mut String, set: SigSet) -> Result<(), AllocError>
    ensures { OnOk result (string_bytes text.new ≡ string_bytes text.old ++ set_text set) }
{
    let mut some = false;
    for i in 0..KNOWN.len() {
        some = put_signal(text, some, set, Signo(KNOWN[i]))?;
    }
    put(text, dash(some))
}

/// `-` for a list without numbers.
pub fn dash(some: bool) -> &'static str
    ensures { result.now ≡ if some then [] else codes "-" }
{
    if some { "" } else { "-" }
}

/// Appends a signal where it is in the set, and says whether the list has one now.
fn put_signal(text: &mut String, some: bool, set: SigSet, signo: Signo) -> Result<bool, AllocError>
    ensures text { OnOk result
        (string_bytes text.new ≡ string_bytes text.old
        ++ member_text some (is_in_set (bits_of set) signo.0) signo.0) }
    ensures some { IfOk result (λ after.
        after ≡ some_after some (is_in_set (bits_of set) signo.0)) }
{
    put_member(text, some, has(set, signo), u16::from(signo.0))
}
