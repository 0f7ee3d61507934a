//! Reads sets of signals, by names and numbers in any order.
ghost use Rattle.std.specs.Prelude.{◌≡◌, ◌++◌, IfOk, OnErr, OnOk, option_map, Some};
ghost use Rattle.tx_base.specs.Signals.{bits_of};
ghost use Rattle.tx_lines.specs.Lists.{member_text, some_after};
ghost use Rattle.tx_lines.specs.Sets.{set_text};
ghost use Rattle.tx_model.specs.SignalSets.{is_in_set};
ghost use Rattle.tx_translate.specs.Rooms.{IsOver};
ghost use Rattle.tx_translate.specs.SignalNames.{signal_of};
ghost use Rattle.tx_translate.specs.Sets.{set_in, set_with};

use crate::room::{Full, Room, put, put_number};
use crate::signals::signal;
use bitflags::Flags;
use tx_base::{SigSet, Signo};
use tx_lines::{dash, split_at};
use tx_signal::{has, with};

/// The known signals, by rising number.
const KNOWN: [u8; 19] = [
    1, 2, 3, 6, 9, 10, 12, 13, 14, 15, 17, 32, 33, 34, 35, 36, 37, 38, 39,
];

/// The set whose signals are the parts of a word between commas. Nothing where a part is no
/// signal, or a signal occurs twice.
pub fn set_in(word: &[u8]) -> Option<SigSet>
    ensures { option_map (λ r. bits_of r) result ≡ set_in word.now }
{
    let mut set = SigSet::from_bits_retain(0);
    let mut left = word;
    while let Some((part, rest)) = split_at(b',', left) {
        set = set_with(set, part)?;
        left = rest;
    }
    set_with(set, left)
}

/// A set with one signal more. Nothing where the part is no signal, or the set has it.
fn set_with(set: SigSet, part: &[u8]) -> Option<SigSet>
    ensures { option_map (λ r. bits_of r) result
        ≡ set_with (Some (bits_of set)) (signal_of part.now) }
{
    let signo = signal(part)?;
    (!has(set, signo)).then(|| with(set, signo))
}

/// Appends the known signals of a set, by rising number.
#[tactic(auto, unfolding(tx_lines::specs::Sets::members))]
pub fn put_set(room: &mut Room, set: SigSet) -> Result<(), Full>
    ensures put { OnOk result (room.new.items ≡ room.old.items ++ set_text set) }
    ensures full { OnErr result (IsOver (room.old.items ++ set_text set)) }
{
    let mut some = false;
    let mut left = KNOWN.as_slice();
    while let Some((signo, rest)) = left.split_first() {
        some = put_member(room, some, set, Signo(*signo))?;
        left = rest;
    }
    put(room, dash(some).as_bytes())
}

/// Appends a signal where it is in the set, and says whether the list has one now.
fn put_member(room: &mut Room, some: bool, set: SigSet, signo: Signo) -> Result<bool, Full>
    ensures put { OnOk result (room.new.items
        ≡ room.old.items ++ member_text some (is_in_set (bits_of set) signo.0) signo.0) }
    ensures some { IfOk result (λ after.
        after ≡ some_after some (is_in_set (bits_of set) signo.0)) }
    ensures full { OnErr result (IsOver
        (room.old.items ++ member_text some (is_in_set (bits_of set) signo.0) signo.0)) }
{
    if !has(set, signo) {
        return Ok(some);
    }
    if some {
        put(room, b",")?;
    }
    put_number(room, signo.0)?;
    Ok(true)
}
