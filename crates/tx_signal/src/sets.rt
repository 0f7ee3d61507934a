//! Sets of signals, and the numbers of the known ones.
ghost use Rattle.std.specs.Prelude.{◌≡◌, ◌<◌, ◌≤◌, ◌^◌, IfSome, option_map};
ghost use Rattle.std.specs.Bool.{OnTrue};
ghost use Rattle.tx_base.specs.Signals.{bits_of};
ghost use Rattle.tx_model.specs.SignalSets.{is_in_set, is_known, is_realtime, maskable, with_one_more, without_one};
ghost use Rattle.tx_model.specs.Signals.{known_signal, changed_mask};
ghost use Rattle.tx_signal.specs.Numbers.{number_of};

use bitflags::Flags;
use tx_base::{How, SigSet, Signo};

/// The set of one signal; its number must be below 64. POSIX.1-2017, XSH, sigaddset(), from an
/// empty set.
pub fn single(signo: Signo) -> SigSet
    requires { signo.0 < 64 }
    ensures { bits_of result ≡ 2 ^ signo.0 }
{
    SigSet::from_bits_retain(1 << signo.0)
}

/// Whether the signal is in the set; a number over 63 never is. POSIX.1-2017, XSH, sigismember().
pub fn has(set: SigSet, signo: Signo) -> bool
    ensures { result ≡ is_in_set (bits_of set) signo.0 }
{
    signo.0 < 64 && set.contains(single(signo))
}

/// The set with one more signal, whose number must be below 64. POSIX.1-2017, XSH, sigaddset().
pub fn with(set: SigSet, signo: Signo) -> SigSet
    requires { signo.0 < 64 }
    ensures { bits_of result ≡ with_one_more (bits_of set) signo.0 }
{
    set.union(single(signo))
}

/// The set without the signal; a number over 63 never is in it. POSIX.1-2017, XSH, sigdelset().
pub fn without(set: SigSet, signo: Signo) -> SigSet
    ensures { bits_of result ≡ without_one (bits_of set) signo.0 }
{
    if signo.0 < 64 {
        set.difference(single(signo))
    } else {
        set
    }
}

/// Whether it is a realtime signal: 32 to 39. Own numbers, those of Linux.
pub fn is_realtime(signo: Signo) -> bool
    ensures number { result ≡ is_realtime signo.0 }
    ensures low { OnTrue result (32 ≤ signo.0) }
    ensures high { OnTrue result (signo.0 < 40) }
{
    matches!(signo.0, 32..=39)
}

/// Whether there is such a signal. Own numbers, those of Linux.
pub fn is_known(signo: Signo) -> bool
    ensures number { result ≡ is_known signo.0 }
    ensures high { OnTrue result (signo.0 < 40) }
{
    matches!(signo.0, 1..=3 | 6 | 9..=10 | 12..=15 | 17 | 32..=39)
}

/// The signal that a program computed, where there is one. Own rule.
pub fn known(number: i64) -> Option<Signo>
    ensures number { option_map number_of result ≡ known_signal number }
    ensures high { IfSome result (λ signo. signo.0 < 40) }
{
    let signo = Signo(u8::try_from(number).ok()?);
    if is_known(signo) { Some(signo) } else { None }
}

/// What a mask holds of the set: neither SIGKILL nor the numbers that are not known.
/// POSIX.1-2017, XSH, sigprocmask(): SIGKILL can't be blocked. The numbers: own rule.
pub fn maskable(set: SigSet) -> SigSet
    ensures { bits_of result ≡ maskable (bits_of set) }
{
    set.intersection(SigSet::all()).difference(SigSet::KILL)
}

/// The mask as it is changed by the set. POSIX.1-2017, XSH, sigprocmask().
pub fn masked(how: How, set: SigSet, mask: SigSet) -> SigSet
    ensures { bits_of result ≡ maskable (changed_mask how (bits_of set) (bits_of mask)) }
{
    maskable(match how {
        How::Block => mask.union(set),
        How::Unblock => mask.difference(set),
        How::Set => set,
    })
}
