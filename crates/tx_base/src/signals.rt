//! Sets of signals, and what a process does about one.
ghost use Rattle.std.specs.Prelude.{⊤, [], ◌∷◌, codes};

use crate::names::Signo;
use bitflags::{Flag, Flags, bitflag_items};

/// The signal that ends its process whatever its action is. Own numbers, those of Linux.
pub const SIGKILL: Signo = Signo(9);

/// The signal of a write to a pipe that nobody reads.
pub const SIGPIPE: Signo = Signo(13);

/// The signal that notifies a parent of a child's end.
pub const SIGCHLD: Signo = Signo(17);

/// A set of signals: the bit of signal n is 2 to the power of n (POSIX.1-2017, XBD, signal.h,
/// `sigset_t`).
#[derive(Clone, Copy, PartialEq, Eq)]
pub struct SigSet(u64);

bitflag_items! {
    impl SigSet: u64 {
        const HUP = 1 << 1;
        const INT = 1 << 2;
        const QUIT = 1 << 3;
        const ABRT = 1 << 6;
        const KILL = 1 << 9;
        const USR1 = 1 << 10;
        const USR2 = 1 << 12;
        const PIPE = 1 << 13;
        const ALRM = 1 << 14;
        const TERM = 1 << 15;
        const CHLD = 1 << 17;
        const REALTIME_0 = 1 << 32;
        const REALTIME_1 = 1 << 33;
        const REALTIME_2 = 1 << 34;
        const REALTIME_3 = 1 << 35;
        const REALTIME_4 = 1 << 36;
        const REALTIME_5 = 1 << 37;
        const REALTIME_6 = 1 << 38;
        const REALTIME_7 = 1 << 39;
    }
}

impl Flags for SigSet {
    type Bits = u64;

    ghost exact = { ⊤ };

    ghost table = { (codes "HUP", 2) ∷ (codes "INT", 4) ∷ (codes "QUIT", 8) ∷ (codes "ABRT", 64)
        ∷ (codes "KILL", 512)
        ∷ (codes "USR1", 1024) ∷ (codes "USR2", 4096) ∷ (codes "PIPE", 8192) ∷ (codes "ALRM", 16384)
        ∷ (codes "TERM", 32768) ∷ (codes "CHLD", 131072) ∷ (codes "REALTIME_0", 4294967296)
        ∷ (codes "REALTIME_1", 8589934592) ∷ (codes "REALTIME_2", 17179869184)
        ∷ (codes "REALTIME_3", 34359738368) ∷ (codes "REALTIME_4", 68719476736)
        ∷ (codes "REALTIME_5", 137438953472) ∷ (codes "REALTIME_6", 274877906944)
        ∷ (codes "REALTIME_7", 549755813888) ∷ [] };

    ghost set_of = { λ set. set.0 };

    fn flags<'a>() -> &'a [Flag<SigSet>] {
        SigSet::FLAGS
    }

    fn bits(&self) -> u64 {
        self.0
    }

    fn from_bits_retain(bits: u64) -> SigSet {
        SigSet(bits)
    }
}

/// What a process does about a signal (POSIX.1-2017, XSH, Signal Actions).
#[derive(Clone, Copy, PartialEq, Eq)]
pub enum Action {
    /// The usual: to ignore SIGCHLD, and to end at any other.
    Usual,
    /// To ignore it.
    Ignore,
    /// To go on at a point, 0 to 65,535, with these signals blocked too.
    Catch { point: u32, mask: SigSet },
}

/// How a mask is changed (POSIX.1-2017, XSH, `sigprocmask()`).
#[derive(Clone, Copy, PartialEq, Eq)]
pub enum How {
    /// The signals are added.
    Block,
    /// They are taken away.
    Unblock,
    /// They are the mask.
    Set,
}
