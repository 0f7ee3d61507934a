//! Calls on signals.
ghost use Rattle.std.specs.Prelude.{◌≡◌, map, IsTrue};
ghost use Rattle.std.specs.List.{list_all};
ghost use Rattle.tx_explain.specs.Table.{signal_rows};
ghost use Rattle.tx_explain.specs.Topics.{is_formed, row_of};

use crate::topic::Topic;

/// Calls on signals.
pub fn topics() -> &'static [Topic]
    ensures rows { map row_of result.now ≡ signal_rows }
    ensures formed { IsTrue (list_all is_formed result.now) }
{
    &TOPICS
}

const TOPICS: [Topic; 6] = [
    Topic {
        word: "kill",
        also: &[],
        text: "\
kill: sends process T the signal V, as sigqueue does with the value 0.
  form     P kill T V
  T        the target, 1 to 256, in version 1 to 64
  V        the signal: 0, which only asks, or a known one (txos explain signal)
  EINVAL   the signal is neither 0 nor known
  ESRCH    T is no process number
  From a member of a transaction to no member:
  -200     signal 0
  EAGAIN   32 held already
  else     0; the signal is held until the commit
  From all others, and among members:
  ESRCH    there is no process T
  EPERM    the sender's effective user id is not 0, and neither of its two ids,
           real and effective, is the target's real or saved user id
  0        signal 0, an ended target, and process 1: nothing changes
  EAGAIN   a realtime signal, and T has 16 queued
  else     0; the signal is pending until it is delivered
  example  2 kill 3 10
",
    },
    Topic {
        word: "sigqueue",
        also: &[],
        text: "\
sigqueue: sends process T the signal, with a value.
  form     P sigqueue T V V
  T        the target, 1 to 256, in version 1 to 64
  V V      the signal: 0, which only asks, or a known one (txos explain
           signal); and the value, any number, which a realtime signal brings
           along
  EINVAL   the signal is neither 0 nor known
  ESRCH    T is no process number
  From a member of a transaction to no member:
  -200     signal 0
  EAGAIN   32 held already
  else     0; the signal is held until the commit
  From all others, and among members:
  ESRCH    there is no process T
  EPERM    the sender's effective user id is not 0, and neither of its two ids,
           real and effective, is the target's real or saved user id
  0        signal 0, an ended target, and process 1: nothing changes
  EAGAIN   a realtime signal, and T has 16 queued
  else     0; the signal is pending until it is delivered
  example  2 sigqueue 3 32 -7
",
    },
    Topic {
        word: "sigaction",
        also: &["default", "ignore", "catch"],
        text: "\
sigaction: says what signal V does when it is delivered.
  form     P sigaction V default, P sigaction V ignore,
           P sigaction V catch POINT SET
  V        the signal, a known one but 9
  POINT    where the process goes on, 0 to 65535; in a program @NAME
  SET      which signals are blocked then too, or - for none
  EINVAL   V is not known, or is 9, or a catch point is over 65535
  else     0; if V is now ignored, all its pending occurrences are discarded
  example  2 sigaction 10 catch 4 -
",
    },
    Topic {
        word: "sigprocmask",
        also: &["unblock"],
        text: "\
sigprocmask: adds to the mask, takes from it, or sets it.
  form     P sigprocmask block SET, or unblock, or set
  SET      signals, or - for none; signal 9 is never blocked
  else     0
  example  2 sigprocmask block 10,12
",
    },
    Topic {
        word: "sigpending",
        also: &[],
        text: "\
sigpending: asks which blocked signals are pending.
  form     P sigpending
  else     the sum of 2^s over the signals s both pending and in the mask
  example  2 sigpending
",
    },
    Topic {
        word: "sigreturn",
        also: &[],
        text: "\
sigreturn: goes back to where a signal was caught last.
  form     P sigreturn
  EINVAL   no frame: no caught signal is unfinished
  else     the answer that the newest frame saved; registers and mask become
           those of the frame, and the frame goes
  example  2 sigreturn
",
    },
];
