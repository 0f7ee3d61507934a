//! The errors that a call answers, by name and by number.
ghost use Rattle.std.specs.Prelude.{◌≡◌, map, IsTrue};
ghost use Rattle.std.specs.List.{list_all};
ghost use Rattle.tx_explain.specs.Table.{error_rows};
ghost use Rattle.tx_explain.specs.Topics.{is_formed, row_of};

use crate::topic::Topic;

/// The errors that a call answers, by name and by number.
pub fn topics() -> &'static [Topic]
    ensures rows { map row_of result.now ≡ error_rows }
    ensures formed { IsTrue (list_all is_formed result.now) }
{
    &TOPICS
}

const TOPICS: [Topic; 10] = [
    Topic {
        word: "EPERM",
        also: &["-1", "1"],
        text: "\
EPERM: 1, answered as -1: not permitted.
  exit                of process 1
  setuid, seteuid     not privileged, and V is neither real nor saved user id
  setgid, setegid     not privileged, and V is neither real nor saved group id
  kill, sigqueue      the sender's effective user id is not 0, and neither of
                      its two ids is the target's real or saved user id
  Signal 1 is HUP.
",
    },
    Topic {
        word: "ESRCH",
        also: &["-3", "3"],
        text: "\
ESRCH: 3, answered as -3: no such process.
  kill, sigqueue      T is no process number, or there is no process T
  Signal 3 is QUIT.
",
    },
    Topic {
        word: "EBADF",
        also: &["-9", "9"],
        text: "\
EBADF: 9, answered as -9: a bad descriptor.
  dup, dup2, close, set_nonblock, read, write    F is not open
  dup2                G is not 0 to 15
  read, write         F names the wrong side of its pipe
  Signal 9 is KILL.
",
    },
    Topic {
        word: "ECHILD",
        also: &["-10", "10"],
        text: "\
ECHILD: 10, answered as -10: no such child.
  waitpid             T is not the number of a child of the caller
  Signal 10 is USR1.
",
    },
    Topic {
        word: "EAGAIN",
        also: &["-11", "11"],
        text: "\
EAGAIN: 11, answered as -11: try again.
  read                the pipe is empty, and the description does not block
  write               less room than wanted, and the description does not block
  kill, sigqueue      16 realtime signals are queued at the target, or the
                      sender's transaction holds 32 sends already
",
    },
    Topic {
        word: "EFAULT",
        also: &["-14", "14"],
        text: "\
EFAULT: 14, answered as -14: a bad address.
  store, read         the range is not good for writing
  load, write, console_write    it is not good for reading
  A range is good if it is empty, or if all of it is in 0 to 1023 on mapped
  pages, for writing on writable ones.
  Signal 14 is ALRM.
",
    },
    Topic {
        word: "EINVAL",
        also: &["-22", "22"],
        text: "\
EINVAL: 22, answered as -22: an argument is wrong.
  map, unmap, protect        the page is not 0 to 15; it is mapped already
                             (map), or not mapped (unmap, protect)
  setuid, seteuid            the id is not 0 to 65535
  setgid, setegid            likewise
  read, write                V is not 0 to 512
  kill, sigqueue             the signal is neither 0 nor known
  sigaction                  the signal is not known, or is 9, or a catch point
                             is over 65535
  sigreturn                  no caught signal is unfinished
  console_write              V is not 0 to 64
  jump                       the point is over 65535
  keep                       V is not 0 to 7
  sys_xbegin                 inside a transaction
  sys_xend, sys_xabort       outside one
",
    },
    Topic {
        word: "EMFILE",
        also: &["-24", "24"],
        text: "\
EMFILE: 24, answered as -24: too many descriptors. A process has 16.
  pipe                fewer than two are free
  dup                 none is free
",
    },
    Topic {
        word: "EPIPE",
        also: &["-32", "32"],
        text: "\
EPIPE: 32, answered as -32: a broken pipe.
  write               no reader is left; SIGPIPE is sent to the caller too
  Signal 32 is the first realtime one.
",
    },
    Topic {
        word: "200",
        also: &["-200"],
        text: "\
200: answered as -200: a call that is closed inside a transaction.
  console_write       always
  kill, sigqueue      signal 0 to a process that is no member
",
    },
];
