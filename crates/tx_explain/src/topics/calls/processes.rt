//! Calls on processes.
ghost use Rattle.std.specs.Prelude.{◌≡◌, map, IsTrue};
ghost use Rattle.std.specs.List.{list_all};
ghost use Rattle.tx_explain.specs.Table.{process_rows};
ghost use Rattle.tx_explain.specs.Topics.{is_formed, row_of};

use crate::topic::Topic;

/// Calls on processes.
pub fn topics() -> &'static [Topic]
    ensures rows { map row_of result.now ≡ process_rows }
    ensures formed { IsTrue (list_all is_formed result.now) }
{
    &TOPICS
}

const TOPICS: [Topic; 5] = [
    Topic {
        word: "fork",
        also: &[],
        text: "\
fork: makes the child C, a copy of the caller without its pending signals.
  form     P fork C; in a program fork alone, of the least free number
  C        the child, 1 to 256, in version 1 to 64
  N3       it is out of range
  N4       it is in use
  else     the child's number; the child's own answer is 0, and both are at
           the point after the call
  example  2 fork 3
",
    },
    Topic {
        word: "exit",
        also: &[],
        text: "\
exit: ends the process with the status V modulo 256, from 0 to 255.
  form     P exit V
  V        any number
  EPERM    process 1
  else     the reply is ended, or committed if this ended the last member's
           part of a transaction
  example  2 exit 0
  In a state exit S follows a process that has ended with the status S.
  Alone on a line of the shell exit ends the session, as quit does.
",
    },
    Topic {
        word: "waitpid",
        also: &["nohang"],
        text: "\
waitpid: takes the status of its child T and removes the child.
  form     P waitpid T wait, P waitpid T nohang
  T        the child
  ECHILD   T is not the number of a child of the caller
  0        the child runs, with nohang
  N9       the child runs, with wait
  else     T; slot 0 becomes its status: 0 to 255 after exit, 256 + S if
           signal S ended it
  example  2 waitpid 3 wait
",
    },
    Topic {
        word: "getpid",
        also: &[],
        text: "\
getpid: asks its number.
  form     P getpid
  else     the caller's number
  example  2 getpid
",
    },
    Topic {
        word: "getppid",
        also: &[],
        text: "\
getppid: asks its parent's number.
  form     P getppid
  else     its parent's number; that of process 1 is 0
  example  2 getppid
",
    },
];
