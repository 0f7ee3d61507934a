//! What a state's text has of a process.
ghost use Rattle.std.specs.Prelude.{◌≡◌, map, IsTrue};
ghost use Rattle.std.specs.List.{list_all};
ghost use Rattle.tx_explain.specs.Table.{process_line_rows};
ghost use Rattle.tx_explain.specs.Topics.{is_formed, row_of};

use crate::topic::Topic;

/// What a state's text has of a process.
pub fn topics() -> &'static [Topic]
    ensures rows { map row_of result.now ≡ process_line_rows }
    ensures formed { IsTrue (list_all is_formed result.now) }
{
    &TOPICS
}

const TOPICS: [Topic; 9] = [
    Topic {
        word: "proc",
        also: &["process", "pid"],
        text: "\
proc: the first line of a process.
  form     proc P parent Q run point X ret R
           proc P parent Q exit S
           proc P parent Q killed S
  It runs, has ended with the status S, or was ended by signal S. Lines for
  what it has follow; an ended process has at most ids.
",
    },
    Topic {
        word: "parent",
        also: &[],
        text: "\
parent: parent Q: the number of the process's parent; that of process 1 is 0.
",
    },
    Topic {
        word: "killed",
        also: &[],
        text: "\
killed: killed S, once signal S has ended the process.
",
    },
    Topic {
        word: "point",
        also: &[],
        text: "\
point: point X: the number of the next instruction of the process, 0 to 65535.
  It begins at 0, and an accepted call adds one; jump, sigreturn, a caught
  signal and an abort set it otherwise.
",
    },
    Topic {
        word: "ret",
        also: &[],
        text: "\
ret: ret R: the answer of the process's last call; a POSIX error is negative.
",
    },
    Topic {
        word: "ids",
        also: &["id"],
        text: "\
ids: its three user ids and its three group ids, each 0 to 65535.
  form     ids RU EU SU RG EG SG
  when     one of its ids is not 0: those of the user, real, effective and
           saved, and those of the group
  example  ids 5 5 5 0 0 0
",
    },
    Topic {
        word: "slots",
        also: &["slot"],
        text: "\
slots: what it has in slots 0 to 7.
  form     slots and eight numbers
  when     one of its slots is not 0
  example  slots 7 0 0 0 0 0 0 0
  keep, waitpid and pipe write to slots, $0 to $7 of a program read them.
",
    },
    Topic {
        word: "page",
        also: &["pages"],
        text: "\
page: a page of 64 bytes; page N has the addresses from 64 times N on.
  form     page N rw or page N r, and then O=HH for each byte that is not 0, by
           ascending offset
  when     page N is mapped; by ascending N
  example  page 0 rw 0=6f 1=6c 2=64: \"old\"
",
    },
    Topic {
        word: "fd",
        also: &["descriptor"],
        text: "\
fd: an open descriptor.
  form     fd F D
  when     descriptor F is open and names description D; by ascending F
  example  fd 0 3
",
    },
];
