//! What the words of the texts are about.
ghost use Rattle.std.specs.Prelude.{◌≡◌, map, IsTrue};
ghost use Rattle.std.specs.List.{list_all};
ghost use Rattle.tx_explain.specs.Table.{notion_rows};
ghost use Rattle.tx_explain.specs.Topics.{is_formed, row_of};

use crate::topic::Topic;

/// What the words of the texts are about.
pub fn topics() -> &'static [Topic]
    ensures rows { map row_of result.now ≡ notion_rows }
    ensures formed { IsTrue (list_all is_formed result.now) }
{
    &TOPICS
}

const TOPICS: [Topic; 9] = [
    Topic {
        word: "transaction",
        also: &[],
        text: "\
transaction: steps that all take effect, or none: from a sys_xbegin until the
step that ends the last member's part commits it, or an abort takes it back.
  An abort, by sys_xabort or by the step kernel P, ends it as if its steps had
  never been; what others did meanwhile stays. sys_xbegin inside one is EINVAL.
",
    },
    Topic {
        word: "member",
        also: &[],
        text: "\
member: the starter of a transaction, and each process that a member forks.
  A member ends its part by sys_xend, or by ending as a process.
",
    },
    Topic {
        word: "starter",
        also: &[],
        text: "\
starter: the process that began a transaction, whose number names it.
  After an abort it is at the point after its sys_xbegin.
",
    },
    Topic {
        word: "reserved",
        also: &["footprint"],
        text: "\
reserved: the processes, descriptions and pipes that a member's steps read or
wrote, and the targets of its signals, until its transaction ends.
  A step of others that needs one is N8; a signal to a starter may get
  through.
",
    },
    Topic {
        word: "privileged",
        also: &[],
        text: "\
privileged: a process whose effective user id is 0, as all are at the start.
",
    },
    Topic {
        word: "worker",
        also: &["w1"],
        text: "\
worker: a thread that takes turns for processes of a program: w1 in a report.
  Of N workers, worker W has the processes W, W + N, W + 2N and so on.
",
    },
    Topic {
        word: "turn",
        also: &[],
        text: "\
turn: one step, or none, for one process that runs.
  A signal that can be delivered now is its step, else the call of its
  instruction. A step that is refused is tried again at the next turn.
",
    },
    Topic {
        word: "zombie",
        also: &["zombies"],
        text: "\
zombie: a process that has ended, and that its parent has not waited for.
  Its line in a state has exit or killed, and waitpid takes it away. The
  children of a process that ends become children of process 1.
",
    },
    Topic {
        word: "eof",
        also: &[],
        text: "\
eof: a read that answers 0, since its pipe is empty and has no writer.
  While any descriptor of any process names a description of the write side, a
  writer is left: the read waits (N9), or is EAGAIN.
",
    },
];
