//! What a state's text has of descriptions, pipes and transactions.
ghost use Rattle.std.specs.Prelude.{◌≡◌, map, IsTrue};
ghost use Rattle.std.specs.List.{list_all};
ghost use Rattle.tx_explain.specs.Table.{other_line_rows};
ghost use Rattle.tx_explain.specs.Topics.{is_formed, row_of};

use crate::topic::Topic;

/// What a state's text has of descriptions, pipes and transactions.
pub fn topics() -> &'static [Topic]
    ensures rows { map row_of result.now ≡ other_line_rows }
    ensures formed { IsTrue (list_all is_formed result.now) }
{
    &TOPICS
}

const TOPICS: [Topic; 7] = [
    Topic {
        word: "desc",
        also: &["description"],
        text: "\
desc: a description, 0 to 63: what descriptors name.
  form     desc D Q r block
  it is a side of pipe Q, r or w, and block says that it waits, nonblock that
  it does not
",
    },
    Topic {
        word: "block",
        also: &[],
        text: "\
block: a read or write by the description waits (N9) if it can't go on.
  In sigprocmask block SET it adds signals to the mask.
",
    },
    Topic {
        word: "nonblock",
        also: &[],
        text: "\
nonblock: a read or write by the description is EAGAIN if it can't go on.
",
    },
    Topic {
        word: "txn",
        also: &[],
        text: "\
txn: a live transaction, by the process S that began it.
  form     txn S open LIST ended LIST
           txn S defer open LIST ended LIST
  the second if it defers deliveries: the members whose part is open, and
  those that have ended theirs, ascending and joined by , or - for none
",
    },
    Topic {
        word: "open",
        also: &[],
        text: "\
open: open LIST: the members of a transaction whose part is open.
",
    },
    Topic {
        word: "defer",
        also: &[],
        text: "\
defer: the transaction defers deliveries to its members (N14), but of signal 9.
  form     P sys_xbegin defer, not in texts of version 1
",
    },
    Topic {
        word: "held",
        also: &[],
        text: "\
held: a send that a transaction holds until its commit.
  form     held T:S:V for each send that it holds, in order: the target, the
           signal and its value
  A signal of a member to a process that is no member is held; 32 at most, and
  the SIGCHLD of a starter that ends inside.
",
    },
];
