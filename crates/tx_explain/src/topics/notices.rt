//! The signals that the kernel sends, and those that queue.
ghost use Rattle.std.specs.Prelude.{◌≡◌, map, IsTrue};
ghost use Rattle.std.specs.List.{list_all};
ghost use Rattle.tx_explain.specs.Table.{notice_rows};
ghost use Rattle.tx_explain.specs.Topics.{is_formed, row_of};

use crate::topic::Topic;

/// The signals that the kernel sends, and those that queue.
pub fn topics() -> &'static [Topic]
    ensures rows { map row_of result.now ≡ notice_rows }
    ensures formed { IsTrue (list_all is_formed result.now) }
{
    &TOPICS
}

const TOPICS: [Topic; 3] = [
    Topic {
        word: "SIGPIPE",
        also: &["13"],
        text: "\
SIGPIPE: signal 13, which a write to a pipe without a reader sends its caller.
  spelled  13, in texts of version 3 PIPE or SIGPIPE too
  Its usual action is to end the process.
",
    },
    Topic {
        word: "SIGCHLD",
        also: &["CHLD", "17"],
        text: "\
SIGCHLD: signal 17, which the end of a process sends to its parent.
  spelled  17, in texts of version 3 CHLD or SIGCHLD too
  Its usual action is to be ignored. Sent again while it is pending, it is
  lost: one delivery may be for several children.
",
    },
    Topic {
        word: "realtime",
        also: &["32", "33", "34", "35", "36", "37", "38", "39"],
        text: "\
realtime: the signals 32 to 39, which are queued, each with its value.
  A process queues at most 16. The lowest number is delivered first, among
  equal numbers the oldest. The usual action is to end the process.
  As an answer -32 is EPIPE.
",
    },
];
