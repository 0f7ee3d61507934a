//! What a state's text has of a process's signals.
ghost use Rattle.std.specs.Prelude.{◌≡◌, map, IsTrue};
ghost use Rattle.std.specs.List.{list_all};
ghost use Rattle.tx_explain.specs.Table.{signal_line_rows};
ghost use Rattle.tx_explain.specs.Topics.{is_formed, row_of};

use crate::topic::Topic;

/// What a state's text has of a process's signals.
pub fn topics() -> &'static [Topic]
    ensures rows { map row_of result.now ≡ signal_line_rows }
    ensures formed { IsTrue (list_all is_formed result.now) }
{
    &TOPICS
}

const TOPICS: [Topic; 5] = [
    Topic {
        word: "mask",
        also: &[],
        text: "\
mask: the blocked signals, which are not delivered.
  form     mask SET
  when     a signal is blocked
  example  mask 10,12
",
    },
    Topic {
        word: "action",
        also: &[],
        text: "\
action: what a signal does when it is delivered.
  form     action S ignore, action S catch POINT SET
  when     the action of signal S is not the usual one; by ascending S
  example  action 15 ignore
",
    },
    Topic {
        word: "pending",
        also: &[],
        text: "\
pending: the standard signals that were sent and not yet delivered.
  form     pending SET
  when     a standard signal is pending
  example  pending 10,17
",
    },
    Topic {
        word: "queued",
        also: &["queue"],
        text: "\
queued: the realtime signals that were sent and not yet delivered; 16 at most.
  form     queued, and then S:V for each entry, the first to be taken first
  when     a realtime signal is queued
  example  queued 34:5 34:6
",
    },
    Topic {
        word: "frame",
        also: &["frames"],
        text: "\
frame: what sigreturn goes back to: point, answer, mask and slots; 4 at most.
  form     frame POINT RET SET and eight slots
  when     a caught signal saved these; the oldest first
  example  frame 4 0 - 0 0 0 0 0 0 0 0
",
    },
];
