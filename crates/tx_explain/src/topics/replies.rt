//! How a report answers a step.
ghost use Rattle.std.specs.Prelude.{◌≡◌, map, IsTrue};
ghost use Rattle.std.specs.List.{list_all};
ghost use Rattle.tx_explain.specs.Table.{reply_rows};
ghost use Rattle.tx_explain.specs.Topics.{is_formed, row_of};

use crate::topic::Topic;

/// How a report answers a step.
pub fn topics() -> &'static [Topic]
    ensures rows { map row_of result.now ≡ reply_rows }
    ensures formed { IsTrue (list_all is_formed result.now) }
{
    &TOPICS
}

const TOPICS: [Topic; 6] = [
    Topic {
        word: "ok",
        also: &[],
        text: "\
ok: the step was accepted and answered RET; POSIX error E is -E.
  form     K ok RET
  example  3 ok -22: step 3 answered EINVAL
",
    },
    Topic {
        word: "ended",
        also: &[],
        text: "\
ended: the step ended the process.
  example  8 ended
  In a state ended LIST follows a transaction: the members whose part has
  ended, or - for none.
",
    },
    Topic {
        word: "committed",
        also: &["commit"],
        text: "\
committed: the step committed the transaction; a send of signal S to process T
failed with error number E, for each T:S:E.
  form     K committed T:S:E ..
  example  9 committed 4:10:3: signal 10 to process 4 failed, ESRCH
",
    },
    Topic {
        word: "aborted",
        also: &["abort"],
        text: "\
aborted: the step aborted the transaction.
  form     K aborted STATUS: 201, 202 or 203
  example  10 aborted 201: a member called sys_xabort
",
    },
    Topic {
        word: "out",
        also: &[],
        text: "\
out: the step wrote bytes to the console.
  form     K out HEX, or K out - for none
  example  5 out 6869: \"hi\"
",
    },
    Topic {
        word: "no",
        also: &[],
        text: "\
no: the step was refused; N1 to N14 say why.
  K no N8 H    was refused: the transaction that process H began is in the way
  K no N9      was refused for another reason, and changed nothing
  A debugger's command answers no start, no end, no place or no commit if
  there is no such step, and stays where it is.
",
    },
];
