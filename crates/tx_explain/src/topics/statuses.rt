//! How transactions are aborted.
ghost use Rattle.std.specs.Prelude.{◌≡◌, map, IsTrue};
ghost use Rattle.std.specs.List.{list_all};
ghost use Rattle.tx_explain.specs.Table.{status_rows};
ghost use Rattle.tx_explain.specs.Topics.{is_formed, row_of};

use crate::topic::Topic;

/// How transactions are aborted.
pub fn topics() -> &'static [Topic]
    ensures rows { map row_of result.now ≡ status_rows }
    ensures formed { IsTrue (list_all is_formed result.now) }
{
    &TOPICS
}

const TOPICS: [Topic; 3] = [
    Topic {
        word: "201",
        also: &["-201"],
        text: "\
201: the status of an abort by a member, which called sys_xabort.
  The starter's sys_xbegin then answers -201.
",
    },
    Topic {
        word: "202",
        also: &["-202"],
        text: "\
202: the status of an abort by the kernel, the step kernel P.
  The starter's sys_xbegin then answers -202.
",
    },
    Topic {
        word: "203",
        also: &["-203"],
        text: "\
203: the status of an abort by the kernel for doom (N5).
  The starter's sys_xbegin then answers -203, and SIGKILL is pending there.
",
    },
];
