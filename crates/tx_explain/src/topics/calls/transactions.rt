//! Calls of transactions.
ghost use Rattle.std.specs.Prelude.{◌≡◌, map, IsTrue};
ghost use Rattle.std.specs.List.{list_all};
ghost use Rattle.tx_explain.specs.Table.{transaction_rows};
ghost use Rattle.tx_explain.specs.Topics.{is_formed, row_of};

use crate::topic::Topic;

/// Calls of transactions.
pub fn topics() -> &'static [Topic]
    ensures rows { map row_of result.now ≡ transaction_rows }
    ensures formed { IsTrue (list_all is_formed result.now) }
{
    &TOPICS
}

const TOPICS: [Topic; 3] = [
    Topic {
        word: "sys_xbegin",
        also: &[],
        text: "\
sys_xbegin: begins a transaction; with defer one that defers deliveries to its
members.
  form     P sys_xbegin, P sys_xbegin defer
           the second not in texts of version 1
  EINVAL   inside a transaction
  else     0; after an abort this call seems to have answered the status, as
           a negative number: -201, -202 or -203
  example  2 sys_xbegin
",
    },
    Topic {
        word: "sys_xend",
        also: &[],
        text: "\
sys_xend: ends its part of its transaction.
  form     P sys_xend
  EINVAL   outside one
  else     0, and the process waits for the others' parts (N6); the reply is
           committed if it was the last part
  example  2 sys_xend
",
    },
    Topic {
        word: "sys_xabort",
        also: &[],
        text: "\
sys_xabort: aborts its transaction, as if its steps had never been.
  form     P sys_xabort
  EINVAL   outside one
  else     the reply is aborted 201, and its starter's answer is -201
  example  2 sys_xabort
",
    },
];
