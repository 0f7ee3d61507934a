//! Steps that are no calls.
ghost use Rattle.std.specs.Prelude.{◌≡◌, map, IsTrue};
ghost use Rattle.std.specs.List.{list_all};
ghost use Rattle.tx_explain.specs.Table.{step_rows};
ghost use Rattle.tx_explain.specs.Topics.{is_formed, row_of};

use crate::topic::Topic;

/// Steps that are no calls.
pub fn topics() -> &'static [Topic]
    ensures rows { map row_of result.now ≡ step_rows }
    ensures formed { IsTrue (list_all is_formed result.now) }
{
    &TOPICS
}

const TOPICS: [Topic; 2] = [
    Topic {
        word: "deliver",
        also: &[],
        text: "\
deliver: a pending signal S is delivered to process P.
  form     P deliver S
  S        the signal, 0 to 255
  N10      it is not pending, is in the mask, or is a realtime signal and a
           lower realtime number is pending outside the mask
  N14      P is a member of a transaction that defers it, and S is not 9
  N11      it is caught, and four frames are in use
  else     ignored: ok with the answer that P had; caught: ok with the signal's
           value, 0 for a standard one; else P ends with the status 256 + S,
           and the reply is ended, or committed if this ended the last part
  example  2 deliver 10
",
    },
    Topic {
        word: "kernel",
        also: &[],
        text: "\
kernel: the kernel aborts the transaction that process P began.
  form     kernel P
  P        the transaction's starter, whatever state it is in
  N12      P is the starter of no live transaction
  else     the reply is aborted 202, or aborted 203 if it is doomed
  example  kernel 2
",
    },
];
