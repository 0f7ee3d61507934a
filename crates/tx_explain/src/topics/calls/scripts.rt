//! Calls of scripts, and on the console.
ghost use Rattle.std.specs.Prelude.{◌≡◌, map, IsTrue};
ghost use Rattle.std.specs.List.{list_all};
ghost use Rattle.tx_explain.specs.Table.{script_rows};
ghost use Rattle.tx_explain.specs.Topics.{is_formed, row_of};

use crate::topic::Topic;

/// Calls of scripts, and on the console.
pub fn topics() -> &'static [Topic]
    ensures rows { map row_of result.now ≡ script_rows }
    ensures formed { IsTrue (list_all is_formed result.now) }
{
    &TOPICS
}

const TOPICS: [Topic; 3] = [
    Topic {
        word: "console_write",
        also: &[],
        text: "\
console_write: shows V bytes from address A on.
  form     P console_write A V
  A        an address, 0 to 1023
  V        how many bytes, 0 to 64
  -200     inside a transaction
  EINVAL   V is not 0 to 64
  EFAULT   the range is not good for reading: a byte of it is not in 0 to 1023,
           or on a page that is not mapped
  else     V; the reply is out with the bytes
  example  2 console_write 0 4
",
    },
    Topic {
        word: "jump",
        also: &["always", "if"],
        text: "\
jump: goes on at the point, always or if the last answer is V.
  form     P jump POINT always, P jump POINT if V
  POINT    0 to 65535; in a program @NAME
  V        any number
  EINVAL   the point is over 65535, taken or not
  else     the last answer, which stays
  example  2 jump 0 if -1
",
    },
    Topic {
        word: "keep",
        also: &[],
        text: "\
keep: keeps the last answer in slot V.
  form     P keep V
  V        the slot, 0 to 7; in a program $0 to $7 mean what the slots
           hold
  EINVAL   V is not 0 to 7
  else     the last answer, which stays
  example  2 keep 0
",
    },
];
