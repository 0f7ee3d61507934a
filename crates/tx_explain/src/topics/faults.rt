//! What is printed on standard error, with status 1.
ghost use Rattle.std.specs.Prelude.{◌≡◌, map, IsTrue};
ghost use Rattle.std.specs.List.{list_all};
ghost use Rattle.tx_explain.specs.Table.{fault_rows};
ghost use Rattle.tx_explain.specs.Topics.{is_formed, row_of};

use crate::topic::Topic;

/// What is printed on standard error, with status 1.
pub fn topics() -> &'static [Topic]
    ensures rows { map row_of result.now ≡ fault_rows }
    ensures formed { IsTrue (list_all is_formed result.now) }
{
    &TOPICS
}

const TOPICS: [Topic; 8] = [
    Topic {
        word: "F1",
        also: &[],
        text: "\
F1: line K is none of the grammar's, or has no end.
  Lines count from 1, the empty text is F1 at line 1. One space separates
  words; numbers have no plus and no leading zeros; letters are lower-case;
  each line ends with one byte 10, without CR.
",
    },
    Topic {
        word: "F2",
        also: &[],
        text: "\
F2: an instruction of line K names a label that is nowhere.
",
    },
    Topic {
        word: "F3",
        also: &[],
        text: "\
F3: line K is too long or one too many; line 0: the text is too long.
  A line has 512 bytes at most without its end, a text 1048576; a schedule has
  4096 steps and 4096 commands, a program 1024 instructions and 256 labels.
",
    },
    Topic {
        word: "F4",
        also: &[],
        text: "\
F4: the reader failed, or was interrupted more than 1,000 times.
",
    },
    Topic {
        word: "F5",
        also: &[],
        text: "\
F5: the writer failed, took no byte, or was interrupted more than 1,000 times.
  The output's beginning may have been written.
",
    },
    Topic {
        word: "F6",
        also: &[],
        text: "\
F6: a growth of memory was refused.
",
    },
    Topic {
        word: "F7",
        also: &[],
        text: "\
F7: what a worker noted is not what the journal has of it.
",
    },
    Topic {
        word: "F8",
        also: &[],
        text: "\
F8: a thread could not be started.
",
    },
];
