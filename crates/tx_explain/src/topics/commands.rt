//! Commands of the program.
ghost use Rattle.std.specs.Prelude.{◌≡◌, map, IsTrue};
ghost use Rattle.std.specs.List.{list_all};
ghost use Rattle.tx_explain.specs.Table.{command_rows};
ghost use Rattle.tx_explain.specs.Topics.{is_formed, row_of};

use crate::topic::Topic;

/// Commands of the program.
pub fn topics() -> &'static [Topic]
    ensures rows { map row_of result.now ≡ command_rows }
    ensures formed { IsTrue (list_all is_formed result.now) }
{
    &TOPICS
}

const TOPICS: [Topic; 11] = [
    Topic {
        word: "replay",
        also: &[],
        text: "\
replay: makes the steps of a schedule, and writes their replies and the state.
  form     txos replay < TEXT
  TEXT     a schedule, which is read whole before its first step is made
  writes   for each step, in order, a line K REPLY, with K from 1; then the
           line state, and the text of the state that the last step left
  status   0, with a fault 1; 2 if the arguments are not understood
  example  txos replay < examples/first.txos
",
    },
    Topic {
        word: "debug",
        also: &[],
        text: "\
debug: walks back and forward over the steps of a schedule, as commands say.
  form     txos debug < TEXT
  TEXT     a schedule, the line debug, and a command a line: back, forward,
           goto K, state, moved K (not in version 1); 4096 commands at most
  writes   what each command answers; not the replies to the steps
  example  txos debug < examples/commit_and_abort.walk
",
    },
    Topic {
        word: "json",
        also: &[],
        text: "\
json: answers a text in lines of JSON.
  form     txos json < TEXT
  TEXT     a schedule, or one with the line debug and commands
  writes   for each step its reply, and then the state; if the text has
           commands, what each command answers. The lines are those of
           txos shell --json
  example  txos json < examples/first.txos
",
    },
    Topic {
        word: "picture",
        also: &[],
        text: "\
picture: draws what the steps of a schedule did, as a picture in SVG.
  form     txos picture [--from K] [--to L] < TEXT
  TEXT     a schedule
  K, L     the first and the last step that is drawn, 1 to 4096
  writes   a column for each process and a row for each step; a transaction is
           a shaded box over its members
  example  txos picture < examples/first.txos
",
    },
    Topic {
        word: "expect",
        also: &[],
        text: "\
expect: compares replies with those that comments expect.
  form     txos expect < TEXT
  TEXT     a schedule. # = REPLY after a step is the reply that is expected, as
           in a report; ok EBADF is ok -9. After the last step # state, and a
           line # = LINE for each line of the state, expect that state
  writes   line L: STEP: expected REPLY, got REPLY, if they differ;
           and how many are as expected, how many not, and how many expect
           nothing
  status   0 if some are as expected and none differs, else 1
  example  txos expect < examples/expected.txos
",
    },
    Topic {
        word: "shell",
        also: &[],
        text: "\
shell: answers steps and commands, each line before it reads the next.
  form     txos shell, or txos shell --json for answers in JSON
  lines    a step of a schedule; a command of the debugger or of the shell, as
           the line help lists them; the first line may be a header
           Each command has a page: help when
  writes   the reply, the answer, or what is wrong with the line
  example  txos shell
",
    },
    Topic {
        word: "run",
        also: &[],
        text: "\
run: runs a program by workers, which are threads that share one kernel.
  form     txos run --workers N --turns T < TEXT
  N        how many workers, 1 to 16
  T        how many turns each takes, 1 to 10000
  TEXT     a program
  writes   for each step that the workers made, in order, a line
           K wW STEP : REPLY; then the line state, and the text of the state
           that the last step left
  example  txos run --workers 1 --turns 24 < examples/fall_back.program
  In a state run point X ret R follows a process while it runs.
",
    },
    Topic {
        word: "check",
        also: &[],
        text: "\
check: says of each line at fault in a text what is wrong with it.
  form     txos check < TEXT, or txos check COMMAND < TEXT
  TEXT     a schedule, one with the line debug and commands, or a program
  COMMAND  the command that reads it: replay, debug, run, picture or json; by
           default that of the text's kind
  writes   line L, column C: and a sentence for each line at fault; L and C
           count from 1, C in bytes. Nothing if the command reads the text; but
           without COMMAND, a line for each # = of a schedule that is no reply
  status   0 if nothing is wrong, else 1
  example  txos check < examples/first.txos
",
    },
    Topic {
        word: "plain",
        also: &[],
        text: "\
plain: writes the text of version 2 that a text of version 3 means.
  form     txos plain < TEXT
  TEXT     a schedule, one with the line debug and commands, or a program
  writes   the text that is meant: of versions 1 and 2 the text itself
  example  txos plain < examples/install.txos
",
    },
    Topic {
        word: "explain",
        also: &[],
        text: "\
explain: says what a word or a number of a report, a fault or a text means.
  form     txos explain WORD, or txos explain for the list of all words
  WORD     in lower or upper case
  example  txos explain N8
",
    },
    Topic {
        word: "version",
        also: &[],
        text: "\
version: writes the version of the program.
  form     txos version
",
    },
];
