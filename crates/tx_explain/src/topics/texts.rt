//! What texts are made of.
ghost use Rattle.std.specs.Prelude.{◌≡◌, map, IsTrue};
ghost use Rattle.std.specs.List.{list_all};
ghost use Rattle.tx_explain.specs.Table.{text_rows};
ghost use Rattle.tx_explain.specs.Topics.{is_formed, row_of};

use crate::topic::Topic;

/// What texts are made of.
pub fn topics() -> &'static [Topic]
    ensures rows { map row_of result.now ≡ text_rows }
    ensures formed { IsTrue (list_all is_formed result.now) }
{
    &TOPICS
}

const TOPICS: [Topic; 10] = [
    Topic {
        word: "txos",
        also: &[],
        text: "\
txos: the first word of a text, and then its version, its kind and a number.
  form     txos 3 schedule N, txos 3 program N: N from 1 to 256
           txos 2 schedule N, txos 2 program N: N from 1 to 256
           txos 1 schedule N, txos 1 program N: N from 1 to 64
  N        how many processes there are at the start; their numbers are 1 to N
  Version 3 is for people: it has comments, blank lines, strings and names of
  signals. Version 1 has no process above 64, no sys_xbegin defer, no moved K.
",
    },
    Topic {
        word: "comment",
        also: &["blank"],
        text: "\
comment: in a text of version 3, # and what follows it in its line.
  example  2 map 0   # the first page
  A line without a word is left out. Any spaces and tabs separate words, and a
  line may end with CR LF, or where the text ends.
",
    },
    Topic {
        word: "name",
        also: &["names"],
        text: "\
name: gives a process a name, in a schedule of version 3 and in the shell.
  form     name P NAME
  NAME     1 to 16 letters, digits, ., _, + or -
  answers  at K in the shell; a cut drops it if it is ahead
  example  name 2 sh
           at 3
  It makes no step. The shell shows it after P in what why, owns, holds, when
  and next answer, until another process is forked as P, which has no name.
",
    },
    Topic {
        word: "schedule",
        also: &["step"],
        text: "\
schedule: a text that says which process makes which step when.
  form     txos 3 schedule N, and then a step a line
  A step is a call with its process before it, P deliver S, or kernel P. There
  are at most 4096 steps.
",
    },
    Topic {
        word: "program",
        also: &["instruction"],
        text: "\
program: a text that says what each process does; all run the same.
  form     txos 3 program N, and then an instruction or a label a line
  An instruction is a call without its process; fork and pipe take no word, an
  A, F, G, T or V may be $0 to $7, and a POINT is @NAME. There may be 1024
  instructions, which count from 0, and 256 labels.
",
    },
    Topic {
        word: "label",
        also: &[],
        text: "\
label: names the number of the next instruction of a program.
  form     label NAME
  NAME     1 to 16 of a to z, 0 to 9 and _, a letter first; a name once
  A POINT @NAME means that number.
",
    },
    Topic {
        word: "number",
        also: &[],
        text: "\
number: 0, or digits that do not begin with 0, with - before a negative one.
  It is from -9223372036854775808 to 9223372036854775807. One that is out of a
  call's range is answered by the call. In a text a process number is 0 to
  65535, that of a pipe, a description or a delivered signal 0 to 255, a POINT
  0 to 4294967295.
",
    },
    Topic {
        word: "hex",
        also: &["bytes", "string"],
        text: "\
hex: bytes of two lower-case hex digits each: 6869 is \"hi\".
  A store takes 1 to 64. In a text of version 3 they may have 0x before them
  and digits of either case, or be a string: \"hi\\n\". In a string \\n, \\t, \\0,
  \\\" and \\\\ are the bytes 10, 9, 0, 34 and 92.
",
    },
    Topic {
        word: "set",
        also: &[],
        text: "\
set: signals: - for none, or known numbers, ascending, with commas between.
  example  10,12,34
  In sigprocmask set SET it is the new mask. A text of version 3 may have names
  in it, and any order: TERM,INT,34.
",
    },
    Topic {
        word: "signal",
        also: &["signals"],
        text: "\
signal: a known number, or 0 in kill and sigqueue, which only asks.
  HUP 1, INT 2, QUIT 3, ABRT 6, KILL 9, USR1 10, USR2 12, PIPE 13, ALRM 14,
  TERM 15, CHLD 17, and the realtime numbers 32 to 39
  In a text of version 3 it may be a name: USR1 or SIGUSR1.
  The usual action of 17 is to be ignored, that of all others to end the
  process. KILL is never caught, ignored or blocked. A realtime signal is
  queued, with its value; any other is pending once. A signal to process 1 has
  no effect.
",
    },
];
