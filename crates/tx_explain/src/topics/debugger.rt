//! Commands of the debugger.
ghost use Rattle.std.specs.Prelude.{◌≡◌, map, IsTrue};
ghost use Rattle.std.specs.List.{list_all};
ghost use Rattle.tx_explain.specs.Table.{debugger_rows};
ghost use Rattle.tx_explain.specs.Topics.{is_formed, row_of};

use crate::topic::Topic;

/// Commands of the debugger.
pub fn topics() -> &'static [Topic]
    ensures rows { map row_of result.now ≡ debugger_rows }
    ensures formed { IsTrue (list_all is_formed result.now) }
{
    &TOPICS
}

const TOPICS: [Topic; 6] = [
    Topic {
        word: "back",
        also: &["undo"],
        text: "\
back: takes back the newest step.
  form     back
  answers  at K, or no start if there is none
  example  back
           at 3
",
    },
    Topic {
        word: "forward",
        also: &[],
        text: "\
forward: makes the next step again.
  form     forward
  answers  at K, or no end if all are made
  example  forward
           at 4
",
    },
    Topic {
        word: "goto",
        also: &[],
        text: "\
goto: goes to position K, the place after the first K accepted steps.
  form     goto K; in the shell also goto end, the place after all
  K        a number from 0
  answers  at K, or no place if there is no such position
  example  goto 2
           at 2
",
    },
    Topic {
        word: "state",
        also: &[],
        text: "\
state: prints the state, and stays.
  form     state
  answers  the line state, and the text of the state
  example  state
           state
           proc 1 parent 0 run point 0 ret 0
           proc 2 parent 1 run point 0 ret 0
  At the end of a report it is before the text of the last state.
",
    },
    Topic {
        word: "moved",
        also: &["one", "many"],
        text: "\
moved: says whether a transaction counts as one moment; the position stays.
  form     moved K, not in texts of version 1
  K        a number from 0: the accepted step that commits the transaction
  answers  moved one LIST or moved many LIST of the transaction that step K
           commits, or no commit if it commits none
  example  moved 8
           moved one 1,2,7,3,4,5,6,8
  LIST has the numbers of all accepted steps, with the transaction's own
  directly before step K. one: it counts as one moment. many: its starter made
  a delivery, a sigpending or a sigaction in it, or was sent a signal by a step
  of it.
",
    },
    Topic {
        word: "at",
        also: &[],
        text: "\
at: at K, the answer of a debugger's command: K is the new position.
",
    },
];
