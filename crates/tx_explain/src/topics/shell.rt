//! Commands of the shell that the debugger lacks.
ghost use Rattle.std.specs.Prelude.{◌≡◌, map, IsTrue};
ghost use Rattle.std.specs.List.{list_all};
ghost use Rattle.tx_explain.specs.Table.{shell_rows};
ghost use Rattle.tx_explain.specs.Topics.{is_formed, is_page, row_of};

use crate::topic::Topic;

/// Commands of the shell that the debugger lacks.
pub fn topics() -> &'static [Topic]
    ensures rows { map row_of result.now ≡ shell_rows }
    ensures formed { IsTrue (list_all is_formed result.now) }
{
    &TOPICS
}

/// What can be asked for in a session, line by line.
pub fn session_page() -> &'static str
    ensures { IsTrue (is_page result.now) }
{
    SESSION
}

const SESSION: &str = "\
a step     as in a schedule, as 2 store 0 \"hi!\": it is made, and answered
back       takes back the newest step
forward    makes the next step again
goto K     goes to position K, the place after the first K steps
goto end   goes to the place after all steps
state      prints the state
moved K    says if the transaction that step K commits counts as one moment
steps K L  lists steps K to L, and the position; steps K: from K on; steps: all
text       prints the schedule of the steps up to the position, for txos replay
try STEP   says what a step would be answered, and how the state would differ
diff K L   says how the state at position L differs from that at position K
without S  says how the state would differ without the transaction of S
why STEP   says why a step would be refused, what is in its way, and since
           when, or what it waits for; why: the last refused step
owns S     says what the transaction of S has reserved; owns: what each has
holds      pipe N: says which descriptors of which processes have each side of
           pipe N open; desc N: those that name it
when PIECE goes back to the step that changed a piece of the state last
next PIECE goes on to the step that changes it next
PIECE is   proc P, page P N, fd P F, ids P, pending P, queue P, desc D, pipe Q,
           or txn S
name P N   gives process P the name N, which is shown after its number
cut        drops the steps after the position
help WORD  says what a word of a step, a reply or a state means, as help N8
?          prints this list, as help does
quit       ends, as exit and the end of the input do
";

const TOPICS: [Topic; 13] = [
    Topic {
        word: "try",
        also: &[],
        text: "\
try: says what a step would be answered here, and how the state would differ.
  form     try STEP
  answers  the reply, and each line of the state that would go, after -, or
           come, after +. No step is made
  example  try 2 getpid
           ok 2
           - proc 2 parent 1 run point 0 ret 0
           + proc 2 parent 1 run point 1 ret 2
  It answers with steps ahead too.
",
    },
    Topic {
        word: "why",
        also: &[],
        text: "\
why: says why a step would be refused here, or what it would be answered.
  form     why STEP, or why for the step that was refused last
  answers  the step, its refusal and what explain says of that; with N8 also
           what is in its way, and since which step; with N9 what it waits for
  example  why 2 getpid
           2 getpid: it would be answered ok 2
",
    },
    Topic {
        word: "diff",
        also: &[],
        text: "\
diff: says how the states at two positions differ, and stays.
  form     diff K L
  K, L     the places after the first K and the first L accepted steps
  answers  each line of the state at K that is gone at L, after -, or has come,
           after +; nothing if none is; no place if K or L is not there
  example  diff 0 1
           - proc 2 parent 1 run point 0 ret 0
           + proc 2 parent 1 run point 1 ret 2
",
    },
    Topic {
        word: "without",
        also: &[],
        text: "\
without: says how the state would differ if a transaction were aborted here.
  form     without S
  S        the process that began the transaction
  answers  each line of the state that would go, after -, or come, after +; or
           no transaction if S began none that is live
  example  without 2
           - proc 2 parent 1 run point 1 ret 0
           + proc 2 parent 1 run point 1 ret -202
           - txn 2 open 2 ended -
",
    },
    Topic {
        word: "owns",
        also: &[],
        text: "\
owns: says what the live transactions have reserved.
  form     owns, or owns S for the one that process S began
  answers  a line each: its starter, and the numbers of its processes, of its
           descriptions and of its pipes; no transaction if there is none
  example  owns
           owns 2 proc 2,4 desc 0 pipe -
",
    },
    Topic {
        word: "holds",
        also: &[],
        text: "\
holds: says which descriptors of which processes have a pipe open.
  form     holds pipe N, or holds desc N for one description
  answers  a line for each side of pipe N, with its descriptors by process; for
           description N its side and its pipe too; no pipe or no description
           if there is none of that number
  example  holds pipe 0
           its read side is open: descriptor 0 of process 4
           its write side is open: descriptor 1 of process 3, 1 of process 4
",
    },
    Topic {
        word: "when",
        also: &[],
        text: "\
when: goes back to the step that changed a piece of the state last.
  form     when PIECE
  PIECE    proc P, page P N, fd P F, ids P, pending P, queue P, desc D, pipe Q,
           or txn S
  answers  at K: STEP, and each line of the piece that went, after -, or came,
           after +; at 0: no change if no step changed it
  example  when page 2 0
           at 2: 2 map 0
           + page 0 rw
",
    },
    Topic {
        word: "next",
        also: &[],
        text: "\
next: goes on to the step that changes a piece of the state next.
  form     next PIECE, with a piece as when has it
  answers  at K: STEP, and each line of the piece that went, after -, or came,
           after +; at K: no change, at the end, if no step changes it
  example  next page 2 0
           at 2: 2 map 0
           + page 0 rw
",
    },
    Topic {
        word: "steps",
        also: &[],
        text: "\
steps: lists the steps with their replies, and the position.
  form     steps, steps K for those from step K on, or steps K L for K to L
  answers  a line for each step, and at K after the last one that is made
  example  steps
           1 w1 2 getpid : ok 2
           at 1
",
    },
    Topic {
        word: "text",
        also: &[],
        text: "\
text: prints the schedule of the steps up to the position.
  form     text
  answers  a text whose replay leaves the same state
  example  text
           txos 2 schedule 2
           2 getpid
",
    },
    Topic {
        word: "cut",
        also: &[],
        text: "\
cut: drops the steps after the position, so that others can be made.
  form     cut
  answers  at K
  example  cut
           at 3
",
    },
    Topic {
        word: "help",
        also: &["?"],
        text: "\
help: lists the commands of the shell, or says what a word means.
  form     help, or help WORD
  answers  the commands; of a word what txos explain says
  example  help F8
           F8: a thread could not be started.
",
    },
    Topic {
        word: "quit",
        also: &[],
        text: "\
quit: ends the shell's session, as the end of the input does.
  form     quit, or exit alone on a line
  answers  nothing
",
    },
];
