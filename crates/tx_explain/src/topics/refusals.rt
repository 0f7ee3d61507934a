//! Why a step is refused.
ghost use Rattle.std.specs.Prelude.{◌≡◌, map, IsTrue};
ghost use Rattle.std.specs.List.{list_all};
ghost use Rattle.tx_explain.specs.Table.{refusal_rows};
ghost use Rattle.tx_explain.specs.Topics.{is_formed, row_of};

use crate::topic::Topic;

/// Why a step is refused.
pub fn topics() -> &'static [Topic]
    ensures rows { map row_of result.now ≡ refusal_rows }
    ensures formed { IsTrue (list_all is_formed result.now) }
{
    &TOPICS
}

const TOPICS: [Topic; 14] = [
    Topic {
        word: "N1",
        also: &["NoProcess"],
        text: "\
N1: there is no process of that number (NoProcess).
  No process of the number at the front of the line (1 to 256, in version 1 to
  64) was there at the start or forked, or a waitpid or an abort removed it.
",
    },
    Topic {
        word: "N2",
        also: &["NotRunning"],
        text: "\
N2: the process of the step: it has ended (NotRunning).
  It ended by exit or by a signal, and was not yet waited for.
",
    },
    Topic {
        word: "N3",
        also: &["BadNumber"],
        text: "\
N3: a number that the step chooses is out of range, or both descriptions of a
pipe have one number (BadNumber).
  fork C: C is 1 to 256, in version 1 to 64.
  pipe Q R W: Q is 0 to 31, R and W are 0 to 63, and R is not W.
",
    },
    Topic {
        word: "N4",
        also: &["NumberTaken"],
        text: "\
N4: a number that the step chooses is in use (NumberTaken).
  fork C: a process C runs, or has ended and was not waited for.
  pipe Q R W: the pipe Q, the description R or the description W is there.
",
    },
    Topic {
        word: "N5",
        also: &["Doomed"],
        text: "\
N5: its transaction is doomed (Doomed).
  SIGKILL would be pending at the transaction's starter after an abort. Only
  the step kernel S, with S the starter, ends it; the reply is aborted 203.
",
    },
    Topic {
        word: "N6",
        also: &["Parked"],
        text: "\
N6: it has ended its part of its transaction (Parked).
  It waits until the transaction is committed or aborted.
",
    },
    Topic {
        word: "N7",
        also: &["KillPending"],
        text: "\
N7: SIGKILL is pending at it, and the step does not deliver it (KillPending).
  Until the step P deliver 9 is made, each other step of it is N7.
",
    },
    Topic {
        word: "N8",
        also: &["Busy"],
        text: "\
N8: another transaction is in the way (reservations, two answers) (Busy).
  no N8 H: process H began it; of several the lowest is named. It has reserved
  what the step needs, or the step signals its starter and the answer would
  differ if it had just been aborted.
  Make the step again when that transaction is committed or aborted; kernel H
  aborts it.
",
    },
    Topic {
        word: "N9",
        also: &["Wait"],
        text: "\
N9: the call waits: a read, a write or a waitpid (Wait).
  A read of an empty pipe, a write of more than there is room for, a waitpid
  for a child that runs. Make the step again later; nothing is blocked
  meanwhile.
",
    },
    Topic {
        word: "N10",
        also: &["NotDeliverable"],
        text: "\
N10: the signal can't be delivered now (NotDeliverable).
  It is not pending, is in the mask, or is a realtime signal and a lower
  realtime number is pending outside the mask.
",
    },
    Topic {
        word: "N11",
        also: &["FramesFull"],
        text: "\
N11: a caught delivery with four frames in use (FramesFull).
  The signal stays pending. Each sigreturn takes the newest frame away.
",
    },
    Topic {
        word: "N12",
        also: &["NoTransaction"],
        text: "\
N12: the kernel's abort of a number that is no live starter (NoTransaction).
  kernel P needs a live transaction that process P began.
",
    },
    Topic {
        word: "N13",
        also: &["NoMemory"],
        text: "\
N13: a growth of memory was refused (NoMemory).
  It is not reported: it ends a replay with F6.
",
    },
    Topic {
        word: "N14",
        also: &["Deferred"],
        text: "\
N14: the transaction defers the delivery (Deferred).
  It was begun by sys_xbegin defer. Signal 9 is delivered all the same; others
  stay pending until the transaction is committed or aborted.
",
    },
];
