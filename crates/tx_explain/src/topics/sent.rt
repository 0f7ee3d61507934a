//! The signals that programs send, by name and by number.
ghost use Rattle.std.specs.Prelude.{◌≡◌, map, IsTrue};
ghost use Rattle.std.specs.List.{list_all};
ghost use Rattle.tx_explain.specs.Table.{sent_rows};
ghost use Rattle.tx_explain.specs.Topics.{is_formed, row_of};

use crate::topic::Topic;

/// The signals that programs send, by name and by number.
pub fn topics() -> &'static [Topic]
    ensures rows { map row_of result.now ≡ sent_rows }
    ensures formed { IsTrue (list_all is_formed result.now) }
{
    &TOPICS
}

const TOPICS: [Topic; 9] = [
    Topic {
        word: "SIGHUP",
        also: &["HUP", "1"],
        text: "\
SIGHUP: signal 1, whose usual action is to end the process.
  spelled  1, in texts of version 3 HUP or SIGHUP too
  As an answer -1 is EPERM.
",
    },
    Topic {
        word: "SIGINT",
        also: &["INT", "2"],
        text: "\
SIGINT: signal 2, whose usual action is to end the process.
  spelled  2, in texts of version 3 INT or SIGINT too
",
    },
    Topic {
        word: "SIGQUIT",
        also: &["3"],
        text: "\
SIGQUIT: signal 3, whose usual action is to end the process.
  spelled  3, in texts of version 3 QUIT or SIGQUIT too
  As an answer -3 is ESRCH.
",
    },
    Topic {
        word: "SIGABRT",
        also: &["ABRT", "6"],
        text: "\
SIGABRT: signal 6, whose usual action is to end the process.
  spelled  6, in texts of version 3 ABRT or SIGABRT too
",
    },
    Topic {
        word: "SIGKILL",
        also: &["9"],
        text: "\
SIGKILL: signal 9, which ends the process; never caught, ignored or blocked.
  spelled  9, in texts of version 3 KILL or SIGKILL too
  While it is pending, other steps of its process are N7. From outside, it
  dooms a starter's transaction (N5).
  As an answer -9 is EBADF.
",
    },
    Topic {
        word: "SIGUSR1",
        also: &["USR1", "10"],
        text: "\
SIGUSR1: signal 10, whose usual action is to end the process.
  spelled  10, in texts of version 3 USR1 or SIGUSR1 too
  As an answer -10 is ECHILD.
",
    },
    Topic {
        word: "SIGUSR2",
        also: &["USR2", "12"],
        text: "\
SIGUSR2: signal 12, whose usual action is to end the process.
  spelled  12, in texts of version 3 USR2 or SIGUSR2 too
",
    },
    Topic {
        word: "SIGALRM",
        also: &["ALRM", "14"],
        text: "\
SIGALRM: signal 14, whose usual action is to end the process.
  spelled  14, in texts of version 3 ALRM or SIGALRM too
  As an answer -14 is EFAULT.
",
    },
    Topic {
        word: "SIGTERM",
        also: &["TERM", "15"],
        text: "\
SIGTERM: signal 15, whose usual action is to end the process.
  spelled  15, in texts of version 3 TERM or SIGTERM too
",
    },
];
