//! All topics, in groups.
ghost use Rattle.std.specs.Prelude.{◌≡◌, map, IsTrue};
ghost use Rattle.std.specs.List.{list_all};
ghost use Rattle.tx_explain.specs.Table.{all_rows};
ghost use Rattle.tx_explain.specs.Topics.{is_formed_group, rows_of_group};

mod calls;
mod commands;
mod debugger;
mod errors;
mod faults;
mod notices;
mod notions;
mod other_lines;
mod process_lines;
mod refusals;
mod replies;
mod sent;
pub mod shell;
mod signal_lines;
mod statuses;
mod steps;
mod texts;

use crate::topic::Group;

/// All groups, in the order in which they are listed.
#[tactic(auto, unfolding(crate::specs::Table::all_rows))]
pub fn groups() -> [Group; 23]
    ensures rows { map rows_of_group result ≡ all_rows }
    ensures formed { IsTrue (list_all is_formed_group result) }
{
    [
        Group {
            title: "commands of txos",
            topics: commands::topics(),
        },
        Group {
            title: "refusals of a step, as in: no N9",
            topics: refusals::topics(),
        },
        Group {
            title: "faults, as in: txos: F1 line 2",
            topics: faults::topics(),
        },
        Group {
            title: "signals, by number too, as in: pending 10,17",
            topics: sent::topics(),
        },
        Group {
            title: "signals that the kernel sends, and those that queue",
            topics: notices::topics(),
        },
        Group {
            title: "errors of a call, by number too, as in: ok -22",
            topics: errors::topics(),
        },
        Group {
            title: "statuses of an abort, as in: aborted 201",
            topics: statuses::topics(),
        },
        Group {
            title: "replies to a step",
            topics: replies::topics(),
        },
        Group {
            title: "calls on memory",
            topics: calls::memory::topics(),
        },
        Group {
            title: "calls on processes",
            topics: calls::processes::topics(),
        },
        Group {
            title: "calls on ids",
            topics: calls::ids::topics(),
        },
        Group {
            title: "calls on descriptors and pipes",
            topics: calls::descriptors::topics(),
        },
        Group {
            title: "calls on signals",
            topics: calls::signals::topics(),
        },
        Group {
            title: "calls of scripts, and on the console",
            topics: calls::scripts::topics(),
        },
        Group {
            title: "calls of transactions",
            topics: calls::transactions::topics(),
        },
        Group {
            title: "other steps",
            topics: steps::topics(),
        },
        Group {
            title: "commands of the debugger, after the line debug, and of the shell",
            topics: debugger::topics(),
        },
        Group {
            title: "commands of the shell alone",
            topics: shell::topics(),
        },
        Group {
            title: "a process in a state",
            topics: process_lines::topics(),
        },
        Group {
            title: "signals of a process in a state",
            topics: signal_lines::topics(),
        },
        Group {
            title: "descriptions and transactions in a state",
            topics: other_lines::topics(),
        },
        Group {
            title: "words of texts",
            topics: texts::topics(),
        },
        Group {
            title: "what the texts are about",
            topics: notions::topics(),
        },
    ]
}
