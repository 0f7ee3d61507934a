#![tactic(auto)]
//! A session at a terminal: each line is a step or asks for something, and is answered before the
//! next one is read.
//!
//! A session runs on a `Shell`: an `Interpreter`, which has a `Session` of tx_journal, the form of
//! answers, the version of lines, the refused steps and the names of processes. Lines come from a
//! `Terminal`, a trait with one log of all that comes and goes, so that a contract says the order.
//!
//! A line that spells a step is read at once (tx_lines). Any other line of version 3 means what it
//! means in a text (`meanings.rt`, over tx_translate); then it is read as a step, else as what a
//! session can be asked.
//!
//! `trials.rt` prints only the pieces that a step may change. `changes.rt`, `owners.rt` and
//! `held.rt` find which step changed a piece, what is reserved, and who has a pipe open.
//! `reasons.rt` finds why a step would be refused: what is in its way (`blockers.rt`,
//! `signals.rt`), what it waits for, and who could end that (`waits.rt`, `holders.rt`,
//! `attempts.rt`).
//!
//! What is asked for is done once, and has one `Answer`, printed in a `Form`. tx_script answers
//! the debugger's commands. A step is answered without an `Answer` (`steps.rt`), and kept where it
//! was refused. What is neither is reported as by a check. A refused growth leaves no step half
//! done: a step whose answer could not be printed is taken back, so the history is the one before
//! the line.

mod answers;
mod laws;
mod lines;
mod names;
mod questions;
mod sessions;
mod shell;

pub use laws::a_session_spells_a_schedule;
pub use lines::versions::TextVersion;
pub use sessions::console::Console;
pub use sessions::terminal::{Got, Terminal};
pub use sessions::{ServeFault, serve};
pub use shell::Shell;
