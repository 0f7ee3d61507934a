//! The answers to a text, or to a run, as lines of JSON.
//!
//! Of a schedule there is a line for each reply, and one for the state that the last step left
//! (`steps.rt`); of commands one for what each of them responds (`responses.rt`). The lines are
//! those that tx_json writes, so they are what a shell answers in JSON to the same steps and
//! commands. Of a session in which workers made the steps there is a line for each entry of its
//! journal, and one for the state (`runs.rt`).

mod responses;
mod runs;
mod steps;
mod texts;

pub use responses::{put_line, response_line};
pub use runs::run_lines;
pub use texts::{json_text, write_json};
