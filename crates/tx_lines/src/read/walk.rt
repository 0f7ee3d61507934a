//! The text of a debugger: a schedule, and the commands that walk over it.

use crate::read::command::Command;
use crate::read::schedule::Schedule;

/// A schedule, and commands that walk over the steps that it makes.
#[derive(Drop)]
pub struct Walk {
    pub schedule: Schedule,
    pub commands: Vec<Command>,
}
