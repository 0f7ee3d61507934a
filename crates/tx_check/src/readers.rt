//! The commands that read texts.
ghost use Rattle.std.specs.Prelude.{◌≡◌};
ghost use Rattle.tx_check.specs.Readers as spec;

use crate::kinds::Kind;
use crate::trouble::LineTrouble;

/// The command that must read a text.
#[derive(Clone, Copy)]
pub enum Reader {
    /// That of the kind which the text is meant to be.
    Any,
    /// `replay`, which reads schedules.
    Replay,
    /// `debug`, which reads schedules with commands.
    Debug,
    /// `run`, which reads programs.
    Run,
    /// `picture`, which reads schedules.
    Picture,
    /// `json`, which reads schedules, with commands or without.
    Json,
}

impl Reader {
    /// The kind of text that the command reads, by the kind that a text is meant to be.
    pub(crate) fn kind(self, meant: Kind) -> Kind
        ensures { result ≡ spec.kind_for self meant }
    {
        match (self, meant) {
            (Reader::Any, _) => meant,
            (Reader::Debug, _) | (Reader::Json, Kind::Walk) => Kind::Walk,
            (Reader::Run, _) => Kind::Program,
            (Reader::Replay | Reader::Picture | Reader::Json, _) => Kind::Schedule,
        }
    }
}

/// What is wrong with a text that must be of one kind, and is meant to be of the other: at the word
/// in that place of its line.
pub(crate) fn kind_trouble(kind: Kind, meant: Kind) -> (LineTrouble, usize) {
    match (kind, meant) {
        (_, Kind::Program) => (LineTrouble::ProgramHere, 2),
        (Kind::Program, _) => (LineTrouble::ScheduleHere, 2),
        (Kind::Schedule, _) => (LineTrouble::CommandsHere, 0),
        (Kind::Walk, _) => (LineTrouble::NoCommands, 0),
    }
}

/// What is said first of a text of that kind, with its end.
pub(crate) fn heading(kind: Kind) -> &'static str
    ensures { result.now ≡ spec.heading kind }
{
    match kind {
        Kind::Schedule => "read as a schedule, for txos replay:\n",
        Kind::Walk => "read as a schedule with commands, for txos debug:\n",
        Kind::Program => "read as a program, for txos run:\n",
    }
}
