//! The kinds of objects that steps name and transactions reserve.
ghost use Rattle.std.specs.Prelude.{◌≡◌, ◌<◌};
ghost use Rattle.tx_reserve.specs.Objects.{object_of};
ghost use Rattle.tx_waits.specs.Kinds.{limit_of, list_of, object_in, word_of};

use tx_base::{DescNo, Pid, PipeNo};
use tx_reserve::Object;

/// A kind of objects that steps name and transactions reserve.
#[derive(Clone, Copy)]
pub enum Kind {
    Processes,
    Descriptions,
    Pipes,
}

impl Kind {
    /// The limit of the kind's numbers: processes are 1 to 256, descriptions 0 to 63, pipes 0 to
    /// 31.
    pub fn limit(self) -> u16
        ensures { result ≡ limit_of self }
    {
        match self {
            Kind::Processes => 257,
            Kind::Descriptions => 64,
            Kind::Pipes => 32,
        }
    }

    /// The object of a number, which must be below the limit.
    pub fn object(self, number: u16) -> Object
        requires { number < limit_of self }
        ensures { object_of result ≡ object_in self number }
    {
        match self {
            Kind::Processes => Object::Proc(Pid(number)),
            Kind::Descriptions => Object::Desc(DescNo(number as u8)),
            Kind::Pipes => Object::Pipe(PipeNo(number as u8)),
        }
    }

    /// What an object of the kind is called in the text of a state, with a space after it.
    pub fn word(self) -> &'static str
        ensures { result.now ≡ word_of self }
    {
        match self {
            Kind::Processes => "proc ",
            Kind::Descriptions => "desc ",
            Kind::Pipes => "pipe ",
        }
    }

    /// What JSON calls a list of objects of the kind.
    pub fn list(self) -> &'static str
        ensures { result.now ≡ list_of self }
    {
        match self {
            Kind::Processes => "procs",
            Kind::Descriptions => "descs",
            Kind::Pipes => "pipes",
        }
    }
}
