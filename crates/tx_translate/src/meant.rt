//! What a text of any version means.
ghost use Rattle.std.specs.Prelude.{◌≡◌, IfOk};
ghost use Rattle.tx_translate.specs.Meant.{bytes_of, fault_by, line_of, IsMeantBy};

use crate::plain::{Plain, plain_text};
use std::alloc::Global;
use tx_base::NoMemory;
use tx_lines::Fault;

/// The text of version 1 or 2 that a text of any version means.
#[derive(Drop)]
pub enum Meant<'a> {
    /// The text means itself.
    Itself(&'a [u8]),
    /// It is one of version 3.
    Another(Plain),
}

impl<'a> Meant<'a> {
    /// What a text means. The only error is a refused growth of memory.
    pub fn by(alloc: Global, text: &'a [u8]) -> Result<Meant<'a>, NoMemory>
        ensures { IfOk result (IsMeantBy text.now) }
    {
        match plain_text(alloc, text)? {
            Some(plain) => Ok(Meant::Another(plain)),
            None => Ok(Meant::Itself(text)),
        }
    }

    /// The text that is meant, for the readers of the first two versions.
    pub fn as_bytes(&self) -> &[u8]
        ensures { result.now ≡ bytes_of self.now }
    {
        match self {
            Meant::Itself(text) => text,
            Meant::Another(plain) => plain.as_bytes(),
        }
    }

    /// The fault of the text that is meant, at the line of the text itself.
    pub fn own_fault(&self, fault: Fault) -> Fault
        ensures { result ≡ fault_by (line_of self.now) fault }
    {
        match fault {
            Fault::NotALine { line } => Fault::NotALine {
                line: self.own_line(line),
            },
            Fault::NoLabel { line } => Fault::NoLabel {
                line: self.own_line(line),
            },
            Fault::TooLong { line } => Fault::TooLong {
                line: self.own_line(line),
            },
            Fault::Reader | Fault::Writer | Fault::NoMemory => fault,
        }
    }

    /// The line of the text itself that a line of the text that is meant comes from.
    pub fn own_line(&self, line: u64) -> u64
        ensures { result ≡ line_of self.now line }
    {
        match self {
            Meant::Itself(_text) => line,
            Meant::Another(plain) => plain.own_line(line),
        }
    }
}
