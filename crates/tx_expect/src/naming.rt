//! Which processes of a text have a name.

use std::alloc::{AllocError, Global};
use tx_base::Pid;
use tx_translate::{naming_in, process_in, split_word};

/// The processes that have a name, by the lines of a text so far.
#[derive(Drop)]
pub struct Names {
    /// How many processes there are at the start, once the header was there.
    booted: u16,
    /// The processes that were forked.
    forked: Vec<Pid>,
    named: Vec<Pid>,
}

impl Names {
    /// Before the first line.
    pub fn none(alloc: Global) -> Names {
        Names {
            booted: 0,
            forked: Vec::new(alloc),
            named: Vec::new(alloc),
        }
    }

    /// Takes the header.
    pub fn begin(&mut self, header: &[u8]) {
        if let Some(Pid(count)) = booted_by(header) {
            self.booted = count;
        }
    }

    /// Takes the next line after the header. Returns the column of the process's number where it
    /// gives a name to a process that has one.
    ///
    /// The only error is that a growth of memory was refused.
    pub fn second_name(&mut self, line: &[u8]) -> Result<Option<usize>, AllocError> {
        if let Some(child) = forked_in(line) {
            self.fork(child)?;
        }
        let Some(naming) = naming_in(line) else {
            return Ok(None);
        };
        if self.named.iter().any(|named| *named == naming.process) {
            return Ok(second_column(line));
        }
        self.named.push(naming.process)?;
        Ok(None)
    }

    /// Forks a process: where one had its number before, it has no name.
    fn fork(&mut self, child: Pid) -> Result<(), AllocError> {
        let was_forked = self.forked.iter().any(|forked| *forked == child);
        if child.0 <= self.booted || was_forked {
            self.named.retain(|named| *named != child);
        }
        if !was_forked {
            self.forked.push(child)?;
        }
        Ok(())
    }
}

/// How many processes a header begins with.
fn booted_by(header: &[u8]) -> Option<Pid> {
    let (_front, rest) = split_word(header)?;
    let (_version, rest) = split_word(rest)?;
    let (_kind, rest) = split_word(rest)?;
    let (count, _rest) = split_word(rest)?;
    process_in(count)
}

/// The process that the step of a line forks, if it does.
fn forked_in(line: &[u8]) -> Option<Pid> {
    let (_process, rest) = split_word(line)?;
    let (call, rest) = split_word(rest)?;
    if call != b"fork".as_slice() {
        return None;
    }
    let (child, _rest) = split_word(rest)?;
    process_in(child)
}

/// The column of the second word of a line.
fn second_column(line: &[u8]) -> Option<usize> {
    let (_first, rest) = split_word(line)?;
    let (second, rest) = split_word(rest)?;
    Some(line.len() - rest.len() - second.len() + 1)
}
