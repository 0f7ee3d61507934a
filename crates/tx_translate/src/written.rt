//! What the author of a schedule wrote besides what it means: the lines of its steps, and the
//! names of processes.
ghost use Rattle.std.specs.Prelude.{◌≡◌, IfOk, OnOk, fold};
ghost use Rattle.tx_translate.specs.OwnLines.{own_lines};
ghost use Rattle.tx_translate.specs.Written.{noted, notes_as, notes_of};

use crate::lines::split_line;
use crate::names::{Naming, naming_of};
use crate::plain::is_third;
use crate::words::split_word;
use std::alloc::{AllocError, Global};
use tx_base::NoMemory;

/// A name that a line gives to a process, by its place.
#[derive(Clone, Copy)]
pub struct Named<'a> {
    /// How many steps are before the line.
    pub position: usize,
    pub naming: Naming<'a>,
}

/// What the author of a schedule wrote. Of a text of the first two versions, which means itself,
/// it has nothing.
#[derive(Drop)]
pub struct Written<'a> {
    /// The header, and the line of each step.
    pub lines: Vec<&'a [u8]>,
    /// The names of processes, in the order in which they are given.
    pub names: Vec<Named<'a>>,
}

impl<'a> Written<'a> {
    /// What the author of a schedule wrote. The only error is a refused growth of memory.
    pub fn of(alloc: Global, text: &'a [u8]) -> Result<Written<'a>, NoMemory>
        ensures { IfOk result (λ written. notes_as written ≡ notes_of text.now) }
    {
        let mut written = Written {
            lines: Vec::new(alloc),
            names: Vec::new(alloc),
        };
        if is_third(text) {
            written.add_lines(text)?;
        }
        Ok(written)
    }

    /// Appends the lines of a text.
    fn add_lines(&mut self, text: &'a [u8]) -> Result<(), AllocError>
        ensures { OnOk result
            (notes_as self.new ≡ fold noted (notes_as self.old) (own_lines text.now)) }
    {
        let mut left = text;
        while let Some((line, rest)) = split_line(left) {
            self.add_line(line)?;
            left = rest;
        }
        Ok(())
    }

    /// Appends a line, or the name that it gives. Nothing where it has no word.
    fn add_line(&mut self, line: &'a [u8]) -> Result<(), AllocError>
        ensures { OnOk result (notes_as self.new ≡ noted (notes_as self.old) line.now) }
    {
        let Some((first, others)) = split_word(line) else {
            return Ok(());
        };
        match naming_of(first, others) {
            Some(naming) => {
                let position = self.lines.len().saturating_sub(1);
                self.names.push(Named { position, naming })?;
            }
            None => self.lines.push(line)?,
        }
        Ok(())
    }
}
