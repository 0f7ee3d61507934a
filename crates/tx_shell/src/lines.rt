//! The text of a line.
ghost use Rattle.std.specs.Prelude.{◌≡◌, IfOk};
ghost use Rattle.tx_shell.specs.Origins.{text_of};

pub mod asks;
pub mod meanings;
pub mod openings;
pub mod pieces;
pub mod versions;

use std::alloc::{AllocError, Global};

/// The text of a line on its own.
pub fn text_of(alloc: Global, line: &[u8]) -> Result<Vec<u8>, AllocError>
    ensures { IfOk result (λ text. text.items ≡ text_of line.now) }
{
    let mut text = Vec::new(alloc);
    text.extend_from_slice(line)?;
    text.push(b'\n')?;
    Ok(text)
}
