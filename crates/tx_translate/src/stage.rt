//! The stages of a text between its lines.

use tx_lines::TextKind;

/// The stage of a text before a line.
#[derive(Clone, Copy)]
pub enum Stage {
    /// Its header is yet to come.
    Heading,
    /// Its header said its kind.
    Within(TextKind),
}
