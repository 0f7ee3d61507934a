//! The states of the reading of a line.
ghost use Rattle.std.specs.Prelude.{◌≡◌};
ghost use Rattle.tx_translate.specs.Words.{is_blank};

/// The state of reading a line, after a byte of it or before its first. These states define what a
/// word is; the loops of `words.rt` each stay in one.
#[derive(Clone, Copy)]
pub enum Reading {
    /// After a space or a tab, or before all.
    Between,
    /// In a word, and in no string.
    InWord,
    /// In a string.
    InString,
    /// In a string, after a `\` that escapes the next byte.
    AfterBackslash,
    /// After `#`.
    InComment,
}

/// Whether a byte is a space or a tab.
pub fn is_blank(byte: u8) -> bool
    ensures { result ≡ is_blank byte }
{
    byte == b' ' || byte == b'\t'
}
