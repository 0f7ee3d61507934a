//! The versions of lines.
ghost use Rattle.std.specs.Prelude.{◌≡◌};
ghost use Rattle.tx_shell.specs.Origins.{grammar_of};

use tx_lines::Version;

/// Of which version the lines of a session are.
#[derive(Clone, Copy)]
pub enum TextVersion {
    One,
    Two,
    Three,
}

impl TextVersion {
    /// The version whose grammar a line is read by, once it is known what it means.
    pub(crate) fn grammar(self) -> Version
        ensures { result ≡ grammar_of self }
    {
        match self {
            TextVersion::One => Version::One,
            TextVersion::Two | TextVersion::Three => Version::Two,
        }
    }
}
