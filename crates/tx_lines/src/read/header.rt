//! The first line of a text.

/// Which grammar a text is of.
#[derive(Clone, Copy)]
pub enum Version {
    One,
    Two,
}

/// Which kind of text the first line begins.
#[derive(Clone, Copy)]
pub enum TextKind {
    Schedule,
    Program,
}

/// What the first line of a text says.
#[derive(Clone, Copy)]
pub struct Header {
    pub version: Version,
    /// How many processes there are at the start: 1 to 64, in a text of the second version to 256.
    pub count: u16,
}
