//! The form of the answers to steps and commands.

/// The form of the answers to steps and commands.
#[derive(Clone, Copy)]
pub enum Form {
    /// As lines that a person reads.
    Text,
    /// Each answer as a line of JSON.
    Json,
}
