//! A step of a member, as what leads over it has it.
use crate::marking::Marked;
use tx_base::Pid;
use tx_reserve::Objects;

/// A step inside the starter's transaction, after which that is live. What takes it back has what
/// was there before it; what makes it again, what was there after it.
#[derive(Clone, Copy)]
pub struct MemberStep {
    pub starter: Pid,
    /// How many changes are its own: the last of the log, or, once it is taken back, on top of the
    /// stack.
    pub count: usize,
    /// What the transaction had reserved.
    pub objects: Objects,
    /// The mark, if the step changes one.
    pub marked: Option<Marked>,
}
