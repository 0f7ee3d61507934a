//! What a call on descriptors gave up.
use crate::opened::Desc;
use tx_base::DescNo;

/// A name that was given up.
#[derive(Clone, Copy)]
pub struct Given {
    /// The description that it was a name of.
    pub number: DescNo,
    /// That description, where this was its last name: it is gone.
    pub gone: Option<Desc>,
}

/// What a dup2 did.
#[derive(Clone, Copy)]
pub struct Renamed {
    /// The descriptor that names the other one's description now.
    pub fd: usize,
    /// What that descriptor named before; nothing where it was free, or the two are the same.
    pub given: Option<Given>,
}
