//! What a call on descriptors puts in place.
use crate::given::{Given, Renamed};
use crate::opened::Opened;
use tx_base::DescNo;

/// What a descriptor will name. A plan of a call makes it, and `FdTable::swap` puts it in place.
#[derive(Clone, Copy)]
pub struct NewName {
    /// The descriptor: 0 to 15.
    pub fd: usize,
    /// The description that it will name; nothing where it will be free.
    pub name: Option<DescNo>,
}

/// What a description number will have. A plan of a call makes it, and `Descs::swap` puts it in
/// place.
#[derive(Clone, Copy, Default)]
pub struct NewDesc {
    /// The number: 0 to 63.
    pub number: DescNo,
    /// The description with the count of its names; nothing where it goes.
    pub opened: Option<Opened>,
}

/// What a `pipe_pair` changes.
#[derive(Clone, Copy)]
pub struct PipePlan {
    /// The descriptor that will name the reading side.
    pub read_name: NewName,
    /// The descriptor that will name the writing side.
    pub write_name: NewName,
    pub read: NewDesc,
    pub write: NewDesc,
}

/// What a `dup` changes.
#[derive(Clone, Copy)]
pub struct DupPlan {
    pub name: NewName,
    /// The description, with one name more.
    pub desc: NewDesc,
}

/// What a `dup2` changes.
#[derive(Clone, Copy)]
pub struct Dup2Plan {
    /// The answer of the call.
    pub renamed: Renamed,
    /// Nothing where the second descriptor names that description already.
    pub rename: Option<Rename>,
}

/// A descriptor that will name another description than it does.
#[derive(Clone, Copy)]
pub struct Rename {
    pub name: NewName,
    /// The description that it will name, with one name more.
    pub named: NewDesc,
    /// The description that it named, with one name fewer; nothing where it was free.
    pub left: Option<NewDesc>,
}

/// What a `close` changes.
#[derive(Clone, Copy)]
pub struct ClosePlan {
    pub name: NewName,
    /// The description, with one name fewer.
    pub desc: NewDesc,
    /// The answer of the call.
    pub given: Given,
}
