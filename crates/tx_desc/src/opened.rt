//! An open description, and the count of its names.
ghost use Rattle.std.specs.Prelude.{◌≡◌, ◌<◌, ◌+◌, ◌^◌, Some};
ghost use Rattle.tx_desc.specs.Descriptions.{first_named, with_more, with_fewer};

use tx_base::PipeNo;

/// The side of a pipe that a description is.
#[derive(Clone, Copy)]
pub enum Side {
    Read,
    Write,
}

/// An open description of a pipe (POSIX.1-2017, XBD, Open File Description).
#[derive(Clone, Copy)]
pub struct Desc {
    pub pipe: PipeNo,
    pub side: Side,
    /// Whether O_NONBLOCK is set.
    pub nonblock: bool,
}

impl Desc {
    /// The same description with O_NONBLOCK set or not.
    pub fn with_nonblock(&self, on: bool) -> Desc
        ensures { result ≡ record self.now { nonblock = on } }
    {
        Desc {
            pipe: self.pipe,
            side: self.side,
            nonblock: on,
        }
    }
}

/// A description, with the count of the descriptors that name it.
#[derive(Clone, Copy)]
pub struct Opened {
    pub desc: Desc,
    /// How many descriptors of all processes name it: 1 to 4,096 where the counts are right.
    pub names: u16,
}

impl Opened {
    /// A new description of a side of a pipe, with its first name.
    pub(crate) fn first(pipe: PipeNo, side: Side) -> Opened
        ensures { result ≡ first_named pipe side }
    {
        let desc = Desc {
            pipe,
            side,
            nonblock: false,
        };
        Opened { desc, names: 1 }
    }

    /// The same description with so many names more.
    pub fn more(&self, count: u16) -> Opened
        requires { self.now.names + count < 2 ^ 16 }
        ensures { Some result ≡ with_more count (Some self.now) }
    {
        Opened {
            desc: self.desc,
            names: self.names + count,
        }
    }

    /// The same description with so many names fewer; nothing where no name is left.
    pub fn fewer(&self, count: u16) -> Option<Opened>
        ensures { result ≡ with_fewer count (Some self.now) }
    {
        if count < self.names {
            return Some(Opened {
                desc: self.desc,
                names: self.names - count,
            });
        }
        None
    }
}
