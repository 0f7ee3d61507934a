//! The traits of the ends: of what is read from, and of what is written to.

/// What a read or a write did.
#[derive(Clone, Copy)]
pub enum Flow {
    /// It moved so many bytes.
    Bytes(usize),
    /// It was interrupted, and moved nothing.
    Again,
    /// It failed, and moved nothing.
    Failed,
}

/// What bytes are read from. A contract names the bytes that it has left, where they are known,
/// and counts its interruptions and failures.
pub trait Source {
    ghost use Rattle.std.specs.Prelude.{List, Option, ℕ};
    ghost use Rattle.tx_lines.specs.Ends.{Counts, HasRoom, Reads};

    ghost left: { Self → Option (List ℕ) };

    ghost counts: { Self → Counts };

    /// Reads bytes to the front of the buffer. It reads none only at the end, or into an empty
    /// buffer.
    fn read(&mut self, buffer: &mut [u8]) -> Flow
        requires { HasRoom (counts self.old) }
        ensures { Reads (left self.old) (counts self.old) result (left self.new) (counts self.new)
            buffer.new };
}

/// What bytes are written to. A contract names the bytes that it holds, where they are known, and
/// counts its interruptions, its failures, and the writes that took no byte.
pub trait Sink {
    ghost use Rattle.std.specs.Prelude.{List, Option, ℕ};
    ghost use Rattle.tx_lines.specs.Ends.{Counts, HasRoom, Writes};

    ghost written: { Self → Option (List ℕ) };

    ghost counts: { Self → Counts };

    /// Writes bytes from the front of those that are given.
    fn write(&mut self, bytes: &[u8]) -> Flow
        requires { HasRoom (counts self.old) }
        ensures { Writes (written self.old) (counts self.old) bytes.now result (written self.new)
            (counts self.new) };
}
