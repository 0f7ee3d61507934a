//! The bytes of a pipe: at most 512, the oldest first.
ghost use Rattle.std.specs.Bool.{OnTrue, OnFalse};
ghost use Rattle.std.specs.Prelude.{◌≡◌, ◌+◌, ◌-◌, ◌≤◌, ◌↔◌, [], ◌++◌, IsTrue, length, min, take, drop};
ghost use Rattle.tx_pipe.specs.Exchanges.{can_exchange, front_exchanged, back_exchanged, front_given, back_given, count_given};
ghost use Rattle.tx_base.specs.declared.limits.TheConstants.{PIPE_BYTES};

use arrayvec::ArrayVec;
use std::marker::Model;
use std::mem;
use tx_base::PIPE_BYTES;

/// The bytes that were written to a pipe and are not read yet, the oldest first: 0 to 512 of them.
/// Contracts see the list of these bytes.
#[derive(Drop)]
pub struct Pipe {
    bytes: ArrayVec<u8, PIPE_BYTES>,
}

impl Model for Pipe {
    ghost use Rattle.std.specs.Prelude.{ℕ, List};

    ghost Value = { List ℕ };

    ghost view = { λ pipe. pipe.bytes.items };
}

impl Pipe {
    /// An empty pipe. POSIX.1-2017, XSH, pipe().
    pub fn new() -> Pipe
        ensures { result ≡ [] }
    {
        Pipe {
            bytes: ArrayVec::new(),
        }
    }

    /// How many bytes it holds: 0 to 512.
    pub fn len(&self) -> usize
        ensures held { result ≡ length self.now }
        ensures fits { length self.now ≤ PIPE_BYTES }
    {
        self.bytes.len()
    }

    /// Whether it holds nothing.
    pub fn is_empty(&self) -> bool
        ensures { IsTrue result ↔ (self.now ≡ []) }
    {
        self.bytes.is_empty()
    }

    /// How many bytes it has room for: 0 to 512.
    pub fn room(&self) -> usize
        ensures { length self.now + result ≡ PIPE_BYTES }
    {
        self.bytes.remaining_capacity()
    }

    /// All its bytes, the oldest first.
    pub fn bytes(&self) -> &[u8]
        ensures whole { result.now ≡ self.now }
        ensures fits { length self.now ≤ PIPE_BYTES }
    {
        self.bytes.as_slice()
    }

    /// Appends all the bytes, or none of them: false where there is less room than that, and the
    /// pipe is then as it was. POSIX.1-2017, XSH, write(), of up to PIPE_BUF bytes to a pipe. More
    /// bytes than that never fit: own rule.
    pub fn write(&mut self, bytes: &[u8]) -> bool
        ensures fits { IsTrue result ↔ (length self.old + length bytes.now ≤ PIPE_BYTES) }
        ensures appended { OnTrue result (self.new ≡ self.old ++ bytes.now) }
        ensures unchanged { OnFalse result (self.new ≡ self.old) }
    {
        self.bytes.try_extend_from_slice(bytes).is_ok()
    }

    /// Takes bytes from the front, as many as are held and there is room for, and answers how many.
    /// They are written to the front of the room, and the rest of it stays as it was. It takes 0
    /// where the pipe is empty or there is no room. POSIX.1-2017, XSH, read(), from a pipe.
    pub fn read(&mut self, into: &mut [u8]) -> usize
        ensures count { result ≡ min (length into.old) (length self.old) }
        ensures taken { into.new ≡ take result self.old ++ drop result into.old }
        ensures left { self.new ≡ drop result self.old }
        ensures fits { length self.old ≤ PIPE_BYTES }
    {
        let count = into.len().min(self.len());
        into[..count].copy_from_slice(&self.bytes[..count]);
        drop_front(&mut self.bytes, count);
        count
    }

    /// Puts bytes at the front, before those that are held; they must fit. It undoes a read that
    /// took them. Own rule.
    pub fn put_back(&mut self, bytes: &[u8])
        requires { length bytes.now + length self.old ≤ PIPE_BYTES }
        ensures { self.new ≡ bytes.now ++ self.old }
    {
        put_front(&mut self.bytes, bytes);
    }

    /// Removes so many of the last bytes; so many must be held. It undoes a write of so many. Own
    /// rule.
    pub fn take_back(&mut self, count: usize)
        requires { count ≤ length self.old }
        ensures { self.new ≡ take (length self.old - count) self.old }
    {
        let kept = self.len() - count;
        self.bytes.truncate(kept);
    }

    /// Exchanges the bytes of two pipes. A second exchange takes the first one back. Own rule.
    pub fn swap(&mut self, other: &mut Pipe)
        ensures exchanged { self.new ≡ other.old }
        ensures given { other.new ≡ self.old }
    {
        mem::swap(&mut self.bytes, &mut other.bytes);
    }

    /// Exchanges the first so many bytes for those of the other pipe. The number is then that of
    /// the bytes that came in, so a second exchange takes the first one back. Nothing happens where
    /// fewer bytes are held, or those that would come in don't fit. Own rule.
    pub fn swap_front(&mut self, count: &mut usize, other: &mut Pipe)
        ensures exchanged { self.new ≡ front_exchanged count.old other.old self.old }
        ensures given { other.new ≡ front_given count.old other.old self.old }
        ensures count { count.new ≡ count_given count.old other.old self.old }
    {
        if !self.can_exchange(*count, other) {
            return;
        }
        let coming = other.len();
        if coming == 0 {
            self.give_front(*count, other);
        } else {
            self.trade_front(*count, other);
        }
        *count = coming;
    }

    /// Exchanges the last so many bytes for those of the other pipe. The number is then that of
    /// the bytes that came in, so a second exchange takes the first one back. Nothing happens where
    /// fewer bytes are held, or those that would come in don't fit. Own rule.
    pub fn swap_back(&mut self, count: &mut usize, other: &mut Pipe)
        ensures exchanged { self.new ≡ back_exchanged count.old other.old self.old }
        ensures given { other.new ≡ back_given count.old other.old self.old }
        ensures count { count.new ≡ count_given count.old other.old self.old }
    {
        if !self.can_exchange(*count, other) {
            return;
        }
        let coming = other.len();
        if *count == 0 {
            self.take_all(other);
        } else {
            self.trade_back(*count, other);
        }
        *count = coming;
    }

    /// Gives the first so many bytes to a pipe that is empty: a read.
    fn give_front(&mut self, count: usize, other: &mut Pipe)
        requires held { count ≤ length self.old }
        requires empty { other.old ≡ [] }
        ensures left { self.new ≡ drop count self.old }
        ensures given { other.new ≡ take count self.old }
    {
        let _fits = other.write(&self.bytes[..count]);
        drop_front(&mut self.bytes, count);
    }

    /// Takes all bytes of the other pipe, which must fit, to the back: a write.
    fn take_all(&mut self, other: &mut Pipe)
        requires { length other.old + length self.old ≤ PIPE_BYTES }
        ensures taken { self.new ≡ self.old ++ other.old }
        ensures empty { other.new ≡ [] }
    {
        let _fits = self.write(other.bytes());
        other.bytes.clear();
    }

    /// Exchanges the first so many bytes for those of the other pipe, which must fit.
    fn trade_front(&mut self, count: usize, other: &mut Pipe)
        requires held { count ≤ length self.old }
        requires fits { length other.old + length (drop count self.old) ≤ PIPE_BYTES }
        ensures exchanged { self.new ≡ other.old ++ drop count self.old }
        ensures given { other.new ≡ take count self.old }
    {
        let mut front = Pipe::of(&self.bytes[..count]);
        drop_front(&mut self.bytes, count);
        put_front(&mut self.bytes, other.bytes());
        other.swap(&mut front);
    }

    /// Exchanges the last so many bytes for those of the other pipe, which must fit.
    fn trade_back(&mut self, count: usize, other: &mut Pipe)
        requires held { count ≤ length self.old }
        requires fits { length other.old + (length self.old - count) ≤ PIPE_BYTES }
        ensures exchanged { self.new ≡ take (length self.old - count) self.old ++ other.old }
        ensures given { other.new ≡ drop (length self.old - count) self.old }
    {
        let front = self.len() - count;
        let mut back = Pipe::of(&self.bytes[front..]);
        self.bytes.truncate(front);
        let _fits = self.bytes.try_extend_from_slice(other.bytes());
        other.swap(&mut back);
    }

    /// Whether so many bytes are held, and the others fit in their place.
    fn can_exchange(&self, count: usize, other: &Pipe) -> bool
        ensures { result ≡ can_exchange count other.now self.now }
    {
        count <= self.len() && other.len() <= self.room() + count
    }

    /// A pipe that holds these bytes, which must fit.
    fn of(bytes: &[u8]) -> Pipe
        requires { length bytes.now ≤ PIPE_BYTES }
        ensures { result ≡ bytes.now }
    {
        let mut pipe = Pipe::new();
        let _fits = pipe.write(bytes);
        pipe
    }
}

/// Removes so many of the first bytes.
fn drop_front(bytes: &mut ArrayVec<u8, PIPE_BYTES>, count: usize)
    requires { count ≤ length bytes.old.items }
    ensures { bytes.new.items ≡ drop count bytes.old.items }
{
    let kept = bytes.len() - count;
    bytes.as_mut_slice().rotate_left(count);
    bytes.truncate(kept);
}

/// Puts bytes in front of those that are there.
fn put_front(bytes: &mut ArrayVec<u8, PIPE_BYTES>, front: &[u8])
    requires { length front.now + length bytes.old.items ≤ PIPE_BYTES }
    ensures { bytes.new.items ≡ front.now ++ bytes.old.items }
{
    let _fits = bytes.try_extend_from_slice(front);
    bytes.as_mut_slice().rotate_right(front.len());
}
