//! The pipes by number.
ghost use Rattle.std.specs.Option.{option_copied};
ghost use Rattle.std.specs.Bool.{OnFalse, OnTrue};
ghost use Rattle.std.specs.Prelude.{◌≡◌, ◌↔◌, ◌<◌, ◌≤◌, ◌+◌, ◌++◌, None, IfOk, IsTrue, length, replicate, slice_index_or, slice_set};
ghost use Rattle.tx_change.specs.Pipes.{piped, piped_in, part_of, part_in};
ghost use Rattle.tx_base.specs.declared.limits.TheConstants.{PIPE_BYTES};

use std::alloc::Global;
use std::marker::Model;
use std::mem;
use tx_base::{NoMemory, PIPES, PipeNo};
use tx_pipe::Pipe;

/// A pipe in a place of its own, so that a table moves no bytes. Contracts see the bytes.
#[derive(Drop)]
pub struct BoxedPipe {
    pipe: Box<Pipe>,
}

impl Model for BoxedPipe {
    ghost use Rattle.std.specs.Prelude.{ℕ, List};

    ghost Value = { List ℕ };

    ghost view = { λ boxed. boxed.pipe.value };
}

impl BoxedPipe {
    /// The pipe, in a place of its own.
    ///
    /// NoMemory where a growth is refused.
    pub fn new(alloc: Global, pipe: Pipe) -> Result<BoxedPipe, NoMemory>
        ensures { IfOk result (λ boxed. boxed ≡ pipe) }
    {
        let pipe = Box::new(alloc, pipe)?;
        Ok(BoxedPipe { pipe })
    }

    /// Appends all the bytes or none, and answers which, as `Pipe::write`.
    pub fn write(&mut self, bytes: &[u8]) -> bool
        ensures fits { IsTrue result ↔ (length self.old + length bytes.now ≤ PIPE_BYTES) }
        ensures appended { OnTrue result (self.new ≡ self.old ++ bytes.now) }
        ensures unchanged { OnFalse result (self.new ≡ self.old) }
    {
        self.pipe.write(bytes)
    }

    /// The pipe.
    pub fn get(&self) -> &Pipe
        ensures { result.now ≡ self.now }
    {
        &self.pipe
    }
}

/// What a pipe number has, or some of the bytes of its pipe, and the old or new value of that. It
/// owns those bytes, so an exchange takes no memory. Own rule.
#[derive(Drop)]
pub enum PipePart {
    /// What the number has.
    Whole(Option<BoxedPipe>),
    /// The first so many bytes of the pipe, and those that come in their place.
    Front(usize, BoxedPipe),
    /// The last so many bytes of the pipe, and those that come in their place.
    Back(usize, BoxedPipe),
}

impl PipePart {
    /// Exchanges the bytes with those of a number: all that it has, or some of its pipe. Nothing
    /// happens to some of the bytes where there is no pipe, where it has fewer bytes, or where
    /// those that come don't fit.
    pub fn swap(&mut self, slot: &mut Option<BoxedPipe>)
        ensures slot { slot.new ≡ piped_in slot.old self.old }
        ensures part { self.new ≡ part_in slot.old self.old }
    {
        if let PipePart::Whole(pipe) = self {
            mem::swap(pipe, slot);
            return;
        }
        if let Some(boxed) = slot {
            self.swap_bytes(boxed);
        }
    }

    /// Exchanges the bytes with those of the pipe. A whole pipe stays.
    fn swap_bytes(&mut self, boxed: &mut BoxedPipe)
        ensures pipe { boxed.new ≡ piped boxed.old self.old }
        ensures part { self.new ≡ part_of boxed.old self.old }
    {
        match self {
            PipePart::Whole(_) => {}
            PipePart::Front(count, bytes) => boxed.pipe.swap_front(count, &mut bytes.pipe),
            PipePart::Back(count, bytes) => boxed.pipe.swap_back(count, &mut bytes.pipe),
        }
    }
}

/// The pipes by number, 0 to 31. Contracts see what each number has.
#[derive(Drop)]
pub struct PipeTable {
    slots: [Option<BoxedPipe>; PIPES],
}

impl Model for PipeTable {
    ghost use Rattle.std.specs.Prelude.{◌≡◌, ℕ, List, Option, length};

    ghost Value = { List (Option (List ℕ)) };

    ghost view = { λ table. table.slots };

    ghost invariant = { λ table. length table.slots ≡ 32 };
}

impl PipeTable {
    /// No number has a pipe.
    pub fn new() -> PipeTable
        ensures { result ≡ replicate 32 None }
    {
        PipeTable {
            slots: [
                None, None, None, None, None, None, None, None, None, None, None, None, None, None,
                None, None, None, None, None, None, None, None, None, None, None, None, None, None,
                None, None, None, None,
            ],
        }
    }

    /// There are 32 numbers.
    pub fn sized(&self)
        ensures { length self.now ≡ 32 }
    {
        let _slots = &self.slots;
    }

    /// The pipe of a number; nothing where there is none, or no such number.
    pub fn get(&self, number: PipeNo) -> Option<&Pipe>
        ensures { option_copied result ≡ slice_index_or self.now number.0 None }
    {
        match self.slots.get(number.0 as usize) {
            Some(Some(boxed)) => Some(boxed.get()),
            _ => None,
        }
    }

    /// Exchanges what a number has, or some bytes of its pipe. The number must be valid.
    #[inline(never)] // inlined, each exchange of a part would save the registers that it takes
    pub fn swap_part(&mut self, number: PipeNo, part: &mut PipePart)
        requires { number.0 < length self.old }
        ensures exchanged { self.new
            ≡ slice_set self.old number.0
            (piped_in (slice_index_or self.old number.0 None) part.old) }
        ensures given { part.new ≡ part_in (slice_index_or self.old number.0 None) part.old }
    {
        part.swap(&mut self.slots[number.0 as usize]);
    }
}
