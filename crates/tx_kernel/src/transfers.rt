//! The calls that read from a pipe and write to it.
ghost use Rattle.std.specs.Prelude.{◌≡◌, ◌≤◌, ◌+◌, ◌++◌, ◌∷◌, [], ℕ, ℤ, List, Ok, Some, true, length, IfOk, IfErr, OnOk, OnErr};
ghost use Rattle.tx_base.specs.declared.errors.Errno.TheVariants.{BrokenPipe};
ghost use Rattle.tx_change.specs.declared.change.Change.TheVariants.{Part as SetPart, Pipe as SetPipe};
ghost use Rattle.tx_change.specs.declared.pipes.PipePart.TheVariants.{Back, Front};
ghost use Rattle.tx_desc.specs.Descriptions.{description_of};
ghost use Rattle.tx_kernel.specs.Actors.{IsActor, effect_by, me_of, names_by};
ghost use Rattle.tx_kernel.specs.Own.{answer_after, page_change};
ghost use Rattle.tx_kernel.specs.Piped.{AsksFor, CanPut, CanTake, IsPutting, IsReadyToPut, IsReadyToTake, PutsTo, TakesBytes, TakesFrom, broken, broken_sending, calling, end_at, held_in, opened_at, put_bytes, reading_outcome, writing_outcome};
ghost use Rattle.tx_kernel.specs.Plans.{Extends, Plans, RefusedBy, quiet};
ghost use Rattle.tx_kernel.specs.Sends.{IsSentBy};
ghost use Rattle.tx_model.specs.Book.{desc_and_pipe_of, end_at as end_in, read, write, is_read_side, is_write_side};
ghost use Rattle.tx_model.specs.Descriptors.{descriptor, description_named};
ghost use Rattle.tx_model.specs.Memory.{bytes_from, is_good, is_mapped};
ghost use Rattle.tx_model.specs.Numbers.{error_answer};
ghost use Rattle.tx_model.specs.State.{Sending as TheSending};
ghost use Rattle.tx_proc.specs.declared.proc.Part.TheVariants.{Answer as SetAnswer};

use crate::actor::Actor;
use crate::laws::laws;
use crate::planned::{Outcome, Planned, Sends};
use std::alloc::Global;
use tx_base::{
    ADDRESSES, Errno, NoMemory, PIPE_BYTES, PipeNo, Refusal, SIGPIPE, Sending, number_below,
};
use tx_change::{BoxedPipe, Change, Log, PipePart};
use tx_desc::{Desc, Side};
use tx_pages::{Access, NewPage};
use tx_pipe::Pipe;
use tx_proc::Part;

/// What a write comes to, if it is no error.
#[derive(Clone, Copy)]
pub(crate) enum Writing {
    /// No byte was asked for.
    Nothing,
    /// No reader is left.
    Breaks,
    /// There is no room, and the description blocks.
    Waits,
    /// This many bytes go to the pipe.
    Puts(PipeNo, usize),
}

/// What a read comes to, if it is no error.
#[derive(Clone, Copy)]
pub(crate) enum Reading {
    /// No byte was asked for, or the pipe is empty and no writer is left.
    Nothing,
    /// The pipe is empty, and the description blocks.
    Waits,
    /// This many bytes come from the pipe.
    Takes(PipeNo, usize),
}

impl Actor<'_> {
    /// Reads up to this many bytes from the pipe of a descriptor to an address (POSIX.1-2017, XSH,
    /// read()).
    ///
    /// Answers EBADF where the descriptor is not 0 to 15 or is not open for reading, EINVAL where
    /// the count is not 0 to 512, EFAULT where bytes may not be written, and EAGAIN where the pipe
    /// is empty with a writer left and the description does not block. Wait where it does; NoMemory
    /// where a growth is refused. The log may then have more at its end.
    pub(crate) fn plan_read(
        &self,
        alloc: Global,
        fd: i64,
        address: i64,
        count: i64,
        log: &mut Log,
    ) -> Result<Outcome, Refusal>
        requires { IsActor self.now }
        ensures ok { IfOk result (λ outcome. Plans self.now log.old log.new (quiet outcome)
            (effect_by self.now (read fd address count))
            (names_by self.now (desc_and_pipe_of fd))) }
        ensures refused { IfErr result (λ why.
            RefusedBy self.now why (effect_by self.now (read fd address count))) }
        ensures log { OnErr result (Extends log.old log.new) }
    {
        laws();
        self.parts.descs.sized();
        match self.reading(fd, address, count) {
            Ok(Reading::Nothing) => self.plan_done(0, log),
            Ok(Reading::Waits) => Err(Refusal::Wait),
            Ok(Reading::Takes(pipe, n)) => {
                self.push_take(alloc, pipe, address, n, log)?;
                let ret = n as i64;
                self.push_answer(ret, log)?;
                Ok(Outcome::Done(ret))
            }
            Err(errno) => self.plan_failure(errno, log),
        }
    }

    /// Appends the move of bytes from a pipe to the memory, at an address that is good for them.
    fn push_take(
        &self,
        alloc: Global,
        pipe: PipeNo,
        address: i64,
        n: usize,
        log: &mut Log,
    ) -> Result<(), NoMemory>
        requires { CanTake self.now pipe n }
        ensures ok { OnOk result (TakesBytes self.now log.old log.new pipe address n) }
        ensures err { OnErr result (Extends log.old log.new) }
    {
        let bytes = &self.held_bytes(pipe)[..n];
        // Most often the bytes go to one page, and no list of pages is needed.
        match self.proc.space.plan_store_on_page(alloc, address, bytes) {
            Some(Ok(new)) => self.push_take_to_page(alloc, pipe, n, new, log),
            Some(Err(_)) => Err(NoMemory), // the address is good: no other error is left
            None => self.push_take_to_pages(alloc, pipe, address, n, log),
        }
    }

    /// Appends the move of bytes from a pipe to this page.
    fn push_take_to_page(
        &self,
        alloc: Global,
        pipe: PipeNo,
        n: usize,
        new: NewPage,
        log: &mut Log,
    ) -> Result<(), NoMemory>
        ensures ok { OnOk result
            (log.new ≡ log.old ++ SetPipe pipe (Front n []) ∷ page_change self.now.pid new ∷ []) }
        ensures err { OnErr result (Extends log.old log.new) }
    {
        let none = BoxedPipe::new(alloc, Pipe::new())?;
        log.reserve(3)?;
        log.push(Change::Pipe(pipe, PipePart::Front(n, none)))?;
        self.push(Part::Page(new.number, new.page), log)
    }

    /// The same as `push_take` of bytes that go to several pages.
    fn push_take_to_pages(
        &self,
        alloc: Global,
        pipe: PipeNo,
        address: i64,
        n: usize,
        log: &mut Log,
    ) -> Result<(), NoMemory>
        requires { CanTake self.now pipe n }
        ensures ok { OnOk result (TakesBytes self.now log.old log.new pipe address n) }
        ensures err { OnErr result (Extends log.old log.new) }
    {
        let Ok(new) = self
            .proc
            .space
            .plan_store(alloc, address, &self.held_bytes(pipe)[..n])
        else {
            return Err(NoMemory);
        };
        let none = BoxedPipe::new(alloc, Pipe::new())?;
        log.reserve(new.pages.len() + 2)?;
        log.push(Change::Pipe(pipe, PipePart::Front(n, none)))?;
        self.push_pages(new, log)?;
        Ok(())
    }

    /// What a read comes to.
    pub(crate) fn reading(&self, fd: i64, address: i64, count: i64) -> Result<Reading, Errno>
        requires { IsActor self.now }
        ensures effect { (held : ℕ → List TheSending) →
            read fd address count (calling self.now held)
            ≡ reading_outcome address result (calling self.now held) }
        ensures ready { IfOk result (λ reading.
            TakesFrom self.now (description_named (me_of self.now) (descriptor fd)) reading) }
    {
        let desc = self.open_end(fd, Side::Read)?;
        self.reading_from(desc, address, count)
    }

    /// What a read from the description comes to.
    fn reading_from(&self, desc: Desc, address: i64, count: i64) -> Result<Reading, Errno>
        ensures effect { (fd : ℤ) (held : ℕ → List TheSending) →
            end_in is_read_side fd (calling self.now held) ≡ Some (description_of desc) →
            read fd address count (calling self.now held)
            ≡ reading_outcome address result (calling self.now held) }
        ensures ready { IfOk result (λ reading. IsReadyToTake self.now desc.pipe reading) }
    {
        let Some(n) = number_below(PIPE_BYTES + 1, count) else {
            return Err(Errno::InvalidArgument);
        };
        if n == 0 {
            return Ok(Reading::Nothing);
        }
        if !self.proc.space.is_good(Access::Write, address, n) {
            return Err(Errno::BadAddress);
        }
        self.taking(desc, n)
    }

    /// What a read of up to this many bytes from the description comes to.
    fn taking(&self, desc: Desc, n: usize) -> Result<Reading, Errno>
        ensures effect { (fd address count : ℤ) (held : ℕ → List TheSending) →
            AsksFor self.now desc n fd address count held →
            read fd address count (calling self.now held)
            ≡ reading_outcome address result (calling self.now held) }
        ensures ready { IfOk result (λ reading. IsReadyToTake self.now desc.pipe reading) }
    {
        let held = self.held(desc.pipe);
        if held > 0 {
            return Ok(Reading::Takes(desc.pipe, n.min(held)));
        }
        if !self.parts.descs.has_end(desc.pipe, Side::Write) {
            return Ok(Reading::Nothing);
        }
        if desc.nonblock {
            return Err(Errno::TryAgain);
        }
        Ok(Reading::Waits)
    }

    /// Writes bytes from an address on to the pipe of a descriptor, all of them or none (POSIX.1-2017,
    /// XSH, write()).
    ///
    /// Answers EBADF where the descriptor is not 0 to 15 or is not open for writing, EINVAL where
    /// the count is not 0 to 512, EFAULT where bytes are not mapped, EPIPE where no reader is left,
    /// which also sends SIGPIPE to the process, and EAGAIN where there is no room and the
    /// description does not block. Wait where there is no room and it does; NoMemory where a growth
    /// is refused. The log may then have more at its end.
    pub(crate) fn plan_write(
        &self,
        alloc: Global,
        fd: i64,
        address: i64,
        count: i64,
        log: &mut Log,
    ) -> Result<Planned, Refusal>
        requires { IsActor self.now }
        ensures ok { IfOk result (λ planned. Plans self.now log.old log.new planned
            (effect_by self.now (write fd address count))
            (names_by self.now (desc_and_pipe_of fd))) }
        ensures refused { IfErr result (λ why.
            RefusedBy self.now why (effect_by self.now (write fd address count))) }
        ensures log { OnErr result (Extends log.old log.new) }
    {
        laws();
        self.parts.descs.sized();
        match self.writing(fd, address, count) {
            Ok(Writing::Nothing) => Ok(Planned::quiet(self.plan_done(0, log)?)),
            Ok(Writing::Breaks) => Ok(self.push_broken(log)?),
            Ok(Writing::Waits) => Err(Refusal::Wait),
            Ok(Writing::Puts(pipe, n)) => {
                self.push_put(alloc, pipe, address, n, log)?;
                let ret = n as i64;
                self.push_answer(ret, log)?;
                Ok(Planned::quiet(Outcome::Done(ret)))
            }
            Err(errno) => Ok(Planned::quiet(self.plan_failure(errno, log)?)),
        }
    }

    /// The signal that a write sends.
    pub(crate) fn sends_of_write(&self, fd: i64, address: i64, count: i64) -> Sends
        requires { IsActor self.now }
        ensures { IsSentBy self.now result (effect_by self.now (write fd address count)) }
    {
        match self.writing(fd, address, count) {
            Ok(writing) => self.sends_of(writing),
            Err(_) => Sends::Nothing,
        }
    }

    /// The signal that a write that comes to this sends.
    fn sends_of(&self, writing: Writing) -> Sends
        ensures { (address : ℤ) →
            IsSentBy self.now result (effect_by self.now (writing_outcome address (Ok writing))) }
    {
        match writing {
            Writing::Breaks => Sends::AtOnce(self.broken_pipe()),
            Writing::Nothing => Sends::Nothing,
            Writing::Waits => Sends::Nothing,
            Writing::Puts(_, _) => Sends::Nothing,
        }
    }

    /// Appends the answer of a write without a reader, and answers what it comes to. If memory is
    /// refused, the log is as it was.
    fn push_broken(&self, log: &mut Log) -> Result<Planned, NoMemory>
        ensures ok { IfOk result (λ planned.
            (log.new ≡ log.old ++ SetPart self.now.pid
            (SetAnswer (answer_after (error_answer BrokenPipe) self.now)) ∷ [])
            × (planned ≡ broken self.now)) }
        ensures err { OnErr result (log.new ≡ log.old) }
    {
        let ret = Errno::BrokenPipe.answer();
        self.push_answer(ret, log)?;
        Ok(Planned {
            outcome: Outcome::Done(ret),
            sends: Sends::AtOnce(self.broken_pipe()),
        })
    }

    /// The signal for a process that writes without a reader.
    fn broken_pipe(&self) -> Sending
        ensures { result ≡ broken_sending self.now }
    {
        Sending {
            target: self.pid,
            signo: SIGPIPE,
            value: 0,
            from: None,
        }
    }

    /// Appends the move of bytes of the memory to a pipe. If memory is refused, the log is as it
    /// was.
    fn push_put(
        &self,
        alloc: Global,
        pipe: PipeNo,
        address: i64,
        n: usize,
        log: &mut Log,
    ) -> Result<(), NoMemory>
        requires { CanPut self.now address pipe n }
        ensures ok { OnOk result
            (log.new ≡ log.old ++ SetPipe pipe (Back 0 (put_bytes self.now address n)) ∷ []) }
        ensures err { OnErr result (log.new ≡ log.old) }
    {
        let boxed = self.boxed_bytes(alloc, address, n)?;
        log.push(Change::Pipe(pipe, PipePart::Back(0, boxed)))
    }

    /// This many bytes of the memory, in a list of their own.
    fn boxed_bytes(&self, alloc: Global, address: i64, n: usize) -> Result<BoxedPipe, NoMemory>
        requires good { is_good is_mapped (me_of self.now).memory address n ≡ true }
        requires few { n ≤ 512 }
        ensures { IfOk result (λ boxed. boxed ≡ put_bytes self.now address n) }
    {
        let mut boxed = BoxedPipe::new(alloc, Pipe::new())?;
        if let Some(start) = number_below(ADDRESSES, address) {
            self.put_into(start, n, &mut boxed);
        }
        Ok(boxed)
    }

    /// Appends this many bytes of the memory, from an address on, to a pipe. They must be in 0 to
    /// 1,023, and fit.
    fn put_into(&self, start: usize, n: usize, boxed: &mut BoxedPipe)
        requires inside { start + n ≤ 1024 }
        requires fits { length boxed.old + n ≤ 512 }
        ensures { boxed.new ≡ boxed.old ++ bytes_from (me_of self.now).memory start n }
    {
        let mut done = 0;
        while done < n {
            let part = self.proc.space.part(start + done, n - done);
            let _fits = boxed.write(part);
            done += part.len();
        }
    }

    /// What a write comes to.
    pub(crate) fn writing(&self, fd: i64, address: i64, count: i64) -> Result<Writing, Errno>
        requires { IsActor self.now }
        ensures effect { (held : ℕ → List TheSending) →
            write fd address count (calling self.now held)
            ≡ writing_outcome address result (calling self.now held) }
        ensures ready { IfOk result (λ writing.
            PutsTo self.now (description_named (me_of self.now) (descriptor fd)) address writing) }
    {
        let desc = self.open_end(fd, Side::Write)?;
        self.writing_to(desc, address, count)
    }

    /// What a write to the description comes to.
    fn writing_to(&self, desc: Desc, address: i64, count: i64) -> Result<Writing, Errno>
        ensures effect { (fd : ℤ) (held : ℕ → List TheSending) →
            end_in is_write_side fd (calling self.now held) ≡ Some (description_of desc) →
            write fd address count (calling self.now held)
            ≡ writing_outcome address result (calling self.now held) }
        ensures ready { IfOk result (λ writing. IsReadyToPut self.now address desc.pipe writing) }
    {
        let Some(n) = number_below(PIPE_BYTES + 1, count) else {
            return Err(Errno::InvalidArgument);
        };
        if n == 0 {
            return Ok(Writing::Nothing);
        }
        if !self.proc.space.is_good(Access::Read, address, n) {
            return Err(Errno::BadAddress);
        }
        if !self.parts.descs.has_end(desc.pipe, Side::Read) {
            return Ok(Writing::Breaks);
        }
        self.putting(desc, n)
    }

    /// What a write of this many bytes to a description with a reader comes to.
    fn putting(&self, desc: Desc, n: usize) -> Result<Writing, Errno>
        requires { n ≤ 512 }
        ensures { IsPutting self.now desc n result }
    {
        if self.held(desc.pipe) + n <= PIPE_BYTES {
            return Ok(Writing::Puts(desc.pipe, n));
        }
        if desc.nonblock {
            return Err(Errno::TryAgain);
        }
        Ok(Writing::Waits)
    }

    /// The description of a descriptor.
    ///
    /// BadDescriptor where the descriptor is not 0 to 15, is not open, or is not of this side.
    fn open_end(&self, fd: i64, side: Side) -> Result<Desc, Errno>
        ensures { result ≡ end_at side
            (opened_at self.now.parts.now.descs
            (description_named (me_of self.now) (descriptor fd))) }
    {
        let d = self.proc.descriptors.look(fd)?;
        match self.parts.descs.get(d) {
            Some(opened) if opened.desc.side == side => Ok(opened.desc),
            _ => Err(Errno::BadDescriptor),
        }
    }

    /// How many bytes a pipe holds: 0 to 512.
    fn held(&self, pipe: PipeNo) -> usize
        ensures held { result ≡ length (held_in self.now pipe) }
        ensures fits { result ≤ 512 }
    {
        self.held_bytes(pipe).len()
    }

    /// The bytes that a pipe holds.
    fn held_bytes(&self, pipe: PipeNo) -> &[u8]
        ensures held { result.now ≡ held_in self.now pipe }
        ensures fits { length result.now ≤ 512 }
    {
        match self.parts.pipes.get(pipe) {
            Some(bytes) => bytes.bytes(),
            None => &[],
        }
    }
}
