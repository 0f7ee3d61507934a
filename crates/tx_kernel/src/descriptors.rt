//! The calls on descriptors, descriptions and new pipes.
ghost use Rattle.std.specs.Prelude.{◌≡◌, ◌<◌, ◌⊎◌, ◌++◌, ◌∷◌, [], ℕ, List, IfOk, IfErr, OnOk, OnErr};
ghost use Rattle.tx_change.specs.Counts.{name_changes, desc_changes};
ghost use Rattle.tx_change.specs.States.{state_of};
ghost use Rattle.tx_desc.specs.Plans.{AreFds, AreNumbers, put_descs, rename_puts};
ghost use Rattle.tx_kernel.specs.Actors.{IsActor, effect_by, names_by};
ghost use Rattle.tx_kernel.specs.Named.{described_by, endless_changes, gone_of, pipe_changes, rename_changes, slot_change};
ghost use Rattle.tx_kernel.specs.Plans.{Extends, IsBadChoice, IsGoodChoice, Plans, RefusedBy, quiet};
ghost use Rattle.tx_model.specs.Answer.{ChoosesPipe, is_bad_choice};
ghost use Rattle.tx_model.specs.Book.{pipe as pipe_rule, dup, dup2, close, set_nonblock, desc_of, desc_and_pipe_of};
ghost use Rattle.tx_model.specs.Descriptors.{descriptor, is_pipe_in_use};
ghost use Rattle.tx_model.specs.Words.{dup2_objects, pipe_objects};
ghost use Rattle.tx_model.specs.State.{Sending};

use crate::actor::Actor;
use crate::laws::laws;
use crate::planned::Outcome;
use std::alloc::Global;
use tx_base::{DESCRIPTIONS, DescNo, NoMemory, PIPES, PipeNo, Refusal};
use tx_change::{BoxedPipe, Change, Log, PipePart};
use tx_desc::{Desc, Given, NewDesc, NewName, PipePlan, Rename};
use tx_pipe::Pipe;
use tx_proc::{Part, Register};

impl Actor<'_> {
    /// Makes the pipe of this number with the descriptions of its two sides, and makes the two
    /// lowest free descriptors name them, the reading side first (POSIX.1-2017, XSH, pipe()). The
    /// first two slots of the registers keep the descriptors.
    ///
    /// Answers EMFILE where fewer than two descriptors are free. BadNumber where a number is out of
    /// range or both descriptions have the same, NumberTaken where one is in use, and NoMemory
    /// where a growth is refused; the log may then have more at its end.
    pub(crate) fn plan_pipe(
        &self,
        alloc: Global,
        pipe: PipeNo,
        read: DescNo,
        write: DescNo,
        log: &mut Log,
    ) -> Result<Outcome, Refusal>
        requires { IsActor self.now }
        ensures ok { IfOk result (λ outcome. Plans self.now log.old log.new (quiet outcome)
            (effect_by self.now (pipe_rule pipe.0 read.0 write.0))
            (names_by self.now (λ c. pipe_objects pipe.0 read.0 write.0))) }
        ensures refused { IfErr result (λ why.
            RefusedBy self.now why (effect_by self.now (pipe_rule pipe.0 read.0 write.0))
            ⊎ IsBadChoice self.now why (ChoosesPipe pipe.0 read.0 write.0)) }
        ensures numbers { IfOk result (λ outcome.
            IsGoodChoice self.now (ChoosesPipe pipe.0 read.0 write.0)) }
        ensures log { OnErr result (Extends log.old log.new) }
    {
        laws();
        self.parts.descs.sized();
        self.parts.pipes.sized();
        if is_bad_pipe(pipe, read, write) {
            return Err(Refusal::BadNumber);
        }
        if self.has_pipe_in_use(pipe, read, write) {
            return Err(Refusal::NumberTaken);
        }
        match self.proc.descriptors.plan_pipe(pipe, read, write) {
            Ok(plan) => {
                self.push_pipe(alloc, pipe, plan, log)?;
                Ok(Outcome::Done(0))
            }
            Err(errno) => self.plan_failure(errno, log),
        }
    }

    /// Names the description of a descriptor with the lowest free one too (POSIX.1-2017, XSH,
    /// dup()).
    ///
    /// Answers EBADF where the descriptor is not 0 to 15 or is not open, and EMFILE where no
    /// descriptor is free. NoMemory where a growth is refused; the log may then have more at its
    /// end.
    pub(crate) fn plan_dup(&self, fd: i64, log: &mut Log) -> Result<Outcome, Refusal>
        requires { IsActor self.now }
        ensures ok { IfOk result (λ outcome. Plans self.now log.old log.new (quiet outcome)
            (effect_by self.now (dup fd)) (names_by self.now (desc_of fd))) }
        ensures refused { IfErr result (λ why.
            RefusedBy self.now why (effect_by self.now (dup fd))) }
        ensures log { OnErr result (Extends log.old log.new) }
    {
        laws();
        self.parts.descs.sized();
        match self.proc.descriptors.plan_dup(&self.parts.descs, fd) {
            Ok(plan) => {
                self.push_name(plan.name, log)?;
                self.push_desc(plan.desc, log)?;
                let ret = plan.name.fd as i64;
                self.push_answer(ret, log)?;
                Ok(Outcome::Done(ret))
            }
            Err(errno) => self.plan_failure(errno, log),
        }
    }

    /// Makes a descriptor name the description of another one (POSIX.1-2017, XSH, dup2()). What it
    /// named before is given up as by a close; if the two are the same, nothing changes.
    ///
    /// Answers EBADF where the first descriptor is not 0 to 15 or is not open, or the second is not
    /// 0 to 15. NoMemory where a growth is refused; the log may then have more at its end.
    pub(crate) fn plan_dup2(&self, fd: i64, other: i64, log: &mut Log) -> Result<Outcome, Refusal>
        requires { IsActor self.now }
        ensures ok { IfOk result (λ outcome. Plans self.now log.old log.new (quiet outcome)
            (effect_by self.now (dup2 fd other))
            (names_by self.now (λ c.
            dup2_objects (descriptor fd) (descriptor other) c.process c.state))) }
        ensures refused { IfErr result (λ why.
            RefusedBy self.now why (effect_by self.now (dup2 fd other))) }
        ensures log { OnErr result (Extends log.old log.new) }
    {
        laws();
        self.parts.descs.sized();
        match self
            .proc
            .descriptors
            .plan_dup2(&self.parts.descs, fd, other)
        {
            Ok(plan) => {
                self.push_rename(plan.renamed.given, plan.rename, log)?;
                let ret = plan.renamed.fd as i64;
                self.push_answer(ret, log)?;
                Ok(Outcome::Done(ret))
            }
            Err(errno) => self.plan_failure(errno, log),
        }
    }

    /// Closes a descriptor (POSIX.1-2017, XSH, close()). A description that nothing names any more
    /// goes, and a pipe goes with its last description.
    ///
    /// Answers EBADF where the descriptor is not 0 to 15 or is not open. NoMemory where a growth is
    /// refused; the log may then have more at its end.
    pub(crate) fn plan_close(&self, fd: i64, log: &mut Log) -> Result<Outcome, Refusal>
        requires { IsActor self.now }
        ensures ok { IfOk result (λ outcome. Plans self.now log.old log.new (quiet outcome)
            (effect_by self.now (close fd)) (names_by self.now (desc_and_pipe_of fd))) }
        ensures refused { IfErr result (λ why.
            RefusedBy self.now why (effect_by self.now (close fd))) }
        ensures log { OnErr result (Extends log.old log.new) }
    {
        laws();
        self.parts.descs.sized();
        match self.proc.descriptors.plan_close(&self.parts.descs, fd) {
            Ok(plan) => {
                self.push_name(plan.name, log)?;
                self.push_desc(plan.desc, log)?;
                self.push_endless(plan.given.gone, &[plan.desc], log)?;
                self.push_answer(0, log)?;
                Ok(Outcome::Done(0))
            }
            Err(errno) => self.plan_failure(errno, log),
        }
    }

    /// Sets whether reads and writes of the description of a descriptor are refused where they
    /// would wait (POSIX.1-2017, XSH, fcntl(), O_NONBLOCK).
    ///
    /// Answers EBADF where the descriptor is not 0 to 15 or is not open. NoMemory where a growth is
    /// refused; the log may then have more at its end.
    pub(crate) fn plan_nonblock(&self, fd: i64, on: bool, log: &mut Log) -> Result<Outcome, Refusal>
        requires { IsActor self.now }
        ensures ok { IfOk result (λ outcome. Plans self.now log.old log.new (quiet outcome)
            (effect_by self.now (set_nonblock fd on)) (names_by self.now (desc_of fd))) }
        ensures refused { IfErr result (λ why.
            RefusedBy self.now why (effect_by self.now (set_nonblock fd on))) }
        ensures log { OnErr result (Extends log.old log.new) }
    {
        laws();
        self.parts.descs.sized();
        match self
            .proc
            .descriptors
            .plan_nonblock(&self.parts.descs, fd, on)
        {
            Ok(new) => {
                self.push_desc(new, log)?;
                self.push_answer(0, log)?;
                Ok(Outcome::Done(0))
            }
            Err(errno) => self.plan_failure(errno, log),
        }
    }

    /// Whether the number of a pipe is in use, or that of one of two descriptions.
    pub(crate) fn has_pipe_in_use(&self, pipe: PipeNo, read: DescNo, write: DescNo) -> bool
        ensures { (held : ℕ → List Sending) →
            result ≡ is_pipe_in_use pipe.0 read.0 write.0 (state_of held self.now.parts.now) }
    {
        self.parts.pipes.get(pipe).is_some()
            || self.parts.descs.get(read).is_some()
            || self.parts.descs.get(write).is_some()
    }

    /// Appends the changes of a new pipe, and its answer.
    fn push_pipe(
        &self,
        alloc: Global,
        pipe: PipeNo,
        plan: PipePlan,
        log: &mut Log,
    ) -> Result<(), NoMemory>
        requires { AreFds (plan.read_name ∷ plan.write_name ∷ []) }
        ensures ok { OnOk result (log.new ≡ log.old ++ pipe_changes self.now pipe plan) }
        ensures err { OnErr result (Extends log.old log.new) }
    {
        let boxed = BoxedPipe::new(alloc, Pipe::new())?;
        self.push_name(plan.read_name, log)?;
        self.push_name(plan.write_name, log)?;
        self.push_desc(plan.read, log)?;
        self.push_desc(plan.write, log)?;
        log.push(Change::Pipe(pipe, PipePart::Whole(Some(boxed))))?;
        self.push_slot(0, plan.read_name.fd, log)?;
        self.push_slot(1, plan.write_name.fd, log)?;
        self.push_answer(0, log)?;
        Ok(())
    }

    /// Appends the change by which a slot of the registers keeps a descriptor. If memory is
    /// refused, the log is as it was.
    fn push_slot(&self, number: usize, fd: usize, log: &mut Log) -> Result<(), NoMemory>
        requires { fd < 16 }
        ensures ok { OnOk result (log.new ≡ log.old ++ slot_change self.now.pid number fd ∷ []) }
        ensures err { OnErr result (log.new ≡ log.old) }
    {
        let value = fd as i64;
        self.push(Part::Register(Register { number, value }), log)
    }

    /// Appends the change of what a descriptor names. If memory is refused, the log is as it was.
    #[inline(always)] // as `push`
    fn push_name(&self, new: NewName, log: &mut Log) -> Result<(), NoMemory>
        ensures ok { OnOk result (log.new ≡ log.old ++ name_changes self.now.pid (new ∷ [])) }
        ensures err { OnErr result (log.new ≡ log.old) }
    {
        self.push(Part::Descriptor(new.fd, new.name), log)
    }

    /// Appends the change of what a description number has. If memory is refused, the log is as it
    /// was.
    #[inline(always)] // as `push`
    fn push_desc(&self, new: NewDesc, log: &mut Log) -> Result<(), NoMemory>
        ensures ok { OnOk result (log.new ≡ log.old ++ desc_changes (new ∷ [])) }
        ensures err { OnErr result (log.new ≡ log.old) }
    {
        log.push(Change::Description(new.number, new.opened))
    }

    /// Appends the change by which the pipe of a description that is gone goes too, if none names
    /// it once these are in place. If memory is refused, the log is as it was.
    fn push_endless(
        &self,
        gone: Option<Desc>,
        news: &[NewDesc],
        log: &mut Log,
    ) -> Result<(), NoMemory>
        requires { AreNumbers news.now }
        ensures ok { OnOk result
            (log.new ≡ log.old ++ endless_changes gone
            (described_by self.now.parts.now (put_descs news.now self.now.parts.now.descs))) }
        ensures err { OnErr result (log.new ≡ log.old) }
    {
        let Some(desc) = gone else {
            return Ok(());
        };
        if self.parts.descs.names_pipe_with(news, desc.pipe) {
            return Ok(());
        }
        log.push(Change::Pipe(desc.pipe, PipePart::Whole(None)))
    }

    /// Appends a rename, if there is one, and what goes with the name that is given up.
    fn push_rename(
        &self,
        given: Option<Given>,
        rename: Option<Rename>,
        log: &mut Log,
    ) -> Result<(), NoMemory>
        requires { AreNumbers (rename_puts rename).descs }
        ensures ok { OnOk result
            (log.new ≡ log.old ++ rename_changes self.now.pid self.now.parts.now given rename) }
        ensures err { OnErr result (Extends log.old log.new) }
    {
        let Some(rename) = rename else {
            return Ok(());
        };
        self.push_name(rename.name, log)?;
        self.push_desc(rename.named, log)?;
        let Some(left) = rename.left else {
            return Ok(());
        };
        self.push_desc(left, log)?;
        self.push_endless(gone_with(given), &[rename.named, left], log)?;
        Ok(())
    }
}

/// The description that went with a name, if one did.
fn gone_with(given: Option<Given>) -> Option<Desc>
    ensures { result ≡ gone_of given }
{
    given?.gone
}

/// Whether the numbers of a pipe and of its two descriptions can't be chosen: one is out of range, or
/// the descriptions have the same.
pub(crate) fn is_bad_pipe(pipe: PipeNo, read: DescNo, write: DescNo) -> bool
    ensures { (width : ℕ) → result ≡ is_bad_choice width (ChoosesPipe pipe.0 read.0 write.0) }
{
    let in_range = (pipe.0 as usize) < PIPES
        && (read.0 as usize) < DESCRIPTIONS
        && (write.0 as usize) < DESCRIPTIONS;
    !in_range || read == write
}
