//! The calls that change what descriptors name, and the counts of names with them. Each is its plan,
//! put in place.
ghost use Rattle.std.specs.Prelude.{◌≡◌, ◌≢◌, ◌<◌, List, ◌∷◌, None, Some, IfOk, OnErr, slice_index_or};
ghost use Rattle.tx_model.specs.Book.{pipe as pipe_rule, dup, dup2, close, set_nonblock, description_at};
ghost use Rattle.tx_model.specs.Descriptors.{descriptor};
ghost use Rattle.tx_model.specs.Forms.{Caller};
ghost use Rattle.tx_desc.specs.Counts.{Agrees, HasRoom, others_of};
ghost use Rattle.tx_desc.specs.Descriptions.{HasDescs, IsGone};
ghost use Rattle.tx_desc.specs.Outcomes.{RunsWith, effect_in, state_after, pipe_outcome, dup_outcome, dup2_outcome, close_outcome, nonblock_outcome};
ghost use Rattle.tx_desc.specs.Places.{Descriptors, named_in};

use crate::descs::Descs;
use crate::given::{Given, Renamed};
use crate::table::FdTable;
use tx_base::{DescNo, Errno, PipeNo};

impl FdTable {
    /// The two lowest free descriptors name the two sides of a new pipe, the reading side first
    /// (POSIX.1-2017, XSH, pipe()). The numbers of the pipe and of its two descriptions are the
    /// caller's choice.
    ///
    /// TooManyDescriptors where fewer than two descriptors are free. All is then as it was.
    #[tactic(auto, using(crate::proofs::Counting::keeps_agree))]
    pub fn pipe_pair(
        &mut self,
        descs: &mut Descs,
        pipe: PipeNo,
        read: DescNo,
        write: DescNo,
    ) -> Result<(usize, usize), Errno>
        requires apart { read.0 ≢ write.0 }
        requires read_free { (read.0 < 64) × (slice_index_or descs.old read.0 None ≡ None) }
        requires write_free { (write.0 < 64) × (slice_index_or descs.old write.0 None ≡ None) }

        ensures answer { (c : Caller) →
            c.process.descriptors ≡ self.old → HasDescs c.state descs.old →
            c.state.pipes pipe.0 ≡ None →
            pipe_rule pipe.0 read.0 write.0 c
            ≡ pipe_outcome pipe.0 read.0 write.0 result self.new descs.new c }
        ensures descriptions { (c : Caller) →
            c.process.descriptors ≡ self.old → HasDescs c.state descs.old →
            c.state.pipes pipe.0 ≡ None →
            HasDescs (state_after (pipe_rule pipe.0 read.0 write.0) c) descs.new }
        ensures counts { (others : List Descriptors) →
            Agrees (self.old ∷ others) descs.old → Agrees (self.new ∷ others) descs.new }
        ensures err_table { OnErr result (self.new ≡ self.old) }
        ensures err_descs { OnErr result (descs.new ≡ descs.old) }
    {
        descs.sized();
        let plan = self.plan_pipe(pipe, read, write)?;
        self.put(plan.read_name);
        self.put(plan.write_name);
        descs.put(plan.read);
        descs.put(plan.write);
        Ok((plan.read_name.fd, plan.write_name.fd))
    }

    /// The lowest free descriptor names what this one names, and is answered (POSIX.1-2017, XSH,
    /// dup()).
    ///
    /// BadDescriptor where the number is not one of an open descriptor; TooManyDescriptors where all
    /// 16 are open. All is then as it was.
    #[tactic(auto, using(crate::proofs::Counting::keeps_agree))]
    pub fn dup(&mut self, descs: &mut Descs, fd: i64) -> Result<usize, Errno>
        requires { HasRoom 1 (named_in self.old (descriptor fd)) descs.old }

        ensures answer { (c : Caller) → c.process.descriptors ≡ self.old →
            dup fd c ≡ dup_outcome result self.new c }
        ensures descriptions { (c : Caller) →
            c.process.descriptors ≡ self.old → HasDescs c.state descs.old →
            HasDescs (state_after (dup fd) c) descs.new }
        ensures counts { (others : List Descriptors) →
            Agrees (self.old ∷ others) descs.old → Agrees (self.new ∷ others) descs.new }
        ensures err_table { OnErr result (self.new ≡ self.old) }
        ensures err_descs { OnErr result (descs.new ≡ descs.old) }
    {
        let plan = self.plan_dup(descs, fd)?;
        self.put(plan.name);
        descs.put(plan.desc);
        Ok(plan.name.fd)
    }

    /// The other descriptor gives up what it names, if it names anything, and names what this one
    /// names (POSIX.1-2017, XSH, dup2()). Where the two are the same nothing changes.
    ///
    /// BadDescriptor where the first number is not one of an open descriptor, or the second is not 0
    /// to 15. All is then as it was.
    #[tactic(auto, using(crate::proofs::Counting::keeps_agree))]
    pub fn dup2(&mut self, descs: &mut Descs, fd: i64, other: i64) -> Result<Renamed, Errno>
        requires named { HasRoom 1 (named_in self.old (descriptor fd)) descs.old }
        requires left { HasRoom 0 (named_in self.old (descriptor other)) descs.old }

        ensures answer { (c : Caller) → c.process.descriptors ≡ self.old →
            effect_in (dup2 fd other) c ≡ effect_in (dup2_outcome result self.new) c }
        ensures descriptions { (c : Caller) →
            RunsWith c.number c.process c.state self.old → HasDescs c.state descs.old →
            Agrees (self.old ∷ others_of c.number c.state) descs.old →
            HasDescs (state_after (dup2 fd other) c) descs.new }
        ensures counts { (others : List Descriptors) →
            Agrees (self.old ∷ others) descs.old → Agrees (self.new ∷ others) descs.new }
        ensures gone { IfOk result (λ renamed. IsGone renamed.given descs.old descs.new) }
        ensures err_table { OnErr result (self.new ≡ self.old) }
        ensures err_descs { OnErr result (descs.new ≡ descs.old) }
    {
        let plan = self.plan_dup2(descs, fd, other)?;
        if let Some(rename) = plan.rename {
            self.put(rename.name);
            descs.put(rename.named);
            if let Some(left) = rename.left {
                descs.put(left);
            }
        }
        Ok(plan.renamed)
    }

    /// The descriptor is free, and the description that it named goes with its last name
    /// (POSIX.1-2017, XSH, close()).
    ///
    /// BadDescriptor where the number is not one of an open descriptor. All is then as it was.
    #[tactic(auto, using(crate::proofs::Counting::keeps_agree))]
    pub fn close(&mut self, descs: &mut Descs, fd: i64) -> Result<Given, Errno>
        requires { HasRoom 0 (named_in self.old (descriptor fd)) descs.old }

        ensures answer { (c : Caller) → c.process.descriptors ≡ self.old →
            close fd c ≡ close_outcome result self.new c }
        ensures descriptions { (c : Caller) →
            RunsWith c.number c.process c.state self.old → HasDescs c.state descs.old →
            Agrees (self.old ∷ others_of c.number c.state) descs.old →
            HasDescs (state_after (close fd) c) descs.new }
        ensures counts { (others : List Descriptors) →
            Agrees (self.old ∷ others) descs.old → Agrees (self.new ∷ others) descs.new }
        ensures gone { IfOk result (λ given. IsGone (Some given) descs.old descs.new) }
        ensures err_table { OnErr result (self.new ≡ self.old) }
        ensures err_descs { OnErr result (descs.new ≡ descs.old) }
    {
        let plan = self.plan_close(descs, fd)?;
        self.put(plan.name);
        descs.put(plan.desc);
        Ok(plan.given)
    }

    /// Sets O_NONBLOCK of the description that the descriptor names, or clears it (POSIX.1-2017, XSH,
    /// fcntl(), F_SETFL).
    ///
    /// BadDescriptor where the number is not one of an open descriptor. All is then as it was.
    #[tactic(auto, using(crate::proofs::Counting::keeps_stay))]
    pub fn set_nonblock(&self, descs: &mut Descs, fd: i64, on: bool) -> Result<(), Errno>
        requires { HasRoom 0 (named_in self.now (descriptor fd)) descs.old }

        ensures answer { (c : Caller) → c.process.descriptors ≡ self.now →
            HasDescs c.state descs.old →
            set_nonblock fd on c ≡ nonblock_outcome result (description_at fd c) descs.new c }
        ensures descriptions { (c : Caller) →
            c.process.descriptors ≡ self.now → HasDescs c.state descs.old →
            HasDescs (state_after (set_nonblock fd on) c) descs.new }
        ensures counts { (tables : List Descriptors) → Agrees tables descs.old →
            Agrees tables descs.new }
        ensures err_descs { OnErr result (descs.new ≡ descs.old) }
    {
        let plan = self.plan_nonblock(descs, fd, on)?;
        descs.put(plan);
        Ok(())
    }
}
