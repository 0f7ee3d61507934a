//! The plans of the calls: what each puts in place. Nothing is changed.
ghost use Rattle.std.specs.Prelude.{◌≡◌, ◌≢◌, ◌<◌, List, Option, IfOk, [], ◌∷◌, Some, None, slice_index_or, slice_set};
ghost use Rattle.tx_desc.specs.declared.opened.Opened.{Opened};
ghost use Rattle.tx_model.specs.Book.{pipe as pipe_rule, dup, dup2, close, set_nonblock, description_at};
ghost use Rattle.tx_model.specs.Descriptors.{descriptor, option_list};
ghost use Rattle.tx_model.specs.Forms.{Caller};
ghost use Rattle.tx_desc.specs.Counts.{Agrees, HasRoom, KeepsCounts, others_of};
ghost use Rattle.tx_desc.specs.Descriptions.{HasDescs, IsGone, changed_at, with_more, with_fewer};
ghost use Rattle.tx_desc.specs.Outcomes.{RunsWith, effect_in, state_after, given_up, pipe_outcome, dup_outcome, dup2_outcome, close_outcome, nonblock_outcome};
ghost use Rattle.tx_desc.specs.Places.{named_in};
ghost use Rattle.tx_desc.specs.Plans.{AreFree, AreInRange, GivesLeft, IsOfTwo, RenamesOf, answer_of, put_names, put_descs, pipe_puts, dup_puts, dup2_puts, rename_puts, close_puts, nonblock_puts};

use crate::descs::Descs;
use crate::given::{Given, Renamed};
use crate::numbers::descriptor_at;
use crate::opened::{Opened, Side};
use crate::plans::{ClosePlan, Dup2Plan, DupPlan, NewDesc, NewName, PipePlan, Rename};
use crate::table::FdTable;
use tx_base::{DescNo, Errno, PipeNo};

impl FdTable {
    /// The two names and the two descriptions of a new pipe, as `pipe_pair` puts them in place.
    ///
    /// TooManyDescriptors as at `pipe_pair`.
    pub fn plan_pipe(&self, pipe: PipeNo, read: DescNo, write: DescNo) -> Result<PipePlan, Errno>
        requires apart { read.0 ≢ write.0 }
        requires read_in { read.0 < 64 }
        requires write_in { write.0 < 64 }

        ensures answer { (c : Caller) (descs : List (Option Opened)) →
            c.process.descriptors ≡ self.now → AreFree read.0 write.0 descs →
            HasDescs c.state descs →
            c.state.pipes pipe.0 ≡ None →
            pipe_rule pipe.0 read.0 write.0 c
            ≡ pipe_outcome pipe.0 read.0 write.0
            (answer_of (λ plan. (plan.read_name.fd, plan.write_name.fd)) result)
            (put_names (pipe_puts result).names self.now) (put_descs (pipe_puts result).descs descs)
            c }
        ensures descriptions { (c : Caller) (descs : List (Option Opened)) →
            c.process.descriptors ≡ self.now → AreFree read.0 write.0 descs →
            HasDescs c.state descs →
            c.state.pipes pipe.0 ≡ None →
            HasDescs (state_after (pipe_rule pipe.0 read.0 write.0) c)
            (put_descs (pipe_puts result).descs descs) }
        ensures counts { (descs : List (Option Opened)) → AreFree read.0 write.0 descs →
            KeepsCounts self.now (put_names (pipe_puts result).names self.now) descs
            (put_descs (pipe_puts result).descs descs) }
        ensures named { IfOk result (λ plan.
            (plan.read.number ≡ read) × (plan.write.number ≡ write)) }
        ensures numbers { AreInRange (pipe_puts result) }
    {
        self.sized();
        let Some((first, second)) = self.two_lowest_free() else {
            return Err(Errno::TooManyDescriptors);
        };
        Ok(PipePlan {
            read_name: NewName {
                fd: first,
                name: Some(read),
            },
            write_name: NewName {
                fd: second,
                name: Some(write),
            },
            read: NewDesc {
                number: read,
                opened: Some(Opened::first(pipe, Side::Read)),
            },
            write: NewDesc {
                number: write,
                opened: Some(Opened::first(pipe, Side::Write)),
            },
        })
    }

    /// The name and the description of a `dup`, as it puts them in place. The answer of the call is
    /// the descriptor of the name.
    ///
    /// BadDescriptor and TooManyDescriptors as at `dup`.
    pub fn plan_dup(&self, descs: &Descs, fd: i64) -> Result<DupPlan, Errno>
        requires { HasRoom 1 (named_in self.now (descriptor fd)) descs.now }

        ensures answer { (c : Caller) → c.process.descriptors ≡ self.now →
            dup fd c ≡ dup_outcome (answer_of (λ plan. plan.name.fd) result)
            (put_names (dup_puts result).names self.now) c }
        ensures descriptions { (c : Caller) →
            c.process.descriptors ≡ self.now → HasDescs c.state descs.now →
            HasDescs (state_after (dup fd) c) (put_descs (dup_puts result).descs descs.now) }
        ensures counts { KeepsCounts self.now (put_names (dup_puts result).names self.now) descs.now
            (put_descs (dup_puts result).descs descs.now) }
        ensures named { IfOk result (λ plan.
            named_in self.now (descriptor fd) ≡ Some plan.desc.number.0) }
        ensures numbers { AreInRange (dup_puts result) }
    {
        self.sized();
        descs.sized();
        let (_, d) = self.find(fd)?;
        let Some(free) = self.lowest_free() else {
            return Err(Errno::TooManyDescriptors);
        };
        let opened = descs.raised(d, 1);
        Ok(DupPlan {
            name: NewName {
                fd: free,
                name: Some(d),
            },
            desc: NewDesc { number: d, opened },
        })
    }

    /// The name and the descriptions of a `dup2`, as it puts them in place, and its answer.
    ///
    /// BadDescriptor as at `dup2`.
    pub fn plan_dup2(&self, descs: &Descs, fd: i64, other: i64) -> Result<Dup2Plan, Errno>
        requires named { HasRoom 1 (named_in self.now (descriptor fd)) descs.now }
        requires left { HasRoom 0 (named_in self.now (descriptor other)) descs.now }

        ensures answer { (c : Caller) → c.process.descriptors ≡ self.now →
            effect_in (dup2 fd other) c
            ≡ effect_in (dup2_outcome (answer_of (λ plan. plan.renamed) result)
            (put_names (dup2_puts result).names self.now)) c }
        ensures descriptions { (c : Caller) →
            RunsWith c.number c.process c.state self.now → HasDescs c.state descs.now →
            Agrees (self.now ∷ others_of c.number c.state) descs.now →
            HasDescs (state_after (dup2 fd other) c)
            (put_descs (dup2_puts result).descs descs.now) }
        ensures counts { KeepsCounts self.now (put_names (dup2_puts result).names self.now)
            descs.now (put_descs (dup2_puts result).descs descs.now) }
        ensures gone { IfOk result (λ plan.
            IsGone plan.renamed.given descs.now (put_descs (dup2_puts result).descs descs.now)) }
        ensures changed { IfOk result (λ plan.
            RenamesOf (named_in self.now (descriptor fd)) (named_in self.now (descriptor other))
            plan.rename) }
        ensures fd { IfOk result (λ plan. plan.renamed.fd < 16) }
        ensures apart { IfOk result (λ plan.
            IsOfTwo (descriptor fd) (descriptor other) plan.rename) }
        ensures left { IfOk result (λ plan. GivesLeft plan.renamed.given plan.rename) }
        ensures numbers { AreInRange (dup2_puts result) }
    {
        self.sized();
        descs.sized();
        let (place, d) = self.find(fd)?;
        let Some(target) = descriptor_at(other) else {
            return Err(Errno::BadDescriptor);
        };
        if place == target {
            let renamed = Renamed {
                fd: target,
                given: None,
            };
            return Ok(Dup2Plan {
                renamed,
                rename: None,
            });
        }
        Ok(self.plan_rename(descs, d, target))
    }

    /// The name and the description of a `close`, as it puts them in place, and its answer.
    ///
    /// BadDescriptor as at `close`.
    pub fn plan_close(&self, descs: &Descs, fd: i64) -> Result<ClosePlan, Errno>
        requires { HasRoom 0 (named_in self.now (descriptor fd)) descs.now }

        ensures answer { (c : Caller) → c.process.descriptors ≡ self.now →
            close fd c ≡ close_outcome (answer_of (λ plan. plan.given) result)
            (put_names (close_puts result).names self.now) c }
        ensures descriptions { (c : Caller) →
            RunsWith c.number c.process c.state self.now → HasDescs c.state descs.now →
            Agrees (self.now ∷ others_of c.number c.state) descs.now →
            HasDescs (state_after (close fd) c) (put_descs (close_puts result).descs descs.now) }
        ensures counts { KeepsCounts self.now (put_names (close_puts result).names self.now)
            descs.now (put_descs (close_puts result).descs descs.now) }
        ensures gone { IfOk result (λ plan.
            IsGone (Some plan.given) descs.now (put_descs (close_puts result).descs descs.now)) }
        ensures given { IfOk result (λ plan. plan.given.number ≡ plan.desc.number) }
        ensures named { IfOk result (λ plan.
            named_in self.now (descriptor fd) ≡ Some plan.desc.number.0) }
        ensures numbers { AreInRange (close_puts result) }
    {
        self.sized();
        descs.sized();
        let (place, d) = self.find(fd)?;
        let (desc, given) = descs.one_fewer(d);
        Ok(ClosePlan {
            name: NewName {
                fd: place,
                name: None,
            },
            desc,
            given,
        })
    }

    /// The description with the flag, as `set_nonblock` puts it in place.
    ///
    /// BadDescriptor as at `set_nonblock`.
    pub fn plan_nonblock(&self, descs: &Descs, fd: i64, on: bool) -> Result<NewDesc, Errno>
        requires { HasRoom 0 (named_in self.now (descriptor fd)) descs.now }

        ensures answer { (c : Caller) → c.process.descriptors ≡ self.now →
            HasDescs c.state descs.now →
            set_nonblock fd on c ≡ nonblock_outcome result (description_at fd c)
            (put_descs (nonblock_puts result).descs descs.now) c }
        ensures descriptions { (c : Caller) →
            c.process.descriptors ≡ self.now → HasDescs c.state descs.now →
            HasDescs (state_after (set_nonblock fd on) c)
            (put_descs (nonblock_puts result).descs descs.now) }
        ensures counts { KeepsCounts [] [] descs.now
            (put_descs (nonblock_puts result).descs descs.now) }
        ensures named { IfOk result (λ plan.
            named_in self.now (descriptor fd) ≡ Some plan.number.0) }
        ensures numbers { AreInRange (nonblock_puts result) }
    {
        self.sized();
        descs.sized();
        let (_, d) = self.find(fd)?;
        Ok(NewDesc {
            number: d,
            opened: descs.flagged(d, on),
        })
    }

    /// The plan of a `dup2` that has the other descriptor name description d.
    fn plan_rename(&self, descs: &Descs, d: DescNo, target: usize) -> Dup2Plan
        requires inside { target < 16 }
        requires named { HasRoom 1 (Some d.0) descs.now }
        requires left { HasRoom 0 (slice_index_or self.now target None) descs.now }

        ensures fd { result.renamed.fd ≡ target }
        ensures given { given_up result.renamed.given
            ≡ option_list (slice_index_or self.now target None) }
        ensures table { put_names (rename_puts result.rename).names self.now
            ≡ slice_set self.now target (Some d.0) }
        ensures after { put_descs (rename_puts result.rename).descs descs.now
            ≡ changed_at (with_fewer 1) (slice_index_or self.now target None)
            (changed_at (with_more 1) (Some d.0) descs.now) }
        ensures gone { IsGone result.renamed.given descs.now
            (put_descs (rename_puts result.rename).descs descs.now) }
        ensures changed { RenamesOf (Some d.0) (slice_index_or self.now target None) result.rename }
        ensures left { GivesLeft result.renamed.given result.rename }
        ensures numbers { AreInRange (rename_puts result.rename) }
    {
        self.sized();
        descs.sized();
        let old = self.get(target);
        if old == Some(d) {
            let given = Some(Given {
                number: d,
                gone: None,
            });
            return Dup2Plan {
                renamed: Renamed { fd: target, given },
                rename: None,
            };
        }
        let (left, given) = descs.given_up(old);
        let name = NewName {
            fd: target,
            name: Some(d),
        };
        let named = NewDesc {
            number: d,
            opened: descs.raised(d, 1),
        };
        Dup2Plan {
            renamed: Renamed { fd: target, given },
            rename: Some(Rename { name, named, left }),
        }
    }
}
