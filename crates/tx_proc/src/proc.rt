//! What a process has, and one part of it with its old or new value.
ghost use Rattle.std.specs.Prelude.{◌≡◌};
ghost use Rattle.tx_model.specs.Memory.{no_memory};
ghost use Rattle.tx_model.specs.State.{bare_process, booted_process};
ghost use Rattle.tx_proc.specs.Parts.{edited_once, part_of, queue_swapped, queue_given, HasPlace};

use crate::boxed::BoxedFrame;
use bitflags::Flags;
use std::mem;
use tx_base::{DescNo, LAST_POINT, Pid, Regs, Signo};
use tx_cred::Cred;
use tx_desc::FdTable;
use tx_pages::{Page, Space};
use tx_signal::{Action, Actions, Frames, Pending, Queued, SigSet};

/// A process.
#[derive(Drop)]
pub struct Proc {
    pub regs: Regs,
    /// The parent's number; 0 for process 1.
    pub parent: Pid,
    /// Nothing while it runs; else the status that it ended with.
    pub status: Option<u16>,
    pub cred: Cred,
    pub space: Space,
    pub descriptors: FdTable,
    /// The signals that are blocked.
    pub mask: SigSet,
    pub actions: Actions,
    pub pending: Pending,
    /// What caught signals saved.
    pub frames: Frames,
}

impl Proc {
    ghost use Rattle.tx_cred.specs.Cred.{ids_of};
    ghost use Rattle.tx_proc.specs.Parts.{process_of};
    ghost use Rattle.tx_model.specs.Processes.{child_of, ended_process};

    /// A process as it is at the start: it runs at point 0 with all ids 0, and has nothing else.
    /// Process 1 has no parent, and is the parent of the others. Own rule.
    pub fn booted(pid: Pid) -> Proc
        ensures { process_of result ≡ booted_process pid.0 }
    {
        let parent = Pid(if pid.0 == 1 { 0 } else { 1 });
        Proc::bare(parent, None, Cred::root())
    }

    /// The child that a fork of the process makes, whose parent it is by this number, without its
    /// pages: a copy with the answer 0 at the point after the call, to which no signal is pending
    /// (POSIX.1-2017, XSH, fork()).
    pub fn child(&self, parent: Pid) -> Proc
        ensures { process_of result
            ≡ record (child_of parent.0 (process_of self.now)) { memory = no_memory } }
    {
        let answer = Answer::at(self.regs.point, 0);
        Proc {
            regs: Regs {
                point: answer.point,
                ret: answer.ret,
                slots: self.regs.slots,
            },
            parent,
            status: self.status,
            cred: self.cred,
            space: Space::new(),
            descriptors: self.descriptors.copy(),
            mask: self.mask,
            actions: self.actions.copy(),
            pending: Pending::new(),
            frames: self.frames.copy(),
        }
    }

    /// What is left of the process once it has ended with this status: its parent, its ids and the
    /// status (POSIX.1-2017, XSH, _exit()).
    pub fn ended(&self, status: u16) -> Proc
        ensures { process_of result ≡ ended_process status (process_of self.now) }
    {
        Proc::bare(self.parent, Some(status), self.cred)
    }

    /// A process at point 0 with this parent, status and ids, and nothing else.
    fn bare(parent: Pid, status: Option<u16>, cred: Cred) -> Proc
        ensures { process_of result ≡ bare_process parent.0 status (ids_of cred) }
    {
        Proc {
            regs: Regs {
                point: 0,
                ret: 0,
                slots: [0; 8],
            },
            parent,
            status,
            cred,
            space: Space::new(),
            descriptors: FdTable::new(),
            mask: SigSet::empty(),
            actions: Actions::new(),
            pending: Pending::new(),
            frames: Frames::new(),
        }
    }
}

/// What a call leaves in the registers: the point after it, and its answer.
#[derive(Clone, Copy)]
pub struct Answer {
    pub point: u32,
    pub ret: i64,
}

impl Answer {
    ghost use Rattle.tx_model.specs.Effects.{next_point};

    /// What a call with this answer leaves that was made at the point: the next point, which is the
    /// same at the last one. Own rule.
    pub fn at(point: u32, ret: i64) -> Answer
        ensures { result ≡ record { point = next_point point; ret = ret } }
    {
        let point = if point < LAST_POINT { point + 1 } else { point };
        Answer { point, ret }
    }
}

/// What a slot of the registers keeps: slots 0 to 7.
#[derive(Clone, Copy)]
pub struct Register {
    pub number: usize,
    pub value: i64,
}

/// One part of a process, and its old or new value. It owns that value, so an exchange takes no
/// memory. Own rule.
#[derive(Drop)]
pub enum Part {
    /// The point and the answer of the last call.
    Answer(Answer),
    /// What a slot of the registers keeps.
    Register(Register),
    /// The parent.
    Parent(Pid),
    /// The status.
    Status(Option<u16>),
    /// The ids.
    Cred(Cred),
    /// What a page number has: 0 to 15.
    Page(usize, Option<Page>),
    /// What a descriptor names: 0 to 15.
    Descriptor(usize, Option<DescNo>),
    /// The signals that are blocked.
    Mask(SigSet),
    /// What is done about a signal.
    Action(Signo, Action),
    /// The standard signals that are pending.
    Pending(SigSet),
    /// An entry of the queue of realtime signals: the one at the place, or one to put in there.
    Queued(usize, Option<Queued>),
    /// The newest of the frames, or one to be the newest.
    Frame(BoxedFrame),
}

impl Part {
    /// Exchanges the part with that of the process. A number in it must be valid.
    #[tactic(auto, using(crate::proofs::Names::desc_back))]
    pub fn swap(&mut self, proc: &mut Proc)
        requires { HasPlace self.old }
        ensures proc { proc.new ≡ edited_once proc.old self.old }
        ensures part { self.new ≡ part_of proc.old self.old }
    {
        match self {
            Part::Answer(answer) => swap_answer(&mut proc.regs, answer),
            Part::Register(slot) => mem::swap(&mut proc.regs.slots[slot.number], &mut slot.value),
            Part::Parent(parent) => mem::swap(&mut proc.parent, parent),
            Part::Status(status) => mem::swap(&mut proc.status, status),
            Part::Cred(cred) => mem::swap(&mut proc.cred, cred),
            Part::Page(number, page) => proc.space.swap_page(*number, page),
            Part::Descriptor(number, name) => proc.descriptors.swap(*number, name),
            Part::Mask(mask) => mem::swap(&mut proc.mask, mask),
            Part::Action(signo, action) => proc.actions.swap(*signo, action),
            Part::Pending(set) => proc.pending.swap_standard(set),
            Part::Queued(place, entry) => swap_entry(&mut proc.pending, *place, entry),
            Part::Frame(frame) => frame.swap_newest(&mut proc.frames),
        }
    }
}

/// Exchanges the point and the answer, and leaves the slots.
pub(crate) fn swap_answer(regs: &mut Regs, answer: &mut Answer)
    ensures regs { regs.new ≡ record regs.old { point = answer.old.point; ret = answer.old.ret } }
    ensures answer { answer.new ≡ record { point = regs.old.point; ret = regs.old.ret } }
{
    mem::swap(&mut regs.point, &mut answer.point);
    mem::swap(&mut regs.ret, &mut answer.ret);
}

/// Takes out the entry at the place where none comes in; else puts in there the one that comes,
/// where there is room.
#[inline(never)] // inlined, each exchange of a part would save the registers that it takes
#[tactic(auto, using(crate::proofs::Limits::queue_fits, crate::proofs::Limits::entry_fits))]
fn swap_entry(pending: &mut Pending, place: usize, entry: &mut Option<Queued>)
    ensures pending { pending.new
        ≡ record pending.old { queued = queue_swapped place entry.old pending.old.queued } }
    ensures entry { entry.new ≡ queue_given place entry.old pending.old.queued }
{
    let _fits = pending.queued();
    pending.swap_entry(place, entry);
}
