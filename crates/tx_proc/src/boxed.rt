//! What has a place of its own: a process, and a frame that is exchanged.
ghost use Rattle.std.specs.Prelude.{◌≡◌, IfOk, OnOk};
ghost use Rattle.tx_model.specs.Memory.{no_memory};
ghost use Rattle.tx_proc.specs.Parts.{edited_once, part_of, frames_swapped, frame_given, with_pending, HasPlace};
ghost use Rattle.tx_proc.specs.declared.proc.Part.TheVariants.{Answer as SetAnswer};

use crate::proc::{Answer, Part, Proc, swap_answer};
use std::alloc::Global;
use std::marker::Model;
use tx_base::{NoMemory, Pid};
use tx_signal::{Frame, Frames, Pending};

/// A process in a place of its own, so that a table moves no process. Its parent is beside it too,
/// so that only the table is read to find whose child it is. Contracts see the process.
#[derive(Drop)]
pub struct BoxedProc {
    parent: Pid,
    proc: Box<Proc>,
}

impl Model for BoxedProc {
    ghost use Rattle.std.specs.Prelude.{◌≡◌};
    ghost use Rattle.tx_proc.specs.declared.proc.Proc.{Proc as TheProc};

    ghost Value = { TheProc };

    ghost invariant = { λ boxed. boxed.parent ≡ boxed.proc.value.parent };

    ghost view = { λ boxed. boxed.proc.value };
}

impl BoxedProc {
    /// The process, in a place of its own.
    ///
    /// NoMemory where a growth is refused.
    pub fn new(alloc: Global, proc: Proc) -> Result<BoxedProc, NoMemory>
        ensures { IfOk result (λ boxed. boxed ≡ proc) }
    {
        let parent = proc.parent;
        let proc = Box::new(alloc, proc)?;
        Ok(BoxedProc { parent, proc })
    }

    /// Shares the frames of the pages of another process, where this one has no page.
    ///
    /// NoMemory where a frame can't be shared again. Some of the pages may then be there.
    pub fn share_pages(&mut self, from: &Proc) -> Result<(), NoMemory>
        requires { self.old.space ≡ no_memory }
        ensures { OnOk result (self.new ≡ record self.old { space = from.now.space }) }
    {
        self.proc.space.share(&from.space)
    }

    /// The process.
    pub fn get(&self) -> &Proc
        ensures { result.now ≡ self.now }
    {
        &self.proc
    }

    /// The parent of the process.
    pub fn parent(&self) -> Pid
        ensures { result ≡ self.now.parent }
    {
        self.parent
    }

    /// Exchanges a part of the process. A number in the part must be valid.
    pub fn swap_part(&mut self, part: &mut Part)
        requires { HasPlace part.old }
        ensures proc { self.new ≡ edited_once self.old part.old }
        ensures part { part.new ≡ part_of self.old part.old }
    {
        let BoxedProc { parent, proc } = self;
        if let Part::Parent(coming) = part {
            *parent = *coming;
        }
        part.swap(proc);
    }

    /// Exchanges the point and the answer of the process, as `swap_part` does, for less.
    pub fn swap_answer(&mut self, answer: &mut Answer)
        ensures proc { self.new ≡ edited_once self.old (SetAnswer answer.old) }
        ensures answer { SetAnswer answer.new ≡ part_of self.old (SetAnswer answer.old) }
    {
        swap_answer(&mut self.proc.regs, answer);
    }

    /// Exchanges all that is pending at the process.
    pub fn swap_pending(&mut self, pending: &mut Pending)
        ensures proc { self.new ≡ with_pending pending.old self.old }
        ensures pending { pending.new ≡ self.old.pending }
    {
        self.proc.pending.swap(pending);
    }
}

/// A frame, or none, in a place of its own, so that a part that has one is as small as the others.
/// Contracts see the frame.
#[derive(Drop)]
pub struct BoxedFrame {
    frame: Box<Option<Frame>>,
}

impl Model for BoxedFrame {
    ghost use Rattle.std.specs.Prelude.{Option};
    ghost use Rattle.tx_model.specs.State.{Frame as Saved};

    ghost Value = { Option Saved };

    ghost view = { λ boxed. boxed.frame.value };
}

impl BoxedFrame {
    /// The frame, or none, in a place of its own.
    ///
    /// NoMemory where a growth is refused.
    pub fn new(alloc: Global, frame: Option<Frame>) -> Result<BoxedFrame, NoMemory>
        ensures { IfOk result (λ boxed. boxed ≡ frame) }
    {
        let frame = Box::new(alloc, frame)?;
        Ok(BoxedFrame { frame })
    }

    /// Takes the newest frame out where this is none; puts this one in where there is room.
    #[inline(never)] // inlined, each exchange of a part would make room for a frame
    #[tactic(auto, using(crate::proofs::Limits::frames_fit, crate::proofs::Limits::frame_fits))]
    pub fn swap_newest(&mut self, frames: &mut Frames)
        ensures frames { frames.new ≡ frames_swapped self.old frames.old }
        ensures frame { self.new ≡ frame_given self.old frames.old }
    {
        let _fits = frames.len();
        match self.frame.take() {
            None => *self.frame = frames.pop(),
            Some(coming) => {
                if !frames.push(coming) {
                    *self.frame = Some(coming);
                }
            }
        }
    }
}
