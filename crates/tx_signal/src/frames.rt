//! What caught signals saved.
ghost use Rattle.std.specs.Bool.{OnTrue, OnFalse};
ghost use Rattle.std.specs.Prelude.{◌≡◌, ◌<◌, ◌≤◌, ◌-◌, ◌↔◌, ◌++◌, ◌∷◌, [], IsTrue, length, slice_get, take};
ghost use Rattle.tx_model.specs.Words.{is_full};
ghost use Rattle.tx_model.specs.Signals.{newest_frame};
ghost use Rattle.tx_model.specs.State.{Process};
ghost use Rattle.tx_signal.specs.Parts.{with_frames};
ghost use Rattle.tx_base.specs.declared.limits.TheConstants.{FRAMES};

use arrayvec::ArrayVec;
use bitflags::Flags;
use std::marker::Model;
use std::mem;
use tx_base::{FRAMES, Regs, SigSet};

/// What a caught signal saved: the registers and the mask, as they were before it.
#[derive(Clone, Copy)]
pub struct Frame {
    pub registers: Regs,
    pub mask: SigSet,
}

impl Model for Frame {
    ghost use Rattle.tx_base.specs.Signals.{bits_of, set_of_bits};
    ghost use Rattle.tx_model.specs.State.{Frame as Saved};

    ghost Value = { Saved };

    ghost view = { λ frame. record { registers = frame.registers; mask = bits_of frame.mask } };

    ghost inverse = { λ frame.
        record { registers = frame.registers; mask = set_of_bits frame.mask } };
}

impl Default for Frame {
    fn default() -> Frame {
        Frame {
            registers: Regs {
                point: 0,
                ret: 0,
                slots: [0; 8],
            },
            mask: SigSet::empty(),
        }
    }
}

/// What the caught signals saved that are not finished, the oldest first: 0 to 4 of them.
#[derive(Drop)]
pub struct Frames {
    frames: ArrayVec<Frame, FRAMES>,
}

impl Model for Frames {
    ghost use Rattle.std.specs.Prelude.{List};
    ghost use Rattle.tx_model.specs.State.{Frame as Saved};

    ghost Value = { List Saved };

    ghost view = { λ frames. frames.frames.items };
}

impl Frames {
    /// None.
    pub fn new() -> Frames
        ensures { result ≡ [] }
    {
        Frames {
            frames: ArrayVec::new(),
        }
    }

    /// How many there are: 0 to 4.
    pub fn len(&self) -> usize
        ensures held { result ≡ length self.now }
        ensures fits { length self.now ≤ FRAMES }
    {
        self.frames.len()
    }

    /// Whether there are none.
    pub fn is_empty(&self) -> bool
        ensures { IsTrue result ↔ (self.now ≡ []) }
    {
        self.frames.is_empty()
    }

    /// Whether there are as many as may be. Own rule: 4.
    pub fn is_full(&self) -> bool
        ensures { (me : Process) → result ≡ is_full (with_frames self.now me) }
    {
        self.frames.is_full()
    }

    /// The newest, if there is one: what sigreturn goes back to. Own rule.
    pub fn newest(&self) -> Option<Frame>
        ensures { result ≡ newest_frame self.now }
    {
        self.frames.as_slice().last().copied()
    }

    /// The one at this place of the list, the oldest at 0, if there is such a place.
    pub fn get(&self, place: usize) -> Option<Frame>
        ensures { result ≡ slice_get self.now place }
    {
        self.frames.as_slice().get(place).copied()
    }

    /// All of them, the oldest first: 0 to 4.
    pub fn frames(&self) -> &[Frame]
        ensures whole { result.now ≡ self.now }
        ensures fits { length self.now ≤ FRAMES }
    {
        self.frames.as_slice()
    }

    /// Adds a newest one: false where there are 4, and they are then as they were. POSIX.1-2017,
    /// XSH, Signal Actions, of a caught signal; that 4 may be unfinished: own rule.
    pub fn push(&mut self, frame: Frame) -> bool
        ensures fits { IsTrue result ↔ (length self.old < FRAMES) }
        ensures added { OnTrue result (self.new ≡ self.old ++ frame ∷ []) }
        ensures unchanged { OnFalse result (self.new ≡ self.old) }
    {
        self.frames.try_push(frame).is_ok()
    }

    /// Takes the newest one, if there is one. Own rule, of sigreturn.
    pub fn pop(&mut self) -> Option<Frame>
        ensures newest { result ≡ newest_frame self.old }
        ensures rest { self.new ≡ take (length self.old - 1) self.old }
    {
        self.frames.pop()
    }

    /// An equal value. POSIX.1-2017, XSH, fork(): the child goes on as its parent.
    pub fn copy(&self) -> Frames
        ensures { result ≡ self.now }
    {
        let mut frames = ArrayVec::new();
        let _fits = frames.try_extend_from_slice(self.frames.as_slice());
        Frames { frames }
    }

    /// Exchanges the frames of two processes. A second exchange takes the first one back. Own rule.
    pub fn swap(&mut self, other: &mut Frames)
        ensures exchanged { self.new ≡ other.old }
        ensures given { other.new ≡ self.old }
    {
        mem::swap(self, other);
    }
}
