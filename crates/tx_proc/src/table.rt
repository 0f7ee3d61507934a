//! The processes by number.
ghost use Rattle.std.specs.Option.{option_copied};
ghost use Rattle.std.specs.Prelude.{◌≡◌, ◌≤◌, ◌↔◌, None, Some, IsTrue, IfOk, length, replicate, option_map};
ghost use Rattle.tx_base.specs.Slots.{slot_at, with_slot};
ghost use Rattle.tx_proc.specs.Children.{child_count, parent_in, HasOne, Recounts};
ghost use Rattle.tx_proc.specs.Parts.{edited_once, part_in, part_of, pending_in, with_pending, HasPlace};
ghost use Rattle.tx_proc.specs.declared.proc.Part.TheVariants.{Answer as SetAnswer};

use crate::boxed::BoxedProc;
use crate::children::ChildCounts;
use crate::proc::{Answer, Part, Proc};
use std::alloc::Global;
use std::marker::Model;
use std::mem;
use tx_base::{NoMemory, Pid};
use tx_signal::Pending;

/// The processes by number, from 1 to the width. The children of each number are counted too, so
/// that an end of a process without children need not look for them. Contracts see the list of what
/// each number has, that of number 1 first.
#[derive(Drop)]
pub struct ProcTable {
    slots: Vec<Option<BoxedProc>>,
    children: ChildCounts,
}

impl Model for ProcTable {
    ghost use Rattle.std.specs.Prelude.{List, Option};
    ghost use Rattle.tx_proc.specs.declared.proc.Proc.{Proc as TheProc};
    ghost use Rattle.tx_proc.specs.Children.{IsCounted};

    ghost Value = { List (Option TheProc) };

    ghost invariant = { λ table. IsCounted table.slots.items table.children };

    ghost view = { λ table. table.slots.items };
}

impl ProcTable {
    /// So many numbers, all of them free. Room for each is made here.
    ///
    /// NoMemory where a growth is refused.
    pub fn new(alloc: Global, width: u16) -> Result<ProcTable, NoMemory>
        ensures { IfOk result (λ table. table ≡ replicate width None) }
    {
        let mut slots = Vec::with_capacity(alloc, width as usize)?;
        for _number in 0..width {
            slots.push(None)?;
        }
        let children = ChildCounts::new(alloc, width)?;
        Ok(ProcTable { slots, children })
    }

    /// How many numbers there are.
    pub fn width(&self) -> usize
        ensures { result ≡ length self.now }
    {
        self.slots.len()
    }

    /// The process of a number; nothing where there is none, or no such number.
    pub fn get(&self, pid: Pid) -> Option<&Proc>
        ensures { option_copied result ≡ slot_at self.now pid.0 }
    {
        match self.at(pid) {
            Some(boxed) => Some(boxed.get()),
            None => None,
        }
    }

    /// The parent of the process of a number; nothing where there is none, or no such number.
    pub fn parent_of(&self, pid: Pid) -> Option<Pid>
        ensures { result ≡ option_map (λ proc. proc.parent) (slot_at self.now pid.0) }
    {
        let boxed = self.at(pid)?;
        Some(boxed.parent())
    }

    /// How many processes have this parent. It must be a valid number, or 0.
    pub fn child_count(&self, parent: Pid) -> usize
        requires { parent.0 ≤ length self.now }
        ensures { result ≡ child_count parent.0 self.now }
    {
        self.children.of(parent)
    }

    /// Whether a number has no process.
    pub fn free(&self, pid: Pid) -> bool
        ensures { IsTrue result ↔ (slot_at self.now pid.0 ≡ None) }
    {
        self.get(pid).is_none()
    }

    /// Puts a process at a free number, which must be valid. It takes no memory.
    pub fn put(&mut self, pid: Pid, boxed: BoxedProc)
        requires low { 1 ≤ pid.0 }
        requires high { pid.0 ≤ length self.old }
        requires free { slot_at self.old pid.0 ≡ None }
        ensures { self.new ≡ with_slot self.old pid.0 (Some boxed) }
    {
        let parent = boxed.parent();
        self.slots[pid.0 as usize - 1] = Some(boxed);
        self.children.recount(None, Some(parent));
    }

    /// Takes out what a number has, which is free then. The number must be valid.
    pub fn remove(&mut self, pid: Pid) -> Option<BoxedProc>
        requires low { 1 ≤ pid.0 }
        requires high { pid.0 ≤ length self.old }
        ensures freed { self.new ≡ with_slot self.old pid.0 None }
        ensures taken { result ≡ slot_at self.old pid.0 }
    {
        let taken = self.slots[pid.0 as usize - 1].take();
        self.children.recount(parent_in(&taken), None);
        taken
    }

    /// Exchanges what a number has. The number must be valid.
    pub fn swap(&mut self, pid: Pid, slot: &mut Option<BoxedProc>)
        requires low { 1 ≤ pid.0 }
        requires high { pid.0 ≤ length self.old }
        ensures exchanged { self.new ≡ with_slot self.old pid.0 slot.old }
        ensures given { slot.new ≡ slot_at self.old pid.0 }
    {
        let coming = parent_in(slot);
        mem::swap(&mut self.slots[pid.0 as usize - 1], slot);
        self.children.recount(parent_in(slot), coming);
    }

    /// Exchanges a part of the process that a number has; nothing happens where it has none. The
    /// number, and one in the part, must be valid.
    pub fn swap_part(&mut self, pid: Pid, part: &mut Part)
        requires low { 1 ≤ pid.0 }
        requires high { pid.0 ≤ length self.old }
        requires place { HasPlace part.old }
        ensures exchanged { self.new
            ≡ with_slot self.old pid.0
            (option_map (λ proc. edited_once proc part.old) (slot_at self.old pid.0)) }
        ensures given { part.new ≡ part_in (slot_at self.old pid.0) part.old }
    {
        let ProcTable { slots, children } = self;
        if let Some(boxed) = &mut slots[pid.0 as usize - 1] {
            exchange_part(boxed, part, children);
        }
    }

    /// Exchanges the point and the answer of the process that a number has, as `swap_part` does,
    /// for less. The number must be valid.
    pub fn swap_answer(&mut self, pid: Pid, answer: &mut Answer)
        requires low { 1 ≤ pid.0 }
        requires high { pid.0 ≤ length self.old }
        ensures exchanged { self.new
            ≡ with_slot self.old pid.0
            (option_map (λ proc. edited_once proc (SetAnswer answer.old)) (slot_at self.old pid.0)) }
        ensures given { SetAnswer answer.new
            ≡ part_in (slot_at self.old pid.0) (SetAnswer answer.old) }
    {
        if let Some(boxed) = &mut self.slots[pid.0 as usize - 1] {
            boxed.swap_answer(answer);
        }
    }

    /// Exchanges all that is pending at the process that a number has; nothing happens where it has
    /// none. The number must be valid.
    pub fn swap_pending(&mut self, pid: Pid, pending: &mut Pending)
        requires low { 1 ≤ pid.0 }
        requires high { pid.0 ≤ length self.old }
        ensures exchanged { self.new
            ≡ with_slot self.old pid.0
            (option_map (with_pending pending.old) (slot_at self.old pid.0)) }
        ensures given { pending.new ≡ pending_in (slot_at self.old pid.0) pending.old }
    {
        if let Some(boxed) = &mut self.slots[pid.0 as usize - 1] {
            boxed.swap_pending(pending);
        }
    }

    /// What a number has; nothing where there is no such number.
    fn at(&self, pid: Pid) -> Option<&BoxedProc>
        ensures { option_copied result ≡ slot_at self.now pid.0 }
    {
        if pid.0 == 0 || pid.0 as usize > self.width() {
            return None;
        }
        self.slots[pid.0 as usize - 1].as_ref()
    }
}

/// Exchanges a part of a process that is counted, and then counts it as the child of its new
/// parent.
fn exchange_part(boxed: &mut BoxedProc, part: &mut Part, children: &mut ChildCounts)
    requires place { HasPlace part.old }
    requires counted { HasOne (Some boxed.old.parent) children.old }
    ensures proc { boxed.new ≡ edited_once boxed.old part.old }
    ensures part { part.new ≡ part_of boxed.old part.old }
    ensures children { Recounts (Some boxed.old.parent) (Some boxed.new.parent) children.old
        children.new }
{
    if let Part::Parent(coming) = part {
        children.recount(Some(boxed.parent()), Some(*coming));
    }
    boxed.swap_part(part);
}

/// The parent of the process in a slot.
fn parent_in(slot: &Option<BoxedProc>) -> Option<Pid>
    ensures { result ≡ parent_in slot.now }
{
    match slot {
        Some(boxed) => Some(boxed.parent()),
        None => None,
    }
}
