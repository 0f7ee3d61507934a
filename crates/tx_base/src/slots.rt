//! A table of numbered slots, whose room is reserved at the start.
ghost use Rattle.std.specs.Prelude.{◌≡◌, ◌<◌, ◌≤◌, ◌-◌, None, Some, IfOk, IsSome, replicate, length};
ghost use Rattle.std.specs.Option.{option_copied};
ghost use Rattle.std.specs.Borrow.{sem};

use crate::errors::NoMemory;
use crate::names::Pid;
use std::alloc::Global;
use std::marker::Model;
use std::mem;

/// A slot for each process number from 1 to the width of the table. Contracts see the list of
/// the slots, that of number 1 first.
#[derive(Drop)]
pub struct Slots<T: Drop> {
    slots: Vec<Option<T>>,
}

impl<T: Drop> Model for Slots<T> {
    ghost use Rattle.std.specs.Prelude.{List, Option};

    ghost Value = { List (Option T) };

    ghost view = { λ table. table.slots.items };
}

impl<T: Drop> Slots<T> {
    ghost use Rattle.tx_base.specs.Lends.{lends_slot};
    ghost use Rattle.tx_base.specs.Slots.{slot_at, with_slot};

    /// So many empty slots.
    pub fn new(alloc: Global, width: u16) -> Result<Slots<T>, NoMemory>
        ensures { IfOk result (λ table. table ≡ replicate width None) }
    {
        let mut slots = Vec::with_capacity(alloc, width as usize)?;
        for _number in 0..width {
            slots.push(None)?;
        }
        Ok(Slots { slots })
    }

    /// How many slots there are.
    pub fn width(&self) -> usize
        ensures { result ≡ length self.now }
    {
        self.slots.len()
    }

    /// What is in the slot of a number; nothing where there is no such slot.
    pub fn get(&self, pid: Pid) -> Option<&T>
        ensures { option_copied result ≡ slot_at self.now pid.0 }
    {
        if pid.0 == 0 || pid.0 as usize > self.slots.len() {
            return None;
        }
        self.slots[pid.0 as usize - 1].as_ref()
    }

    /// What is in the slot of a number, to be changed in place. The slot must not be empty.
    pub fn value_mut(&mut self, pid: Pid) -> &mut T
        requires { IsSome (slot_at self.old pid.0) }
        ensures* writes_back { sem 𝓛 (lends_slot T.row self.entry pid.0 result) }
        ensures value { slot_at self.old pid.0 ≡ Some result.now }
    {
        self.slots[pid.0 as usize - 1].as_mut().unwrap()
    }

    /// Exchanges what is in the slot of a number.
    pub fn swap(&mut self, pid: Pid, slot: &mut Option<T>)
        requires low { 1 ≤ pid.0 }
        requires high { pid.0 ≤ length self.old }
        ensures exchanged { self.new ≡ with_slot self.old pid.0 slot.old }
        ensures given { slot.new ≡ slot_at self.old pid.0 }
    {
        mem::swap(&mut self.slots[pid.0 as usize - 1], slot);
    }

    /// Takes out what is in the slot of a number, and leaves the slot empty.
    pub fn take(&mut self, pid: Pid) -> Option<T>
        requires low { 1 ≤ pid.0 }
        requires high { pid.0 ≤ length self.old }
        ensures emptied { self.new ≡ with_slot self.old pid.0 None }
        ensures taken { result ≡ slot_at self.old pid.0 }
    {
        self.slots[pid.0 as usize - 1].take()
    }

    /// Puts a value into the slot of a number, in place of what is there.
    pub fn put(&mut self, pid: Pid, value: T)
        requires low { 1 ≤ pid.0 }
        requires high { pid.0 ≤ length self.old }
        ensures { self.new ≡ with_slot self.old pid.0 (Some value) }
    {
        self.slots[pid.0 as usize - 1] = Some(value);
    }
}
