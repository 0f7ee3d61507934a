//! The live transactions by number, and the room that steps left.
ghost use Rattle.std.specs.Option.{option_copied};
ghost use Rattle.std.specs.Borrow.{sem};
ghost use Rattle.std.specs.Prelude.{◌≡◌, ◌≤◌, ◌↔◌, ℕ, [], None, Some, IfOk, IsSome, IsTrue, length, replicate};
ghost use Rattle.tx_base.specs.Slots.{slot_at, with_slot};
ghost use Rattle.tx_content.specs.Begins.{StartsOf};
ghost use Rattle.tx_content.specs.Tables.{live_count};

use crate::content::BoxedTxn;
use std::alloc::Global;
use std::marker::Model;
use tx_base::{NoMemory, Pid, Slots};
use tx_change::Log;
use tx_proc::Proc;
use tx_txn::Txn;

/// How many old parts a log may have whose room is kept: those of a thousand stores, in 112 KiB.
/// Larger room, freed and taken again, makes the allocator merge all its free memory.
const KEPT_PARTS: usize = 2_048;

/// The live transactions by the numbers of their starters. Contracts see only their list, number 1
/// first. Beside it is the room of one transaction that ended, and of the log of one step outside,
/// so that the next ones need not take memory.
#[derive(Drop)]
pub struct TxnTable {
    slots: Slots<BoxedTxn>,
    /// How many are live.
    live: usize,
    spare: Option<BoxedTxn>,
    spare_log: Option<Log>,
}

impl Model for TxnTable {
    ghost use Rattle.std.specs.Prelude.{List, Option};
    ghost use Rattle.tx_content.specs.Tables.{IsCounted};
    ghost use Rattle.tx_content.specs.declared.content.BoxedTxn.{BoxedTxn as TheBoxedTxn};

    ghost Value = { List (Option TheBoxedTxn) };

    ghost view = { λ table. table.slots };

    ghost invariant = { λ table. IsCounted table.slots table.live };
}

impl TxnTable {
    ghost use Rattle.tx_content.specs.Lends.{lends_txn};

    /// A table of this many numbers without a transaction. NoMemory where a growth is refused.
    pub fn new(alloc: Global, width: u16) -> Result<TxnTable, NoMemory>
        ensures { IfOk result (λ table. table ≡ replicate width None) }
    {
        let slots = Slots::new(alloc, width)?;
        Ok(TxnTable {
            slots,
            live: 0,
            spare: None,
            spare_log: None,
        })
    }

    /// How many transactions are live.
    pub fn live_count(&self) -> usize
        ensures count { result ≡ live_count self.now }
        ensures few { result ≤ length self.now }
    {
        self.live
    }

    /// Whether no transaction is live.
    pub fn is_idle(&self) -> bool
        ensures { IsTrue result ↔ ((s : ℕ) → slot_at self.now s ≡ None) }
    {
        self.live == 0
    }

    /// The transaction of a starter, if it has one.
    pub fn get(&self, starter: Pid) -> Option<&BoxedTxn>
        ensures { option_copied result ≡ slot_at self.now starter.0 }
    {
        self.slots.get(starter)
    }

    /// The live transaction of a starter, to change in place.
    pub fn value_mut(&mut self, starter: Pid) -> &mut BoxedTxn
        requires { IsSome (slot_at self.old starter.0) }
        ensures* writes_back { sem 𝓛 (lends_txn self.entry starter.0 result) }
        ensures value { slot_at self.old starter.0 ≡ Some result.now }
    {
        self.slots.value_mut(starter)
    }

    /// Takes out the transaction of a starter, whose number must be in range.
    pub fn take(&mut self, starter: Pid) -> Option<BoxedTxn>
        requires low { 1 ≤ starter.0 }
        requires high { starter.0 ≤ length self.old }
        ensures emptied { self.new ≡ with_slot self.old starter.0 None }
        ensures taken { result ≡ slot_at self.old starter.0 }
    {
        let taken = self.slots.take(starter);
        if taken.is_some() {
            self.live -= 1;
        }
        taken
    }

    /// Puts in the transaction of a starter, whose number must be in range.
    pub fn put(&mut self, starter: Pid, boxed: BoxedTxn)
        requires low { 1 ≤ starter.0 }
        requires high { starter.0 ≤ length self.old }
        ensures { self.new ≡ with_slot self.old starter.0 (Some boxed) }
    {
        if self.slots.get(starter).is_none() {
            self.live += 1;
        }
        self.slots.put(starter, boxed);
    }

    /// A transaction that the process begins, with no old parts, for the table. It has the room of
    /// one that ended, if some was kept.
    ///
    /// NoMemory where a growth is refused.
    pub(crate) fn fresh(
        &mut self,
        alloc: Global,
        starter: Pid,
        defers: bool,
        proc: &Proc,
    ) -> Result<BoxedTxn, NoMemory>
        ensures table { self.new ≡ self.old }
        ensures boxed { IfOk result (λ boxed. StartsOf starter defers proc.now boxed.txn.value) }
    {
        if let Some(mut boxed) = self.spare.take() {
            boxed.txn.begin_again(starter, defers, proc);
            return Ok(boxed);
        }
        new_box(alloc, starter, defers, proc)
    }

    /// An empty log for a step outside, with the room of an earlier one, if some was kept. It takes
    /// no memory.
    pub(crate) fn fresh_log(&mut self, alloc: Global) -> Log
        ensures table { self.new ≡ self.old }
        ensures log { result ≡ [] }
    {
        match self.spare_log.take() {
            Some(mut log) => {
                log.truncate(0);
                log
            }
            None => Log::new(alloc),
        }
    }

    /// Keeps the room of a transaction that ended, if that is not large.
    pub(crate) fn keep(&mut self, boxed: BoxedTxn)
        ensures { self.new ≡ self.old }
    {
        let mut boxed = boxed;
        if boxed.txn.log.len() <= KEPT_PARTS {
            boxed.txn.clear();
            self.spare = Some(boxed);
        }
    }

    /// Keeps the room of the log of a step outside, if that is not large.
    pub(crate) fn keep_log(&mut self, log: Log)
        ensures { self.new ≡ self.old }
    {
        let mut log = log;
        if log.len() <= KEPT_PARTS {
            log.truncate(0);
            self.spare_log = Some(log);
        }
    }
}

/// A transaction that the process begins, with no old parts, in a new box. It is a function of its
/// own because it uses much of the stack.
///
/// NoMemory where a growth is refused.
fn new_box(alloc: Global, starter: Pid, defers: bool, proc: &Proc) -> Result<BoxedTxn, NoMemory>
    ensures { IfOk result (λ boxed. StartsOf starter defers proc.now boxed.txn.value) }
{
    let log = Log::with_room(alloc, 4)?;
    let txn = Txn::begin(alloc, starter, defers, proc, log);
    let txn = Box::new(alloc, txn)?;
    Ok(BoxedTxn { txn })
}
