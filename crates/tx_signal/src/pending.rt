//! What is pending at a process.
ghost use Rattle.std.specs.Prelude.{◌≡◌, ℕ, ◌<◌, ◌≤◌, ◌↔◌, ◌++◌, ◌∷◌, [], IsTrue, IfSome, IfNone, IsSomeAnd, OnErr, Some, None, Option, is_some, length};
ghost use Rattle.std.specs.List.{list_any};
ghost use Rattle.tx_base.specs.Signals.{bits_of};
ghost use Rattle.tx_model.specs.Deliveries.{delivered_value, first_value, is_blocked, without_first, pending_value, without_delivered};
ghost use Rattle.tx_model.specs.Posts.{has_room, with_signal};
ghost use Rattle.tx_model.specs.Signals.{without_signal, pending_signals, queued_others, queued_signals};
ghost use Rattle.tx_model.specs.State.{Process, Queued as Entry, Sender};
ghost use Rattle.tx_signal.specs.Entries.{IsFirstOf, entry_given, entry_swapped, is_lower, place_of};
ghost use Rattle.tx_signal.specs.Parts.{alone, pending_of, post_result, sending_of, with_pending_part, with_pending_under};
ghost use Rattle.tx_base.specs.declared.limits.TheConstants.{QUEUED};

use crate::queued::Queued;
use crate::sets::{has, is_realtime, with, without};
use arrayvec::ArrayVec;
use bitflags::Flags;
use std::marker::Model;
use std::mem;
use tx_base::{Errno, QUEUED, SigSet, Signo};

/// The signals that are pending at a process: each standard signal once, and up to 16 realtime
/// ones, the first to be taken first (POSIX.1-2017, XSH, Signal Generation and Delivery). Contracts
/// see the set and the queue.
#[derive(Drop)]
pub struct Pending {
    standard: SigSet,
    queued: ArrayVec<Queued, QUEUED>,
}

impl Model for Pending {
    ghost use Rattle.tx_base.specs.Signals.{bits_of};
    ghost use Rattle.tx_signal.specs.Parts.{PendingView};

    ghost Value = { PendingView };

    ghost view = { λ pending.
        record { standard = bits_of pending.standard; queued = pending.queued.items } };
}

impl Pending {
    /// Nothing.
    pub fn new() -> Pending
        ensures { result ≡ record { standard = 0; queued = [] } }
    {
        Pending {
            standard: SigSet::empty(),
            queued: ArrayVec::new(),
        }
    }

    /// The standard signals.
    pub fn standard(&self) -> SigSet
        ensures { bits_of result ≡ self.now.standard }
    {
        self.standard
    }

    /// The realtime signals, the first to be taken first: 0 to 16 of them.
    pub fn queued(&self) -> &[Queued]
        ensures whole { result.now ≡ self.now.queued }
        ensures fits { length self.now.queued ≤ QUEUED }
    {
        self.queued.as_slice()
    }

    /// Whether nothing is pending.
    pub fn is_empty(&self) -> bool
        ensures { IsTrue result ↔ (self.now ≡ record { standard = 0; queued = [] }) }
    {
        self.standard.is_empty() && self.queued.is_empty()
    }

    /// Whether one more realtime signal may be queued. Own rule: 16 at most.
    pub fn has_room(&self) -> bool
        ensures { (me : Process) → result ≡ has_room (with_pending_part self.now me) }
    {
        !self.queued.is_full()
    }

    /// All the signals that are pending. POSIX.1-2017, XSH, sigpending(), before the mask.
    pub fn signals(&self) -> SigSet
        ensures { (me : Process) →
            bits_of result ≡ pending_signals (with_pending_part self.now me) }
    {
        self.standard.union(signals_of(self.queued.as_slice()))
    }

    /// Posts a signal, whose number must be below 64: a standard one is pending once, a realtime
    /// one is put last in the queue, with its value. POSIX.1-2017, XSH, kill() and sigqueue().
    ///
    /// TryAgain where 16 realtime signals are queued and this is one more. Nothing is changed then.
    pub fn post(&mut self, signo: Signo, value: i64) -> Result<(), Errno>
        requires { signo.0 < 64 }
        ensures posted { (target : ℕ) (from : Option Sender) (me : Process) →
            with_signal (sending_of signo.0 value target from) (with_pending_part self.old me)
            ≡ with_pending_part self.new me }
        ensures answer { result ≡ post_result signo.0 self.old }
        ensures err { OnErr result (self.new ≡ self.old) }
    {
        if !is_realtime(signo) {
            self.standard = with(self.standard, signo);
            return Ok(());
        }
        match self.queued.try_push(Queued { signo, value }) {
            Ok(()) => Ok(()),
            Err(_) => Err(Errno::TryAgain),
        }
    }

    /// Takes one occurrence of the signal, the first: it is no longer pending, and the result is
    /// its value, 0 for a standard one. Where the signal is not pending, nothing is changed and
    /// nothing is the result. POSIX.1-2017, XSH, Signal Generation and Delivery.
    pub fn take(&mut self, signo: Signo) -> Option<i64>
        ensures value { (me : Process) →
            result ≡ pending_value signo.0 (with_pending_part self.old me) }
        ensures taken { self.new ≡ pending_of (without_delivered signo.0 (alone self.old)) }
        ensures unchanged { IfNone result (self.new ≡ self.old) }
    {
        if is_realtime(signo) {
            let place = self.place_of(signo)?;
            return Some(self.queued.remove(place).value);
        }
        if !has(self.standard, signo) {
            return None;
        }
        self.standard = without(self.standard, signo);
        Some(0)
    }

    /// Discards every occurrence of the signal. POSIX.1-2017, XSH, Signal Actions, of an action
    /// that ignores it.
    pub fn discard(&mut self, signo: Signo)
        ensures { self.new ≡ pending_of (without_signal signo.0 (alone self.old)) }
    {
        self.standard = without(self.standard, signo);
        self.queued = others(self.queued.as_slice(), signo);
    }

    /// The value that the signal would bring, where it is pending: that of its first entry in the
    /// queue, 0 for a standard one. POSIX.1-2017, XSH, Signal Generation and Delivery.
    pub fn value(&self, signo: Signo) -> Option<i64>
        ensures { (me : Process) → result ≡ pending_value signo.0 (with_pending_part self.now me) }
    {
        if is_realtime(signo) {
            let place = self.place_of(signo)?;
            let entry = &self.queued[place];
            return Some(entry.value);
        }
        if has(self.standard, signo) {
            Some(0)
        } else {
            None
        }
    }

    /// Whether a delivery of the signal must wait: the mask blocks it, or it is a realtime one and
    /// one of a lower number is pending that the mask does not block. POSIX.1-2017, XSH, Signal
    /// Generation and Delivery.
    pub fn is_blocked(&self, signo: Signo, mask: SigSet) -> bool
        ensures { (me : Process) →
            result ≡ is_blocked signo.0 (with_pending_under (bits_of mask) self.now me) }
    {
        if has(mask, signo) {
            return true;
        }
        is_realtime(signo) && lower(self.queued.as_slice(), signo, mask)
    }

    /// The value that a delivery of the signal would bring now, if it may be delivered under the
    /// mask: it is pending and not blocked. POSIX.1-2017, XSH, Signal Generation and Delivery.
    pub fn delivered(&self, signo: Signo, mask: SigSet) -> Option<i64>
        ensures { (me : Process) →
            result ≡ delivered_value signo.0 (with_pending_under (bits_of mask) self.now me) }
    {
        if self.is_blocked(signo, mask) {
            return None;
        }
        self.value(signo)
    }

    /// Whether the signal may be delivered under the mask. POSIX.1-2017, XSH, Signal Generation and
    /// Delivery.
    pub fn deliverable(&self, signo: Signo, mask: SigSet) -> bool
        ensures { (me : Process) →
            result ≡ is_some (delivered_value signo.0
            (with_pending_under (bits_of mask) self.now me)) }
    {
        self.delivered(signo, mask).is_some()
    }

    /// The place of the first entry of the signal in the queue, if there is one. An exchange of no
    /// entry there takes out the occurrence that is delivered first. Own rule.
    pub fn place_of(&self, signo: Signo) -> Option<usize>
        ensures place { result ≡ place_of signo.0 self.now.queued }
        ensures first { IfSome result (λ place.
            entry_swapped place None self.now.queued ≡ without_first signo.0 self.now.queued) }
        ensures entry { IfSome result (λ place.
            IsSomeAnd (entry_given place None self.now.queued)
            (IsFirstOf signo.0 self.now.queued)) }
        ensures none { IfNone result (first_value signo.0 self.now.queued ≡ None) }
        ensures pending { is_some result ≡ is_some (first_value signo.0 self.now.queued) }
        ensures left { IfNone result (self.now.queued ≡ without_first signo.0 self.now.queued) }
    {
        first_place(self.queued.as_slice(), signo)
    }

    /// The place after the last entry of the queue, where a post puts one more. Own rule.
    pub fn last_place(&self) -> usize
        ensures place { result ≡ length self.now.queued }
        ensures last { (entry : Entry) → length self.now.queued < QUEUED →
            entry_swapped result (Some entry) self.now.queued ≡ self.now.queued ++ entry ∷ [] }
    {
        self.queued.len()
    }

    /// Exchanges the set of the standard signals. A second exchange takes the first one back. Own
    /// rule.
    pub fn swap_standard(&mut self, set: &mut SigSet)
        ensures exchanged { self.new ≡ record self.old { standard = bits_of set.old } }
        ensures given { bits_of set.new ≡ self.old.standard }
    {
        mem::swap(&mut self.standard, set);
    }

    /// Exchanges one entry of the queue. With none, the entry at the place is taken out, if there
    /// is one. An entry is put in before the place, if that is no further than the end and the
    /// queue has room. In every other case nothing is changed. A second exchange takes the first
    /// one back. Own rule.
    pub fn swap_entry(&mut self, place: usize, entry: &mut Option<Queued>)
        ensures exchanged { self.new
            ≡ record self.old { queued = entry_swapped place entry.old self.old.queued } }
        ensures given { entry.new ≡ entry_given place entry.old self.old.queued }
    {
        match *entry {
            None => {
                if place < self.queued.len() {
                    *entry = Some(self.queued.remove(place));
                }
            }
            Some(one) => {
                if place <= self.queued.len() && !self.queued.is_full() {
                    self.queued.insert(place, one);
                    *entry = None;
                }
            }
        }
    }

    /// An equal value.
    pub fn copy(&self) -> Pending
        ensures { result ≡ self.now }
    {
        let mut queued = ArrayVec::new();
        let _fits = queued.try_extend_from_slice(self.queued.as_slice());
        Pending {
            standard: self.standard,
            queued,
        }
    }

    /// Exchanges what is pending at two processes. A second exchange takes the first one back. Own
    /// rule.
    pub fn swap(&mut self, other: &mut Pending)
        ensures exchanged { self.new ≡ other.old }
        ensures given { other.new ≡ self.old }
    {
        mem::swap(self, other);
    }
}

/// The place of the first entry of the signal.
fn first_place(queue: &[Queued], signo: Signo) -> Option<usize>
    ensures { result ≡ place_of signo.0 queue.now }
{
    queue.iter().position(|entry| entry.signo == signo)
}

/// The signals of the entries, as a set.
fn signals_of(queue: &[Queued]) -> SigSet
    ensures { bits_of result ≡ queued_signals queue.now }
{
    let mut set = SigSet::empty();
    for entry in queue {
        set = with(set, entry.signo);
    }
    set
}

/// The entries of other signals.
fn others(queue: &[Queued], signo: Signo) -> ArrayVec<Queued, QUEUED>
    requires { length queue.now ≤ QUEUED }
    ensures { result.items ≡ queued_others signo.0 queue.now }
{
    let mut kept = ArrayVec::new();
    for entry in queue {
        if entry.signo != signo {
            kept.push(*entry);
        }
    }
    kept
}

/// Whether an entry has a lower number and is not blocked.
fn lower(queue: &[Queued], signo: Signo, mask: SigSet) -> bool
    ensures { result ≡ list_any (is_lower signo.0 (bits_of mask)) queue.now }
{
    queue
        .iter()
        .any(|entry| entry.signo.0 < signo.0 && !has(mask, entry.signo))
}
