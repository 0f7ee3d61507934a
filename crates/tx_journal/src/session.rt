//! A machine with the journal of its steps.
ghost use Rattle.std.specs.Option.{option_copied};
ghost use Rattle.std.specs.Prelude.{◌≡◌, ◌≤◌, [], IfOk, length, string_bytes};
ghost use Rattle.tx_core.specs.Machines.{IsWidth};
ghost use Rattle.tx_journal.specs.Entries.{entry_at, history_of};
ghost use Rattle.tx_journal.specs.Sessions.{made_of, position_of, start_of};
ghost use Rattle.tx_lines.specs.Lines.{most_of, FitsHeader};
ghost use Rattle.tx_content.specs.Content.{view_of};
ghost use Rattle.tx_model.specs.Answer.{Agreement, Lawful};
ghost use Rattle.tx_model.specs.View.{view};
ghost use Rattle.tx_moment.specs.Moments.{HasMoments};
ghost use Rattle.tx_state_text.specs.State.{state_text};

use crate::entry::Entry;
use crate::journal::Journal;
use crate::laws::laws;
use crate::state::print_state;
use std::alloc::Global;
use std::marker::Model;
use tx_base::{NoMemory, PROCESSES, WIDE_PROCESSES};
use tx_core::Machine;
use tx_lines::{Header, Version};

/// A machine with the journal of all steps that it accepted, which can be walked both ways.
/// Contracts see what it keeps: its machine's content, all entries, and what takes back those that
/// are made.
pub struct Session {
    pub(crate) machine: Machine,
    pub(crate) journal: Journal,
    /// How many processes there may be.
    width: u16,
    /// With how many it was booted.
    count: u16,
}

// Not derived: that would be proved again wherever one is dropped.
impl Drop for Session {
    fn drop(self) {
        let Session {
            machine: _machine,
            journal: _journal,
            width: _width,
            count: _count,
        } = self;
    }
}

impl Model for Session {
    ghost use Rattle.std.specs.Prelude.{vec_capacity};
    ghost use Rattle.tx_journal.specs.Sessions.{HasRoom, IsAhead, IsJournal, SessionState, session_state};

    ghost Value = { SessionState };

    ghost view = { λ session. session_state session.machine session.journal session.width
        session.count };

    ghost invariant = { λ session. IsJournal
        (session_state session.machine session.journal session.width session.count)
        × HasRoom (session_state session.machine session.journal session.width session.count)
        (vec_capacity session.journal.entries) session.journal.crossings.room
        × IsAhead (session_state session.machine session.journal session.width session.count)
        session.journal.crossings.undone session.journal.crossings.stack };
}

impl Session {
    /// A session with processes 1 to `count` of 64, before its first step: as `Machine::boot`.
    ///
    /// NoMemory where a growth is refused.
    pub fn boot(alloc: Global, count: u16) -> Result<Session, NoMemory>
        requires low { 1 ≤ count }
        requires high { count ≤ 64 }
        ensures entries { IfOk result (λ session. session.entries ≡ []) }
        ensures inverses { IfOk result (λ session. session.inverses ≡ []) }
        ensures count { IfOk result (λ session. session.count ≡ count) }
        ensures width { IfOk result (λ session. session.width ≡ 64) }
    {
        let machine = Machine::boot(alloc, count)?;
        Ok(Session {
            machine,
            journal: Journal::new(alloc),
            width: PROCESSES,
            count,
        })
    }

    /// A session of a wide machine: as `boot`, with processes 1 to `count` of 256.
    pub fn boot_wide(alloc: Global, count: u16) -> Result<Session, NoMemory>
        requires low { 1 ≤ count }
        requires high { count ≤ 256 }
        ensures entries { IfOk result (λ session. session.entries ≡ []) }
        ensures inverses { IfOk result (λ session. session.inverses ≡ []) }
        ensures count { IfOk result (λ session. session.count ≡ count) }
        ensures width { IfOk result (λ session. session.width ≡ 256) }
    {
        let machine = Machine::boot_wide(alloc, count)?;
        Ok(Session {
            machine,
            journal: Journal::new(alloc),
            width: WIDE_PROCESSES,
            count,
        })
    }

    /// A session as a header says: as `boot` of version 1, and as `boot_wide` of version 2.
    ///
    /// NoMemory where a growth is refused.
    pub fn boot_by(alloc: Global, header: Header) -> Result<Session, NoMemory>
        requires { FitsHeader header }
        ensures entries { IfOk result (λ session. session.entries ≡ []) }
        ensures inverses { IfOk result (λ session. session.inverses ≡ []) }
        ensures count { IfOk result (λ session. session.count ≡ header.count) }
        ensures width { IfOk result (λ session. session.width ≡ most_of header.version) }
    {
        match header.version {
            Version::One => Session::boot(alloc, header.count),
            Version::Two => Session::boot_wide(alloc, header.count),
        }
    }

    /// Makes room for the entries of this many more steps, and for the aborts of all transactions
    /// that may be live then, so that these steps need no more room for their entries.
    ///
    /// `NoMemory` where a growth is refused; nothing has changed then.
    pub fn reserve(&mut self, steps: usize) -> Result<(), NoMemory>
        ensures { self.new ≡ self.old }
    {
        let aborts = usize::from(self.width) + 2;
        let Some(count) = steps.checked_add(aborts) else {
            return Err(NoMemory);
        };
        self.journal.reserve(count)
    }

    /// Makes room to keep what makes the entries after this position again, once they are taken
    /// back, so that a walk back to it and forward pays only for what their steps changed. Without
    /// it each step is made anew. It pays for the entries between.
    ///
    /// `NoMemory` where a growth is refused; nothing has changed then.
    pub fn reserve_forward(&mut self, position: usize) -> Result<(), NoMemory>
        ensures { self.new ≡ self.old }
    {
        self.journal.crossings.reserve_forward(position)
    }

    /// The number of processes with which it was booted.
    pub fn count(&self) -> u16
        ensures { result ≡ self.now.count }
    {
        self.count
    }

    /// How many process numbers there are: 64, or 256 of a wide machine.
    pub fn processes(&self) -> u16
        ensures same { result ≡ self.now.width }
        ensures width { IsWidth result }
    {
        self.width
    }

    /// How many entries the journal has.
    pub fn len(&self) -> usize
        ensures { result ≡ length self.now.entries }
    {
        self.journal.entries.len()
    }

    /// How many of the entries are made: those before the position.
    pub fn position(&self) -> usize
        ensures count { result ≡ position_of self.now }
        ensures inside { position_of self.now ≤ length self.now.entries }
    {
        self.journal.crossings.made()
    }

    /// The entry of a number, counted from 1. None for 0, and if there are fewer entries.
    pub fn entry(&self, number: usize) -> Option<&Entry>
        ensures { option_copied result ≡ entry_at self.now.entries number }
    {
        self.journal.entries.get(number.checked_sub(1)?)
    }

    /// All entries, the oldest first.
    pub fn entries(&self) -> &[Entry]
        ensures { result.now ≡ self.now.entries }
    {
        self.journal.entries.as_slice()
    }

    /// The machine at the position, to read.
    pub fn machine(&self) -> &Machine
        ensures machine { result.now ≡ self.now.machine }
        ensures view { view_of result.now
            ≡ view (start_of self.now) (history_of (made_of self.now)) }
    {
        &self.machine
    }

    /// The text of the state at the position, from its line `state` on.
    ///
    /// `NoMemory` where a growth is refused.
    pub fn state_text(&self, alloc: Global) -> Result<String, NoMemory>
        ensures { IfOk result (λ text.
            string_bytes text ≡ state_text
            (view (start_of self.now) (history_of (made_of self.now)))) }
    {
        print_state(alloc, self.machine())
    }

    /// The journal is a lawful history, in which each surviving step has the reply that the plain
    /// kernel gives; and each transaction that it commits and that counts as one moment may be made
    /// at that moment. It does nothing.
    pub fn is_lawful(&self)
        ensures lawful { Lawful (start_of self.now) (history_of self.now.entries) }
        ensures agreement { Agreement (start_of self.now) (history_of self.now.entries) }
        ensures moments { HasMoments (start_of self.now) (history_of self.now.entries) }
    {
        laws();
        let _machine = &self.machine;
    }
}
