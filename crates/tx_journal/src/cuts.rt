//! Drops the entries after the position.
ghost use Rattle.std.specs.Prelude.{◌≡◌};
ghost use Rattle.tx_journal.specs.Sessions.{IsAtEnd, SameBoot, made_of};

use crate::session::Session;

impl Session {
    /// Drops the entries after the position, as an editor does when something new follows an undo:
    /// the session is at its end then. The machine stays as it is. It takes no memory.
    pub fn cut(&mut self)
        ensures entries { self.new.entries ≡ made_of self.old }
        ensures inverses { self.new.inverses ≡ self.old.inverses }
        ensures machine { self.new.machine ≡ self.old.machine }
        ensures boot { SameBoot self.new self.old }
        ensures at_end { IsAtEnd self.new }
    {
        let position = self.position();
        self.journal.entries.truncate(position);
        self.journal.crossings.cut();
    }
}
