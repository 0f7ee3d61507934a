//! What lines come from and answers go to.

/// What asking for a line gave.
#[derive(Clone, Copy, PartialEq, Eq, Debug)]
pub enum Got {
    /// A line came.
    Line,
    /// There is no more.
    End,
    /// It failed.
    Failed,
}

/// Where lines come from, and where answers go to. A contract names the traffic, as far as it is
/// known: all that came and went, in the order in which it did, the bytes that are still to come,
/// and those that were shown. What is shown to ask for a line, as a prompt, is not in it.
pub trait Terminal {
    ghost use Rattle.std.specs.Prelude.{ℕ, ◌≤◌, ◌∷◌, [], IsTrue, false, length, take, ◌≡◌};
    ghost use Rattle.tx_shell.specs.Events.{Continues, End, Failure, Line, Text, Traffic};
    ghost use Rattle.tx_shell.specs.declared.sessions.terminal.Got.TheVariants as got;

    ghost traffic: { Self → Traffic };

    /// Waits for the next line, at that position of the session, and puts it, without its end, in
    /// place of what the buffer had. Of a line of more than 514 bytes these are the first 514: a
    /// line of more than 512 is reported as too long, whatever it says.
    fn line(&mut self, position: usize, line: &mut Vec<u8>) -> Got
        ensures came { result ≡ got.Line →
            Continues (traffic self.old) (Line line.new.items ∷ []) (traffic self.new) }
        ensures end { result ≡ got.End →
            Continues (traffic self.old) (End ∷ []) (traffic self.new) }
        ensures failed { result ≡ got.Failed →
            Continues (traffic self.old) (Failure ∷ []) (traffic self.new) }
        ensures most { result ≡ got.Line → length line.new.items ≤ 514 };

    /// Shows a text before it returns. Answers whether it could: if not, a front of the text may be
    /// shown.
    fn show(&mut self, text: &[u8]) -> bool
        ensures shown { IsTrue result →
            Continues (traffic self.old) (Text text.now ∷ []) (traffic self.new) }
        ensures failed { result ≡ false → (count : ℕ) × (count ≤ length text.now)
            × Continues (traffic self.old) (Text (take count text.now) ∷ Failure ∷ [])
            (traffic self.new) };
}
