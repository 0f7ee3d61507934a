//! What a planned step comes to: its answer, and the signal that it sends.
use tx_base::Sending;

/// Bytes of memory to show.
#[derive(Clone, Copy)]
pub struct Shown {
    /// The address of the first byte: 0 to 1,023.
    pub address: usize,
    /// How many: 0 to 64.
    pub count: usize,
}

/// What an accepted step is answered, in few bytes.
#[derive(Clone, Copy)]
pub enum Outcome {
    /// The call's answer; a POSIX error is the negative error number.
    Done(i64),
    /// The process ended.
    Ended,
    /// These bytes of the process's memory are for the console.
    Out(Shown),
}

/// The signal that a step sends.
#[derive(Clone, Copy)]
pub enum Sends {
    Nothing,
    /// It is posted with the step.
    AtOnce(Sending),
    /// It is handed out, and held until the transaction commits.
    AtCommit(Sending),
}

/// What a planned step comes to, besides its changes.
#[derive(Clone, Copy)]
pub struct Planned {
    /// Its answer.
    pub outcome: Outcome,
    pub sends: Sends,
}

impl Planned {
    ghost use Rattle.std.specs.Prelude.{◌≡◌};
    ghost use Rattle.tx_kernel.specs.Plans.{quiet};

    /// A step with this answer, which sends nothing.
    pub fn quiet(outcome: Outcome) -> Planned
        ensures { result ≡ quiet outcome }
    {
        Planned {
            outcome,
            sends: Sends::Nothing,
        }
    }

    /// Puts what it sends into a place, and gives its answer: what goes up through several layers
    /// is small then.
    pub(crate) fn put_sends(self, place: &mut Sends) -> Outcome
        ensures sends { place.new ≡ self.sends }
        ensures outcome { result ≡ self.outcome }
    {
        *place = self.sends;
        self.outcome
    }
}
