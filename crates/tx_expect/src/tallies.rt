//! Counts expectations by whether they are met.
ghost use Rattle.std.specs.Prelude.{◌≡◌, ◌<◌, ◌-◌, ◌^◌};
ghost use Rattle.tx_expect.specs.Lines.{tally_with, total};
ghost use Rattle.tx_expect.specs.Outcomes as spec;

/// Whether the reply to a step, or the state, is as expected.
#[derive(Clone, Copy)]
pub enum Verdict {
    /// It is as expected.
    Met,
    /// It is not.
    Unmet,
    /// Nothing is expected.
    Silent,
}

/// How many verdicts there are of each kind.
#[derive(Clone, Copy)]
pub struct Tally {
    pub met: u64,
    pub unmet: u64,
    pub silent: u64,
}

impl Tally {
    /// Before the first verdict.
    pub fn none() -> Tally
        ensures { result ≡ spec.none_counted }
    {
        Tally {
            met: 0,
            unmet: 0,
            silent: 0,
        }
    }

    /// With one more verdict.
    pub fn with(self, verdict: Verdict) -> Tally
        requires { total self < 2 ^ 64 - 1 }
        ensures { result ≡ tally_with self verdict }
    {
        match verdict {
            Verdict::Met => Tally {
                met: self.met + 1,
                ..self
            },
            Verdict::Unmet => Tally {
                unmet: self.unmet + 1,
                ..self
            },
            Verdict::Silent => Tally {
                silent: self.silent + 1,
                ..self
            },
        }
    }

    /// Whether some expectations are met, and none is not.
    pub fn is_met(self) -> bool
        ensures { result ≡ spec.is_met self }
    {
        self.unmet == 0 && self.met > 0
    }
}
