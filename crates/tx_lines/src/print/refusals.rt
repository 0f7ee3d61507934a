//! What refusals are called.
ghost use Rattle.std.specs.Prelude.{◌≡◌};
ghost use Rattle.tx_lines.specs.Refusals.{refusal_word};

use tx_base::Refusal;

/// What a refusal is called: `N1` to `N14`.
pub fn refusal_word(why: Refusal) -> &'static str
    ensures { result.now ≡ refusal_word why }
{
    match why {
        Refusal::NoProcess => "N1",
        Refusal::NotRunning => "N2",
        Refusal::BadNumber => "N3",
        Refusal::NumberTaken => "N4",
        Refusal::Doomed => "N5",
        Refusal::Parked => "N6",
        Refusal::KillPending => "N7",
        Refusal::Busy { .. } => "N8",
        Refusal::Wait => "N9",
        Refusal::NotDeliverable => "N10",
        Refusal::FramesFull => "N11",
        Refusal::NoTransaction => "N12",
        Refusal::NoMemory => "N13",
        Refusal::Deferred => "N14",
    }
}
