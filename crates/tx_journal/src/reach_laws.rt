//! The laws that the proofs of what a step may change use.
ghost use Rattle.tx_journal.specs.ReachLaws.{ReachLaws};

use tx_laws::{footprints, inside, locality, next_view, step_by_step};

/// The laws that the proofs use. It does nothing.
pub(crate) fn reach_laws()
    ensures { ReachLaws }
{
    next_view();
    step_by_step();
    locality();
    inside();
    footprints();
}
