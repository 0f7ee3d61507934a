//! The laws that the proofs of sessions use.
ghost use Rattle.tx_journal.specs.Laws.{SessionLaws};

use tx_laws::{erasure, next_view, step_by_step};
use tx_moment::one_moment;

/// The laws that the proofs of sessions use. It does nothing.
pub(crate) fn laws()
    ensures { SessionLaws }
{
    next_view();
    step_by_step();
    erasure();
    one_moment();
}
