//! The laws that the proof of a moment uses.
ghost use Rattle.tx_moment.specs.Laws.{MomentLaws};

use crate::unseen::unseen_signals;
use tx_laws::{agreement, entries, locality, next_view, well_formed_table};

/// The laws that the proof of a moment uses. It does nothing.
pub(crate) fn laws()
    ensures { MomentLaws }
{
    agreement();
    entries();
    locality();
    next_view();
    well_formed_table();
    unseen_signals();
}
