//! The laws that the proofs of the machine use.
ghost use Rattle.tx_core.specs.Laws.{MachineLaws};

use tx_laws::{answers_of_states, next_view};
use tx_step::{booted_is_content, contents_are_whole};

/// The laws that the proofs of the machine use. It does nothing.
pub(crate) fn laws()
    ensures { MachineLaws }
{
    contents_are_whole();
    next_view();
    answers_of_states();
    booted_is_content();
}
