//! The laws that the proofs of a history made once more use.
ghost use Rattle.tx_journal.specs.RetraceLaws.{RetraceLaws};

use tx_laws::{answers_of_states, next_view};
use tx_step::{booted_is_content, posts_are_sends};

/// The laws that the proofs use. It does nothing.
pub(crate) fn laws()
    ensures { RetraceLaws }
{
    next_view();
    answers_of_states();
    booted_is_content();
    posts_are_sends();
}
