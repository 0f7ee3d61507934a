//! The laws that the proofs of steps use.
ghost use Rattle.tx_step.specs.Laws.{StepLaws};

use crate::refusal_laws::{contents_are_whole, refusals_are_early};
use tx_laws::{
    answers_of_states, endings, footprints, step_by_step, well_formed, well_formed_table,
};
use tx_txn::{answers_of_faces, logs_keep};

/// The laws that the proofs of steps use. It does nothing.
pub(crate) fn laws()
    ensures { StepLaws }
{
    contents_are_whole();
    refusals_are_early();
    step_by_step();
    answers_of_states();
    logs_keep();
    answers_of_faces();
    well_formed();
    well_formed_table();
    endings();
    footprints();
}
