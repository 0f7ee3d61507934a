//! The laws that the proofs of early refusals use, and how these relate to all refusals; what holds
//! for contents; and what is posted with a step.
ghost use Rattle.tx_step.specs.Contents.{BootedIsContent, ContentsAreWhole};
ghost use Rattle.tx_step.specs.Early.{RefusalIsEarly};
ghost use Rattle.tx_step.specs.RefusalLaws.{JudgeLaws, WayLaws};
ghost use Rattle.tx_step.specs.Ways.{CallIsPosted, DeliveryIsPosted};

use tx_laws::{answers_of_states, endings, footprints, inside, well_formed, well_formed_table};
use tx_reserve::footprints_are_within;
use tx_txn::answers_of_faces;

/// The laws that the proofs of early refusals use. It does nothing.
pub(crate) fn laws()
    ensures { JudgeLaws }
{
    answers_of_states();
    answers_of_faces();
}

/// The laws that the proofs of ways use. It does nothing.
pub(crate) fn way_laws()
    ensures { WayLaws }
{
    answers_of_states();
    endings();
    footprints();
    inside();
    footprints_are_within();
}

/// The definitions refuse a step for its first early reason; if it has none, because somebody is in
/// its way, or not at all.
pub fn refusals_are_early()
    ensures { RefusalIsEarly }
{}

/// The parts of a content that steps lead to are whole.
pub fn contents_are_whole()
    ensures { ContentsAreWhole }
{
    answers_of_states();
    well_formed();
}

/// A booted kernel has a content that steps lead to.
pub fn booted_is_content()
    ensures { BootedIsContent }
{
    well_formed();
    well_formed_table();
}

/// What is posted with a call or a delivery of a process that runs is what it sends first, at once
/// or at the commit, and if it commits, what the transaction holds.
pub fn posts_are_sends()
    ensures call { CallIsPosted }
    ensures delivery { DeliveryIsPosted }
{}
