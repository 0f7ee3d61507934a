//! The laws of processes, of pipes and of names that exchanges need.
ghost use Rattle.tx_change.specs.PartLaws.{PartLaws};

use tx_desc::room_for_names;
use tx_pipe::{back_twice, front_twice};
use tx_proc::{commute, exchanges_back, nothing_else, twice_is_nothing};

/// The laws that the proofs of exchanges need. It does nothing.
pub(crate) fn part_laws()
    ensures { PartLaws }
{
    exchanges_back();
    twice_is_nothing();
    nothing_else();
    commute();
    front_twice();
    back_twice();
    room_for_names();
}
