//! The law of the boxes, as the contract of a function that does nothing.
ghost use Rattle.tx_picture.specs.Boxes.{EndedHaveNoMembers, ExcerptsBeginWithMembers, ExcerptsEndWithMembers, JoinersAreMembers, MembersChange, OpenBoxesAreOfMembers};

use tx_laws::{footprints, next_view, step_by_step};

/// An accepted step makes a process a member of a transaction only by the process's own sys_xbegin
/// or by the fork by which a member makes it. It ends a membership only where it ends the
/// transaction, and is then answered `committed` or `aborted`, as the box's end says. No step moves
/// a member to another transaction. The process that such a step makes a member is one after it;
/// where a transaction ends, it has no member any more. After each schedule, so in each row of a
/// longer one, the box that a process has open is that of the transaction that it is a member of
/// then. So it is after the last step of an excerpt; and the box of a process that an excerpt
/// begins with is that of the transaction that it is a member of before the first one.
pub fn boxes_begin_and_end()
    ensures changes { MembersChange }
    ensures joined { JoinersAreMembers }
    ensures ended { EndedHaveNoMembers }
    ensures boxes { OpenBoxesAreOfMembers }
    ensures begun { ExcerptsBeginWithMembers }
    ensures left { ExcerptsEndWithMembers }
{
    next_view();
    step_by_step();
    footprints();
}
