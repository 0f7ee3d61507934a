//! The laws of exchanges, as the contracts of functions that do nothing.
ghost use Rattle.tx_change.specs.Counts.{CountsKept, CountsForked, CountsEnded, CountsRemoved, CountsElsewhere, CountsNameless, SlotInTurn, DescsInTurn, CountsInTurn, PlansAreNamed, PlansInTurn, CountsPlanned, CountsReplaced, RoomForNames, RoomForName, CountsWithOthers};
ghost use Rattle.tx_change.specs.CountsBack.{BackElsewhere, CountsLedBack, CountsOfNames};
ghost use Rattle.tx_change.specs.Laws.{AppliedAppended, ApplyThenRevert, BackIsWrite, ChangedAppended, ChangesComeBack, ChangesState, ChangesStateInTurn, Commute, ExchangedAppended, ExchangedBring, ExchangedStayNamed, ExchangesBack, FrontIsRead, ListNamesItsObjects, NamedAppended, NamesItsObject, NothingElse, PartsReplaceProcess, PlacesStay, PlacesStayBack, RevertThenApply, RevertedAppended, RevertedStayNamed, SizesStay, SizesStayBack, TwiceIsNothing, UndoneAppended};
ghost use Rattle.tx_change.specs.Stacks.{LoggedBackAndForward, MovedAreThere, MovedBackAndForward, MovedIsOnTop, RestIsBelow};

use crate::part_laws::part_laws;

/// Two exchanges of one part are nothing: the parts and the change come back.
pub fn twice_is_nothing()
    ensures { TwiceIsNothing }
{
    part_laws();
}

/// To exchange a change again puts the parts back.
pub fn exchanges_back()
    ensures { ExchangesBack }
{
    part_laws();
}

/// An exchange leaves every other part as it was: that is, what a change of such a part would find
/// there. A process number holds all parts of its process.
pub fn nothing_else()
    ensures { NothingElse }
{
    part_laws();
}

/// Two parts may be exchanged in either order, where neither holds the other.
pub fn commute()
    ensures { Commute }
{
    part_laws();
}

/// To revert changes that were applied puts the parts back.
pub fn apply_then_revert()
    ensures { ApplyThenRevert }
{
    part_laws();
}

/// To apply changes that were reverted puts the parts back.
pub fn revert_then_apply()
    ensures { RevertThenApply }
{
    part_laws();
}

/// What exchanges make of the state that the parts mean, in words of that state alone.
pub fn changes_state()
    ensures one { ChangesState }
    ensures in_turn { ChangesStateInTurn }
{}

/// A change names its object: an exchange leaves the state as it was at all others.
pub fn names_its_object()
    ensures { NamesItsObject }
{}

/// What changes do to the counts of names, where each description has that of the descriptors that
/// name it: a call on the descriptors of a process, a fork, an end, the removal of a process that
/// has ended, and a change, or a list of them, of anything else.
pub fn counts_agree()
    ensures call { CountsKept }
    ensures fork { CountsForked }
    ensures end { CountsEnded }
    ensures removal { CountsRemoved }
    ensures elsewhere { CountsElsewhere }
    ensures nameless { CountsNameless }
{}

/// Where the counts agree, they are those of the names of a process that runs beside the names of all
/// others, in the state that the parts mean.
pub fn counts_with_others()
    ensures { CountsWithOthers }
{}

/// What changes in turn do to a process number and to the descriptions, and so to the counts: of a
/// call, a fork, an end or a wait, as the plans of names and descriptions make them. `call` is what
/// a kernel's call needs, `process` its fork, end and wait.
pub fn counts_in_turn()
    ensures slot { SlotInTurn }
    ensures descs { DescsInTurn }
    ensures counts { CountsInTurn }
    ensures named { PlansAreNamed }
    ensures planned { PlansInTurn }
    ensures call { CountsPlanned }
    ensures process { CountsReplaced }
{}

/// Where the counts agree, what the calls on the descriptors of a process ask holds of those of
/// every process that runs: of all of them, and of one that may be open or not.
pub fn room_for_names()
    ensures all { RoomForNames }
    ensures one { RoomForName }
{
    part_laws();
}

/// What two lists of changes in one do, the first does and then the other: to the parts and to the
/// changes, forward and back, and to the state. There are as many numbers as before.
pub fn appended()
    ensures applied { AppliedAppended }
    ensures exchanged { ExchangedAppended }
    ensures undone { UndoneAppended }
    ensures reverted { RevertedAppended }
    ensures state { ChangedAppended }
    ensures named { NamedAppended }
    ensures sizes { SizesStay }
    ensures sizes_back { SizesStayBack }
{}

/// What a list of changes makes of the state: at an object that none of them names nothing; and
/// changes of parts of one process replace only that process.
pub fn lists_change_state()
    ensures elsewhere { ListNamesItsObjects }
    ensures process { PartsReplaceProcess }
{}

/// What changes have once they were exchanged names the same numbers, so it can be exchanged again.
pub fn stays_named()
    ensures { ExchangedStayNamed }
{}

/// An exchange of the first bytes of a pipe for none is a read of these, and one of none at its back
/// for some is a write of these.
pub fn bytes_are_read_and_written()
    ensures front { FrontIsRead }
    ensures back { BackIsWrite }
{}

/// Changes leave each process a place for each number, where each process that comes has them; so do
/// they where they are taken back, and a process that they take out has them.
pub fn places_stay()
    ensures forth { PlacesStay }
    ensures back { PlacesStayBack }
    ensures taken { ExchangedBring }
{}

/// Changes that were taken back name the same numbers, and made again they are as they were.
pub fn changes_come_back()
    ensures named { RevertedStayNamed }
    ensures again { ChangesComeBack }
{
    part_laws();
}

/// Counts of names depend on which processes run, on their descriptors and on the descriptions, and
/// on nothing else. Where they agree before and after a step, and before it with a log led back,
/// they agree after it with that log led back, as long as at each process and description the log
/// or the step changed nothing that counts. Changes that are taken back leave what none of them
/// names as it was.
pub fn counts_led_back()
    ensures names { CountsOfNames }
    ensures back { CountsLedBack }
    ensures elsewhere { BackElsewhere }
{}

/// What was moved back from a log onto a stack is on top of it, in order, and what was there is
/// below. To move it forward again puts the parts back; and the log too, where each process has its
/// places.
pub fn moved_back_and_forward()
    ensures top { MovedIsOnTop }
    ensures rest { RestIsBelow }
    ensures there { MovedAreThere }
    ensures parts { MovedBackAndForward }
    ensures log { LoggedBackAndForward }
{
    part_laws();
}
