//! The schedules, each proved by computing the definitions.
#![tactic(auto, unfolding(crate::proofs::Computing::computed))]

ghost use Rattle.tx_examples.specs.Worked as first;
ghost use Rattle.tx_examples.specs.WorkedActions as actions;
ghost use Rattle.tx_examples.specs.WorkedCommits as commits;
ghost use Rattle.tx_examples.specs.WorkedConflicts as conflicts;
ghost use Rattle.tx_examples.specs.WorkedKills as kills;
ghost use Rattle.tx_examples.specs.WorkedMemory as memory;
ghost use Rattle.tx_examples.specs.WorkedMoments as moments;
ghost use Rattle.tx_examples.specs.WorkedNumbers as numbers;
ghost use Rattle.tx_examples.specs.WorkedPipes as pipes;
ghost use Rattle.tx_examples.specs.WorkedRefusals as refusals;
ghost use Rattle.tx_examples.specs.WorkedScripts as scripts;
ghost use Rattle.tx_examples.specs.WorkedSignals as signals;
ghost use Rattle.tx_examples.specs.WorkedChildren as children;
ghost use Rattle.tx_examples.specs.WorkedDescriptors as descriptors;
ghost use Rattle.tx_examples.specs.WorkedFootprints as footprints;
ghost use Rattle.tx_examples.specs.WorkedIdentities as identities;
ghost use Rattle.tx_examples.specs.WorkedSends as sends;
ghost use Rattle.tx_examples.specs.WorkedTrees as trees;

/// Worked schedules of transactions that begin and end: one that its process aborts; two side by
/// side, of which the kernel aborts one and the other commits; calls that find none, or one; and
/// one that is begun again.
pub fn worked_schedules()
    ensures taken_back { first.TakenBackAnswers }
    ensures taken_back_state { first.TakenBackState }
    ensures side_by_side { first.SideBySideAnswers }
    ensures side_by_side_state { first.SideBySideState }
    ensures out_of_place { first.OutOfPlaceAnswers }
    ensures begun_again { first.BegunAgainAnswers }
    ensures begun_again_state { first.BegunAgainState }
{}

/// Worked schedules of children, exits and waits in transactions: a child that an abort takes back,
/// an exit that commits, a starter that ended and is brought back, a number that is forked again;
/// and who is notified of an end, what a child starts with, ids that are given up, and waits.
pub fn worked_trees()
    ensures child_undone { trees.ChildUndoneAnswers }
    ensures child_undone_state { trees.ChildUndoneState }
    ensures child_parked_state { trees.ChildParkedState }
    ensures exit_commits { trees.ExitCommitsAnswers }
    ensures exit_commits_state { trees.ExitCommitsState }
    ensures exit_undone { trees.ExitUndoneAnswers }
    ensures exit_undone_state { trees.ExitUndoneState }
    ensures forked_again { trees.ForkedAgainAnswers }
    ensures forked_again_state { trees.ForkedAgainState }
    ensures first_not_told { trees.FirstNotToldAnswers }
    ensures first_not_told_state { trees.FirstNotToldState }
    ensures told_inside { trees.ToldInsideAnswers }
    ensures child_starts_clear { trees.ChildStartsClearAnswers }
    ensures ids { trees.IdsAnswers }
    ensures ids_state { trees.IdsState }
    ensures waits { trees.WaitsAnswers }
    ensures waits_state { trees.WaitsState }
{}

/// Worked schedules of signals: an outsider's, taken inside and given back by an abort; a member's,
/// held until the commit; the calls that are closed inside; how many signals are held, queued and
/// caught at most; signals that are caught, blocked, ignored, or sent to nobody; the points at which
/// they are caught, and the three ways to change the mask.
pub fn worked_signals()
    ensures given_back { signals.GivenBackAnswers }
    ensures given_back_state { signals.GivenBackState }
    ensures taken_for_good { signals.TakenForGoodAnswers }
    ensures taken_for_good_state { signals.TakenForGoodState }
    ensures sent_twice_undone { signals.SentTwiceUndoneAnswers }
    ensures sent_twice_undone_state { signals.SentTwiceUndoneState }
    ensures sent_twice { signals.SentTwiceAnswers }
    ensures sent_twice_state { signals.SentTwiceState }
    ensures held_inside_state { signals.HeldInsideState }
    ensures held_signal { signals.HeldSignalAnswers }
    ensures held_undone { signals.HeldUndoneAnswers }
    ensures target_gone { signals.TargetGoneAnswers }
    ensures target_gone_state { signals.TargetGoneState }
    ensures closed_calls { signals.ClosedCallsAnswers }
    ensures full_hold { signals.FullHoldAnswers }
    ensures held_in_turn_state { signals.HeldInTurnState }
    ensures full_queue { signals.FullQueueAnswers }
    ensures full_queue_state { signals.FullQueueState }
    ensures wrong_sends { signals.WrongSendsAnswers }
    ensures caught_state { actions.CaughtState }
    ensures caught_back { actions.CaughtBackAnswers }
    ensures caught_back_state { actions.CaughtBackState }
    ensures full_frames { actions.FullFramesAnswers }
    ensures realtime_in_turn { actions.RealtimeInTurnAnswers }
    ensures ignored { actions.IgnoredAnswers }
    ensures ignored_state { actions.IgnoredState }
    ensures ended_target { actions.EndedTargetAnswers }
    ensures ended_target_state { actions.EndedTargetState }
    ensures caught_again { actions.CaughtAgainAnswers }
    ensures caught_again_state { actions.CaughtAgainState }
    ensures catch_points { actions.CatchPointsAnswers }
    ensures catch_points_state { actions.CatchPointsState }
    ensures masks { actions.MasksAnswers }
    ensures masks_state { actions.MasksState }
    ensures discards { actions.DiscardsAnswers }
    ensures discards_state { actions.DiscardsState }
{}

/// Worked schedules of SIGKILL: an outsider's dooms the transaction of a starter, a member's does not,
/// and its delivery is never deferred.
pub fn worked_kills()
    ensures doomed { kills.DoomedAnswers }
    ensures doomed_state { kills.DoomedState }
    ensures ended_then_doomed { kills.EndedThenDoomedAnswers }
    ensures ended_then_doomed_state { kills.EndedThenDoomedState }
    ensures member_kills { kills.MemberKillsAnswers }
    ensures member_kills_state { kills.MemberKillsState }
    ensures kill_undone { kills.KillUndoneAnswers }
    ensures kill_undone_state { kills.KillUndoneState }
    ensures deferred { kills.DeferredAnswers }
    ensures deferred_state { kills.DeferredState }
    ensures past_width { kills.PastWidthAnswers }
{}

/// Worked schedules of pipes: of two processes, a last writer that may come back, and a flag that a
/// member changed; and a full pipe, the order of its bytes, a write without a reader, more names.
pub fn worked_pipes()
    ensures writer_back { pipes.WriterBackAnswers }
    ensures writer_gone { pipes.WriterGoneAnswers }
    ensures writer_closes { pipes.WriterClosesAnswers }
    ensures flag_undone { pipes.FlagUndoneAnswers }
    ensures flag_undone_state { pipes.FlagUndoneState }
    ensures full_pipe { pipes.FullPipeAnswers }
    ensures bytes_in_turn { pipes.BytesInTurnAnswers }
    ensures no_reader { pipes.NoReaderAnswers }
    ensures no_reader_state { pipes.NoReaderState }
    ensures more_names { pipes.MoreNamesAnswers }
    ensures more_names_state { pipes.MoreNamesState }
{}

/// Worked schedules of steps with another transaction in the way: two answers to one signal, by the
/// permission and by the room for it; two transactions that wait for each other; a child inside
/// one, a parent that one has reserved, a description that a fork would copy; and which of two is
/// named.
pub fn worked_conflicts()
    ensures undecided_kill { conflicts.UndecidedKillAnswers }
    ensures crossed { conflicts.CrossedAnswers }
    ensures crossed_state { conflicts.CrossedState }
    ensures child_inside { conflicts.ChildInsideAnswers }
    ensures forked_description { conflicts.ForkedDescriptionAnswers }
    ensures reserved_parent { conflicts.ReservedParentAnswers }
    ensures least_starter_in_way { conflicts.LeastStarterAnswers }
    ensures room_undone { conflicts.RoomUndoneAnswers }
    ensures room_made { conflicts.RoomMadeAnswers }
{}

/// Worked schedules of commits whose held signals go to live starters: one that is sent, one whose answer is
/// not known yet, how the signals of one commit count for each other, and whose ids a sender has.
pub fn worked_commits()
    ensures starter_told { commits.StarterToldAnswers }
    ensures starter_told_state { commits.StarterToldState }
    ensures refused_commit { commits.RefusedCommitAnswers }
    ensures refused_commit_state { commits.RefusedCommitState }
    ensures last_place_undone { commits.LastPlaceUndoneAnswers }
    ensures last_place_now { commits.LastPlaceNowAnswers }
    ensures last_place_now_state { commits.LastPlaceNowState }
    ensures last_place { commits.LastPlaceAnswers }
    ensures ids_at_call { commits.IdsAtCallAnswers }
{}

/// Worked schedules of steps with several reasons for refusal: an ended process, a chosen number, a
/// doomed transaction, a part that has ended, a SIGKILL that is pending, a transaction in the way,
/// a wait, and the reasons not to deliver a signal.
pub fn worked_refusals()
    ensures not_running { refusals.NotRunningAnswers }
    ensures doom_in_turn { refusals.DoomInTurnAnswers }
    ensures parked_in_turn { refusals.ParkedInTurnAnswers }
    ensures kill_in_turn { refusals.KillInTurnAnswers }
    ensures busy_in_turn { refusals.BusyInTurnAnswers }
    ensures deferred_in_turn { refusals.DeferredInTurnAnswers }
    ensures deferred_with_frames { refusals.DeferredWithFramesAnswers }
    ensures deferred_child { refusals.DeferredChildAnswers }
{}

/// Worked schedules of numbers that calls choose: out of range, taken, reserved by a transaction; and the least
/// ones that are free.
pub fn worked_numbers()
    ensures refused_numbers { numbers.RefusedNumbersAnswers }
    ensures refused_numbers_state { numbers.RefusedNumbersState }
    ensures number_limits { numbers.NumberLimitsAnswers }
    ensures reserved_numbers { numbers.ReservedNumbersAnswers }
    ensures reserved_numbers_state { numbers.ReservedNumbersState }
    ensures least_free { numbers.LeastFree }
    ensures given_up_inside { numbers.GivenUpInsideAnswers }
    ensures free_inside { numbers.FreeInside }
    ensures none_free { numbers.NoneFree }
    ensures no_pipe_free { numbers.NoPipeFree }
    ensures one_side_free { numbers.OneSideFree }
{}

/// Worked schedules of calls that concern only their own process: jumps, kept answers, the numbers
/// of a process and of its parent, and the console.
pub fn worked_scripts()
    ensures jumps { scripts.JumpsAnswers }
    ensures jumps_state { scripts.JumpsState }
    ensures last_point { scripts.LastPointAnswers }
    ensures last_point_state { scripts.LastPointState }
    ensures keeps { scripts.KeepsAnswers }
    ensures keeps_state { scripts.KeepsState }
    ensures parents { scripts.ParentsAnswers }
    ensures console { scripts.ConsoleAnswers }
    ensures shown_count_state { scripts.ShownCountState }
{}

/// Worked schedules of pages: mapped and taken out, and some that may not be written.
pub fn worked_memory()
    ensures pages { memory.PagesAnswers }
    ensures pages_state { memory.PagesState }
    ensures protected { memory.ProtectedAnswers }
    ensures protected_state { memory.ProtectedState }
{}

/// Worked schedules of committed transactions as one moment: the order in which their steps are
/// put, and what shows that they were apart.
pub fn worked_moments()
    ensures apart_history { moments.ApartHistory }
    ensures apart_moved { moments.ApartMoved }
    ensures looked_at_history { moments.LookedAtHistory }
    ensures looked_at_moved { moments.LookedAtMoved }
    ensures child_ends_history { moments.ChildEndsHistory }
    ensures child_ends_tells { moments.ChildEndsTells }
    ensures child_parks_history { moments.ChildParksHistory }
    ensures child_parks_tells_nothing { moments.ChildParksTellsNothing }
    ensures starter_looks { moments.StarterLooks }
    ensures starter_sends { moments.StarterSends }
    ensures others_tell_nothing { moments.OthersTellNothing }
{}

/// Worked schedules of children: what a child starts with, children whose parent has ended, children that a
/// signal ended, and what is left of an ended process.
pub fn worked_children()
    ensures copied_state { children.CopiedState }
    ensures orphans { children.OrphansAnswers }
    ensures orphans_state { children.OrphansState }
    ensures killed_child { children.KilledChildAnswers }
    ensures killed_child_state { children.KilledChildState }
    ensures ignored_child { children.IgnoredChildAnswers }
    ensures ignored_child_state { children.IgnoredChildState }
    ensures left_over_state { children.LeftOverState }
    ensures killed_commit { children.KilledCommitAnswers }
    ensures killed_commit_state { children.KilledCommitState }
{}

/// Worked schedules of descriptors: which numbers they get, how many there are, when they are
/// closed, and the order in which wrong calls on them are tested.
pub fn worked_descriptors()
    ensures lowest_first { descriptors.LowestFirstAnswers }
    ensures lowest_first_state { descriptors.LowestFirstState }
    ensures full_table { descriptors.FullTableAnswers }
    ensures full_table_state { descriptors.FullTableState }
    ensures closed_by_exit { descriptors.ClosedByExitAnswers }
    ensures closed_by_exit_state { descriptors.ClosedByExitState }
    ensures bytes_lost { descriptors.BytesLostAnswers }
    ensures wrong_transfers { descriptors.WrongTransfersAnswers }
    ensures little_room { descriptors.LittleRoomAnswers }
    ensures wrong_descriptors { descriptors.WrongDescriptorsAnswers }
{}

/// Worked schedules of what each step names: descriptions, pipes, chosen numbers, processes, the
/// targets of a commit, and the children and the parent of a process that ends.
pub fn worked_footprints()
    ensures changed_description { footprints.ChangedDescriptionAnswers }
    ensures changed_writer { footprints.ChangedWriterAnswers }
    ensures written_pipe { footprints.WrittenPipeAnswers }
    ensures same_descriptor { footprints.SameDescriptorAnswers }
    ensures read_pipe { footprints.ReadPipeAnswers }
    ensures chosen_numbers { footprints.ChosenNumbersAnswers }
    ensures asked_for { footprints.AskedForAnswers }
    ensures signalled_member { footprints.SignalledMemberAnswers }
    ensures reserved_target { footprints.ReservedTargetAnswers }
    ensures told_at_commit { footprints.ToldAtCommitAnswers }
    ensures fatal_delivery { footprints.FatalDeliveryAnswers }
    ensures deferred_delivery { footprints.DeferredDeliveryAnswers }
{}

/// Worked schedules of user and group ids: who may signal whom, and which ids a process may take.
pub fn worked_identities()
    ensures permitted { identities.PermittedAnswers }
    ensures permitted_state { identities.PermittedState }
    ensures groups { identities.GroupsAnswers }
    ensures groups_state { identities.GroupsState }
{}

/// Worked schedules of signals that are sent: which there are, what they bring, and those of members.
pub fn worked_sends()
    ensures each_signal { sends.EachSignalAnswers }
    ensures each_signal_state { sends.EachSignalState }
    ensures values { sends.ValuesAnswers }
    ensures sends_inside { sends.SendsInsideAnswers }
    ensures sends_inside_state { sends.SendsInsideState }
{}
