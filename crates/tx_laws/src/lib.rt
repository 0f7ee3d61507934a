#![tactic(auto)]
//! The laws over the definitions of the kernel, as contracts of functions that do nothing;
//! `docs/PROVED.md` has each in words. A law that crates above use is a definition of
//! `specs/Laws.antt` or of a file beside it.
//!
//! # What they need
//!
//! The laws go by a step's role (outside, within, commits, aborts) and by objects, not by calls. So
//! a machine must show one thing: its view after a step is `next` of its view before. A call's rule
//! must show its locality, and that inside a transaction it posts only to members and holds only
//! with its own. `proofs/` shows that of each call, by groups (`Of..`), and of well-formed states
//! likewise (`KeepsForm..`), mostly by the lines of its page. Calls that concern only their process
//! share one table (`OwnPages`) and the law *own calls*.
//!
//! # Which there are
//!
//! - of histories: *erasure*, *survivors by places*, *step by step*, *next view*
//! - of machines that keep two states and owners: *two states*, *answers of states*
//! - of effects: *locality*, *commuting*, *inside*, *footprints*
//! - of states: *well formed*, *well formed with the table*, *doom*

ghost use Rattle.std.specs.Prelude.{◌≤◌, ℕ, List, ◌≡◌, length};
ghost use Rattle.tx_base.specs.declared.steps.Accepted.{Accepted};
ghost use Rattle.tx_base.specs.declared.steps.Reply.TheVariants.{Committed};
ghost use Rattle.tx_base.specs.declared.limits.TheConstants.{UNDELIVERED};
ghost use Rattle.tx_base.specs.declared.names.Missed.{Missed};
ghost use Rattle.tx_base.specs.declared.steps.Step.{Step};
ghost use Rattle.tx_model.specs.Answer.{Lawful, answer};
ghost use Rattle.tx_model.specs.History.{Starters, without, nobody, table_of};
ghost use Rattle.tx_model.specs.State.{State, boot_state};
ghost use Rattle.tx_model.specs.View.{view};
ghost use Rattle.tx_laws.specs.Laws.{PrefixesAgree, SurvivorsAreByPlace, LawfulViewIsNext, LawfulViewIsSound, StartIsSound, NextIsSound, AcceptedStepsFit, RolesKeepSound, NextIsWellFormed, BootedIsWellFormed, EventKeepsForm, PostKeepsForm, HeldKeepsForm, SchedulesAreLawful};
ghost use Rattle.tx_laws.specs.LawsOfOthers.{HistoriesAgree, EntriesFit, ObjectsOfOthersApart, AnswersWithoutOthers, SameEventKeeps};
ghost use Rattle.tx_laws.specs.LawsOfDoom.{DoomedCallsAreRefused, DoomedDeliveriesAreRefused, DoomedAbortAnswers203, OtherAbortAnswers202, MembersDoomNothing, KillDooms, SigqueueDooms, DoomStays};
ghost use Rattle.tx_laws.specs.Endings.{ExitIsTold, ExitsSayEnd, OtherCallsSayNoEnd, DeliveriesSayEnd, EndingsAreAnswered, StepIsToldByEnd, OtherCallIsTold, DeliveryIsTold};
ghost use Rattle.tx_laws.specs.Shown.{ShowsFew};
ghost use Rattle.tx_laws.specs.OwnCalls.{OwnCallsStayOwn};
ghost use Rattle.tx_laws.specs.LawsOfEvents.{ActorIsObject, EffectIsLocal, ObjectsAreLocal, ReplyIsLocal, ElsewhereIsSame, OtherObjectsStay, WritesStayInObjects, OthersGetSendsAlone, HoldsForItsOwn, MembersSendToMembers, StatesCommute, RepliesCommute};
ghost use Rattle.tx_laws.specs.LawsOfTwoStates.{StartHasItsView, SameStatesSameView, StatesFollowRole, StatesFollowStep, PresentIsNow, DoomIsKept, TwoAnswersAreOfStarter, InWayIsOfStates, StarterInWayIsOfStates};
ghost use Rattle.tx_laws.specs.WellFormed.{IsWellFormed};
ghost use Rattle.tx_laws.specs.Footprints.{ClearIsOfMembers, FootprintIsOfEvent, FootprintIsShared, StarterInWayIsOfStep, NoStarterIsClear};
ghost use Rattle.tx_laws.specs.WellFormedTable.{HoldsNothing, IsWellFormedWith};
ghost use Rattle.tx_laws.specs.LawsOfTable.{EmptyViewIsWellFormed, NextViewIsWellFormed, ViewsListEnough};

/// Erasure: in every prefix of a lawful history, from any start state, each surviving step has
/// the reply that the plain kernel gives when the steps of aborted transactions are left out,
/// each aborted starter standing at its sys_xbegin with the abort status.
pub fn erasure()
    ensures { PrefixesAgree }
{}

/// The same for the whole history, whichever of its live transactions are left out.
pub fn agreement()
    ensures { HistoriesAgree }
{}

/// The event of an entry of a lawful history fits the role of the entry, and nobody is in its way.
/// With transactions of others left out, such an event finds its objects as they are, and its posts
/// are answered alike. Two states that agree at an object agree there after an event that does the
/// same in both, and whose posts both answer alike.
pub fn entries()
    ensures fit { EntriesFit }
    ensures objects { ObjectsOfOthersApart }
    ensures answers { AnswersWithoutOthers }
    ensures keeps { SameEventKeeps }
{}

/// The survivors of a history are the events of the steps that no later abort takes back and that
/// are of no live transaction that is left out. At each place the roles of the steps that follow
/// decide.
pub fn survivors_by_places()
    ensures { SurvivorsAreByPlace }
{}

/// The view of a lawful history is the next view of that of the entries before its last, and is
/// sound: at each object it depends only on the transactions that reserved it.
pub fn next_view()
    ensures history { LawfulViewIsNext }
    ensures sound { LawfulViewIsSound }
{}

/// Step by step: the view of the empty history is sound, and an accepted step keeps views sound and
/// states well formed, whichever transactions are left out. Its event fits its role, and in each
/// role that an event fits, sound views stay so. The accepted steps of a schedule after a lawful
/// history make a lawful history with it.
pub fn step_by_step()
    ensures start { StartIsSound }
    ensures sound { NextIsSound }
    ensures fits { AcceptedStepsFit }
    ensures role { RolesKeepSound }
    ensures well_formed { NextIsWellFormed }
    ensures lawful { SchedulesAreLawful }
{}

/// A kernel with two states, the state now and the kept one, and with an owner for each object has
/// the view of its history: at the start, where nobody owns anything; then in every role that a
/// step may have, and so after each accepted step. Its view follows from its state now, its owners
/// and its table, and what is kept of what is owned.
pub fn two_states()
    ensures start { StartHasItsView }
    ensures same { SameStatesSameView }
    ensures role { StatesFollowRole }
    ensures step { StatesFollowStep }
{}

/// The answers of a kernel with two states, by these. The present state is the one now; a live
/// transaction is doomed if SIGKILL is pending in what is kept of its starter. The transaction of a
/// live starter is in the way of an event of a process that is no member of it, if the starter owns
/// something that the event names, or if one of the event's sends to the starter is answered
/// differently by its process as kept and as it is now. A busy step names the least starter in its
/// way.
pub fn answers_of_states()
    ensures present { PresentIsNow }
    ensures doom { DoomIsKept }
    ensures two_answers { TwoAnswersAreOfStarter }
    ensures in_way { InWayIsOfStates }
    ensures starter_in_way { StarterInWayIsOfStates }
{}

/// Locality: what an event does, and which objects it has, is a function of its objects, their
/// families included; who makes it is one of them. Its reply is a function of its objects and of
/// the targets of its sends. It changes only these, and which processes are children of process 1:
/// every other part stays. In any state, its writes stay within its objects, and what is not its
/// object gets only its sends.
pub fn locality()
    ensures actor { ActorIsObject }
    ensures same { EffectIsLocal }
    ensures objects { ObjectsAreLocal }
    ensures reply { ReplyIsLocal }
    ensures elsewhere { ElsewhereIsSame }
    ensures parts { OtherObjectsStay }
    ensures writes { WritesStayInObjects }
    ensures sends { OthersGetSendsAlone }
{}

/// Inside a transaction and outside: what a transaction holds is read or written only by events
/// that are made inside it or commit it; and what a member sends at once goes to members.
pub fn inside()
    ensures held { HoldsForItsOwn }
    ensures sends { MembersSendToMembers }
{}

/// Footprints: the footprint of a step of a process that runs, which is no abort, is what its event
/// names, and the targets of what the event posts. What a transaction holds is left out. The
/// starter that a busy call or delivery names is the least one that is in its way by its own
/// footprint, an abort by a member included. If none is named, nobody is in the way, and then the
/// process is a member of each transaction that reserved what the event names.
pub fn footprints()
    ensures of_event { FootprintIsOfEvent }
    ensures starter_in_way { StarterInWayIsOfStep }
    ensures shared { FootprintIsShared }
    ensures clear { NoStarterIsClear }
    ensures members { ClearIsOfMembers }
{}

/// Two events commute if no object is named by both, the targets of their sends included: in either
/// order they leave the same state, and each has the reply that it has alone.
pub fn commuting()
    ensures state { StatesCommute }
    ensures reply { RepliesCommute }
{}

/// Of a doomed transaction, whose starter would have SIGKILL pending after an abort, only the
/// kernel's abort is accepted: each call of a member and each delivery to one is refused. That
/// abort answers 203, or 202 if the transaction is not doomed. No step inside a transaction, the
/// first included, changes whether it is doomed: what its members send dooms nothing. A permitted
/// SIGKILL to the starter from outside all transactions dooms its transaction, unless that is
/// process 1's; and a doomed transaction stays so until it ends.
pub fn doom()
    ensures call { DoomedCallsAreRefused }
    ensures delivery { DoomedDeliveriesAreRefused }
    ensures doomed_status { DoomedAbortAnswers203 }
    ensures other_status { OtherAbortAnswers202 }
    ensures members { MembersDoomNothing }
    ensures kill { KillDooms }
    ensures sigqueue { SigqueueDooms }
    ensures stays { DoomStays }
{}

/// Endings, before there is a reply: the reply to a call other than an exit never says that its
/// process ended, and that to a delivery says so exactly if the delivery now ends its process. The
/// role of a call or a delivery, and its event, depend on the first reply only by that. So a call
/// other than an exit is one that ends nothing, and for a delivery it only matters whether it now
/// ends its process. An exit ends its process, except process 1, which gets an error and goes on.
/// What an ending itself posts is not answered by an error: it notifies the parent, which exists.
/// What a step shows on the console fits its reply, whatever the view.
pub fn endings()
    ensures calls { OtherCallsSayNoEnd }
    ensures exits { ExitsSayEnd }
    ensures deliveries { DeliveriesSayEnd }
    ensures answered { EndingsAreAnswered }
    ensures step { StepIsToldByEnd }
    ensures other_call { OtherCallIsTold }
    ensures exit { ExitIsTold }
    ensures delivery { DeliveryIsTold }
    ensures shown { ShowsFew }
{}

/// A call that concerns only its process answers, and changes at most that process.
pub fn own_calls()
    ensures { OwnCallsStayOwn }
{}

/// Well-formed states: process 1 runs, the parent of any other process runs too, what descriptors
/// name exists and nothing else does; numbers and sizes are within their limits, as are pages, ids,
/// points, masks and actions, and the signals that are pending or held; and what is held goes to
/// process numbers in range. The booted state is well formed, every event with numbers in range
/// leaves a well-formed state so, and so each state of a lawful history is well formed, whichever
/// transactions are left out. Posting a signal that may be on its way keeps that, and so do other
/// held signals in place of these.
pub fn well_formed()
    ensures booted { BootedIsWellFormed }
    ensures kept { EventKeepsForm }
    ensures posted { PostKeepsForm }
    ensures held { HeldKeepsForm }
    ensures history { (start : State) (history : List Accepted) (left_out : Starters) →
        IsWellFormed start → Lawful start history → IsWellFormed (without start left_out history) }
{}

/// The live transactions of every lawful history from a well-formed state that holds nothing, as
/// the booted one does: the starter exists, members whose part has not ended run, the parent of
/// each member but the starter is a member too or process 1, that of the starter is no member, and
/// what is held is within its limit. So what a commit lists fits its reply. The same step by step.
pub fn well_formed_table()
    ensures booted { (width count : ℕ) → HoldsNothing (boot_state width count) }
    ensures start { EmptyViewIsWellFormed }
    ensures step { NextViewIsWellFormed }
    ensures listed { ViewsListEnough }
    ensures history { (start : State) (history : List Accepted) →
        IsWellFormed start → HoldsNothing start → Lawful start history →
        IsWellFormedWith (table_of start history) (without start nobody history) }
    ensures undelivered { (start : State) (history : List Accepted) (step : Step)
        (items : List Missed) →
        IsWellFormed start → HoldsNothing start → Lawful start history →
        answer (view start history) step ≡ Committed (record { items = items }) →
        length items ≤ UNDELIVERED }
{}
