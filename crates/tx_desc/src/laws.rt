//! What holds of the counts, as the contracts of functions that do nothing.
ghost use Rattle.std.specs.Prelude.{◌≡◌, ◌<◌, ◌↔◌, ℕ, List, [], ◌∷◌, Option, Some, None, IsSome, IsPermutation, length, replicate, slice_index_or};
ghost use Rattle.tx_desc.specs.declared.opened.Opened.{Opened};
ghost use Rattle.tx_model.specs.State.{Process, State, SetProc, write_one};
ghost use Rattle.tx_desc.specs.Counts.{Agrees, HasNamed, KeepsCounts, names_in, others_of};
ghost use Rattle.tx_desc.specs.Laws.{RoomForName, RoomForNames};
ghost use Rattle.tx_desc.specs.Outcomes.{RunsWith};
ghost use Rattle.tx_desc.specs.Places.{Descriptors};

/// With no description, the counts are right where there is no process, and where each one has its
/// descriptors free.
pub fn none_named_at_first()
    ensures none { Agrees [] (replicate 64 None) }
    ensures empty { (count : ℕ) → Agrees (replicate count (replicate 16 None)) (replicate 64 None) }
{}

/// Where the counts are right, a description is there exactly while a descriptor names it.
pub fn there_while_named()
    ensures { (tables : List Descriptors) (descs : List (Option Opened)) (d : ℕ) →
        Agrees tables descs →
        IsSome (slice_index_or descs d None) ↔ (0 < names_in d tables) }
{}

/// What a plan says of the counts of one process's names holds whatever all other processes name:
/// of a process that has other descriptors then, of one that comes, of one that ends, and of no
/// process.
pub fn counts_kept()
    ensures changed { (table new : Descriptors) (others : List Descriptors)
        (descs after : List (Option Opened)) →
        KeepsCounts table new descs after → Agrees (table ∷ others) descs →
        Agrees (new ∷ others) after }
    ensures comes { (table : Descriptors) (others : List Descriptors)
        (descs after : List (Option Opened)) →
        KeepsCounts [] table descs after → Agrees others descs → Agrees (table ∷ others) after }
    ensures ends { (table : Descriptors) (others : List Descriptors)
        (descs after : List (Option Opened)) →
        KeepsCounts table [] descs after → Agrees (table ∷ others) descs → Agrees others after }
    ensures nobody { (tables : List Descriptors) (descs after : List (Option Opened)) →
        KeepsCounts [] [] descs after → Agrees tables descs → Agrees tables after }
{}

/// Where the counts are right, with at most 256 processes of 16 descriptors, what a fork and an end
/// of one of them require holds; so does what a call on one of its descriptors requires, open or
/// not.
pub fn room_for_names()
    ensures all { RoomForNames }
    ensures one { RoomForName }
{}

/// Whether the counts are right does not depend on the order of the processes.
pub fn any_order()
    ensures { (tables others : List Descriptors) (descs : List (Option Opened)) →
        IsPermutation tables others → Agrees tables descs → Agrees others descs }
{}

/// Which descriptions a state names follows from the descriptors of a process and of all others: of
/// a process that runs, and comes to have these descriptors, and of one that ends.
pub fn named_by_processes()
    ensures running { (p : ℕ) (me new : Process) (S : State) (table : Descriptors) →
        RunsWith p me S table →
        length new.descriptors ≡ 16 → new.status ≡ None →
        HasNamed (write_one (SetProc p (Some new)) S) (new.descriptors ∷ others_of p S) }
    ensures ended { (p : ℕ) (me new : Process) (S : State) (table : Descriptors) →
        RunsWith p me S table →
        length new.descriptors ≡ 16 → IsSome new.status →
        HasNamed (write_one (SetProc p (Some new)) S) (others_of p S) }
{}
