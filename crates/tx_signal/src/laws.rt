//! The laws of exchanges and of the parts of a process, as the contracts of functions that do
//! nothing.
ghost use Rattle.std.specs.Prelude.{◌≡◌, ◌<◌, ◌≤◌, ℕ, ℤ, false, List, length, Option, None, Some, slice_index_or, slice_set};
ghost use Rattle.tx_base.specs.declared.signals.Action.{Action};
ghost use Rattle.tx_base.specs.declared.limits.TheConstants.{QUEUED};
ghost use Rattle.tx_model.specs.Deliveries.{delivered_value, without_delivered};
ghost use Rattle.tx_model.specs.Signals.{without_signal, maskable_action, queued_others, with_action};
ghost use Rattle.tx_model.specs.Posts.{is_quiet, room_answer};
ghost use Rattle.tx_model.specs.Words.{with_queued};
ghost use Rattle.tx_model.specs.State.{Process, Queued, Sender};
ghost use Rattle.tx_signal.specs.Entries.{entry_swapped, place_of};
ghost use Rattle.tx_signal.specs.Laws.{EntryComesBack, QueueComesBack};
ghost use Rattle.tx_signal.specs.Parts.{PendingView, alone, answer_of, pending_of, post_result, sending_of, with_actions, with_pending_part};

/// A second exchange of an entry at the same place takes the first one back: the queue and the
/// entry are those from before both.
pub fn swap_entry_twice()
    ensures queue { QueueComesBack }
    ensures entry { EntryComesBack }
{}

/// An exchange never makes the queue longer than it may be.
pub fn swap_entry_fits()
    ensures { (place : ℕ) (entry : Option Queued) (queue : List Queued) →
        length queue ≤ QUEUED →
        length (entry_swapped place entry queue) ≤ QUEUED }
{}

/// A second exchange of the action of a signal takes the first one back.
pub fn swap_action_twice()
    ensures actions { (signo : ℕ) (action : Action) (actions : List Action) →
        slice_set (slice_set actions signo action) signo (slice_index_or actions signo action)
        ≡ actions }
    ensures action { (signo : ℕ) (action : Action) (actions : List Action) →
        slice_index_or (slice_set actions signo action) signo (slice_index_or actions signo action)
        ≡ action }
{}

/// An exchange after the last entry puts in a realtime signal as a post does, where there is room.
pub fn last_place_posts()
    ensures { (signo : ℕ) (value : ℤ) (target : ℕ) (from : Option Sender)
        (view : PendingView) (me : Process) →
        length view.queued < QUEUED →
        with_pending_part (record view {
          queued =
              entry_swapped (length view.queued) (Some (record { signo = signo; value = value }))
              view.queued;
        }) me
        ≡ with_queued (sending_of signo value target from) (with_pending_part view me) }
{}

/// The result of a post is the answer of the posting rule, where the signal is let through and the
/// target is neither process 1 nor one that has ended.
pub fn post_answers()
    ensures { (signo : ℕ) (value : ℤ) (target : ℕ) (from : Option Sender)
        (view : PendingView) (me : Process) →
        is_quiet (sending_of signo value target from) me ≡ false →
        answer_of (post_result signo view)
        ≡ room_answer (sending_of signo value target from) (with_pending_part view me) }
{}

/// What the definitions make of a process with nothing but what is pending, they make of every
/// process with the same pending: its other parts stay, and only the mask counts.
pub fn pending_suffices()
    ensures taken { (signo : ℕ) (view : PendingView) (me : Process) →
        without_delivered signo (with_pending_part view me)
        ≡ with_pending_part (pending_of (without_delivered signo (alone view))) me }
    ensures discarded { (signo : ℕ) (view : PendingView) (me : Process) →
        without_signal signo (with_pending_part view me)
        ≡ with_pending_part (pending_of (without_signal signo (alone view))) me }
    ensures delivered { (signo : ℕ) (view : PendingView) (me other : Process) →
        me.mask ≡ other.mask →
        delivered_value signo (with_pending_part view me)
        ≡ delivered_value signo (with_pending_part view other) }
{}

/// What the definition makes of the actions of a process is one action set.
pub fn set_is_with_action()
    ensures { (signo : ℕ) (action : Action) (actions : List Action) (me : Process) →
        with_action signo action (with_actions actions me)
        ≡ with_actions (slice_set actions signo (maskable_action action)) me }
{}

/// Every occurrence of a signal is discarded one after another: to take the first one out leaves the
/// entries of all other signals, and where there is none these are all.
pub fn discarded_in_turn()
    ensures one { (signo place : ℕ) (queue : List Queued) → place_of signo queue ≡ Some place →
        queued_others signo (entry_swapped place None queue) ≡ queued_others signo queue }
    ensures none { (signo : ℕ) (queue : List Queued) → place_of signo queue ≡ None →
        queued_others signo queue ≡ queue }
{}
