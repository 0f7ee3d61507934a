//! The signals of a process: what is pending, what is done about each, and what the caught ones
//! saved. No call takes memory.
//!
//! Contracts see `Pending`, `Actions` and `Frames` as the definitions do, and hold of any process
//! that has them: `post` is the part of the posting rule that is about the signal, `take` and
//! `delivered` are what a delivery takes and brings, `discard` is what an ignoring action does.
//! `swap_entry` exchanges an entry of the queue by its place, which takes back a post, a delivery
//! or a discard. `SigSet`, `Action` and `How` are re-exported from tx_base.
#![tactic(auto)]

mod actions;
mod frames;
mod laws;
mod pending;
mod queued;
mod sets;

pub use actions::{Actions, is_bad, is_fatal, is_ignored, maskable_action};
pub use frames::{Frame, Frames};
pub use laws::{
    discarded_in_turn, last_place_posts, pending_suffices, post_answers, set_is_with_action,
    swap_action_twice, swap_entry_fits, swap_entry_twice,
};
pub use pending::Pending;
pub use queued::Queued;
pub use sets::{has, is_known, is_realtime, known, maskable, masked, single, with, without};
pub use tx_base::{Action, How, SIGNALS, SigSet, Signo};
