#![tactic(auto)]
//! A step on the content of a kernel: why it is refused, or what it makes and what takes it back.
//!
//! # The order
//!
//! `take_call` and `take_delivery` ask in the order of the definitions: early refusals, role,
//! footprint, who is in the way. If nothing refuses the step (`IsLetThrough`), the function of its
//! role gives tx_content the act (`Act`; a call of transactions is an answer), and shows what
//! tx_content requires: nobody else owns what the event reads and writes; a fork's child has a
//! number in range; a step that commits ends its process's part, holds only signals, and its own
//! posts have no error. Laws of tx_laws and tx_txn then keep the content as steps leave it
//! (`IsContent`).
//!
//! # Before a step is made
//!
//! None of this takes memory.
//!
//! - `early_refusal_of_call`, `early_refusal_of_delivery`: the reasons before Busy.
//! - `role_of_call`, `role_of_delivery`: the role (`StepRole`), before there is a reply.
//! - `find_starter`: the lesser of the least other owner in the footprint and the least starter
//!   with two answers. `Faces` goes through the sends once. What a committing step hands out is its
//!   last send (law `posts_are_sends`).
//! - `way_of_call`, `way_of_delivery`: `find_starter` with the step's footprint and sends, and what
//!   is held if its role commits. Other members' parts are looked at only for a step that ends its
//!   own, and once (`last_by`). Most calls name only their process and send nothing
//!   (`ConcernsItself`), as does a member's abort with its starter: then one owner is asked for.
//!
//! # The reply
//!
//! `late_refusal` is not asked of a step that begins or commits, whose rule has no reason. A step
//! answers a small value (`Answered`), of which `put_reply` makes the reply in its place: shown
//! bytes are in the process's memory, which such a step leaves alone, failed posts in the inverse's
//! outbox.
//!
//! # Questions
//!
//! `footprint` and `two_answers` answer for any step. Neither calls what a step is asked first:
//! with a second caller that is no longer inlined, and each step pays for it.

mod aborts;
mod answered;
mod begins;
mod differing;
mod early;
mod ends;
mod faces;
mod in_way;
mod inside;
mod late;
mod laws;
mod named;
mod outside;
mod own;
mod refusal_laws;
mod replies;
mod request;
mod roles;
mod steps;
mod ways;

pub use aborts::{kernel_status, take_kernel_abort};
pub use answered::Answered;
pub use differing::{TwoAnswers, differences_are_found, two_answers};
pub use named::footprint;
pub use refusal_laws::{booted_is_content, contents_are_whole, posts_are_sends};
pub use replies::put_reply;
pub use roles::{StepRole, role_of_call, role_of_delivery};
pub use steps::{take_call, take_delivery};
pub use ways::{actor_of, is_running};
