#![tactic(auto)]
//! Calls, deliveries and posts: what each will change, and its answer.
//!
//! # Plans
//!
//! An `Actor` is who makes a step: the parts, its number, its process, and the transaction that it
//! is `Inside` of. Each call is a method that reads like its rule: it appends its exchanges to a
//! `Log`, and gives the call's answer (`Outcome`); one that may send gives that too (`Planned`).
//! Each group of calls has its file, as in the definitions.
//!
//! `Plans` is what each must meet: changes name numbers in range and objects of the rule; once
//! exchanged, counts of names agree and each process has its places; the state is the rule's before
//! its posts, with what is handed out held; answer and sends are the effect's. A call that concerns
//! only its process has less to meet (`PlansOwn`), from which `Plans` follows once for all.
//!
//! `plan_call` and `plan_delivery` find the plan and put its post after its changes (`push_sends`),
//! so the log has the whole step (`PlansStep`). After a refusal it has its old length.
//! `Actor::plan` takes a call, a delivery or only an answer (`Act`; `PlansEvent`, `RefusesEvent`).
//!
//! # Posts and questions
//!
//! `plan_post` plans a post; `post` makes one and gives the change that takes it back. The target's
//! `Face` decides the answer: ids, whether it has ended, how many signals are queued. What a step
//! sends (`outgoing`) and why its rule or its numbers refuse it (`refusals`) are known without a
//! plan.
//!
//! # Steps
//!
//! `act` and `deliver` find the process (`Actor::at`), plan and exchange; the log then has what
//! leads back (`Makes`). `plans_are_made` says the same of whoever plans and exchanges. Both keep
//! the parts whole (`IsWhole`). The machine uses neither: tx_content exchanges what `Actor::plan`
//! appends.

mod actor;
mod acts;
mod answers;
mod calls;
mod deliveries;
mod descriptors;
mod ending;
mod events;
mod ids;
mod inside;
mod laws;
mod memory;
mod outgoing;
mod planned;
mod posts;
mod refusals;
mod registers;
mod sends;
mod signals;
mod steps;
mod transfers;
mod trees;

pub use actor::Actor;
pub use acts::{act, deliver};
pub use events::Act;
pub use inside::Inside;
pub use laws::{booted_are_whole, plans_are_made, quiet_calls_send_nothing};
pub use planned::{Outcome, Planned, Sends, Shown};
pub use posts::{Face, Posted, plan_post, post};
pub use sends::sendable;
