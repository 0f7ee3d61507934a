#![tactic(auto)]
//! What the steps of transactions reserve: sets of objects, who owns each, and a step's footprint.
//! Only `Reservations::new` takes memory. A call costs the objects of its set, never the size of a
//! table, but for `footprint`.
//!
//! # What it has
//!
//! - `Objects`: a set of processes, descriptions and pipes, a bit for each, 44 bytes that are
//!   copied. A number out of range (`is_small`) is never in. `pop` takes one out and falls by a
//!   measure (`weight`), so callers can loop.
//! - `Reservations`: each object's owner (`owner_of`). `conflict` and `other_owner` find the least
//!   other one, `take` answers which had none, `release` leaves none. There is a place for each
//!   object of a set, on narrow machines too, so sets need no premise.
//! - `footprint_of_call`, `footprint_of_delivery`: the definitions' rows, put into the caller's
//!   empty set. The held sends that the caller gives matter only where a step ends its process's
//!   part: they must be there exactly if no other part is open (`GoesWithCall`,
//!   `GoesWithDelivery`).
//! - `footprint`: of any step, of a missing or ended process too. It looks at each mark
//!   (`is_other_open`).

mod footprints;
mod laws;
mod objects;
mod open_parts;
mod reservations;
mod step_footprint;

pub use footprints::{footprint_of_call, footprint_of_delivery};
pub use laws::{footprints_are_within, owners_are_extensional};
pub use objects::{Object, Objects};
pub use open_parts::is_other_open;
pub use reservations::Reservations;
pub use step_footprint::footprint;
