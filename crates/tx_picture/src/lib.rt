#![tactic(auto)]
//! A picture of a schedule, in SVG.
//!
//! `walk` makes the steps and notes in a `Drawing` what to draw: each step with its answer
//! (`Row`), where a process runs or is a member (`Span`), which read took bytes of which write
//! (`Passage`), and who could end a wait (`waits`). `excerpts` leaves out what is before an
//! excerpt. `captions` has what the author wrote: lines, and names, each for one of the `lives` of
//! a number.
//!
//! `whole` writes the rest by a `Sheet`: `stretches`, `arrows` (`fans` where several meet), each
//! step's mark and text (`steps`, `wording`), what leads to other columns (`ties`, `held`), and
//! `heads` of columns. `columns` and `layout` place all this; `specs/WellFormed.antt` says when it
//! is well formed.

mod arrows;
mod births;
mod captions;
mod columns;
mod commands;
mod drawing;
mod elements;
mod escape;
mod excerpts;
mod fans;
mod heads;
mod held;
mod laws;
mod layout;
mod lives;
mod passages;
mod rows;
mod sheets;
mod spans;
mod steps;
mod stretches;
mod styles;
mod ties;
mod transfers;
mod waits;
mod walk;
mod whole;
mod wording;

pub use commands::{picture, picture_text};
pub use drawing::Drawing;
pub use excerpts::Excerpt;
pub use laws::boxes_begin_and_end;
pub use passages::{Passage, Written};
pub use rows::Row;
pub use spans::{End, Span};
pub use waits::Wait;
