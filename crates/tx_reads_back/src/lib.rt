//! Laws of texts, as contracts of functions that do nothing: a state's text has the whole state,
//! and lines of JSON read back.
//!
//! Two states with one text are the same, but for what the law names as printed nowhere. So a new
//! field that no line prints breaks a proof. A line is known by its first word and number, an
//! absent line by the one in its place (`Numbered`). `ReadReplies`, `ReadEntries` and `ReadStates`
//! read lines of JSON; `reads_back` is their law.
#![tactic(auto)]

mod read_back;

ghost use Rattle.tx_reads_back.specs.StateTexts.{HistoriesAreOfKernel, RestingAreSame, TextsDetermineStates};

pub use read_back::reads_back;
use tx_laws::{next_view, well_formed, well_formed_table};

/// If two views of one width have one text, they have the same state and the same table, but for
/// what no line shows, which the law names: the point and the answer of a process that has ended,
/// the ids of who sent what is held, and what the mark of a member other than the starter says of
/// deferring. If the point and the answer of those that have ended are 0, all processes are the
/// same. The law requires that a view's numbers are of the kernel's types; all else that it
/// requires holds after every lawful history from a booted state.
pub fn texts_determine_states()
    ensures determined { TextsDetermineStates }
    ensures resting { RestingAreSame }
    ensures histories { HistoriesAreOfKernel }
{
    next_view();
    well_formed();
    well_formed_table();
}
