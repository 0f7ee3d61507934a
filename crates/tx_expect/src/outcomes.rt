//! Reads a schedule, makes its steps, and judges the replies by what the text expects.
ghost use Rattle.tx_expect.specs.Outcomes.{whole_progress, ExpectsText, IsOutcome};
ghost use Rattle.std.specs.Prelude.{◌≡◌, IfOk, []};
ghost use Rattle.tx_content.specs.Content.{view_of};
ghost use Rattle.tx_model.specs.Schedules.{answers_of};
ghost use Rattle.tx_script.specs.Report.{last_view, start_state};

use crate::judges::Judge;
use std::alloc::{AllocError, Global};
use tx_journal::put_state;
use tx_lines::{Fault, Schedule};
use tx_script::{Answered, make_all};
use tx_translate::read_schedule;

/// What the expectations of a text come to.
#[derive(Drop)]
pub struct Outcome {
    /// A line for each expectation that is not met, and a last one with the counts.
    pub report: String,
    /// Whether all steps are judged, some expectations are met, and none is not.
    pub is_met: bool,
}

/// What the expectations come to of the schedule that a text of any version spells, or means. Only
/// texts of version 3 have any.
///
/// A fault where the text can't be read, or a growth of memory is refused, as `replay_text` has it.
pub fn expect_text(alloc: Global, text: &[u8]) -> Result<Outcome, Fault>
    ensures { ExpectsText text.now result }
{
    let schedule = read_schedule(alloc, text)?;
    let answered = make_all(alloc, &schedule)?;
    Ok(judge(alloc, text, &schedule, &answered)?)
}

/// Judges the lines of a text that means a schedule, by what its steps were answered.
fn judge(
    alloc: Global,
    text: &[u8],
    schedule: &Schedule,
    answered: &Answered,
) -> Result<Outcome, AllocError>
    requires replies { answered.now.replies.items
        ≡ answers_of (start_state schedule.now.header) [] schedule.now.steps.items }
    requires view { view_of answered.now.machine
        ≡ last_view schedule.now.header schedule.now.steps.items }
    ensures { IfOk result (IsOutcome
        (whole_progress text.now schedule.now.header schedule.now.steps.items)) }
{
    let mut judge = Judge::new(
        alloc,
        schedule.steps.as_slice(),
        answered.replies.as_slice(),
    );
    if let Some((at, lines)) = judge.judge_steps(text)? {
        let mut state = String::new(alloc);
        put_state(&mut state, &answered.machine)?;
        judge.judge_state(at, lines, state.as_bytes())?;
    }
    judge.outcome()
}
