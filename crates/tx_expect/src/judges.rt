//! Judges the lines of a text: whether the reply to each step is the expected one.
ghost use Rattle.std.specs.Prelude.{◌≡◌, ◌+◌, ◌-◌, ◌<◌, ◌≤◌, ◌^◌, ℕ, List, IfOk, IfSome, OnOk, length, option_map};
ghost use Rattle.tx_expect.specs.Lines.{after_line, judged, judged_stray, progress_of, step_report, step_verdict, stray, total};
ghost use Rattle.tx_expect.specs.Outcomes.{after_lines, after_stop, first_progress, is_at_state, judged_state, state_lines, IsOutcome};
ghost use Rattle.tx_expect.specs.States.{state_difference};
ghost use Rattle.tx_expect.specs.Comments.{expected_in};
ghost use Rattle.tx_translate.specs.OwnLines.{own_lines};

use crate::agreement::agrees;
use crate::comments::{begins_state, expected_in, is_header_or_step};
use crate::outcomes::Outcome;
use crate::sentences::{put_counts, put_difference, put_stray, put_too_soon};
use crate::states::put_state_difference;
use crate::tallies::{Tally, Verdict};
use std::alloc::{AllocError, Global};
use tx_base::{Reply, Step};
use tx_translate::split_line;

/// How far the lines of a text are judged, and with what outcome so far.
#[derive(Drop)]
pub struct Judge<'a> {
    report: String,
    /// Room for the spelling of a reply.
    spelled: String,
    tally: Tally,
    /// Whether the header was there.
    is_headed: bool,
    /// The steps to come.
    steps: &'a [Step],
    /// Their replies.
    replies: &'a [Reply],
}

impl<'a> Judge<'a> {
    /// Before the first line of a text that means a schedule of these steps, each with its reply.
    pub fn new(alloc: Global, steps: &'a [Step], replies: &'a [Reply]) -> Judge<'a>
        ensures { progress_of result ≡ first_progress steps.now replies.now }
    {
        Judge {
            report: String::new(alloc),
            spelled: String::new(alloc),
            tally: Tally::none(),
            is_headed: false,
            steps,
            replies,
        }
    }

    /// Judges the lines of a text up to the one after which those of the state are expected.
    /// Returns the number of that line and the text after it, where it is there.
    ///
    /// The only error is that a growth of memory was refused.
    pub fn judge_steps<'t>(&mut self, text: &'t [u8]) -> Result<Option<(u64, &'t [u8])>, AllocError>
        requires { total self.old.tally ≡ 0 }
        ensures judged { IfOk result (λ found. (state : List (List ℕ)) →
            after_stop state (progress_of self.new)
            (option_map (λ r. (r.0, own_lines r.1.now)) found)
            ≡ after_lines state 1 (progress_of self.old) (own_lines text.now)) }
        ensures few { OnOk result (total self.new.tally ≤ length text.now) }
        ensures inside { IfOk result (λ found.
            IfSome found (λ r. r.0 + length r.1.now ≤ length text.now)) }
    {
        let mut number = 1;
        let mut left = text;
        while let Some((line, rest)) = split_line(left) {
            if self.is_at_state(line) {
                return Ok(Some((number, rest)));
            }
            self.judge_line(number, line)?;
            number += 1;
            left = rest;
        }
        Ok(None)
    }

    /// Whether the lines of the state are expected after a line.
    fn is_at_state(&self, line: &[u8]) -> bool
        ensures { result ≡ is_at_state (progress_of self.now) line.now }
    {
        self.is_headed && self.steps.is_empty() && begins_state(line)
    }

    /// Judges the line of that number.
    fn judge_line(&mut self, number: u64, line: &[u8]) -> Result<(), AllocError>
        requires { total self.old.tally < 2 ^ 64 - 1 }
        ensures judged { OnOk result
            (progress_of self.new ≡ after_line number line.now (progress_of self.old)) }
        ensures few { OnOk result (total self.new.tally ≤ total self.old.tally + 1) }
    {
        if is_header_or_step(line) {
            if self.is_headed
                && let Some((step, steps)) = self.steps.split_first()
                && let Some((reply, replies)) = self.replies.split_first()
            {
                self.steps = steps;
                self.replies = replies;
                return self.judge_step(number, line, step, reply);
            }
            self.is_headed = true;
        }
        self.judge_stray(number, line)
    }

    /// Judges the line of a step, by its reply.
    fn judge_step(
        &mut self,
        number: u64,
        line: &[u8],
        step: &Step,
        reply: &Reply,
    ) -> Result<(), AllocError>
        requires { total self.old.tally < 2 ^ 64 - 1 }
        ensures judged { OnOk result (progress_of self.new ≡ judged (progress_of self.old)
            (step_verdict (expected_in line.now) reply.now)
            (step_report number step.now (expected_in line.now) reply.now)) }
        ensures few { OnOk result (total self.new.tally ≤ total self.old.tally + 1) }
    {
        let verdict = match expected_in(line) {
            None => Verdict::Silent,
            Some(expected) if agrees(&mut self.spelled, expected, reply)? => Verdict::Met,
            Some(expected) => {
                put_difference(&mut self.report, number, step, expected, reply)?;
                Verdict::Unmet
            }
        };
        self.tally = self.tally.with(verdict);
        Ok(())
    }

    /// Judges a line without a step: it must expect nothing.
    fn judge_stray(&mut self, number: u64, line: &[u8]) -> Result<(), AllocError>
        requires { total self.old.tally < 2 ^ 64 - 1 }
        ensures judged { OnOk result (progress_of self.new
            ≡ judged_stray (progress_of self.old) (stray number line.now)) }
        ensures few { OnOk result (total self.new.tally ≤ total self.old.tally + 1) }
    {
        match expected_in(line) {
            Some(expected) => put_stray(&mut self.report, number, expected)?,
            None if begins_state(line) => put_too_soon(&mut self.report, number)?,
            None => return Ok(()),
        }
        self.tally = self.tally.with(Verdict::Unmet);
        Ok(())
    }

    /// Judges the lines of a state by those of a text, after the line of that number.
    ///
    /// The only error is that a growth of memory was refused.
    pub fn judge_state(&mut self, at: u64, lines: &[u8], state: &[u8]) -> Result<(), AllocError>
        requires room { total self.old.tally < 2 ^ 64 - 1 }
        requires numbers { at + length lines.now < 2 ^ 64 - 1 }
        ensures { OnOk result (progress_of self.new ≡ judged_state (progress_of self.old)
            (state_difference at (own_lines lines.now) (at + 1) (state_lines state.now))) }
    {
        let verdict = put_state_difference(&mut self.report, at, lines, state)?;
        self.tally = self.tally.with(verdict);
        Ok(())
    }

    /// The outcome: what is reported, and the counts.
    ///
    /// The only error is that a growth of memory was refused.
    pub fn outcome(self) -> Result<Outcome, AllocError>
        ensures { IfOk result (IsOutcome (progress_of self.entry)) }
    {
        let Judge {
            mut report,
            tally,
            steps,
            ..
        } = self;
        put_counts(&mut report, tally)?;
        Ok(Outcome {
            report,
            is_met: steps.is_empty() && tally.is_met(),
        })
    }
}
