//! How many descriptions each side of each pipe has.
ghost use Rattle.std.specs.Prelude.{◌≡◌, ◌+◌, ◌-◌, ◌<◌, None, nat_lt, replicate};
ghost use Rattle.tx_desc.specs.Descriptions.{is_end_of};
ghost use Rattle.tx_desc.specs.EndCounts.{HasOne, Recounts, count_at, end_number, one_of};

use crate::opened::{Opened, Side};
use std::marker::Model;
use tx_base::PipeNo;

/// How many counts there are: of the two sides of each of 256 pipes.
const ENDS: usize = 512;

/// How many descriptions each side of each pipe has: 0 to 64. Contracts see the list of the counts,
/// for each pipe that of its reading side first.
#[derive(Drop)]
pub(crate) struct EndCounts {
    counts: [u8; ENDS],
}

impl Model for EndCounts {
    ghost use Rattle.std.specs.Prelude.{◌≡◌, List, ℕ, length};

    ghost Value = { List ℕ };

    ghost view = { λ ends. ends.counts };

    ghost invariant = { λ ends. length ends.counts ≡ 512 };
}

impl EndCounts {
    /// The counts where no description is there.
    pub(crate) fn new() -> EndCounts
        ensures { result ≡ replicate 512 0 }
    {
        EndCounts { counts: [0; ENDS] }
    }

    /// Whether a description of this side of the pipe is there.
    pub(crate) fn has(&self, pipe: PipeNo, side: Side) -> bool
        ensures { result ≡ nat_lt 0 (count_at side pipe.0 self.now) }
    {
        self.counts[end_number(pipe, side)] > 0
    }

    /// Whether a description of this side of the pipe is there once what the one place has, if
    /// anything, is replaced by what the other has.
    pub(crate) fn has_instead(
        &self,
        old: Option<Opened>,
        new: Option<Opened>,
        pipe: PipeNo,
        side: Side,
    ) -> bool
        ensures { result ≡ nat_lt 0
            (count_at side pipe.0 self.now + one_of side pipe.0 new - one_of side pipe.0 old) }
    {
        let count = self.counts[end_number(pipe, side)] as usize;
        let lost = is_end(old, pipe, side) as usize;
        let gained = is_end(new, pipe, side) as usize;
        count + gained > lost
    }

    /// An equal value.
    pub(crate) fn copy(&self) -> EndCounts
        ensures { result ≡ self.now }
    {
        EndCounts {
            counts: self.counts,
        }
    }

    /// What the one place has, if anything, is replaced by what the other has.
    pub(crate) fn recount(&mut self, old: Option<Opened>, new: Option<Opened>)
        requires { HasOne old self.old }
        ensures { Recounts old new self.old self.new }
    {
        self.lower(old);
        self.raise(new);
    }

    /// Counts the description of a place, if it has one, no longer.
    fn lower(&mut self, place: Option<Opened>)
        requires { HasOne place self.old }
        ensures { Recounts place None self.old self.new }
    {
        if let Some(opened) = place {
            self.counts[end_number(opened.desc.pipe, opened.desc.side)] -= 1;
        }
    }

    /// Counts the description of a place, if it has one.
    fn raise(&mut self, place: Option<Opened>)
        requires { HasOne None self.old }
        ensures { Recounts None place self.old self.new }
    {
        if let Some(opened) = place {
            self.counts[end_number(opened.desc.pipe, opened.desc.side)] += 1;
        }
    }
}

/// Whether a place has a description of this side of the pipe.
fn is_end(place: Option<Opened>, pipe: PipeNo, side: Side) -> bool
    ensures { result ≡ is_end_of side pipe.0 place }
{
    match place {
        Some(opened) => end_number(opened.desc.pipe, opened.desc.side) == end_number(pipe, side),
        None => false,
    }
}

/// The place of a count.
fn end_number(pipe: PipeNo, side: Side) -> usize
    ensures number { result ≡ end_number side pipe.0 }
    ensures counted { result < 512 }
{
    let first = pipe.0 as usize * 2;
    match side {
        Side::Read => first,
        Side::Write => first + 1,
    }
}
