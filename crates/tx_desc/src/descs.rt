//! The open descriptions, each with the count of its names.
ghost use Rattle.std.specs.Prelude.{◌≡◌, ◌<◌, [], ◌∷◌, None, length, replicate, slice_index_or, slice_set};
ghost use Rattle.tx_model.specs.Descriptors.{has_description};
ghost use Rattle.tx_model.specs.State.{State};
ghost use Rattle.tx_desc.specs.Descriptions.{HasDescs, has_side};
ghost use Rattle.tx_desc.specs.Plans.{AreNumbers, put_descs};

use crate::ends::EndCounts;
use crate::opened::{Opened, Side};
use crate::plans::NewDesc;
use std::marker::Model;
use std::mem;
use tx_base::{DESCRIPTIONS, DescNo, PipeNo};

/// The open descriptions of all processes: numbers 0 to 63. Those of each side of each pipe are
/// counted too, so that nobody has to look for one to know whether one is left. Contracts see what
/// each number has.
#[derive(Drop)]
pub struct Descs {
    places: [Option<Opened>; DESCRIPTIONS],
    ends: EndCounts,
}

impl Model for Descs {
    ghost use Rattle.std.specs.Prelude.{List, Option};
    ghost use Rattle.tx_desc.specs.EndCounts.{IsCounted};
    ghost use Rattle.tx_desc.specs.declared.opened.Opened.{Opened};

    ghost Value = { List (Option Opened) };

    ghost view = { λ descs. descs.places };

    ghost invariant = { λ descs. IsCounted descs.places descs.ends };
}

impl Descs {
    /// No description is there.
    pub fn new() -> Descs
        ensures { result ≡ replicate 64 None }
    {
        Descs {
            places: [None; DESCRIPTIONS],
            ends: EndCounts::new(),
        }
    }

    /// There are 64 numbers.
    pub fn sized(&self)
        ensures { length self.now ≡ 64 }
    {
        let _places = &self.places;
    }

    /// The description of a number, with the count of its names; nothing where there is none.
    pub fn get(&self, d: DescNo) -> Option<Opened>
        ensures { result ≡ slice_index_or self.now d.0 None }
    {
        match self.places.get(d.0 as usize) {
            Some(place) => *place,
            None => None,
        }
    }

    /// Whether a description of this side of the pipe is there: for the reading side, whether a
    /// reader is left.
    pub fn has_end(&self, pipe: PipeNo, side: Side) -> bool
        ensures { (S : State) → HasDescs S self.now → result ≡ has_side side pipe.0 S }
    {
        self.ends.has(pipe, side)
    }

    /// Whether a description of either side of the pipe is there.
    pub fn names_pipe(&self, pipe: PipeNo) -> bool
        ensures { (S : State) → HasDescs S self.now → result ≡ has_description pipe.0 S }
    {
        self.has_end(pipe, Side::Read) || self.has_end(pipe, Side::Write)
    }

    /// Whether a description of either side of the pipe is there once planned ones are in place.
    /// Each number must be 0 to 63.
    pub fn names_pipe_with(&self, news: &[NewDesc], pipe: PipeNo) -> bool
        requires { AreNumbers news.now }
        ensures { (S : State) → HasDescs S (put_descs news.now self.now) →
            result ≡ has_description pipe.0 S }
    {
        match news {
            // The table is large, and most often one description is planned.
            [new] => {
                self.has_end_with(*new, pipe, Side::Read)
                    || self.has_end_with(*new, pipe, Side::Write)
            }
            _ => self.with(news).names_pipe(pipe),
        }
    }

    /// Whether a description of this side of the pipe is there once a planned one is in place.
    fn has_end_with(&self, new: NewDesc, pipe: PipeNo, side: Side) -> bool
        requires { new.number.0 < 64 }
        ensures { (S : State) → HasDescs S (put_descs (new ∷ []) self.now) →
            result ≡ has_side side pipe.0 S }
    {
        let old = self.get(new.number);
        self.ends.has_instead(old, new.opened, pipe, side)
    }

    /// These with planned descriptions put in place. Each number must be 0 to 63.
    pub fn with(&self, news: &[NewDesc]) -> Descs
        requires { AreNumbers news.now }
        ensures { result ≡ put_descs news.now self.now }
    {
        let mut after = self.copy();
        after.put_all(news);
        after
    }

    /// An equal value.
    fn copy(&self) -> Descs
        ensures { result ≡ self.now }
    {
        Descs {
            places: self.places,
            ends: self.ends.copy(),
        }
    }

    /// Exchanges what a number has: 0 to 63. A second exchange takes the first one back. Own rule.
    pub fn swap(&mut self, d: DescNo, opened: &mut Option<Opened>)
        requires { d.0 < 64 }
        ensures exchanged { self.new ≡ slice_set self.old d.0 opened.old }
        ensures given { opened.new ≡ slice_index_or self.old d.0 None }
    {
        let place = &mut self.places[d.0 as usize];
        self.ends.recount(*place, *opened);
        mem::swap(place, opened);
    }

    /// Puts a planned description in place.
    pub(crate) fn put(&mut self, new: NewDesc)
        requires { new.number.0 < 64 }
        ensures { self.new ≡ put_descs (new ∷ []) self.old }
    {
        let mut opened = new.opened;
        self.swap(new.number, &mut opened);
    }

    /// Puts planned descriptions in place, the first one first.
    pub(crate) fn put_all(&mut self, news: &[NewDesc])
        requires { AreNumbers news.now }
        ensures { self.new ≡ put_descs news.now self.old }
    {
        for new in news {
            self.put(*new);
        }
    }
}
