//! The descriptors of a process.
ghost use Rattle.std.specs.Prelude.{◌≡◌, ◌<◌, ℕ, [], ◌∷◌, None, is_none, is_some, length, map, position, replicate, slice_index_or, slice_set};
ghost use Rattle.tx_model.specs.Descriptors.{description_named, descriptor, first_free};
ghost use Rattle.tx_model.specs.State.{Process};
ghost use Rattle.std.specs.Bool.{OnFalse};
ghost use Rattle.std.specs.List.{list_any};
ghost use Rattle.tx_desc.specs.Counts.{count_in};
ghost use Rattle.tx_desc.specs.Places.{Finds, number_in, looked_up, two_free};
ghost use Rattle.tx_desc.specs.Plans.{put_names};

use crate::numbers::descriptor_at;
use crate::plans::NewName;
use std::marker::Model;
use std::mem;
use tx_base::{DESCRIPTORS, DescNo, Errno};

/// The descriptors of a process, numbers 0 to 15, and the description that each one names (POSIX.1-2017,
/// XBD, File Descriptor). Contracts see the number of that description, or nothing where the
/// descriptor is free.
#[derive(Drop)]
pub struct FdTable {
    places: [Option<DescNo>; DESCRIPTORS],
}

impl Model for FdTable {
    ghost use Rattle.std.specs.Prelude.{◌≡◌, length, map};
    ghost use Rattle.tx_desc.specs.Places.{Descriptors, number_in};

    ghost Value = { Descriptors };

    ghost view = { λ table. map number_in table.places };

    ghost invariant = { λ table. length table.places ≡ 16 };
}

impl FdTable {
    /// All descriptors are free.
    pub fn new() -> FdTable
        ensures { result ≡ replicate 16 None }
    {
        FdTable {
            places: [None; DESCRIPTORS],
        }
    }

    /// A process has 16 descriptors.
    pub fn sized(&self)
        ensures { length self.now ≡ 16 }
    {
        let _places = &self.places;
    }

    /// The description that a descriptor names; nothing where it is free, or no descriptor has this
    /// number.
    pub fn get(&self, fd: usize) -> Option<DescNo>
        ensures { number_in result ≡ slice_index_or self.now fd None }
    {
        match self.places.get(fd) {
            Some(place) => *place,
            None => None,
        }
    }

    /// The description that a descriptor names, of a number that a program computed (POSIX.1-2017,
    /// XSH, 2.5 and each call that takes a descriptor).
    ///
    /// BadDescriptor where the number is not 0 to 15, or that descriptor is free.
    pub fn look(&self, fd: i64) -> Result<DescNo, Errno>
        ensures { (me : Process) → me.descriptors ≡ self.now →
            result ≡ looked_up (description_named me (descriptor fd)) }
    {
        let (_, d) = self.find(fd)?;
        Ok(d)
    }

    /// The descriptor of a number that a program computed, and the description that it names.
    ///
    /// BadDescriptor as at `look`.
    pub(crate) fn find(&self, fd: i64) -> Result<(usize, DescNo), Errno>
        ensures { Finds self.now (descriptor fd) result }
    {
        let Some(place) = descriptor_at(fd) else {
            return Err(Errno::BadDescriptor);
        };
        match self.get(place) {
            Some(d) => Ok((place, d)),
            None => Err(Errno::BadDescriptor),
        }
    }

    /// The lowest free descriptor (POSIX.1-2017, XSH, 2.14, File Descriptor Allocation); nothing where
    /// all 16 are open.
    pub fn lowest_free(&self) -> Option<usize>
        ensures { result ≡ first_free 0 self.now }
    {
        first_vacant(&self.places)
    }

    /// The two lowest free descriptors, the lower one first; nothing where fewer are free.
    pub fn two_lowest_free(&self) -> Option<(usize, usize)>
        ensures { (d : ℕ) → result ≡ two_free d self.now }
    {
        self.sized();
        let first = self.lowest_free()?;
        let mut taken = self.copy();
        taken.swap(first, &mut Some(DescNo(0)));
        let second = taken.lowest_free()?;
        Some((first, second))
    }

    /// Whether a descriptor is open.
    pub(crate) fn has_open(&self) -> bool
        ensures { OnFalse result ((d : ℕ) → count_in d self.now ≡ 0) }
    {
        has_some(&self.places)
    }

    /// Exchanges what a descriptor names: 0 to 15. A second exchange takes the first one back. It
    /// counts no names. Own rule.
    pub fn swap(&mut self, fd: usize, name: &mut Option<DescNo>)
        requires { fd < 16 }
        ensures exchanged { self.new ≡ slice_set self.old fd (number_in name.old) }
        ensures given { number_in name.new ≡ slice_index_or self.old fd None }
    {
        mem::swap(&mut self.places[fd], name);
    }

    /// Puts a planned name in place.
    pub(crate) fn put(&mut self, new: NewName)
        requires { new.fd < 16 }
        ensures { self.new ≡ put_names (new ∷ []) self.old }
    {
        let mut name = new.name;
        self.swap(new.fd, &mut name);
    }

    /// Equal descriptors, as a child has them (POSIX.1-2017, XSH, fork()). It counts no names.
    pub fn copy(&self) -> FdTable
        ensures { result ≡ self.now }
    {
        FdTable {
            places: self.places,
        }
    }
}

/// The first place that has nothing.
fn first_vacant(places: &[Option<DescNo>; DESCRIPTORS]) -> Option<usize>
    ensures { result ≡ position (λ x. is_none x) places.now }
{
    places.iter().position(|place| place.is_none())
}

/// Whether a place has something.
fn has_some(places: &[Option<DescNo>; DESCRIPTORS]) -> bool
    ensures { result ≡ list_any (λ x. is_some x) places.now }
{
    places.iter().any(|place| place.is_some())
}
