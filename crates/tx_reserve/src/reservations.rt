//! Who owns which object.
ghost use Rattle.std.specs.Prelude.{◌≡◌, ◌<◌, None, Some, false, if◌then◌else◌, is_some, option_map, length, IfOk};
ghost use Rattle.tx_model.specs.State.{Object as TheObject, same_object};
ghost use Rattle.tx_reserve.specs.Objects.{IsInWord, is_in, is_small, object_at, object_of};
ghost use Rattle.tx_reserve.specs.Reservations.{IsLeast, IsLeastWith, lesser_of, number_of, owner_of, unless};

use crate::objects::{BITS, Object, Objects, WORDS};
use std::alloc::Global;
use std::marker::Model;
use tx_base::{NoMemory, Pid};

/// How many objects there may be: processes 1 to 256, descriptions 0 to 63, pipes 0 to 31.
const PLACES: usize = 352;

/// For each object the starter of the transaction that reserved it, if one did. Contracts see a
/// list of owners, by the places of objects.
#[derive(Drop)]
pub struct Reservations {
    places: Vec<Option<Pid>>,
}

impl Model for Reservations {
    ghost use Rattle.std.specs.Prelude.{◌≡◌, List, Option, length};
    ghost use Rattle.tx_base.specs.declared.names.Pid.{Pid as ThePid};

    ghost Value = { List (Option ThePid) };

    ghost view = { λ table. table.places.items };

    ghost invariant = { λ table. length table.places.items ≡ 352 };
}

impl Reservations {
    /// Nobody owns anything. All owners get their room here.
    ///
    /// NoMemory where a growth is refused.
    pub fn new(alloc: Global) -> Result<Reservations, NoMemory>
        ensures { IfOk result (λ table. (o : TheObject) → owner_of table o ≡ None) }
    {
        let mut places = Vec::with_capacity(alloc, PLACES)?;
        for _place in 0..PLACES {
            places.push(None)?;
        }
        Ok(Reservations { places })
    }

    /// There is a place for each of the 352 objects.
    pub fn sized(&self)
        ensures { length self.now ≡ 352 }
    {
        let _places = &self.places;
    }

    /// The starter of the transaction that reserved the object, if one did.
    pub fn owner(&self, object: Object) -> Option<Pid>
        ensures { option_map number_of result ≡ owner_of self.now (object_of object) }
    {
        let place = object.place()?;
        self.places[place]
    }

    /// Gives the object this owner; an object of a number out of range stays nobody's.
    fn set_owner(&mut self, object: Object, owner: Option<Pid>)
        ensures { (o : TheObject) →
            owner_of self.new o ≡ (if same_object o (object_of object)
            then (if is_small o then option_map number_of owner else None)
            else owner_of self.old o) }
    {
        if let Some(place) = object.place() {
            self.places[place] = owner;
        }
    }

    /// The least other starter that owns one of the objects: the one that a busy step names. None
    /// if nobody else owns one.
    #[inline(always)] // it has few callers, and a call costs each step that asks 20
    pub fn conflict(&self, objects: &Objects, own: Option<Pid>) -> Option<Pid>
        ensures { IsLeast (is_in objects.now)
            (λ o. unless (option_map number_of own) (owner_of self.now o))
            (option_map number_of result) }
    {
        let mut least = None;
        for word in 0..WORDS {
            least = self.conflict_in_word(word, objects.word(word), own, least);
        }
        least
    }

    /// The least of a starter found so far and of the other ones that own objects of this word,
    /// whose bits are `rest`.
    #[inline(always)] // most words are 0, and a call for each would cost more
    fn conflict_in_word(
        &self,
        word: usize,
        mut rest: u32,
        own: Option<Pid>,
        mut least: Option<Pid>,
    ) -> Option<Pid>
        requires { word < 11 }
        ensures { IsLeastWith (IsInWord word rest)
            (λ place. unless (option_map number_of own) (owner_of self.now (object_at place)))
            (option_map number_of least) (option_map number_of result) }
    {
        while rest != 0 {
            let bit = rest.trailing_zeros() as usize;
            rest &= !(1 << bit);
            if let Some(owner) = self.other_owner_at(BITS * word + bit, own) {
                least = lesser(Some(owner), least);
            }
        }
        least
    }

    /// The object's owner, unless it is this one: the one that a busy step names if it names only
    /// this object.
    pub fn other_owner(&self, object: Object, own: Option<Pid>) -> Option<Pid>
        ensures { option_map number_of result
            ≡ unless (option_map number_of own) (owner_of self.now (object_of object)) }
    {
        self.other_owner_at(object.place()?, own)
    }

    /// The owner of the object of a place, unless it is this one.
    fn other_owner_at(&self, place: usize, own: Option<Pid>) -> Option<Pid>
        requires { place < 352 }
        ensures { option_map number_of result
            ≡ unless (option_map number_of own) (owner_of self.now (object_at place)) }
    {
        let owner = self.places[place]?;
        if own == Some(owner) {
            None
        } else {
            Some(owner)
        }
    }

    /// Makes the objects the starter's, and answers which of them nobody owned before.
    pub fn take(&mut self, starter: Pid, objects: &Objects) -> Objects
        ensures taken { (o : TheObject) →
            owner_of self.new o ≡ (if is_in objects.now o then Some starter.0
            else owner_of self.old o) }
        ensures fresh { (o : TheObject) →
            is_in result o ≡ (if is_some (owner_of self.old o) then false
            else is_in objects.now o) }
    {
        let mut fresh = Objects::new();
        let mut rest = *objects;
        while let Some(object) = rest.pop() {
            if self.owner(object).is_none() {
                fresh.insert(object);
            }
            self.set_owner(object, Some(starter));
        }
        fresh
    }

    /// Makes the objects nobody's.
    pub fn release(&mut self, objects: &Objects)
        ensures { (o : TheObject) →
            owner_of self.new o ≡ (if is_in objects.now o then None else owner_of self.old o) }
    {
        let mut rest = *objects;
        while let Some(object) = rest.pop() {
            self.set_owner(object, None);
        }
    }
}

/// The lesser of two numbers, either of which may be missing.
fn lesser(a: Option<Pid>, b: Option<Pid>) -> Option<Pid>
    ensures { option_map number_of result
        ≡ lesser_of (option_map number_of a) (option_map number_of b) }
{
    match (a, b) {
        (None, b) => b,
        (Some(a), Some(b)) if b.0 < a.0 => Some(b),
        (a, _) => a,
    }
}
