//! Sets of objects.
ghost use Rattle.std.specs.Prelude.{◌≡◌, ◌<◌, ◌≤◌, ◌*◌, ◌↔◌, ◌||◌, ◌&&◌, ◌==◌, ℕ, true, false, not, if◌then◌else◌, slice_index, sum, IsTrue, IfNone, IfSome};
ghost use Rattle.tx_model.specs.State.{Object as TheObject, Proc, same_object};
ghost use Rattle.tx_reserve.specs.Objects.{TakesOut, has_place, is_in, is_small, object_of, place_of};

use tx_base::{DescNo, Pid, PipeNo};

/// How many bits a word has.
pub(crate) const BITS: usize = 32;

/// How many words there are: 8 of processes, 2 of descriptions, 1 of pipes.
pub(crate) const WORDS: usize = 11;

/// How many words processes have.
const PROC_WORDS: usize = 8;

/// What steps name and transactions reserve.
#[derive(Clone, Copy)]
pub enum Object {
    Proc(Pid),
    Desc(DescNo),
    Pipe(PipeNo),
}

impl Object {
    /// The place of the object's bit: 0 to 351. None if no object has such a number.
    pub(crate) fn place(self) -> Option<usize>
        ensures none { IfNone result (is_small (object_of self) ≡ false) }
        ensures small { IfSome result (λ place. is_small (object_of self) ≡ true) }
        ensures place { IfSome result (λ place. place ≡ place_of (object_of self)) }
        ensures within { IfSome result (λ place. place < 352) }
    {
        match self {
            Object::Proc(Pid(number @ 1..=256)) => Some(number as usize - 1),
            Object::Desc(DescNo(number @ 0..=63)) => Some(256 + number as usize),
            Object::Pipe(PipeNo(number @ 0..=31)) => Some(320 + number as usize),
            _ => None,
        }
    }

    /// The object of a place, which must be below 352.
    fn at(place: usize) -> Object
        requires { place < 352 }
        ensures small { is_small (object_of result) ≡ true }
        ensures place { place_of (object_of result) ≡ place }
    {
        match place {
            0..=255 => Object::Proc(Pid(place as u16 + 1)),
            256..=319 => Object::Desc(DescNo((place - 256) as u8)),
            _ => Object::Pipe(PipeNo((place - 320) as u8)),
        }
    }
}

/// A set of processes 1 to 256, descriptions 0 to 63 and pipes 0 to 31.
#[derive(Clone, Copy)]
pub struct Objects {
    words: [u32; WORDS],
}

impl Objects {
    /// The empty set.
    pub fn new() -> Objects
        ensures { (o : TheObject) → is_in result o ≡ false }
    {
        Objects { words: [0; WORDS] }
    }

    /// Puts an object into the set. A number that none may have changes nothing.
    pub fn insert(&mut self, object: Object)
        ensures { (o : TheObject) →
            is_in self.new o ≡ (if same_object o (object_of object) then is_small o
            else is_in self.old o) }
    {
        if let Some(place) = object.place() {
            self.put_place(place);
        }
    }

    /// Whether the object is in the set; one of a number out of range never is.
    pub fn has(&self, object: Object) -> bool
        ensures { result ≡ is_in self.now (object_of object) }
    {
        match object.place() {
            Some(place) => self.has_place(place),
            None => false,
        }
    }

    /// Whether nothing is in the set.
    pub fn is_empty(&self) -> bool
        ensures { IsTrue result ↔ ((o : TheObject) → is_in self.now o ≡ false) }
    {
        let mut all = 0;
        for i in 0..WORDS {
            all |= self.words[i];
        }
        all == 0
    }

    /// What is in this set, in the other, or in both.
    pub fn join(&self, other: &Objects) -> Objects
        ensures { (o : TheObject) → is_in result o ≡ (is_in self.now o || is_in other.now o) }
    {
        let mut words = self.words;
        for i in 0..WORDS {
            words[i] |= other.words[i];
        }
        Objects { words }
    }

    /// What is in this set, and not in the other.
    pub fn less(&self, other: &Objects) -> Objects
        ensures { (o : TheObject) → is_in result o ≡ (is_in self.now o && not (is_in other.now o)) }
    {
        let mut words = self.words;
        for i in 0..WORDS {
            words[i] &= !other.words[i];
        }
        Objects { words }
    }

    /// Takes an object out of the set, and answers it; none if the set is empty.
    pub fn pop(&mut self) -> Option<Object>
        ensures none { IfNone result ((o : TheObject) → is_in self.old o ≡ false) }
        ensures same { IfNone result (self.new ≡ self.old) }
        ensures some { IfSome result (λ object. TakesOut self.old self.new (object_of object)) }
    {
        let place = self.take_place(WORDS)?;
        Some(Object::at(place))
    }

    /// Takes a process out of the set, and answers its number; none if no process is in it.
    pub fn pop_proc(&mut self) -> Option<Pid>
        ensures none { IfNone result ((n : ℕ) → is_in self.old (Proc n) ≡ false) }
        ensures same { IfNone result (self.new ≡ self.old) }
        ensures some { IfSome result (λ pid. TakesOut self.old self.new (Proc pid.0)) }
    {
        let place = self.take_place(PROC_WORDS)?;
        Some(Pid(place as u16 + 1))
    }

    /// The bits of a word.
    pub(crate) fn word(&self, word: usize) -> u32
        requires { word < 11 }
        ensures { result ≡ slice_index self.now.words word }
    {
        self.words[word]
    }

    /// The first place whose bit is set of the first `count` words.
    fn first_place(&self, count: usize) -> Option<usize>
        requires { count ≤ 11 }
        ensures none { IfNone result
            ((q : ℕ) → q < 32 * count → has_place self.now.words q ≡ false) }
        ensures within { IfSome result (λ place. place < 32 * count) }
        ensures set { IfSome result (λ place. has_place self.now.words place ≡ true) }
    {
        for i in 0..count {
            let word = self.words[i];
            if word != 0 {
                return Some(BITS * i + word.trailing_zeros() as usize);
            }
        }
        None
    }

    /// Clears the first bit that is set of the first `count` words, and answers its place.
    fn take_place(&mut self, count: usize) -> Option<usize>
        requires { count ≤ 11 }
        ensures none { IfNone result
            ((q : ℕ) → q < 32 * count → has_place self.old.words q ≡ false) }
        ensures same { IfNone result (self.new ≡ self.old) }
        ensures within { IfSome result (λ place. place < 32 * count) }
        ensures set { IfSome result (λ place. has_place self.old.words place ≡ true) }
        ensures cleared { IfSome result (λ place.
            (q : ℕ) → has_place self.new.words q
            ≡ (if q == place then false else has_place self.old.words q)) }
        ensures falls { IfSome result (λ place. sum self.new.words < sum self.old.words) }
    {
        let place = self.first_place(count)?;
        self.words[place / BITS] &= !(1 << (place % BITS));
        Some(place)
    }

    /// Sets the bit of a place.
    fn put_place(&mut self, place: usize)
        requires { place < 352 }
        ensures { (q : ℕ) → has_place self.new.words q
            ≡ (if q == place then true else has_place self.old.words q) }
    {
        self.words[place / BITS] |= 1 << (place % BITS);
    }

    /// Whether the bit of a place is set.
    fn has_place(&self, place: usize) -> bool
        requires { place < 352 }
        ensures { result ≡ has_place self.now.words place }
    {
        (self.words[place / BITS] >> (place % BITS)) & 1 == 1
    }
}
