//! The rule of the ready queue, and what each pass of it knows.
ghost use Rattle.std.specs.Prelude.{◌≡◌};

use crossbeam_queue::RuledArrayQueue;
use crossbeam_queue::protocol::{Join, Lesson, Outcome, Protocol, Split};
use std::collections::LinkedList;

/// What a station has put and taken, and its parts of the right to know the whole. No value of it
/// is made: only clauses use it.
pub struct Hand {
    /// Its parts, of 65,536 in all. A hand with all of them has put and taken what was put and taken.
    pub parts: u64,
    /// The numbers that it put into the queue, the newest last.
    pub put: LinkedList<u16>,
    /// The numbers that it took from the queue, the newest last.
    pub taken: LinkedList<u16>,
}

/// What was put is what was taken and what is left.
pub struct Even;

impl Protocol<u16, Hand> for Even {
    ghost use Rattle.std.specs.Prelude.{[]};
    ghost use Rattle.tx_ready_queue.specs.Hands.{hand, Balanced};

    ghost holds = { Balanced };

    ghost first = { hand 65536 [] [] };
}

/// One part is split off for another hand, and comes back with what that one put and took.
pub struct Cut;

impl Split<Hand> for Cut {
    ghost use Rattle.tx_ready_queue.specs.Hands.{keeps, begins};

    ghost left = { keeps };

    ghost right = { λ _. begins };
}

impl Join<Hand> for Cut {
    ghost use Rattle.std.specs.Prelude.{[]};
    ghost use Rattle.tx_ready_queue.specs.Hands.{hand, both};

    ghost both = { both };

    ghost spent = { hand 0 [] [] };
}

/// A number is put.
pub struct Puts;

impl Outcome<u16, Hand> for Puts {
    ghost use Rattle.tx_ready_queue.specs.Hands.{puts};

    ghost then = { λ before number after. after ≡ puts before number };
}

/// A number is taken, or none is there.
pub struct Takes;

impl Outcome<u16, Hand> for Takes {
    ghost use Rattle.tx_ready_queue.specs.Hands.{Taken};

    ghost then = { Taken };
}

impl Lesson<u16, Hand> for Takes {
    ghost use Rattle.tx_ready_queue.specs.Hands.{IsWhole};

    ghost fact = { IsWhole };
}

/// The queue under its rule.
pub type Ring = RuledArrayQueue<u16, Hand, Even>;
