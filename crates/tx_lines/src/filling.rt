//! Puts what slots hold into the instructions of a program.
ghost use Rattle.std.specs.Prelude.{◌≡◌};
ghost use Rattle.tx_lines.specs.Calls.{arguments_of};
ghost use Rattle.tx_lines.specs.Filled.{filled, filled_arguments, number_at};

use crate::instructions::{Instruction, Spelling};
use tx_base::Call;

/// What the numbers of a call are taken from.
#[derive(Clone, Copy)]
pub struct Numbers<'a> {
    slots: &'a [i64; 8],
    spellings: &'a [Spelling],
}

impl Instruction {
    /// The call that the instruction makes in a process whose slots hold these numbers. It takes
    /// no memory. The numbers of a new child, and of a new pipe and its descriptions, stay as they
    /// are.
    pub fn filled(&self, slots: &[i64; 8]) -> Call
        ensures call { result ≡ filled slots.now self.now }
        ensures arguments { arguments_of result ≡ filled_arguments slots.now self.now }
    {
        let numbers = Numbers {
            slots,
            spellings: self.spellings.as_slice(),
        };
        numbers.put_in(self.call.copy())
    }
}

impl Numbers<'_> {
    /// The argument at a place, from 0: what its slot holds, or else its number in the call.
    pub fn at(self, place: usize, number: i64) -> i64
        ensures { result ≡ number_at self.entry.slots.now self.entry.spellings.now place number }
    {
        let Numbers { slots, spellings } = self;
        match spellings.get(place) {
            Some(Spelling::Slot(slot)) => match slots.get(usize::from(*slot)) {
                Some(held) => *held,
                None => number,
            },
            _ => number,
        }
    }
}
