//! The instructions of a program, and the names of its labels.
ghost use Rattle.std.specs.Prelude.{◌≡◌, ◌≤◌, length};
ghost use Rattle.std.specs.Option.{option_copied};
ghost use Rattle.tx_lines.specs.Programs as spec;
ghost use Rattle.tx_lines.specs.Programs.{label_in};

use arrayvec::ArrayVec;
use std::alloc::AllocError;
use tx_base::Call;

/// The name of a label: 1 to 16 of `a` to `z`, `0` to `9` and `_`, a letter first.
#[derive(PartialEq, Eq, Hash, Drop)]
pub struct Name {
    pub bytes: ArrayVec<u8, 16>,
}

/// What an argument of a call is.
#[derive(Clone, Copy)]
pub enum Kind {
    /// A number that a program may take from a slot.
    Number,
    /// A point, which a program names by a label.
    Point,
    /// Another word.
    Word,
}

/// How an argument of an instruction is spelled.
#[derive(Drop)]
pub enum Spelling {
    /// As the argument itself.
    Plain,
    /// As `$0` to `$7`: the argument is what that slot of the process holds as the call is made.
    Slot(u8),
    /// As `@` and the name of a label: the argument is the number of the instruction after it.
    Label(Name),
}

/// A call, and how each of its arguments is spelled. An argument that is not yet known is 0.
#[derive(Drop)]
pub struct Instruction {
    pub call: Call,
    pub spellings: ArrayVec<Spelling, 4>,
}

/// A line of a program after the first.
#[derive(Drop)]
pub enum Line {
    /// A name for the number of the next instruction.
    Label(Name),
    Instruction(Instruction),
}

impl Name {
    /// An equal name. It takes no memory.
    pub fn copy(&self) -> Name
        ensures { result ≡ self.now }
    {
        let mut bytes = ArrayVec::new();
        let _fits = bytes.try_extend_from_slice(self.bytes.as_slice());
        Name { bytes }
    }
}

impl Clone for Name {
    ghost is_clone = { λ name copy. copy ≡ name };

    ghost is_infallible = { λ _. Unit {0} };

    fn clone(&self) -> Result<Name, AllocError> {
        Ok(self.copy())
    }
}

impl Spelling {
    /// An equal spelling. It takes no memory.
    pub fn copy(&self) -> Spelling
        ensures { result ≡ self.now }
    {
        match self {
            Spelling::Plain => Spelling::Plain,
            Spelling::Slot(slot) => Spelling::Slot(*slot),
            Spelling::Label(name) => Spelling::Label(name.copy()),
        }
    }
}

impl Instruction {
    /// An equal instruction. It takes no memory.
    pub fn copy(&self) -> Instruction
        ensures { result ≡ self.now }
    {
        Instruction {
            call: self.call.copy(),
            spellings: copy_spellings(self.spellings.as_slice()),
        }
    }

    /// The name of the label that names the point, where the call has one.
    pub fn label(&self) -> Option<&Name>
        ensures { option_copied result ≡ label_in self.now.spellings.items }
    {
        label_in(self.spellings.as_slice())
    }
}

/// The name of the first label among some spellings.
fn label_in(spellings: &[Spelling]) -> Option<&Name>
    ensures { option_copied result ≡ spec.label_in spellings.now }
{
    for spelling in spellings {
        if let Spelling::Label(name) = spelling {
            return Some(name);
        }
    }
    None
}

/// An equal list of spellings.
fn copy_spellings(spellings: &[Spelling]) -> ArrayVec<Spelling, 4>
    requires { length spellings.now ≤ 4 }
    ensures { result.items ≡ spellings.now }
{
    let mut copy = ArrayVec::new();
    for spelling in spellings {
        copy.push(spelling.copy());
    }
    copy
}

impl Default for Spelling {
    fn default() -> Self {
        Spelling::Plain
    }
}
