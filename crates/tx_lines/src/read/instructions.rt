//! Reads the instructions of a program.
ghost use Rattle.std.specs.Prelude.{◌≡◌, ◌<◌, ◌≤◌, IfSome, IsTrue, Some, length, slice_get, true};
ghost use Rattle.std.specs.Bool.{then_some};
ghost use Rattle.tx_base.specs.declared.steps.Call.{Call};
ghost use Rattle.tx_lines.specs.Arguments.{Argument};
ghost use Rattle.tx_lines.specs.Calls.{program_arguments, FitsCall};
ghost use Rattle.tx_lines.specs.Instructions as spec;
ghost use Rattle.tx_lines.specs.Instructions.{instruction_text, plain_text, ChoosesLater, IsInstruction, MayAllBe};
ghost use Rattle.tx_lines.specs.Lines.{IsCallOf};
ghost use Rattle.tx_lines.specs.declared.instructions.Instruction.{Instruction};

use crate::instructions::{Instruction, Kind, Spelling};
use crate::read::calls::place::put;
use crate::read::calls::read_call;
use crate::read::header::Version;
use crate::read::spellings::put_plain;
use arrayvec::ArrayVec;
use tx_base::{Call, DescNo, Pid, PipeNo};

/// The instruction that a line of a program of that version spells. Nothing where it is another
/// line.
pub fn read_instruction(version: Version, line: &[u8]) -> Option<Instruction>
    requires { length line.now ≤ 512 }
    ensures found { IfSome result (λ i. line.now ≡ instruction_text i) }
    ensures good { IfSome result (IsInstruction version) }
    ensures only { (i : Instruction) → IsInstruction version i → line.now ≡ instruction_text i →
        result ≡ Some i }
{
    let mut plain = ArrayVec::new();
    let mut spellings = ArrayVec::new();
    if !put_plain(line, &mut plain, &mut spellings) {
        return None;
    }
    let mut call = Call::Getpid;
    if !read_plain(version, plain.as_slice(), &mut call) {
        return None;
    }
    if !may_all_be(spellings.as_slice(), &call) {
        return None;
    }
    Some(Instruction { call, spellings })
}

/// Reads the call of these words, with 0 for what is not yet known. Returns whether there is one.
fn read_plain(version: Version, text: &[u8], call: &mut Call) -> bool
    ensures found { IfSome (then_some result call.new) (λ c. text.now ≡ plain_text c) }
    ensures fits { IfSome (then_some result call.new) FitsCall }
    ensures within { IfSome (then_some result call.new) (IsCallOf version) }
    ensures later { IfSome (then_some result call.new) ChoosesLater }
    ensures only { (c : Call) → FitsCall c → IsCallOf version c → ChoosesLater c →
        text.now ≡ plain_text c → then_some result call.new ≡ Some c }
{
    if text == b"fork".as_slice() {
        return put(call, Some(Call::Fork(Pid(0))));
    }
    if text == b"pipe".as_slice() {
        return put(call, Some(Call::Pipe(PipeNo(0), DescNo(0), DescNo(0))));
    }
    read_call(version, text, call) && !chooses_numbers(call)
}

/// Whether a call chooses numbers that are free as it is made.
fn chooses_numbers(call: &Call) -> bool
    ensures { result ≡ spec.chooses_numbers call.now }
{
    match call {
        Call::Fork(_) => true,
        Call::Pipe(_, _, _) => true,
        _ => false,
    }
}

/// Whether the arguments of a call may be spelled so, one by one.
fn may_all_be(spellings: &[Spelling], call: &Call) -> bool
    ensures sound { IsTrue result → MayAllBe spellings.now (program_arguments call.now) }
    ensures complete { length spellings.now ≤ length (program_arguments call.now) →
        MayAllBe spellings.now (program_arguments call.now) → IsTrue result }
{
    for place in 0..spellings.len() {
        if !may_be(&spellings[place], kind_of(call, place)) {
            return false;
        }
    }
    true
}

/// Whether an argument may be spelled so.
fn may_be(spelling: &Spelling, kind: Kind) -> bool
    ensures { result ≡ spec.may_be spelling.now kind }
{
    match spelling {
        Spelling::Plain => kind != Kind::Point,
        Spelling::Slot(_) => kind == Kind::Number,
        Spelling::Label(_) => kind == Kind::Point,
    }
}

/// What the argument at that place of a call is, where it has one there. Places count from 0.
fn kind_of(call: &Call, place: usize) -> Kind
    ensures { (argument : Argument) → slice_get (program_arguments call.now) place ≡ Some argument →
        result ≡ spec.kind_of argument }
{
    match call {
        Call::Jump(_, _) => kind_in_jump(place),
        Call::Sigaction(_, _) => kind_in_sigaction(place),
        Call::Sigprocmask(_, _) => Kind::Word,
        Call::SysXbeginDefer => Kind::Word,
        Call::Protect(_, _) => kind_of_first(place),
        Call::Store(_, _) => kind_of_first(place),
        Call::Waitpid(_, _) => kind_of_first(place),
        Call::SetNonblock(_, _) => kind_of_first(place),
        _ => Kind::Number,
    }
}

/// What the argument at that place is, where the first one is a number and the others are words.
fn kind_of_first(place: usize) -> Kind
    ensures { result ≡ spec.kind_of_first place }
{
    if place == 0 { Kind::Number } else { Kind::Word }
}

/// What the argument at that place of a jump is: its point, `if`, the answer that it asks for.
fn kind_in_jump(place: usize) -> Kind
    ensures { result ≡ spec.kind_in_jump place }
{
    match place {
        0 => Kind::Point,
        1 => Kind::Word,
        _ => Kind::Number,
    }
}

/// What the argument at that place of a sigaction is.
fn kind_in_sigaction(place: usize) -> Kind
    ensures { result ≡ spec.kind_in_sigaction place }
{
    match place {
        0 => Kind::Number,
        2 => Kind::Point,
        _ => Kind::Word,
    }
}
