//! The table of calls: how the call of each name is read and printed, and where its numbers are.
//! Other arguments are read in `read/calls`, and printed in `print/arguments.rt`.
ghost use Rattle.std.specs.Prelude.{◌≡◌, ◌≤◌, ◌++◌, ◌∷◌, IfSome, None, OnOk, Some, map, string_bytes};
ghost use Rattle.std.specs.Fmt.{signed_decimal};
ghost use Rattle.std.specs.Bool.{then_some};
ghost use Rattle.tx_base.specs.declared.steps.Call.{Call};
ghost use Rattle.tx_lines.specs.Calls.{call_text, group_of, with_numbers, FitsCall};
ghost use Rattle.tx_lines.specs.Filled.{number_at};
ghost use Rattle.tx_lines.specs.Lines.{IsCallOf, ReadsNamed, SpellsCall};
ghost use Rattle.tx_lines.specs.Words.{first_word, joined};
ghost use Rattle.tx_lines.specs.declared.read.header.Version.{Version};

use crate::filling::Numbers;
use crate::print::arguments::{access, put_action, put_when, switch, waiting, way};
use crate::print::bytes::put_digits;
use crate::print::members::put_set;
use crate::print::words::{self, put_count_first};
use crate::read::calls::place::put;
use crate::read::calls::{descriptors, memory, processes, script, signals, transfers};
use crate::read::header::Version;
use crate::read::numbers::number;
use crate::read::small::read_pid;
use std::alloc::AllocError;
use std::fmt::Write;
use tx_base::{Call, When};

/// Reads the call on memory of that name with those arguments, or one of a later group. Returns
/// whether there is one.
pub fn memory_call(version: Version, name: &[u8], arguments: &[u8], call: &mut Call) -> bool
    ensures found { IfSome (then_some result call.new)
        (SpellsCall version (name.now ++ 32 ∷ arguments.now)) }
    ensures only { ReadsNamed version 1 (name.now, arguments.now) (then_some result call.new) }
{
    if name == b"map".as_slice() {
        return put(call, number(arguments).map(Call::Map));
    }
    if name == b"unmap".as_slice() {
        return put(call, number(arguments).map(Call::Unmap));
    }
    if name == b"protect".as_slice() {
        return memory::protect(arguments, call);
    }
    process_call(version, name, arguments, call)
}

/// Reads the call on processes of that name with those arguments, or one of a later group. Returns
/// whether there is one.
fn process_call(version: Version, name: &[u8], arguments: &[u8], call: &mut Call) -> bool
    ensures found { IfSome (then_some result call.new)
        (SpellsCall version (name.now ++ 32 ∷ arguments.now)) }
    ensures only { ReadsNamed version 2 (name.now, arguments.now) (then_some result call.new) }
{
    if name == b"fork".as_slice() {
        return put(call, read_pid(arguments).map(Call::Fork));
    }
    if name == b"exit".as_slice() {
        return put(call, number(arguments).map(Call::Exit));
    }
    if name == b"waitpid".as_slice() {
        return put(call, processes::waitpid(arguments));
    }
    id_call(version, name, arguments, call)
}

/// Reads the call on ids of that name with those arguments, or one of a later group. Returns
/// whether there is one.
fn id_call(version: Version, name: &[u8], arguments: &[u8], call: &mut Call) -> bool
    ensures found { IfSome (then_some result call.new)
        (SpellsCall version (name.now ++ 32 ∷ arguments.now)) }
    ensures only { ReadsNamed version 3 (name.now, arguments.now) (then_some result call.new) }
{
    match name {
        b"setuid" => put(call, number(arguments).map(Call::Setuid)),
        b"seteuid" => put(call, number(arguments).map(Call::Seteuid)),
        b"setgid" => put(call, number(arguments).map(Call::Setgid)),
        b"setegid" => put(call, number(arguments).map(Call::Setegid)),
        _ => descriptor_call(version, name, arguments, call),
    }
}

/// Reads the call on descriptors of that name with those arguments, or one of a later group.
/// Returns whether there is one.
fn descriptor_call(version: Version, name: &[u8], arguments: &[u8], call: &mut Call) -> bool
    ensures found { IfSome (then_some result call.new)
        (SpellsCall version (name.now ++ 32 ∷ arguments.now)) }
    ensures only { ReadsNamed version 4 (name.now, arguments.now) (then_some result call.new) }
{
    if name == b"pipe".as_slice() {
        return put(call, descriptors::pipe(arguments));
    }
    if name == b"dup".as_slice() {
        return put(call, number(arguments).map(Call::Dup));
    }
    if name == b"dup2".as_slice() {
        return put(call, descriptors::dup2(arguments));
    }
    if name == b"close".as_slice() {
        return put(call, number(arguments).map(Call::Close));
    }
    if name == b"set_nonblock".as_slice() {
        return put(call, descriptors::set_nonblock(arguments));
    }
    transfer_call(version, name, arguments, call)
}

/// Reads the call of that name with those arguments that moves bytes, or one of a later group.
/// Returns whether there is one.
fn transfer_call(version: Version, name: &[u8], arguments: &[u8], call: &mut Call) -> bool
    ensures found { IfSome (then_some result call.new)
        (SpellsCall version (name.now ++ 32 ∷ arguments.now)) }
    ensures only { ReadsNamed version 5 (name.now, arguments.now) (then_some result call.new) }
{
    match name {
        b"read" => put(call, transfers::read(arguments)),
        b"write" => put(call, transfers::write(arguments)),
        _ => signal_call(version, name, arguments, call),
    }
}

/// Reads the call on signals of that name with those arguments, or one of a later group. Returns
/// whether there is one.
fn signal_call(version: Version, name: &[u8], arguments: &[u8], call: &mut Call) -> bool
    ensures found { IfSome (then_some result call.new)
        (SpellsCall version (name.now ++ 32 ∷ arguments.now)) }
    ensures only { ReadsNamed version 6 (name.now, arguments.now) (then_some result call.new) }
{
    if name == b"kill".as_slice() {
        return put(call, signals::kill(arguments));
    }
    if name == b"sigqueue".as_slice() {
        return put(call, signals::sigqueue(arguments));
    }
    if name == b"sigaction".as_slice() {
        return put(call, signals::sigaction(arguments));
    }
    if name == b"sigprocmask".as_slice() {
        return put(call, signals::sigprocmask(arguments));
    }
    script_call(version, name, arguments, call)
}

/// Reads the call of a script or on the console of that name with those arguments. Returns whether
/// there is one.
fn script_call(version: Version, name: &[u8], arguments: &[u8], call: &mut Call) -> bool
    ensures found { IfSome (then_some result call.new)
        (SpellsCall version (name.now ++ 32 ∷ arguments.now)) }
    ensures only { ReadsNamed version 7 (name.now, arguments.now) (then_some result call.new) }
{
    if name == b"console_write".as_slice() {
        return put(call, script::console_write(arguments));
    }
    if name == b"jump".as_slice() {
        return put(call, script::jump(arguments));
    }
    if name == b"keep".as_slice() {
        return put(call, number(arguments).map(Call::Keep));
    }
    false
}

/// Reads a call without arguments, but none of transactions. Returns whether the text spells one.
pub fn bare_call(text: &[u8], call: &mut Call) -> bool
    ensures found { IfSome (then_some result call.new) (λ c. text.now ≡ call_text c) }
    ensures fits { IfSome (then_some result call.new) FitsCall }
    ensures within { (version : Version) → IfSome (then_some result call.new) (IsCallOf version) }
    ensures only { (c : Call) → FitsCall c → 1 ≤ group_of c → first_word text.now ≡ None →
        text.now ≡ call_text c → then_some result call.new ≡ Some c }
{
    if text == b"getpid".as_slice() {
        return put(call, Some(Call::Getpid));
    }
    if text == b"getppid".as_slice() {
        return put(call, Some(Call::Getppid));
    }
    if text == b"sigpending".as_slice() {
        return put(call, Some(Call::Sigpending));
    }
    if text == b"sigreturn".as_slice() {
        return put(call, Some(Call::Sigreturn));
    }
    false
}

/// Appends a call. The only error is a refused growth of memory: the text may then end with a part
/// of the call.
pub fn put_call(text: &mut String, call: &Call) -> Result<(), AllocError>
    ensures { OnOk result (string_bytes text.new ≡ string_bytes text.old ++ call_text call.now) }
{
    match call {
        Call::Store(address, bytes) => {
            put_named(text, "store", &[*address])?;
            words::put(text, " ")?;
            put_digits(text, bytes.as_slice())
        }
        Call::Load(address) => put_named(text, "load", &[*address]),
        Call::SysXbegin => words::put(text, "sys_xbegin"),
        Call::SysXbeginDefer => words::put(text, "sys_xbegin defer"),
        Call::SysXend => words::put(text, "sys_xend"),
        Call::SysXabort => words::put(text, "sys_xabort"),
        _ => put_process_call(text, call),
    }
}

/// Appends a call on memory, processes or ids, or of a later group.
fn put_process_call(text: &mut String, call: &Call) -> Result<(), AllocError>
    requires { 1 ≤ group_of call.now }
    ensures { OnOk result (string_bytes text.new ≡ string_bytes text.old ++ call_text call.now) }
{
    match call {
        Call::Map(page) => put_named(text, "map", &[*page]),
        Call::Unmap(page) => put_named(text, "unmap", &[*page]),
        Call::Protect(page, writable) => write!(text, "protect {page} {}", access(*writable)),
        Call::Fork(child) => write!(text, "fork {}", child.0),
        Call::Exit(status) => put_named(text, "exit", &[*status]),
        Call::Waitpid(target, nohang) => write!(text, "waitpid {target} {}", waiting(*nohang)),
        Call::Setuid(id) => put_named(text, "setuid", &[*id]),
        Call::Seteuid(id) => put_named(text, "seteuid", &[*id]),
        Call::Setgid(id) => put_named(text, "setgid", &[*id]),
        Call::Setegid(id) => put_named(text, "setegid", &[*id]),
        _ => put_descriptor_call(text, call),
    }
}

/// Appends a call on descriptors, or of a later group.
fn put_descriptor_call(text: &mut String, call: &Call) -> Result<(), AllocError>
    requires { 4 ≤ group_of call.now }
    ensures { OnOk result (string_bytes text.new ≡ string_bytes text.old ++ call_text call.now) }
{
    match call {
        Call::Pipe(pipe, read, write) => { write!(text, "pipe {} {} {}", pipe.0, read.0, write.0) }
        Call::Dup(fd) => put_named(text, "dup", &[*fd]),
        Call::Dup2(from, to) => put_named(text, "dup2", &[*from, *to]),
        Call::Close(fd) => put_named(text, "close", &[*fd]),
        Call::SetNonblock(fd, on) => write!(text, "set_nonblock {fd} {}", switch(*on)),
        Call::Read(fd, address, count) => put_named(text, "read", &[*fd, *address, *count]),
        Call::Write(fd, address, count) => put_named(text, "write", &[*fd, *address, *count]),
        _ => put_other_call(text, call),
    }
}

/// Appends a call on signals, of a script, on the console, or without an argument.
fn put_other_call(text: &mut String, call: &Call) -> Result<(), AllocError>
    requires { 6 ≤ group_of call.now }
    ensures { OnOk result (string_bytes text.new ≡ string_bytes text.old ++ call_text call.now) }
{
    match call {
        Call::Kill(target, signo) => put_named(text, "kill", &[*target, *signo]),
        Call::Sigqueue(target, signo, value) => {
            put_named(text, "sigqueue", &[*target, *signo, *value])
        }
        Call::Sigaction(signo, action) => {
            put_named(text, "sigaction", &[*signo])?;
            words::put(text, " ")?;
            put_action(text, *action)
        }
        Call::Sigprocmask(how, set) => {
            write!(text, "sigprocmask {} ", way(*how))?;
            put_set(text, *set)
        }
        Call::ConsoleWrite(address, count) => write!(text, "console_write {address} {count}"),
        Call::Jump(point, when) => {
            words::put(text, "jump ")?;
            put_count_first(text, u64::from(*point))?;
            put_when(text, *when)
        }
        Call::Keep(slot) => put_named(text, "keep", &[*slot]),
        Call::Getpid => words::put(text, "getpid"),
        Call::Getppid => words::put(text, "getppid"),
        Call::Sigpending => words::put(text, "sigpending"),
        Call::Sigreturn => words::put(text, "sigreturn"),
        _ => Ok(()), // all other calls are of earlier groups
    }
}

/// Appends the name of a call, and its numbers with a space before each.
fn put_named(text: &mut String, name: &str, numbers: &[i64]) -> Result<(), AllocError>
    ensures { OnOk result (string_bytes text.new ≡
        string_bytes text.old ++ joined name.now (map signed_decimal numbers.now)) }
{
    words::put(text, name)?;
    for number in numbers {
        words::put(text, " ")?;
        words::put_number(text, *number)?;
    }
    Ok(())
}

impl Numbers<'_> {
    /// The call with its numbers put in.
    pub fn put_in(self, call: Call) -> Call
        ensures { result ≡ with_numbers (number_at self.entry.slots.now self.entry.spellings.now)
            call }
    {
        match call {
            Call::Map(page) => Call::Map(self.at(0, page)),
            Call::Unmap(page) => Call::Unmap(self.at(0, page)),
            Call::Protect(page, writable) => Call::Protect(self.at(0, page), writable),
            Call::Store(address, bytes) => Call::Store(self.at(0, address), bytes),
            Call::Load(address) => Call::Load(self.at(0, address)),
            Call::Exit(status) => Call::Exit(self.at(0, status)),
            Call::Waitpid(target, nohang) => Call::Waitpid(self.at(0, target), nohang),
            Call::Setuid(id) => Call::Setuid(self.at(0, id)),
            Call::Seteuid(id) => Call::Seteuid(self.at(0, id)),
            Call::Setgid(id) => Call::Setgid(self.at(0, id)),
            Call::Setegid(id) => Call::Setegid(self.at(0, id)),
            Call::Dup(fd) => Call::Dup(self.at(0, fd)),
            Call::Close(fd) => Call::Close(self.at(0, fd)),
            Call::SetNonblock(fd, on) => Call::SetNonblock(self.at(0, fd), on),
            Call::Sigaction(signo, action) => Call::Sigaction(self.at(0, signo), action),
            Call::Keep(slot) => Call::Keep(self.at(0, slot)),
            Call::Jump(point, When::IfRet(ret)) => Call::Jump(point, When::IfRet(self.at(2, ret))),
            Call::Dup2(from, to) => Call::Dup2(self.at(0, from), self.at(1, to)),
            Call::Kill(target, signo) => Call::Kill(self.at(0, target), self.at(1, signo)),
            Call::ConsoleWrite(address, count) => {
                Call::ConsoleWrite(self.at(0, address), self.at(1, count))
            }
            Call::Read(fd, address, count) => {
                Call::Read(self.at(0, fd), self.at(1, address), self.at(2, count))
            }
            Call::Write(fd, address, count) => {
                Call::Write(self.at(0, fd), self.at(1, address), self.at(2, count))
            }
            Call::Sigqueue(target, signo, value) => {
                Call::Sigqueue(self.at(0, target), self.at(1, signo), self.at(2, value))
            }
            other => other,
        }
    }
}
