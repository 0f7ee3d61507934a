//! The names that processes have at the position of a session.
ghost use Rattle.std.specs.Prelude.{◌≡◌, ◌++◌, OnErr, OnOk, Some, count_by, map, option_map, string_bytes, take};
ghost use Rattle.tx_journal.specs.Entries.{history_of};
ghost use Rattle.tx_model.specs.Processes.{pid_of};
ghost use Rattle.tx_shell.specs.Names.{after_number, after_step, computed_name, forked, given_as, is_given_to, is_it, kind_name, maker, maker_name, named, names_by, process_there, step_made_text};

use crate::lines::asks::Ask;
use std::alloc::{AllocError, Global};
use std::fmt;
use std::fmt::Write;
use tx_base::{Call, NoMemory, Pid, Step, WIDE_PROCESSES};
use tx_journal::{Entry, Session};
use tx_lines::put_step;
use tx_waits::Kind;

/// A name that was given to a process.
#[derive(Drop)]
pub struct Given {
    /// How many steps were made before.
    pub position: usize,
    pub process: Pid,
    pub name: String,
}

/// The names that processes have at the position of a session. Each is found as it is asked for, so
/// they take no memory.
#[derive(Clone, Copy)]
pub struct Names<'a> {
    pub session: &'a Session,
    /// The names that were given, in that order.
    pub given: &'a [Given],
}

impl<'a> Names<'a> {
    /// The name of a process: the last one that was given to it. One that was given before its
    /// number was forked again is that of another process.
    pub fn of(self, process: u16) -> Option<&'a str>
        ensures { option_map (λ name. name.now) result ≡ named self.entry process }
    {
        let mut found = None;
        for i in 0..self.given.len() {
            if self.is_given_to(process, &self.given[i]) {
                found = Some(self.given[i].name.as_str());
            }
        }
        found
    }

    /// The name of the process whose number a program computed.
    pub fn of_computed(self, number: i64) -> Option<&'a str>
        ensures { option_map (λ name. name.now) result ≡ computed_name (named self.entry) number }
    {
        self.of(process_of(number)?.0)
    }

    /// The name of an object, where it is a process.
    pub fn of_object(self, kind: Kind, number: u16) -> Option<&'a str>
        ensures { option_map (λ name. name.now) result ≡ kind_name (named self.entry) kind number }
    {
        match kind {
            Kind::Processes => self.of(number),
            Kind::Descriptions | Kind::Pipes => None,
        }
    }

    /// The name of the process that makes a step.
    pub fn of_maker(self, step: &Step) -> Option<&'a str>
        ensures { option_map (λ name. name.now) result ≡ maker_name (named self.entry) step.now }
    {
        self.of(maker_of(step)?.0)
    }

    /// Whether a name was given to the process that has a number at the position.
    fn is_given_to(self, process: u16, given: &Given) -> bool
        ensures { result ≡ is_given_to self.entry.session.now process (given_as given.now) }
    {
        given.process.0 == process
            && self.process_there(process, given.position)
                == self.process_there(process, self.session.position())
    }

    /// Which of the processes of a number there is after so many steps.
    fn process_there(self, process: u16, position: usize) -> usize
        ensures { result ≡ process_there self.entry.session.now.count
            (history_of self.entry.session.now.entries) process position }
    {
        let forks = count_forks(first_entries(self.session, position), process);
        if process <= self.session.count() {
            forks
        } else {
            forks.max(1)
        }
    }
}

/// The process whose number a program computed: 1 to 256.
pub fn process_of(number: i64) -> Option<Pid>
    ensures { option_map (λ process. process.0) result ≡ pid_of 256 number }
{
    if number < 1 || number > i64::from(WIDE_PROCESSES) {
        return None;
    }
    Some(Pid(number as u16))
}

/// The process that makes a step. Nothing where the kernel does.
pub fn maker_of(step: &Step) -> Option<Pid>
    ensures { option_map (λ process. process.0) result ≡ maker step.now }
{
    match step {
        Step::Call(process, _) | Step::Deliver(process, _) => Some(*process),
        Step::KernelAbort(_) => None,
    }
}

/// The entries of the first steps, as many or all.
fn first_entries(session: &Session, count: usize) -> &[Entry]
    ensures { result.now ≡ take count session.now.entries }
{
    let entries = session.entries();
    &entries[..count.min(entries.len())]
}

/// How many entries fork a process of that number.
fn count_forks(entries: &[Entry], process: u16) -> usize
    ensures { result ≡ count_by (λ entry. is_it process (forked entry.step)) entries.now }
{
    entries
        .iter()
        .filter(|entry| forks(&entry.step, process))
        .count()
}

/// Whether a step forks a process of that number.
fn forks(step: &Step, process: u16) -> bool
    ensures { result ≡ is_it process (forked step.now) }
{
    forked_by(step).is_some_and(|child| child.0 == process)
}

/// The process that a step forks.
pub fn forked_by(step: &Step) -> Option<Pid>
    ensures { option_map (λ child. child.0) result ≡ forked step.now }
{
    match step {
        Step::Call(_, Call::Fork(child)) => Some(*child),
        _ => None,
    }
}

/// Keeps the name that is given, and drops those that were given after the position where steps are
/// dropped.
///
/// NoMemory where a growth is refused; nothing has changed then.
pub fn keep_names(
    alloc: Global,
    names: &mut Vec<Given>,
    ask: &Ask<'_>,
    position: usize,
) -> Result<(), NoMemory>
    ensures kept { OnOk result (map given_as names.new.items
        ≡ names_by ask.now position (map given_as names.old.items)) }
    ensures refused { OnErr result (names.new.items ≡ names.old.items) }
{
    match ask {
        Ask::Name(process, name) => {
            let name = name.to_string(alloc)?;
            names.push(Given {
                position,
                process: *process,
                name,
            })?;
        }
        Ask::Cut => names.retain(|given| given.position <= position),
        _ => {}
    }
    Ok(())
}

/// Appends a step, and the name of the process that makes it.
pub fn put_step_made(text: &mut String, names: Names<'_>, step: &Step) -> Result<(), AllocError>
    ensures { OnOk result (string_bytes text.new
        ≡ string_bytes text.old ++ step_made_text (named names.entry) step.now) }
{
    put_step(text, step)?;
    write!(text, "{}", Bracketed(names.of_maker(step)))
}

/// A name after the number of its process, or nothing.
#[derive(Clone, Copy)]
pub struct Suffix<'a>(pub Option<&'a str>);

impl fmt::Display for Suffix<'_> {
    ghost output = { λ name. Some (after_number (option_map (λ name. name.now) name.0)) };

    fn fmt<W: fmt::Write>(&self, f: &mut fmt::Formatter<W>) -> fmt::Result {
        match self.0 {
            Some(name) => write!(f, " {name}"),
            None => Ok(()),
        }
    }
}

/// A name after a step that its process makes, or nothing.
#[derive(Clone, Copy)]
pub struct Bracketed<'a>(pub Option<&'a str>);

impl fmt::Display for Bracketed<'_> {
    ghost output = { λ name. Some (after_step (option_map (λ name. name.now) name.0)) };

    fn fmt<W: fmt::Write>(&self, f: &mut fmt::Formatter<W>) -> fmt::Result {
        match self.0 {
            Some(name) => write!(f, " ({name})"),
            None => Ok(()),
        }
    }
}
