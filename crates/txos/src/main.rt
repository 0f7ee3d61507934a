//! The program: reads its words, and then a text.
//!
//! `main` is thin: it reads the words with `clap`, calls `replay`, `debug`, `write_json`,
//! `picture`, `serve`, `check_for` or `write_plain` over the standard streams, or writes what a
//! word means or what a run did (`runs.rt`), and answers a status.
#![tactic(auto)]

ghost use Rattle.std.specs.Prelude.{◌≡◌, IfOk, OnErr, OnOk, false, true};
ghost use Rattle.std.specs.Process.{exit_status};
ghost use Rattle.tx_lines.specs.Ends.{IsFresh};

mod runs;
mod words;

use clap::error::ErrorKind;
use runs::answer_run;
use std::alloc::Global;
use std::fmt::Display;
use std::io::{BufReader, IsTerminal};
use std::process::ExitCode;
use std::sync::Wait;
use std::thread::Threads;
use std::{env, io};
use tx_check::{Reader, check_for};
use tx_expect::{check_too, expect};
use tx_explain::{explain, listing, nearest};
use tx_lines::{Fault, OverRead, OverWrite, Sink, Source, write_whole};
use tx_picture::picture;
use tx_script::{Form, debug, replay, write_json};
use tx_shell::{Console, ServeFault, Shell, serve};
use tx_translate::write_plain;
use words::{
    Asked, CHECK_USAGE, JSON_USAGE, PICTURE_USAGE, VERSION_LINES, number_asked, read_words,
};

/// The status of a fault.
const FAULTY: u8 = 1;

/// The status of words that can't be read.
const UNREAD: u8 = 2;

fn main(rt: HostRuntime) -> ExitCode {
    let given = match env::args(&rt) {
        Ok(given) => given,
        Err(error) => {
            if error.kind() == io::ErrorKind::OutOfMemory {
                return out_of_memory(&rt);
            }
            let _ = eprintln!(rt; "error: a word is not UTF-8");
            return ExitCode::from(UNREAD);
        }
    };
    let Ok(words) = given.collect::<Vec<String>>(rt.alloc()) else {
        return out_of_memory(&rt);
    };
    if let Some(word) = number_asked(words.as_slice()) {
        let mut sink = OverWrite::new(io::writer(&rt));
        return explain_word(&rt, rt.alloc(), Some(word), &mut sink);
    }
    match read_words(rt.alloc(), words.as_slice()) {
        Ok(asked) => {
            let mut source = OverRead::new(rt.reader());
            let mut sink = OverWrite::new(io::writer(&rt));
            let prompts = is_before_person(&rt);
            answer(&rt, rt.alloc(), asked, &mut source, &mut sink, prompts)
        }
        Err(error) => {
            if error.kind() == ErrorKind::OutOfMemory {
                return out_of_memory(&rt);
            }
            let _ = eprint!(rt; "{error}");
            ExitCode::from(UNREAD)
        }
    }
}

/// Whether a person is at both standard streams, as far as the system knows.
fn is_before_person(rt: &HostRuntime) -> bool {
    rt.stdin().is_terminal() && rt.stdout().is_terminal()
}

/// Answers the text of a source, or line by line what comes in.
fn answer<R, S, W>(
    rt: &R,
    alloc: Global,
    asked: Asked<'_>,
    source: &mut S,
    sink: &mut W,
    prompts: bool,
) -> ExitCode
where
    R: Eprint + Input + Print + Threads + Wait + Sync,
    S: Source,
    W: Sink,
    requires source { IsFresh (S.counts source.old) }
    requires sink { IsFresh (W.counts sink.old) }
{
    match asked {
        Asked::Replay => status_of(rt, replay(alloc, source, sink)),
        Asked::Debug => status_of(rt, debug(alloc, source, sink)),
        Asked::Json => status_of(rt, write_json(alloc, source, sink)),
        Asked::JsonRun(crew) => {
            status_of(rt, answer_run(rt, alloc, source, sink, crew, Form::Json))
        }
        Asked::HalfRun => half_run(rt),
        Asked::Shell(form) => status_of(rt, converse(rt, alloc, form, prompts)),
        Asked::Run(crew) => { status_of(rt, answer_run(rt, alloc, source, sink, crew, Form::Text)) }
        Asked::Picture(excerpt) => status_of(rt, picture(alloc, excerpt, source, sink)),
        Asked::NoExcerpt => no_excerpt(rt),
        Asked::Expect => status_of_check(rt, expect(alloc, source, sink)),
        Asked::Check(Reader::Any) => status_of_check(rt, check_too(alloc, source, sink)),
        Asked::Check(reader) => status_of_check(rt, check_for(alloc, reader, source, sink)),
        Asked::NoReader(word) => no_reader(rt, word),
        Asked::Plain => status_of(rt, write_plain(alloc, source, sink)),
        Asked::Explain(word) => explain_word(rt, alloc, word, sink),
        Asked::Version => status_of(rt, write_whole(sink, VERSION_LINES.as_bytes())),
    }
}

/// Answers the lines of the standard input, and reads many at once where they are there. Only text
/// asks a person for a line; JSON has no prompt.
fn converse(
    rt: &(impl Input + Print),
    alloc: Global,
    form: Form,
    prompts: bool,
) -> Result<(), ServeFault> {
    let Ok(reader) = BufReader::new(alloc, rt.reader()) else {
        return Err(ServeFault::NoMemory);
    };
    let Ok(shell) = Shell::new(alloc, form) else {
        return Err(ServeFault::NoMemory);
    };
    let Ok(shell) = Box::new(alloc, shell) else {
        return Err(ServeFault::NoMemory);
    };
    let prompts = prompts && matches!(form, Form::Text);
    let mut console = Console::new(reader, io::writer(rt), prompts);
    if !console.greet() {
        return Err(ServeFault::Writer);
    }
    // The program ends with the session, and the system takes back at once what the steps left.
    serve(alloc, Box::leak(shell), &mut console)
}

/// Writes what a word means, or without one the list of all words. A word that is not explained is
/// reported, with the status of words that can't be read.
fn explain_word<R, W>(rt: &R, alloc: Global, word: Option<&str>, sink: &mut W) -> ExitCode
where
    R: Eprint,
    W: Sink,
    requires { IsFresh (W.counts sink.old) }
{
    let Some(word) = word else {
        let Ok(list) = listing(alloc) else {
            return out_of_memory(rt);
        };
        return status_of(rt, write_whole(sink, list.as_bytes()));
    };
    let Some(text) = explain(word) else {
        return unexplained(rt, alloc, word);
    };
    status_of(rt, write_whole(sink, text.as_bytes()))
}

/// Reports that a word is not explained, and which one may be meant.
fn unexplained(rt: &impl Eprint, alloc: Global, word: &str) -> ExitCode {
    let Ok(near) = nearest(alloc, word) else {
        return out_of_memory(rt);
    };
    let _ = eprintln!(rt; "error: '{word}' is not explained; 'txos explain' lists the words");
    if let Some(near) = near {
        let _ = eprintln!(rt; "  tip: a similar word exists: '{near}'");
    }
    ExitCode::from(UNREAD)
}

/// Reports, in clap's form, that the words give only one of the numbers of a run.
fn half_run(rt: &impl Eprint) -> ExitCode
    ensures { exit_status result ≡ UNREAD }
{
    let _ = eprintln!(rt; "error: json takes --workers and --turns together, or neither\n");
    let _ = eprintln!(rt; "Usage: {JSON_USAGE}\n");
    let _ = eprintln!(rt; "For more information, try '--help'.");
    ExitCode::from(UNREAD)
}

/// Reports, in clap's form, that an excerpt's first step is after its last one.
fn no_excerpt(rt: &impl Eprint) -> ExitCode
    ensures { exit_status result ≡ UNREAD }
{
    let _ = eprintln!(rt; "error: the step of --from must not be after that of --to\n");
    let _ = eprintln!(rt; "Usage: {PICTURE_USAGE}\n");
    let _ = eprintln!(rt; "For more information, try '--help'.");
    ExitCode::from(UNREAD)
}

/// Reports, in clap's form, that a word names no command by which a text can be checked.
fn no_reader(rt: &impl Eprint, word: &str) -> ExitCode
    ensures { exit_status result ≡ UNREAD }
{
    let _ = eprintln!(rt; "error: invalid value '{word}' for '[command]'");
    let _ = eprintln!(rt; "  [possible values: replay, debug, run, picture, json]\n");
    let _ = eprintln!(rt; "Usage: {CHECK_USAGE}\n");
    let _ = eprintln!(rt; "For more information, try '--help'.");
    ExitCode::from(UNREAD)
}

/// The status of a command's answer. A fault is printed.
fn status_of<E: Display + Drop>(rt: &impl Eprint, answer: Result<(), E>) -> ExitCode
    ensures success { OnOk answer (exit_status result ≡ 0) }
    ensures fault { OnErr answer (exit_status result ≡ FAULTY) }
{
    match answer {
        Ok(()) => ExitCode::SUCCESS,
        Err(fault) => {
            let _ = eprintln!(rt; "txos: {fault}");
            ExitCode::from(FAULTY)
        }
    }
}

/// The status of a check, and of expectations: that of a fault too where all is not well. A fault
/// is printed.
fn status_of_check(rt: &impl Eprint, answer: Result<bool, Fault>) -> ExitCode
    ensures well { IfOk answer (λ is_well. is_well ≡ true → exit_status result ≡ 0) }
    ensures ill { IfOk answer (λ is_well. is_well ≡ false → exit_status result ≡ FAULTY) }
    ensures fault { OnErr answer (exit_status result ≡ FAULTY) }
{
    match answer {
        Ok(false) => ExitCode::from(FAULTY),
        Ok(true) => ExitCode::SUCCESS,
        Err(fault) => status_of(rt, Err(fault)),
    }
}

/// Reports that memory is wanted.
fn out_of_memory(rt: &impl Eprint) -> ExitCode
    ensures { exit_status result ≡ FAULTY }
{
    status_of(rt, Err(Fault::NoMemory))
}
