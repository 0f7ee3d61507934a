//! The words that the program is given.
ghost use Rattle.std.specs.Prelude.{◌≡◌, IfOk, IfSome, Some, codes, false, is_some, map, option_map, string_bytes};
ghost use Rattle.clap.specs.Words.{FailsBy, app_of, fault_of, subcommand_name_of, subcommand_of, with_subcommand};
ghost use Rattle.clap.specs.Simple.{subcommand_rows_of};
ghost use Rattle.clap.specs.Walk.{rule_of};
ghost use Rattle.clap.specs.declared.builder.command.Command.TheViews.{out-Command};
ghost use Rattle.txos.specs.CommandLine.{asked_number, begins_negative, check_line, command_line, explain_line, is_any, json_line};
ghost use Rattle.txos.specs.CommandLine.{IsAskedIn, IsFormOf, name_of, named, number_after, number_option, reader_named, run_line};
ghost use Rattle.txos.specs.CommandLine.{command_named, command_names, line_of, picture_line, shell_line, text_in, text_line, text_of, top_line, SomeOneOf};

use clap::error::Error;
use clap::{Arg, ArgAction, ArgMatches, Command, value_parser};
use std::alloc::{AllocError, Global};
use tx_check::Reader;
use tx_picture::Excerpt;
use tx_script::Form;

/// The version of the program.
const VERSION: &str = "1.0.0";

/// The text of the version: the line that clap writes, and the kits in whose logic the program is
/// proved.
pub const VERSION_LINES: &str = "txos 1.0.0\nrattle-kit-13b and 13f, logic dac8208d650f15bf\n";

/// How `check` is called.
pub const CHECK_USAGE: &str = "txos check [command] < FILE";

/// How `json` is called.
pub const JSON_USAGE: &str = "txos json [OPTIONS] < FILE";

/// How `picture` is called.
pub const PICTURE_USAGE: &str = "txos picture [OPTIONS] < FILE";

/// What the program is asked to do.
#[derive(Clone, Copy)]
pub enum Asked<'a> {
    /// To read a schedule, make its steps, and write the replies and the state.
    Replay,
    /// To read a schedule and commands, and write what each command answers.
    Debug,
    /// To read a schedule, or one with commands, and write what it is answered as JSON.
    Json,
    /// To read a program, run it by workers, and write what they did as JSON.
    JsonRun(Crew),
    /// To report that JSON of a run wants both of its numbers, of which the words give one.
    HalfRun,
    /// To read a schedule, make its steps, and write a picture of an excerpt of them.
    Picture(Excerpt),
    /// To report that an excerpt's first step is after its last one.
    NoExcerpt,
    /// To read a schedule, make its steps, and write which replies are not as its text expects.
    Expect,
    /// To read steps and commands line by line, and answer each before the next, in that form.
    Shell(Form),
    /// To read a program, run it by workers, and write what they did.
    Run(Crew),
    /// To read a text, and write what is wrong with each of its lines that is at fault, as a
    /// command reads it.
    Check(Reader),
    /// To report that a word names no command by which a text can be checked.
    NoReader(&'a str),
    /// To read a text as people write it, and write the text that it means.
    Plain,
    /// To write what a word means, or the list of all words.
    Explain(Option<&'a str>),
    /// To write the version, and the kit's.
    Version,
}

/// By how many workers a program is run, and how many turns each takes.
#[derive(Clone, Copy)]
pub struct Crew {
    /// 1 to 16.
    pub workers: u16,
    /// 1 to 10,000.
    pub turns: u32,
}

/// What the words ask for. The first word is the program's own name.
pub fn read_words<'a>(alloc: Global, words: &'a [String]) -> Result<Asked<'a>, Error>
    ensures reads { FailsBy (fault_of command_line (map string_bytes words.now)) result }
    ensures asked { IfOk result (λ asked.
        named (map string_bytes words.now) ≡ Some (name_of asked)) }
    ensures form { IfOk result
        (IsAskedIn (subcommand_of command_line (map string_bytes words.now))) }
{
    let matches = matches_of(alloc, words)?;
    Ok(asked_of(&matches)?)
}

/// What clap finds in the words. Words that name no command, or ask for help, are an `Err` of
/// clap's.
fn matches_of<'a>(alloc: Global, words: &'a [String]) -> Result<ArgMatches<'a>, Error>
    ensures reads { FailsBy (fault_of command_line (map string_bytes words.now)) result }
    ensures name { IfOk result (λ matches.
        named (map string_bytes words.now) ≡ subcommand_name_of matches) }
    ensures known { IfOk result (λ matches.
        SomeOneOf command_names (subcommand_name_of matches)) }
    ensures rows { IfOk result (λ matches.
        subcommand_of command_line (map string_bytes words.now) ≡ subcommand_rows_of matches) }
{
    let command = new_command(alloc)?;
    let matches = command.try_get_matches_from(words)?;
    Ok(matches)
}

/// What matches of the program's command line ask for.
fn asked_of<'a>(matches: &ArgMatches<'a>) -> Result<Asked<'a>, AllocError>
    requires { SomeOneOf command_names (subcommand_name_of matches.now) }
    ensures asked { IfOk result (λ asked. subcommand_name_of matches.now ≡ Some (name_of asked)) }
    ensures form { IfOk result (IsAskedIn (subcommand_rows_of matches.now)) }
{
    let Some(word) = matches.subcommand_name() else {
        unreachable!()
    };
    let Some(name) = CommandName::of(word) else {
        unreachable!()
    };
    asked_for(matches, name)
}

/// What matches with a command of that name ask for.
fn asked_for<'a>(matches: &ArgMatches<'a>, name: CommandName) -> Result<Asked<'a>, AllocError>
    requires { subcommand_name_of matches.now ≡ Some (text_of name) }
    ensures asked { IfOk result (λ asked. name_of asked ≡ text_of name) }
    ensures form { IfOk result (IsAskedIn (subcommand_rows_of matches.now)) }
{
    match name {
        CommandName::Replay => Ok(Asked::Replay),
        CommandName::Debug => Ok(Asked::Debug),
        CommandName::Json => json_of(matches),
        CommandName::Picture => Ok(excerpt_of(matches)),
        CommandName::Expect => Ok(Asked::Expect),
        CommandName::Shell => Ok(Asked::Shell(form_of(matches))),
        CommandName::Run => Ok(Asked::Run(crew_of(matches, "run")?)),
        CommandName::Check => Ok(check_of(matches)),
        CommandName::Plain => Ok(Asked::Plain),
        CommandName::Explain => Ok(Asked::Explain(word_of(matches))),
        CommandName::Version => Ok(Asked::Version),
    }
}

/// The number with `-` before it that the words ask to explain, if any: clap would take such a word
/// for an option.
pub fn number_asked(words: &[String]) -> Option<&str>
    ensures { option_map (λ word. word.now) result ≡ asked_number (map string_bytes words.now) }
{
    match words {
        [_, command, word] => number_after(command.as_str(), word.as_str()),
        _ => None,
    }
}

/// The word, where it is a number with `-` before it after `explain`.
fn number_after<'a>(command: &str, word: &'a str) -> Option<&'a str>
    ensures { option_map (λ word. word.now) result ≡ number_after command.now word.entry.now }
{
    if command == "explain" && is_negative(word) {
        return Some(word);
    }
    None
}

/// Whether a word is `-` and then a digit, and maybe more.
fn is_negative(word: &str) -> bool
    ensures { result ≡ begins_negative word.now }
{
    match word.as_bytes() {
        [b'-', digit, ..] => digit.is_ascii_digit(),
        _ => false,
    }
}

/// The form of answers that the words of `shell` give.
fn form_of(matches: &ArgMatches<'_>) -> Form
    requires { subcommand_name_of matches.now ≡ Some (codes "shell") }
    ensures { IsFormOf (text_in (codes "json") (subcommand_rows_of matches.now)) result }
{
    let Some(shell) = matches.subcommand_matches("shell") else {
        unreachable!()
    };
    if shell.get_flag("json") {
        Form::Json
    } else {
        Form::Text
    }
}

/// What the words of `json` ask for.
fn json_of<'a>(matches: &ArgMatches<'_>) -> Result<Asked<'a>, AllocError>
    requires { subcommand_name_of matches.now ≡ Some (codes "json") }
    ensures name { IfOk result (λ asked. name_of asked ≡ codes "json") }
    ensures asked { IfOk result (IsAskedIn (subcommand_rows_of matches.now)) }
{
    let workers = is_given(matches, "json", "workers");
    let turns = is_given(matches, "json", "turns");
    if workers != turns {
        return Ok(Asked::HalfRun);
    }
    if workers {
        Ok(Asked::JsonRun(crew_of(matches, "json")?))
    } else {
        Ok(Asked::Json)
    }
}

/// Whether the words of a command give an option a text.
fn is_given(matches: &ArgMatches<'_>, command: &str, option: &str) -> bool
    requires { subcommand_name_of matches.now ≡ Some command.now }
    ensures { result ≡ is_some (text_in option.now (subcommand_rows_of matches.now)) }
{
    let Some(given) = matches.subcommand_matches(command) else {
        unreachable!()
    };
    given.get_str(option).is_some()
}

/// What the words of `picture` ask for.
fn excerpt_of<'a>(matches: &ArgMatches<'_>) -> Asked<'a>
    requires { subcommand_name_of matches.now ≡ Some (codes "picture") }
    ensures name { name_of result ≡ codes "picture" }
    ensures asked { IsAskedIn (subcommand_rows_of matches.now) result }
{
    let from = step_of(matches, "from", 1);
    let to = step_of(matches, "to", Excerpt::WHOLE.to);
    if to < from {
        return Asked::NoExcerpt;
    }
    Asked::Picture(Excerpt { from, to })
}

/// The step that an option of `picture` says, or that other one.
fn step_of(matches: &ArgMatches<'_>, option: &str, other: u16) -> u16
    requires { subcommand_name_of matches.now ≡ Some (codes "picture") }
    ensures { is_some (text_in option.now (subcommand_rows_of matches.now)) ≡ false →
        result ≡ other }
{
    if !is_given(matches, "picture", option) {
        return other;
    }
    let Some(given) = matches.subcommand_matches("picture") else {
        unreachable!()
    };
    given.get_one::<u16>(option).unwrap_or(other)
}

/// What the words of `check` ask for.
fn check_of<'a>(matches: &ArgMatches<'a>) -> Asked<'a>
    requires { subcommand_name_of matches.now ≡ Some (codes "check") }
    ensures name { name_of result ≡ codes "check" }
    ensures asked { IsAskedIn (subcommand_rows_of matches.now) result }
{
    let Some(check) = matches.subcommand_matches("check") else {
        unreachable!()
    };
    match check.get_str("command") {
        None => Asked::Check(Reader::Any),
        Some(word) => match reader_named(word) {
            Some(reader) => Asked::Check(reader),
            None => Asked::NoReader(word),
        },
    }
}

/// The command of that name, by which a text can be checked.
fn reader_named(word: &str) -> Option<Reader>
    ensures named { result ≡ reader_named word.now }
    ensures one { IfSome result (λ reader. is_any reader ≡ false) }
{
    match word {
        "replay" => Some(Reader::Replay),
        "debug" => Some(Reader::Debug),
        "run" => Some(Reader::Run),
        "picture" => Some(Reader::Picture),
        "json" => Some(Reader::Json),
        _ => None,
    }
}

/// The two numbers that the words of a command give. Clap gives no matches of it whose numbers are
/// none.
fn crew_of(matches: &ArgMatches<'_>, command: &str) -> Result<Crew, AllocError> {
    let given = matches.subcommand_matches(command).ok_or(AllocError)?;
    Ok(Crew {
        workers: given.get_one::<u16>("workers").ok_or(AllocError)?,
        turns: given.get_one::<u32>("turns").ok_or(AllocError)?,
    })
}

/// The word that the words of `explain` give, if any.
fn word_of<'a>(matches: &ArgMatches<'a>) -> Option<&'a str> {
    matches.subcommand_matches("explain")?.get_str("word")
}

/// The program's command line: one of its commands, which is required.
fn new_command<'a>(alloc: Global) -> Result<Command<'a>, AllocError>
    ensures { IfOk result (λ command. app_of command ≡ command_line) }
{
    let mut line = top_command(alloc);
    let mut left = CommandName::ALL.as_slice();
    while let Some((name, rest)) = left.split_first() {
        line = with_command(alloc, line, *name)?;
        left = rest;
    }
    Ok(line)
}

/// Adds a command to the program's command line.
fn with_command<'a>(
    alloc: Global,
    line: Command<'a>,
    name: CommandName,
) -> Result<Command<'a>, AllocError>
    ensures { IfOk result (λ command. app_of command
        ≡ with_subcommand (app_of line.entry) (line_of name)) }
{
    let command = name.command(alloc)?;
    let line = line.subcommand(command)?;
    Ok(line)
}

/// The program's command line, without its commands.
fn top_command<'a>(alloc: Global) -> Command<'a>
    ensures { app_of result ≡ top_line }
{
    Command::new(alloc, "txos")
        .subcommand_required(true)
        .about("A kernel held in memory, with transactions over processes")
        .version(VERSION)
}

/// A command of the program.
#[derive(Clone, Copy)]
enum CommandName {
    Replay,
    Debug,
    Json,
    Picture,
    Expect,
    Shell,
    Run,
    Check,
    Plain,
    Explain,
    Version,
}

impl CommandName {
    /// All, in the order in which help lists them.
    const ALL: [CommandName; 11] = [
        CommandName::Replay,
        CommandName::Debug,
        CommandName::Json,
        CommandName::Picture,
        CommandName::Expect,
        CommandName::Shell,
        CommandName::Run,
        CommandName::Check,
        CommandName::Plain,
        CommandName::Explain,
        CommandName::Version,
    ];

    /// The command that a word names.
    fn of(word: &str) -> Option<CommandName>
        ensures known { result ≡ command_named word.now }
        ensures name { IfSome result (λ name. text_of name ≡ word.now) }
    {
        let mut left = CommandName::ALL.as_slice();
        while let Some((name, rest)) = left.split_first() {
            if name.as_str() == word {
                return Some(*name);
            }
            left = rest;
        }
        None
    }

    /// The word that names it.
    fn as_str<'a>(self) -> &'a str
        ensures { result.now ≡ text_of self }
    {
        match self {
            CommandName::Replay => "replay",
            CommandName::Debug => "debug",
            CommandName::Json => "json",
            CommandName::Picture => "picture",
            CommandName::Expect => "expect",
            CommandName::Shell => "shell",
            CommandName::Run => "run",
            CommandName::Check => "check",
            CommandName::Plain => "plain",
            CommandName::Explain => "explain",
            CommandName::Version => "version",
        }
    }

    /// What help says of it.
    fn help(self) -> Help {
        match self {
            CommandName::Replay => REPLAY,
            CommandName::Debug => DEBUG,
            CommandName::Json => JSON,
            CommandName::Picture => PICTURE,
            CommandName::Expect => EXPECT,
            CommandName::Shell => SHELL,
            CommandName::Run => RUN,
            CommandName::Check => CHECK,
            CommandName::Plain => PLAIN,
            CommandName::Explain => EXPLAIN,
            CommandName::Version => PRINT_VERSION,
        }
    }

    /// It, with the words that it takes.
    fn command<'a>(self, alloc: Global) -> Result<Command<'a>, AllocError>
        ensures shape { IfOk result (λ command. (app_of command).top ≡ line_of self) }
        ensures local { IfOk result (λ command. (out-Command command).has_globals ≡ false) }
    {
        match self {
            CommandName::Json => json_command(alloc),
            CommandName::Picture => picture_command(alloc),
            CommandName::Shell => shell_command(alloc),
            CommandName::Run => run_command(alloc),
            CommandName::Check => check_command(alloc),
            CommandName::Explain => explain_command(alloc),
            CommandName::Replay
            | CommandName::Debug
            | CommandName::Expect
            | CommandName::Plain
            | CommandName::Version => Ok(command_with_help(alloc, self)),
        }
    }
}

/// What help says of a command: a line of what it does, how it is called, with a text as a file
/// where it reads one, and an example.
#[derive(Clone, Copy)]
struct Help {
    about: &'static str,
    usage: &'static str,
    example: &'static str,
}

const REPLAY: Help = Help {
    about: "Reads a schedule from standard input, and writes its replies and the last state",
    usage: "txos replay < FILE",
    example: "Example: txos replay < examples/first.txos",
};

const DEBUG: Help = Help {
    about: "Reads a schedule and commands from standard input, and walks back and forward",
    usage: "txos debug < FILE",
    example: "Example: txos debug < examples/commit_and_abort.walk",
};

const JSON: Help = Help {
    about: "Reads a schedule, maybe with commands, or runs a program, and answers in JSON",
    usage: JSON_USAGE,
    example: "Example: txos json < examples/first.txos",
};

const PICTURE: Help = Help {
    about: "Reads a schedule from standard input, and writes a picture of it in SVG",
    usage: PICTURE_USAGE,
    example: "Example: txos picture < examples/first.txos > first.svg",
};

const EXPECT: Help = Help {
    about: "Reads a schedule, and says which replies are not those that its comments expect",
    usage: "txos expect < FILE",
    example: "Example: txos expect < examples/expected.txos",
};

const SHELL: Help = Help {
    about: "Reads steps and commands, and answers each line before it reads the next",
    usage: "txos shell [OPTIONS]",
    example: "Example: txos shell",
};

const RUN: Help = Help {
    about: "Reads a program from standard input, runs it by workers, and writes what they did",
    usage: "txos run --workers <workers> --turns <turns> < FILE",
    example: "Example: txos run --workers 1 --turns 24 < examples/fall_back.program",
};

const CHECK: Help = Help {
    about: "Reads a text from standard input, and says of each line at fault what is wrong",
    usage: CHECK_USAGE,
    example: "Example: txos check < examples/first.txos",
};

const PLAIN: Help = Help {
    about: "Reads a text of version 3 from standard input, and writes the one that it means",
    usage: "txos plain < FILE",
    example: "Example: txos plain < examples/install.txos",
};

const EXPLAIN: Help = Help {
    about: "Says what a word or a number of a text, a report or a fault means",
    usage: "txos explain [word]",
    example: "Example: txos explain N8",
};

const PRINT_VERSION: Help = Help {
    about: "Writes the version of the program",
    usage: "txos version",
    example: "Example: txos version",
};

/// A command without its words, with what help says of it.
fn command_with_help<'a>(alloc: Global, name: CommandName) -> Command<'a>
    ensures shape { (app_of result).top ≡ text_line (text_of name) }
    ensures local { (out-Command result).has_globals ≡ false }
{
    let help = name.help();
    Command::new(alloc, name.as_str())
        .about(help.about)
        .override_usage(help.usage)
        .after_help(help.example)
}

/// The command that answers line by line, with its flag.
fn shell_command<'a>(alloc: Global) -> Result<Command<'a>, AllocError>
    ensures shape { IfOk result (λ command. (app_of command).top ≡ shell_line) }
    ensures local { IfOk result (λ command. (out-Command command).has_globals ≡ false) }
{
    let json = Arg::new(alloc, "json")
        .long("json")
        .help("Answer each line by a line of JSON")
        .action(ArgAction::SetTrue);
    command_with_help(alloc, CommandName::Shell).arg(json)
}

/// The command that answers by JSON, with the two numbers of a run.
fn json_command<'a>(alloc: Global) -> Result<Command<'a>, AllocError>
    ensures shape { IfOk result (λ command. (app_of command).top ≡ json_line) }
    ensures local { IfOk result (λ command. (out-Command command).has_globals ≡ false) }
{
    let workers = workers_option(alloc).help(
        "Run a program by so many workers, 1 to 16; wants --turns",
    );
    let turns = turns_option(alloc).help(
        "How many turns each worker takes, 1 to 10000; wants --workers",
    );
    let command = command_with_help(alloc, CommandName::Json).arg(workers)?;
    command.arg(turns)
}

/// The command that draws a schedule, with the two numbers of an excerpt.
fn picture_command<'a>(alloc: Global) -> Result<Command<'a>, AllocError>
    ensures shape { IfOk result (λ command. (app_of command).top ≡ picture_line) }
    ensures local { IfOk result (λ command. (out-Command command).has_globals ≡ false) }
{
    let from = step_option(alloc, "from").help("The first step that is drawn, 1 to 4096");
    let to = step_option(alloc, "to").help("The last step that is drawn, 1 to 4096");
    let command = command_with_help(alloc, CommandName::Picture).arg(from)?;
    command.arg(to)
}

/// An option of that name that says a step.
fn step_option<'a>(alloc: Global, name: &'a str) -> Arg<'a>
    ensures rule { rule_of result ≡ number_option name.now 4096 }
    ensures local { result.global ≡ false }
{
    Arg::new(alloc, name)
        .long(name)
        .value_parser(value_parser!(u16).range(1..=4096))
}

/// The command that checks a text, with the command that would read it, which may be missing.
fn check_command<'a>(alloc: Global) -> Result<Command<'a>, AllocError>
    ensures shape { IfOk result (λ command. (app_of command).top ≡ check_line) }
    ensures local { IfOk result (λ command. (out-Command command).has_globals ≡ false) }
{
    let reader = Arg::new(alloc, "command").help(
        "That is to read it: replay, debug, run, picture or json; none: that of its kind",
    );
    command_with_help(alloc, CommandName::Check).arg(reader)
}

/// The command that runs a program, with its two numbers, both required.
fn run_command<'a>(alloc: Global) -> Result<Command<'a>, AllocError>
    ensures shape { IfOk result (λ command. (app_of command).top ≡ run_line) }
    ensures local { IfOk result (λ command. (out-Command command).has_globals ≡ false) }
{
    let workers = workers_option(alloc)
        .help("How many workers, 1 to 16")
        .required(true);
    let turns = turns_option(alloc)
        .help("How many turns each worker takes, 1 to 10000")
        .required(true);
    let command = command_with_help(alloc, CommandName::Run).arg(workers)?;
    command.arg(turns)
}

/// The option that says how many workers there are.
fn workers_option<'a>(alloc: Global) -> Arg<'a>
    ensures rule { rule_of result ≡ number_option (codes "workers") 16 }
    ensures local { result.global ≡ false }
{
    Arg::new(alloc, "workers")
        .long("workers")
        .value_parser(value_parser!(u16).range(1..=16))
}

/// The option that says how many turns each worker takes.
fn turns_option<'a>(alloc: Global) -> Arg<'a>
    ensures rule { rule_of result ≡ number_option (codes "turns") 10000 }
    ensures local { result.global ≡ false }
{
    Arg::new(alloc, "turns")
        .long("turns")
        .value_parser(value_parser!(u32).range(1..=10_000))
}

/// The command that says what a word means, with the word, which may be missing.
fn explain_command<'a>(alloc: Global) -> Result<Command<'a>, AllocError>
    ensures shape { IfOk result (λ command. (app_of command).top ≡ explain_line) }
    ensures local { IfOk result (λ command. (out-Command command).has_globals ≡ false) }
{
    let word = Arg::new(alloc, "word").help(
        "A refusal, a fault, an error, a call, a word of a text; none: lists all",
    );
    command_with_help(alloc, CommandName::Explain).arg(word)
}
