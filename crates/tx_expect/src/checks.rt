//! Reports what is wrong with the expectations and the names of a text.
ghost use Rattle.std.specs.Prelude.{IfOk, string_bytes};
ghost use Rattle.tx_check.specs.Command.{Checks};
ghost use Rattle.tx_expect.specs.Checks.{SaysToo};
ghost use Rattle.tx_lines.specs.Ends.{IsFresh};

use crate::comments::{begins_state, comment_text, expected_in, is_header_or_step};
use crate::naming::Names;
use crate::spellings::is_reply;
use std::alloc::{AllocError, Global};
use std::fmt::Write;
use tx_base::NoMemory;
use tx_check::{Kind, Reader, check_text_for, kind_of, put_shown};
use tx_lines::{Fault, Sink, Source, put, read_whole, split_at, write_whole};
use tx_translate::{MeantLines, naming_in, split_line};

/// What is said after a reply that is none.
const REPLIES: &str = "; a reply is as in a report: ok 0, ok -9, ok EBADF, ended, committed, \
committed 4:10:3, aborted 201, out 6869, out -, no N8 2 or no N9\n";

/// Reads a text to its end, and writes the report of tx_check for the command of its kind. Where
/// that is empty, and the text is a schedule, writes what is wrong with its expectations and its
/// names. Answers whether nothing is.
///
/// `TooLong` at line 0 where the text has more than 1,048,576 bytes, and `Reader` and `NoMemory`:
/// nothing is written then. `Writer`: a front of the report is.
pub fn check_too<S: Source, W: Sink>(
    alloc: Global,
    source: &mut S,
    sink: &mut W,
) -> Result<bool, Fault>
    requires source { IsFresh (S.counts source.old) }
    requires sink { IsFresh (W.counts sink.old) }
    ensures { Checks SaysToo (S.left source.old) (S.counts source.old) (W.written sink.old)
        (W.counts sink.old) result (S.counts source.new) (W.written sink.new) (W.counts sink.new) }
{
    let text = read_whole(alloc, source)?;
    let report = report_too(alloc, text.as_slice())?;
    let bytes = report.as_bytes();
    write_whole(sink, bytes)?;
    Ok(bytes.is_empty())
}

/// The report on a text, and on its expectations and names where that is empty.
fn report_too(alloc: Global, text: &[u8]) -> Result<String, NoMemory>
    ensures { IfOk result (λ report. SaysToo text.now (string_bytes report)) }
{
    let report = check_text_for(alloc, Reader::Any, text)?;
    if !report.is_empty() {
        return Ok(report);
    }
    let own = own_troubles(alloc, text)?;
    // Most texts have none, and to find their kind takes a look at each line.
    if own.is_empty() || kind_of(MeantLines::of(text)) != Kind::Schedule {
        return Ok(report);
    }
    Ok(own)
}

/// What is wrong with the expectations and the names of a text that is read as a schedule: a line
/// for each.
fn own_troubles(alloc: Global, text: &[u8]) -> Result<String, AllocError> {
    let outline = Outline::of(text);
    let mut report = String::new(alloc);
    if !outline.is_named && split_at(b'#', text).is_none() {
        return Ok(report);
    }
    let mut names = Names::none(alloc);
    let mut place = Place::Start;
    let mut left = text;
    for number in 1..u64::MAX {
        let Some((line, rest)) = split_line(left) else {
            break;
        };
        place = place.next(line, number > outline.last);
        if let Some(trouble) = trouble_at(place, line) {
            put_trouble(&mut report, number, line, trouble)?;
        }
        match place {
            Place::Start => {}
            Place::Header => names.begin(line),
            Place::Step | Place::Between | Place::State => {
                if outline.is_named
                    && let Some(column) = names.second_name(line)?
                {
                    put_second_name(&mut report, number, column)?;
                }
            }
        }
        left = rest;
    }
    Ok(report)
}

/// What is known of a text before its lines are checked.
#[derive(Clone, Copy)]
struct Outline {
    /// The number of the last line that is the header or a step, from 1. 0 where none is.
    last: u64,
    /// Whether a line gives a name to a process.
    is_named: bool,
}

impl Outline {
    /// The outline of a text.
    fn of(text: &[u8]) -> Outline {
        let mut outline = Outline {
            last: 0,
            is_named: false,
        };
        let mut left = text;
        for number in 1..u64::MAX {
            let Some((line, rest)) = split_line(left) else {
                break;
            };
            if is_header_or_step(line) {
                outline.last = number;
            } else if naming_in(line).is_some() {
                outline.is_named = true;
            }
            left = rest;
        }
        outline
    }
}

/// Where a line is in a schedule.
#[derive(Clone, Copy)]
enum Place {
    /// Before the header.
    Start,
    Header,
    /// The line of a step.
    Step,
    /// A line that is no step, after the header.
    Between,
    /// The line `# state`, or one after it.
    State,
}

impl Place {
    /// Where the next line is. The state may begin in it where the last step is before it.
    fn next(self, line: &[u8], is_after_last: bool) -> Place {
        match self {
            Place::State => Place::State,
            _ if is_after_last && begins_state(line) => Place::State,
            Place::Start if is_header_or_step(line) => Place::Header,
            Place::Start => Place::Start,
            _ if is_header_or_step(line) => Place::Step,
            _ => Place::Between,
        }
    }
}

/// What is wrong with the expectation of a line.
#[derive(Clone, Copy)]
enum Trouble<'a> {
    /// No reply is spelled like what is expected.
    NoReply(&'a [u8]),
    /// There is no step in the line.
    NoStep,
    /// The state is expected before the last step.
    TooSoon,
}

/// What is wrong with the expectation of a line there, if anything.
fn trouble_at(place: Place, line: &[u8]) -> Option<Trouble<'_>> {
    if split_at(b'#', line).is_none() {
        return None; // most lines have no comment
    }
    match (place, expected_in(line)) {
        (Place::State, _) => None,
        (Place::Step, Some(expected)) if is_reply(comment_text(expected)) => None,
        (Place::Step, Some(expected)) => Some(Trouble::NoReply(expected)),
        (Place::Step, None) => None,
        (_, Some(_expected)) => Some(Trouble::NoStep),
        (_, None) => begins_state(line).then_some(Trouble::TooSoon),
    }
}

/// Appends the diagnostic of the expectation in the line of that number.
fn put_trouble(
    report: &mut String,
    number: u64,
    line: &[u8],
    trouble: Trouble<'_>,
) -> Result<(), AllocError> {
    let column = column_of(line, trouble);
    write!(report, "line {number}, column {column}: ")?;
    match trouble {
        Trouble::NoReply(expected) => {
            put(report, "no such reply: ")?;
            put_shown(report, comment_text(expected))?;
            put(report, REPLIES)
        }
        Trouble::NoStep => put(report, "a reply is expected after its step, in its line\n"),
        Trouble::TooSoon => put(report, "# state must come after the last step\n"),
    }
}

/// Appends the diagnostic that the process at a column of the line of that number has a name.
fn put_second_name(report: &mut String, number: u64, column: usize) -> Result<(), AllocError> {
    write!(
        report,
        "line {number}, column {column}: it has a name; a process gets a second one only when it is \
         forked anew\n"
    )
}

/// The column of an expectation that is wrong: of what is expected, or of its comment.
fn column_of(line: &[u8], trouble: Trouble<'_>) -> usize {
    let left = match trouble {
        Trouble::NoReply(expected) => expected.trim_ascii_start().len(),
        Trouble::NoStep | Trouble::TooSoon => match split_at(b'#', line) {
            Some((_front, comment)) => comment.len().saturating_add(1),
            None => 0,
        },
    };
    line.len().saturating_sub(left).saturating_add(1)
}
