//! Takes a line from a reader, and of a long one only its front.
ghost use Rattle.std.specs.Prelude.{◌≡◌, ◌≤◌, ◌++◌, IfOk, IfSome, OnOk, length, take};
ghost use Rattle.tx_shell.specs.Cuts.{TakesLine, TakesPart};
ghost use Rattle.tx_shell.specs.declared.sessions.taking.Next.TheVariants.{Open};

use std::alloc::AllocError;
use std::io::{BufRead, Error, ErrorKind, Result};
use tx_lines::{LINE_BYTES, take_line};

/// How many bytes of a line are kept: two more than a line of a text may have, so that a line is
/// seen to be too long even where its last byte is a 13, which is no part of a line of version 3.
const LINE_MOST: usize = LINE_BYTES + 2;

/// How a line goes on.
#[derive(Clone, Copy)]
enum Next {
    /// Its end was taken.
    Ended,
    /// More of it may come.
    Open,
    /// There is no more.
    Nothing,
}

/// Takes a line with its end, and appends its bytes without the end, or as many of them as there is
/// room for: the others are dropped. Answers whether its end came; if not, the input ended.
///
/// An error where the reader fails, or a growth of memory is refused: some bytes of the line may be
/// gone then.
pub fn take_line_from<R: BufRead>(reader: &mut R, line: &mut Vec<u8>) -> Result<bool>
    requires { length line.old.items ≤ 514 }
    ensures most { length line.new.items ≤ 514 }
    ensures takes { IfOk result (λ is_ended. IfSome (R.remaining reader.old) (λ left.
        TakesLine is_ended left (R.remaining reader.new) line.old.items line.new.items)) }
{
    for _turn in 0..u64::MAX {
        match take_part(reader, line)? {
            Next::Ended => return Ok(true),
            Next::Open => {}
            Next::Nothing => return Ok(false),
        }
    }
    Err(Error::from(ErrorKind::TimedOut))
}

/// Takes what the reader has at hand of a line, up to its end, and appends as much of it as there
/// is room for.
fn take_part<R: BufRead>(reader: &mut R, line: &mut Vec<u8>) -> Result<Next>
    requires { length line.old.items ≤ 514 }
    ensures most { length line.new.items ≤ 514 }
    ensures takes { IfOk result (λ next. IfSome (R.remaining reader.old) (λ left.
        TakesPart next left (R.remaining reader.new) line.old.items line.new.items)) }
{
    let bytes = match reader.fill_buf() {
        Ok(bytes) => bytes,
        Err(error) => {
            return if is_interrupted(&error) {
                Ok(Next::Open)
            } else {
                Err(error)
            };
        }
    };
    if bytes.is_empty() {
        return Ok(Next::Nothing);
    }
    let (part, rest) = take_line(bytes);
    append_front(line, part)?;
    let count = part.len();
    if rest.is_some() {
        reader.consume(count + 1);
        return Ok(Next::Ended);
    }
    reader.consume(count);
    Ok(Next::Open)
}

/// Whether a reader failed by an interruption, which takes nothing.
fn is_interrupted(error: &Error) -> bool {
    error.kind() == ErrorKind::Interrupted
}

/// Appends as much of a part as there is room for.
fn append_front(line: &mut Vec<u8>, part: &[u8]) -> std::result::Result<(), AllocError>
    requires { length line.old.items ≤ 514 }
    ensures most { length line.new.items ≤ 514 }
    ensures front { OnOk result (line.new.items ≡ take 514 (line.old.items ++ part.now)) }
{
    let room = LINE_MOST - line.len();
    line.extend_from_slice(&part[..part.len().min(room)])?;
    Ok(())
}
