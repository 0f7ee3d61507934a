//! What the lines of a session are answered, where all of them are there.
ghost use Rattle.std.specs.Prelude.{◌≡◌, IfOk, string_bytes};
ghost use Rattle.tx_translate.specs.MeantLines.{behind};
ghost use Rattle.tx_shell.specs.Cuts.{front_line};
ghost use Rattle.tx_answers.specs.Sessions.{form_of, AnswersLines, IsServedText};

use crate::answers::Answer;
use std::alloc::Global;
use tx_base::NoMemory;
use tx_lines::{LINE_BYTES, put, take_line};
use tx_script::Form;
use tx_shell::Shell;
use tx_translate::Room;

/// How many bytes of a line are looked at, as at a terminal: a longer line is reported as too long.
const LINE_MOST: usize = LINE_BYTES + 2;

/// The form that a number from C names: 0 is text, and any other JSON.
pub fn form_of(form: i32) -> Form
    ensures { result ≡ form_of form }
{
    if form == 0 { Form::Text } else { Form::Json }
}

/// The answers to the lines of a text.
pub fn served(alloc: Global, form: Form, text: &[u8]) -> Answer
    ensures { AnswersLines form text.now result }
{
    match serve_text(alloc, form, text) {
        Ok(answers) => Answer::Read(answers),
        Err(NoMemory) => Answer::NoMemory,
    }
}

/// Answers each line of a text, up to the end of the text or a line that asks for the end of the
/// session.
///
/// NoMemory where a growth is refused.
fn serve_text(alloc: Global, form: Form, text: &[u8]) -> Result<String, NoMemory>
    ensures { IfOk result (λ answers. IsServedText form text.now (string_bytes answers)) }
{
    let mut shell = Shell::new(alloc, form)?;
    let mut room = Room::new();
    let mut answer = String::new(alloc);
    let mut answers = String::new(alloc);
    let mut left = text;
    while !left.is_empty() {
        let (line, rest) = cut(left);
        if !shell.answer(alloc, &mut room, line, &mut answer)? {
            return Ok(answers);
        }
        put(&mut answers, answer.as_str())?;
        left = rest;
    }
    Ok(answers)
}

/// The first line of a text, or the front of a long one, and what follows the line's end.
fn cut(text: &[u8]) -> (&[u8], &[u8])
    ensures line { result.0.now ≡ front_line text.now }
    ensures behind { result.1.now ≡ behind text.now }
{
    let (line, rest) = take_line(text);
    let after = match rest {
        Some(rest) => rest,
        None => &[],
    };
    (&line[..LINE_MOST.min(line.len())], after)
}
