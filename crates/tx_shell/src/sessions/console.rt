//! A terminal over a reader and a writer.
ghost use Rattle.std.specs.Prelude.{◌≡◌, [], IsTrue};
ghost use Rattle.tx_shell.specs.Events.{traffic_between, unprompted, Continues};

use crate::sessions::taking::take_line_from;
use crate::sessions::terminal::{Got, Terminal};
use std::io::{BufRead, Write};

/// How to get help.
const GREETING: &'static [u8] = b"a step or a command a line; help lists the commands\n";

/// A terminal over a reader and a writer. It may show the position before it waits for a line.
#[derive(Drop)]
pub struct Console<R: BufRead + Drop, W: Write + Drop> {
    reader: R,
    writer: W,
    prompts: bool,
}

impl<R: BufRead + Drop, W: Write + Drop> Console<R, W> {
    /// A terminal over these ends: the lines that come are those of the bytes that the reader has
    /// left, and the texts that go are written one after another. Where it prompts, a person is at
    /// both: it then shows at once how to get help, and the position before each line; and where
    /// the input ends after a prompt, it ends the prompt's line.
    pub fn new(reader: R, writer: W, prompts: bool) -> Console<R, W>
        ensures reader { result.reader ≡ reader }
        ensures writer { result.writer ≡ writer }
        ensures prompts { result.prompts ≡ prompts }
    {
        Console {
            reader,
            writer,
            prompts,
        }
    }

    /// Shows how to get help, where it prompts. Answers whether it could.
    pub fn greet(&mut self) -> bool
        ensures { IsTrue result → Continues
            (traffic_between (R.remaining self.old.reader) (W.contents self.old.writer)
            self.old.prompts)
            []
            (traffic_between (R.remaining self.new.reader) (W.contents self.new.writer)
            self.new.prompts) }
    {
        !self.prompts || self.show(GREETING)
    }

    /// Shows the position, where it prompts. Answers whether it could.
    fn prompt(&mut self, position: usize) -> bool
        ensures reader { self.new.reader ≡ self.old.reader }
        ensures prompts { self.new.prompts ≡ self.old.prompts }
        ensures shown { IsTrue result → unprompted self.new.prompts (W.contents self.new.writer)
            ≡ unprompted self.old.prompts (W.contents self.old.writer) }
    {
        if !self.prompts {
            return true;
        }
        write!(self.writer, "txos {position}> ").is_ok() && self.writer.flush().is_ok()
    }

    /// Ends the line of a prompt, where there is one, after which the input ended.
    fn end_prompt(&mut self)
        ensures reader { self.new.reader ≡ self.old.reader }
        ensures prompts { self.new.prompts ≡ self.old.prompts }
        ensures shown { unprompted self.new.prompts (W.contents self.new.writer)
            ≡ unprompted self.old.prompts (W.contents self.old.writer) }
    {
        if self.prompts {
            // Whoever has left needs no line's end.
            let _shown = self.writer.write_all(b"\n");
            let _flushed = self.writer.flush();
        }
    }
}

impl<R: BufRead + Drop, W: Write + Drop> Terminal for Console<R, W> {
    ghost use Rattle.tx_shell.specs.Events.{traffic_between};

    ghost traffic = { λ console. traffic_between (R.remaining console.reader)
        (W.contents console.writer) console.prompts };

    fn line(&mut self, position: usize, line: &mut Vec<u8>) -> Got {
        if !self.prompt(position) {
            return Got::Failed;
        }
        line.clear();
        let Ok(is_ended) = take_line_from(&mut self.reader, line) else {
            return Got::Failed;
        };
        if is_ended {
            return Got::Line;
        }
        self.end_prompt();
        if line.is_empty() { Got::End } else { Got::Line }
    }

    fn show(&mut self, text: &[u8]) -> bool {
        self.writer.write_all(text).is_ok() && self.writer.flush().is_ok()
    }
}
