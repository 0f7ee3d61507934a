//! What a session runs on.
ghost use Rattle.std.specs.Prelude.{◌≡◌, ℕ, List, IfOk, IfSome, MatchBool, MatchOption, OnErr, OnOk, Some, string_bytes, true};
ghost use Rattle.tx_journal.specs.Sessions.{position_of};
ghost use Rattle.tx_lines.specs.Lines.{step_text, FitsHeader, FitsStep, IsOf};
ghost use Rattle.tx_shell.specs.Forms.{SaysPosition};
ghost use Rattle.tx_shell.specs.Meanings.{meant_line};
ghost use Rattle.tx_shell.specs.Origins.{origin_said, grammar_of, SaysOrigin};
ghost use Rattle.tx_shell.specs.Standings.{begun_by, first_standing, quit_line, standing_of, Answers, AnswersMeant};
ghost use Rattle.tx_shell.specs.Standings.{IsNoHeader, IsQuit, Stops, StopsMeant};

use crate::answers::Interpreter;
use crate::answers::forms::{say_nothing, say_position};
use crate::lines::meanings::meant_line;
use crate::lines::openings::{Opening, read_opening};
use std::alloc::Global;
use tx_base::{NoMemory, Reply, Step};
use tx_lines::read_step_into;
use tx_script::Form;
use tx_translate::{Room, second_stays_itself};

/// A session at a terminal, the form of its answers, and the version of its lines.
pub struct Shell {
    interpreter: Interpreter,
    /// Whether only lines without a word came so far, so that a header may come.
    is_fresh: bool,
    /// Where the step that a line spells is put, since a step is large.
    step: Step,
    /// Where its reply is put, since a reply is large too.
    reply: Reply,
}

// Not derived: that would be proved again wherever one is dropped.
impl Drop for Shell {
    fn drop(self) {
        let Shell {
            interpreter: _interpreter,
            is_fresh: _is_fresh,
            step: _step,
            reply: _reply,
        } = self;
    }
}

impl Shell {
    /// A shell before its first line: where no header comes, its lines are of version 3, and it has
    /// two processes.
    ///
    /// NoMemory where a growth is refused.
    pub fn new(alloc: Global, form: Form) -> Result<Shell, NoMemory>
        ensures { IfOk result (λ shell. standing_of shell ≡ first_standing form) }
    {
        Ok(Shell {
            interpreter: Interpreter::new(alloc, form, Opening::unsaid())?,
            is_fresh: true,
            step: Step::blank(),
            reply: Reply::Ended,
        })
    }

    /// How many of the steps are made.
    pub fn position(&self) -> usize
        ensures { result ≡ position_of self.now.interpreter.session }
    {
        self.interpreter.session.position()
    }

    /// Does what a line says, and puts its answer in place of what the text had. Answers whether
    /// the session goes on: a line that asks for its end is not answered. The room is for what the
    /// line means.
    ///
    /// NoMemory where a growth is refused: no step came or went then, and the position is the old
    /// one, or between that and the one that the line asks for. The text has nothing to be shown.
    pub fn answer(
        &mut self,
        alloc: Global,
        room: &mut Room,
        line: &[u8],
        text: &mut String,
    ) -> Result<bool, NoMemory>
        ensures answer { IfOk result (λ goes_on.
            MatchBool goes_on
            (Answers (standing_of self.old) line.now (string_bytes text.new)
            (standing_of self.new))
            (IsQuit (standing_of self.old) line.now
            × (standing_of self.new ≡ standing_of self.old))) }
        ensures stops { OnErr result
            (Stops (standing_of self.old) line.now (standing_of self.new)) }
    {
        if let Some(opening) = self.opening(alloc, line)? {
            *text = self.open(alloc, opening)?;
            return Ok(true);
        }
        self.answer_other(alloc, room, line, text)
    }

    /// Does what a line says that is no header, and answers it, as `answer` does. A step as version
    /// 2 spells it means itself, and is not looked at as a line of version 3.
    fn answer_other(
        &mut self,
        alloc: Global,
        room: &mut Room,
        line: &[u8],
        text: &mut String,
    ) -> Result<bool, NoMemory>
        ensures answer { IfOk result (λ goes_on.
            MatchBool goes_on
            (AnswersMeant (standing_of self.old) line.now
            (meant_line self.old.interpreter.version line.now)
            (string_bytes text.new) (standing_of self.new))
            ((meant_line self.old.interpreter.version line.now ≡ Some quit_line)
            × (standing_of self.new ≡ standing_of self.old))) }
        ensures stops { OnErr result
            (Stops (standing_of self.old) line.now (standing_of self.new)) }
    {
        second_stays_itself();
        if read_step_into(self.interpreter.version.grammar(), line, &mut self.step) {
            self.answer_step(alloc, text)?;
            return Ok(true);
        }
        self.answer_meaning(alloc, room, line, text)
    }

    /// Does what a line means, and answers it, as `answer` does.
    #[inline(never)] // inlined, each step would reserve its stack, which is large
    fn answer_meaning(
        &mut self,
        alloc: Global,
        room: &mut Room,
        line: &[u8],
        text: &mut String,
    ) -> Result<bool, NoMemory>
        ensures answer { IfOk result (λ goes_on.
            MatchBool goes_on
            (AnswersMeant (standing_of self.old) line.now
            (meant_line self.old.interpreter.version line.now)
            (string_bytes text.new) (standing_of self.new))
            ((meant_line self.old.interpreter.version line.now ≡ Some quit_line)
            × (standing_of self.new ≡ standing_of self.old))) }
        ensures stops { OnErr result
            (Stops (standing_of self.old) line.now (standing_of self.new)) }
    {
        match meant_line(alloc, room, self.interpreter.version, line)? {
            Some(words) => self.answer_meant(alloc, line, words.as_bytes(), text),
            None => {
                *text = say_nothing(alloc, self.interpreter.form)?;
                Ok(true)
            }
        }
    }

    /// Makes the step that a line spells, which is in its place, and answers it.
    ///
    /// NoMemory where a growth is refused; nothing has changed then.
    fn answer_step(&mut self, alloc: Global, text: &mut String) -> Result<(), NoMemory>
        requires fits { FitsStep self.old.step }
        requires of { IsOf (grammar_of self.old.interpreter.version) self.old.step }
        ensures answer { (line : List ℕ) → OnOk result
            (AnswersMeant (standing_of self.old) line (Some (step_text self.old.step))
            (string_bytes text.new) (standing_of self.new)) }
        ensures stops { OnErr result (standing_of self.new ≡ standing_of self.old) }
    {
        self.interpreter
            .answer_step_line(alloc, &mut self.step, &mut self.reply, text)?;
        self.is_fresh = false;
        Ok(())
    }

    /// What a line says as a header, where one may come. Nothing where it is none.
    fn opening(&self, alloc: Global, line: &[u8]) -> Result<Option<Opening>, NoMemory>
        ensures says { IfOk result (λ opening.
            MatchOption opening (IsNoHeader (standing_of self.now) line.now) (λ o.
            (self.now.is_fresh ≡ true) × SaysOrigin line.now (origin_said o))) }
        ensures fits { IfOk result (λ opening. IfSome opening (λ o. FitsHeader o.header)) }
    {
        if self.is_fresh {
            read_opening(alloc, line)
        } else {
            Ok(None)
        }
    }

    /// Begins again, as a header says.
    ///
    /// NoMemory where a growth is refused; nothing has changed then.
    #[inline(never)] // as `answer_meaning`
    fn open(&mut self, alloc: Global, opening: Opening) -> Result<String, NoMemory>
        requires { FitsHeader opening.header }
        ensures report { IfOk result (λ text.
            SaysPosition self.old.interpreter.form 0 (string_bytes text)) }
        ensures begun { OnOk result
            (standing_of self.new ≡ begun_by self.old.interpreter.form (origin_said opening)) }
        ensures refused { OnErr result (self.new ≡ self.old) }
    {
        let text = say_position(alloc, self.interpreter.form, 0)?;
        self.interpreter = Interpreter::new(alloc, self.interpreter.form, opening)?;
        self.is_fresh = false;
        Ok(text)
    }

    /// Does what the words say that a line means, and answers it, as `answer` does.
    fn answer_meant(
        &mut self,
        alloc: Global,
        line: &[u8],
        words: &[u8],
        text: &mut String,
    ) -> Result<bool, NoMemory>
        ensures answer { IfOk result (λ goes_on.
            MatchBool goes_on
            (AnswersMeant (standing_of self.old) line.now (Some words.now)
            (string_bytes text.new) (standing_of self.new))
            ((Some words.now ≡ Some quit_line) × (standing_of self.new ≡ standing_of self.old))) }
        ensures stops { OnErr result
            (StopsMeant (standing_of self.old) words.now (standing_of self.new)) }
    {
        if words == b"quit".as_slice() {
            return Ok(false);
        }
        self.interpreter.answer_words(alloc, line, words, text)?;
        self.is_fresh = false;
        Ok(true)
    }
}
