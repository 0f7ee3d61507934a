//! Answers what a line means.
ghost use Rattle.std.specs.Prelude.{◌≡◌, IfOk, OnErr, OnOk, length, string_bytes};
ghost use Rattle.tx_journal.specs.Sessions.{made_of, position_of, start_of, SameBoot};
ghost use Rattle.tx_journal.specs.Entries.{history_of};
ghost use Rattle.tx_shell.specs.Answers.{kept_by, left_by, AnswersAskIn, AnswersStep, AnswersWords, StopsShort, StopsShortOf};
ghost use Rattle.tx_shell.specs.Forms.{IsPlaced, SaysAnswer};
ghost use Rattle.tx_shell.specs.Names.{names_at};
ghost use Rattle.tx_lines.specs.Lines.{FitsHeader};
ghost use Rattle.tx_shell.specs.Origins.{origin_said};
ghost use Rattle.tx_shell.specs.Places.{origin_of, place_of};
ghost use Rattle.tx_shell.specs.Standings.{at_start, kept_of, nothing_kept};

pub mod answer;
pub mod as_json;
pub mod as_text;
pub mod forms;
pub mod helps;
pub mod journals;
pub mod refused;
pub mod reports;
pub mod reserving;
pub mod steps;

use crate::answers::answer::{Answer, find_answer};
use crate::answers::forms::say_answer;
use crate::answers::refused::Refused;
use crate::answers::reports::report_in;
use crate::answers::steps::answer_step;
use crate::lines::asks::{Ask, read_ask};
use crate::lines::openings::Opening;
use crate::lines::versions::TextVersion;
use crate::names::{Given, Names, forked_by, keep_names, maker_of};
use std::alloc::Global;
use tx_base::{NoMemory, Reply, Step};
use tx_journal::Session;
use tx_lines::read_step;
use tx_script::Form;

/// What answers lines: a session, the version of its lines, and the form of its answers.
#[derive(Drop)]
pub struct Interpreter {
    pub form: Form,
    pub version: TextVersion,
    pub session: Session,
    /// Which of its steps were refused.
    pub refused: Refused,
    /// The names that were given to processes, in that order.
    pub given: Vec<Given>,
}

impl Interpreter {
    /// What answers lines in a form from the start of a session, as its header says.
    ///
    /// NoMemory where a growth is refused.
    pub fn new(alloc: Global, form: Form, opening: Opening) -> Result<Interpreter, NoMemory>
        requires { FitsHeader opening.header }
        ensures form { IfOk result (λ it. it.form ≡ form) }
        ensures origin { IfOk result (λ it. origin_of it.version it.session ≡ origin_said opening) }
        ensures place { IfOk result (λ it. place_of it.session ≡ at_start) }
        ensures kept { IfOk result (λ it. kept_of it ≡ nothing_kept) }
    {
        let mut session = Session::boot_by(alloc, opening.header)?;
        reserve_ahead(&mut session);
        Ok(Interpreter {
            form,
            version: opening.version,
            session,
            refused: Refused::new(alloc)?,
            given: Vec::new(alloc),
        })
    }

    /// Does what a line says, which means those words, and puts its answer in place of what the
    /// text had. Keeps which step was refused last, and the names of processes.
    ///
    /// NoMemory where a growth is refused: no step came or went then, and the position is the old
    /// one, or between that and the one that is asked for. The text has nothing to be shown.
    pub fn answer_words(
        &mut self,
        alloc: Global,
        line: &[u8],
        words: &[u8],
        text: &mut String,
    ) -> Result<(), NoMemory>
        ensures answer { OnOk result
            (AnswersWords self.old.form (origin_of self.old.version self.old.session)
            (place_of self.old.session) (kept_of self.old) line.now words.now
            (string_bytes text.new)
            (place_of self.new.session) (kept_of self.new)) }
        ensures stops { OnErr result
            (StopsShortOf (origin_of self.old.version self.old.session) (place_of self.old.session)
            words.now (place_of self.new.session)) }
        ensures kept { OnErr result (kept_of self.new ≡ kept_of self.old) }
        ensures boot { SameBoot self.new.session self.old.session }
        ensures form { self.new.form ≡ self.old.form }
        ensures version { self.new.version ≡ self.old.version }
    {
        let mut read = read_step(self.version.grammar(), words);
        if let Some(step) = &mut read {
            let mut reply = Reply::Ended;
            return self.answer_step_line(alloc, step, &mut reply, text);
        }
        if let Some(ask) = read_ask(self.version, words) {
            *text = self.answer_ask(alloc, ask)?;
            return Ok(());
        }
        *text = report_in(alloc, self.form, self.version, line)?;
        Ok(())
    }

    /// Makes a step, puts its reply in its place, and its answer in place of what the text had.
    /// Keeps the step if it had to be made and was refused. Where it was accepted, drops those that
    /// were kept of its process, and of the one that it forks.
    ///
    /// NoMemory where a growth is refused; no step came or went then. The text has nothing to be
    /// shown.
    pub fn answer_step_line(
        &mut self,
        alloc: Global,
        step: &mut Step,
        reply: &mut Reply,
        text: &mut String,
    ) -> Result<(), NoMemory>
        ensures answer { OnOk result
            (AnswersStep self.old.form (start_of self.old.session) (place_of self.old.session)
            step.old (string_bytes text.new) (place_of self.new.session)) }
        ensures kept { OnOk result (kept_of self.new
            ≡ kept_by (place_of self.old.session) step.old (place_of self.new.session)
            (kept_of self.old)) }
        ensures stops { OnErr result (place_of self.new.session ≡ place_of self.old.session) }
        ensures same { OnErr result (kept_of self.new ≡ kept_of self.old) }
        ensures boot { SameBoot self.new.session self.old.session }
        ensures form { self.new.form ≡ self.old.form }
        ensures version { self.new.version ≡ self.old.version }
    {
        let count = count_steps(&self.session);
        let is_at_end = self.session.position() == count;
        let (maker, child) = (maker_of(step), forked_by(step));
        answer_step(alloc, self.form, &mut self.session, step, reply, text)?;
        if !is_at_end {
            return Ok(());
        }
        if count_steps(&self.session) == count {
            self.refused.keep(step);
        } else {
            self.refused.let_go(maker);
            self.refused.let_go(child);
        }
        Ok(())
    }

    /// Does what is asked for, and answers it. A cut drops steps once its answer is printed, and a
    /// name is kept then.
    ///
    /// NoMemory where a growth is refused: no step came or went then, and the position is between
    /// the old one and the one that is asked for.
    #[inline(never)] // inlined, each step that is spelled otherwise would reserve its stack
    fn answer_ask(&mut self, alloc: Global, ask: Ask<'_>) -> Result<String, NoMemory>
        ensures answer { IfOk result (λ text.
            AnswersAskIn self.old.form (origin_of self.old.version self.old.session)
            (place_of self.old.session) (kept_of self.old) ask.entry (string_bytes text)
            (place_of self.new.session) (kept_of self.new)) }
        ensures stops { OnErr result
            (StopsShort (place_of self.old.session) ask.entry (place_of self.new.session)) }
        ensures kept { OnErr result (kept_of self.new ≡ kept_of self.old) }
        ensures boot { SameBoot self.new.session self.old.session }
        ensures form { self.new.form ≡ self.old.form }
        ensures version { self.new.version ≡ self.old.version }
    {
        let answer = find_answer(alloc, &mut self.session, &self.refused, &ask)?;
        let text = self.say(alloc, &answer)?;
        keep_names(alloc, &mut self.given, &ask, self.session.position())?;
        leave(&mut self.session, ask.lets_go());
        Ok(text)
    }

    /// An answer, printed with the names of processes at the position to which it led.
    ///
    /// NoMemory where a growth is refused.
    fn say(&self, alloc: Global, answer: &Answer) -> Result<String, NoMemory>
        requires { IsPlaced (position_of self.now.session) answer.now }
        ensures { IfOk result (λ text. SaysAnswer self.now.form
            (origin_of self.now.version self.now.session)
            (names_at self.now.session.count (place_of self.now.session) (kept_of self.now).names)
            (history_of (made_of self.now.session)) (place_of self.now.session) answer.now
            (string_bytes text)) }
    {
        let names = Names {
            session: &self.session,
            given: self.given.as_slice(),
        };
        say_answer(alloc, self.form, self.version, &self.session, names, answer)
    }
}

/// How many steps there are.
pub fn count_steps(session: &Session) -> usize
    ensures { result ≡ length (history_of session.now.entries) }
{
    session.len()
}

/// Drops the steps after the position, where that is asked for.
fn leave(session: &mut Session, lets_go: bool)
    ensures place { place_of session.new ≡ left_by lets_go (place_of session.old) }
    ensures boot { SameBoot session.new session.old }
{
    if !lets_go {
        return;
    }
    session.cut();
}

/// How many steps have room from the start: those of the longest text.
const STEPS_AHEAD: usize = 4_096;

/// Makes room for the steps of a long session, which the system gives as it is used: lists that
/// grow are copied. Where it is refused, each step asks for its own.
fn reserve_ahead(session: &mut Session)
    ensures { session.new ≡ session.old }
{
    let _room = session.reserve(STEPS_AHEAD);
}
