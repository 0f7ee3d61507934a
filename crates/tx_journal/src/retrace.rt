//! A kernel that makes the steps of a history once more.
ghost use Rattle.std.specs.Prelude.{◌≡◌, ◌≤◌, ◌∷◌, [], List, IfOk, OnOk};
ghost use Rattle.tx_base.specs.declared.steps.Accepted.{Accepted};
ghost use Rattle.tx_base.specs.declared.steps.Reply.{Reply as TheReply};
ghost use Rattle.tx_step.specs.Contents.{IsContent};
ghost use Rattle.tx_content.specs.Content.{view_of};
ghost use Rattle.tx_model.specs.Answer.{Lawful};
ghost use Rattle.tx_model.specs.State.{State, boot_state};
ghost use Rattle.tx_model.specs.View.{next, view};
ghost use Rattle.tx_journal.specs.Notes.{IsNoteOf};

use crate::notes::{Note, note_of};
use crate::retrace_laws::laws;
use std::alloc::Global;
use std::marker::Model;
use tx_base::{NoMemory, Step};
use tx_content::{Content, Inverse};
use tx_step::{take_call, take_delivery, take_kernel_abort};

/// A kernel that makes the steps of a history once more, and takes none back.
#[derive(Drop)]
pub struct Retrace {
    content: Content,
}

impl Model for Retrace {
    ghost use Rattle.tx_step.specs.Contents.{IsContent};
    ghost use Rattle.tx_content.specs.declared.content.Content.{Content as TheContent};

    ghost Value = { TheContent };

    ghost view = { λ retrace. retrace.content };

    ghost invariant = { λ retrace. IsContent retrace.content };
}

impl Retrace {
    /// A kernel with this many process numbers, of which the first few run, before the first step.
    ///
    /// NoMemory where a growth is refused.
    pub fn boot(alloc: Global, width: u16, count: u16) -> Result<Retrace, NoMemory>
        requires low { 1 ≤ count }
        requires high { count ≤ width }
        requires width { width ≤ 256 }
        ensures view { IfOk result (λ retrace. view_of retrace ≡ view (boot_state width count) []) }
    {
        laws();
        let content = Content::boot(alloc, width, count)?;
        Ok(Retrace { content })
    }

    /// Makes the next step of a history, and answers what the step is to its transaction.
    ///
    /// NoMemory where a growth is refused. A step that the kernel refuses is in no history, and has
    /// the same answer.
    pub fn next(&mut self, alloc: Global, step: &Step) -> Result<Note, NoMemory>
        ensures note { IfOk result (λ note.
            (start : State) (earlier : List Accepted) (reply : TheReply) →
            Lawful start (record { step = step.now; reply = reply } ∷ earlier) →
            view_of self.old ≡ view start earlier →
            IsNoteOf start (record { step = step.now; reply = reply }) earlier note) }
        ensures view { OnOk result ((start : State) (earlier : List Accepted) (reply : TheReply) →
            Lawful start (record { step = step.now; reply = reply } ∷ earlier) →
            view_of self.old ≡ view start earlier →
            view_of self.new ≡ view start (record { step = step.now; reply = reply } ∷ earlier)) }
    {
        laws();
        let Some(note) = note_of(&self.content, step) else {
            return Err(NoMemory);
        };
        let mut inverse = Inverse::blank();
        make(&mut self.content, alloc, step, &mut inverse)?;
        Ok(note)
    }
}

/// Makes a step, and puts its inverse into its place.
///
/// NoMemory where a growth is refused, or something else refuses the step.
fn make(
    content: &mut Content,
    alloc: Global,
    step: &Step,
    inverse: &mut Inverse,
) -> Result<(), NoMemory>
    requires { IsContent content.old }
    ensures made { OnOk result (view_of content.new ≡ next (view_of content.old) step.now) }
    ensures content { IsContent content.new }
{
    match step {
        Step::Call(pid, call) => match take_call(content, alloc, *pid, call, inverse) {
            Ok(_) => Ok(()),
            Err(_) => Err(NoMemory),
        },
        Step::Deliver(pid, signo) => match take_delivery(content, alloc, *pid, *signo, inverse) {
            Ok(_) => Ok(()),
            Err(_) => Err(NoMemory),
        },
        Step::KernelAbort(starter) => match take_kernel_abort(content, *starter, inverse) {
            Some(_) => Ok(()),
            None => Err(NoMemory),
        },
    }
}
