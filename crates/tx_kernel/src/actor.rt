//! The process that makes a step.
ghost use Rattle.std.specs.Prelude.{◌≡◌, ℕ, List, IfOk, IfErr};
ghost use Rattle.tx_change.specs.States.{state_of};
ghost use Rattle.tx_kernel.specs.Actors.{IsActor, IsWhole, inside_of};
ghost use Rattle.tx_model.specs.Effects.{idle};
ghost use Rattle.tx_model.specs.Events.{effect_at};
ghost use Rattle.tx_model.specs.Forms.{Page};
ghost use Rattle.tx_model.specs.State.{Sending};

use crate::inside::Inside;
use tx_base::{Pid, Refusal};
use tx_change::Parts;
use tx_proc::Proc;

/// The process that makes a call or takes a signal, in the kernel as it is.
#[derive(Clone, Copy)]
pub struct Actor<'a> {
    pub parts: &'a Parts,
    pub pid: Pid,
    /// What the process number has.
    pub proc: &'a Proc,
    /// The transaction that the step is made inside, if any.
    pub inside: Option<Inside<'a>>,
}

impl<'a> Actor<'a> {
    /// The process of a number, to make a step.
    ///
    /// NoProcess where the number has none; NotRunning where it has ended.
    pub fn at(parts: &'a Parts, pid: Pid, inside: Option<Inside<'a>>) -> Result<Actor<'a>, Refusal>
        requires { IsWhole parts.now }
        ensures ok { IfOk result (λ actor. IsActor actor) }
        ensures same { IfOk result (λ actor.
            (actor.parts.now ≡ parts.now) × (actor.pid ≡ pid) × (actor.inside ≡ inside.entry)) }
        ensures refused { IfErr result (λ why.
            (page : Page) (held : ℕ → List Sending) →
            effect_at (inside_of inside.entry) pid.0 page (state_of held parts.now) ≡ idle why) }
    {
        let Some(proc) = parts.proc(pid) else {
            return Err(Refusal::NoProcess);
        };
        if proc.status.is_some() {
            return Err(Refusal::NotRunning);
        }
        Ok(Actor {
            parts,
            pid,
            proc,
            inside,
        })
    }
}
