//! What a process does about each signal.
ghost use Rattle.std.specs.Prelude.{◌≡◌, length, replicate, slice_index_or, slice_set};
ghost use Rattle.tx_model.specs.Deliveries.{action_at};
ghost use Rattle.tx_model.specs.Words.{is_fatal, is_ignored};
ghost use Rattle.tx_model.specs.Signals.{is_bad_action, maskable_action};
ghost use Rattle.tx_model.specs.State.{Process};
ghost use Rattle.tx_signal.specs.Parts.{with_actions};

use crate::sets::maskable;
use std::marker::Model;
use std::mem;
use tx_base::{Action, LAST_POINT, SIGCHLD, SIGNALS, Signo};

/// What a process does about each signal of numbers 0 to 39. Contracts see the list of the actions.
#[derive(Drop)]
pub struct Actions {
    actions: [Action; SIGNALS],
}

impl Model for Actions {
    ghost use Rattle.std.specs.Prelude.{◌≡◌, List, length};
    ghost use Rattle.tx_base.specs.declared.signals.Action.{Action as Act};

    ghost Value = { List Act };

    ghost view = { λ actions. actions.actions };

    ghost invariant = { λ actions. length actions.actions ≡ 40 };
}

impl Actions {
    /// The usual action at each signal, as a booted process has it. Own rule.
    pub fn new() -> Actions
        ensures { result ≡ replicate 40 Action.Usual }
    {
        Actions {
            actions: [Action::Usual; SIGNALS],
        }
    }

    /// The actions of the signals 0 to 39, in this order.
    pub fn all(&self) -> &[Action]
        ensures whole { result.now ≡ self.now }
        ensures size { length self.now ≡ 40 }
    {
        &self.actions
    }

    /// The action of a signal; of a number over 39 the usual one.
    pub fn get(&self, signo: Signo) -> Action
        ensures { (me : Process) → result ≡ action_at signo.0 (with_actions self.now me) }
    {
        let actions = &self.actions;
        if signo.0 as usize >= SIGNALS {
            return Action::Usual;
        }
        actions[signo.0 as usize]
    }

    /// Sets the action of a signal: its mask drops SIGKILL and the numbers that are
    /// not known. A number over 39 changes nothing. POSIX.1-2017, XSH, sigaction().
    pub fn set(&mut self, signo: Signo, action: Action)
        ensures { self.new ≡ slice_set self.old signo.0 (maskable_action action) }
    {
        if (signo.0 as usize) < SIGNALS {
            self.actions[signo.0 as usize] = maskable_action(action);
        }
    }

    /// Whether the process ignores the signal. POSIX.1-2017, XSH, Signal Actions.
    pub fn ignores(&self, signo: Signo) -> bool
        ensures { (me : Process) →
            result ≡ is_ignored signo.0 (action_at signo.0 (with_actions self.now me)) }
    {
        is_ignored(signo, self.get(signo))
    }

    /// Whether a delivery of the signal ends the process. POSIX.1-2017, XSH, Signal Actions.
    pub fn is_fatal(&self, signo: Signo) -> bool
        ensures { (me : Process) →
            result ≡ is_fatal signo.0 (action_at signo.0 (with_actions self.now me)) }
    {
        is_fatal(signo, self.get(signo))
    }

    /// An equal value. POSIX.1-2017, XSH, fork(): the child has the actions of its parent.
    pub fn copy(&self) -> Actions
        ensures { result ≡ self.now }
    {
        Actions {
            actions: self.actions,
        }
    }

    /// Exchanges the action of a signal; at a number over 39 nothing is changed. A second exchange
    /// takes the first one back. Own rule.
    pub fn swap(&mut self, signo: Signo, action: &mut Action)
        ensures exchanged { self.new ≡ slice_set self.old signo.0 action.old }
        ensures given { action.new ≡ slice_index_or self.old signo.0 action.old }
    {
        if (signo.0 as usize) < SIGNALS {
            mem::swap(&mut self.actions[signo.0 as usize], action);
        }
    }
}

/// Whether a signal with this action is ignored: SIGCHLD is at the usual one. POSIX.1-2017, XSH,
/// Signal Actions.
pub fn is_ignored(signo: Signo, action: Action) -> bool
    ensures { result ≡ is_ignored signo.0 action }
{
    match action {
        Action::Usual => signo == SIGCHLD,
        Action::Ignore => true,
        Action::Catch { .. } => false,
    }
}

/// Whether a delivery of the signal ends a process with this action: the usual one does, except at
/// SIGCHLD. POSIX.1-2017, XSH, Signal Actions.
pub fn is_fatal(signo: Signo, action: Action) -> bool
    ensures { result ≡ is_fatal signo.0 action }
{
    match action {
        Action::Usual => signo != SIGCHLD,
        Action::Ignore => false,
        Action::Catch { .. } => false,
    }
}

/// Whether the point of a catch is out of range: over 65,535. Own rule.
pub fn is_bad(action: Action) -> bool
    ensures { result ≡ is_bad_action action }
{
    match action {
        Action::Usual => false,
        Action::Ignore => false,
        Action::Catch { point, .. } => point > LAST_POINT,
    }
}

/// The action as it is set: its mask holds neither SIGKILL nor a number that is not known. Own
/// rule.
pub fn maskable_action(action: Action) -> Action
    ensures { result ≡ maskable_action action }
{
    match action {
        Action::Usual => Action::Usual,
        Action::Ignore => Action::Ignore,
        Action::Catch { point, mask } => Action::Catch {
            point,
            mask: maskable(mask),
        },
    }
}
