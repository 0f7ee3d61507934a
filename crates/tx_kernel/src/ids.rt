//! The calls on the numbers and the ids of their process.
ghost use Rattle.std.specs.Prelude.{◌≡◌, pos, IfOk, OnErr};
ghost use Rattle.tx_cred.specs.Cred.{ids_of};
ghost use Rattle.tx_kernel.specs.Actors.{effect_by};
ghost use Rattle.tx_kernel.specs.Own.{ComesTo, PlansOwn};
ghost use Rattle.tx_kernel.specs.Plans.{Extends};
ghost use Rattle.tx_model.specs.Book.{setegid, seteuid, setgid, setuid, with_ids};
ghost use Rattle.tx_model.specs.Forms.{Rule, answers};

use crate::actor::Actor;
use crate::planned::Outcome;
use tx_base::NoMemory;
use tx_change::Log;
use tx_cred::Cred;
use tx_proc::Part;

impl Actor<'_> {
    /// Answers the number of the process (POSIX.1-2017, XSH, getpid()).
    pub(crate) fn plan_getpid(&self, log: &mut Log) -> Result<Outcome, NoMemory>
        ensures ok { IfOk result (λ outcome. PlansOwn self.now log.old log.new outcome
            (effect_by self.now (λ c. answers (pos c.number)))) }
        ensures err { OnErr result (log.new ≡ log.old) }
    {
        self.plan_natural(self.pid.0, log)
    }

    /// Answers the number of the parent, 0 for process 1 (POSIX.1-2017, XSH, getppid()).
    pub(crate) fn plan_getppid(&self, log: &mut Log) -> Result<Outcome, NoMemory>
        ensures ok { IfOk result (λ outcome. PlansOwn self.now log.old log.new outcome
            (effect_by self.now (λ c. answers (pos c.process.parent)))) }
        ensures err { OnErr result (log.new ≡ log.old) }
    {
        self.plan_natural(self.proc.parent.0, log)
    }

    /// Sets the user's ids (POSIX.1-2017, XSH, setuid()).
    pub(crate) fn plan_setuid(&self, user: i64, log: &mut Log) -> Result<Outcome, NoMemory>
        ensures ok { IfOk result (λ outcome. PlansOwn self.now log.old log.new outcome
            (effect_by self.now (setuid user))) }
        ensures err { OnErr result (Extends log.old log.new) }
    {
        let mut cred = self.proc.cred;
        match cred.setuid(user) {
            Ok(()) => self.plan_ids(cred, log),
            Err(errno) => self.plan_error(errno, log),
        }
    }

    /// Sets the effective user (POSIX.1-2017, XSH, seteuid()).
    pub(crate) fn plan_seteuid(&self, user: i64, log: &mut Log) -> Result<Outcome, NoMemory>
        ensures ok { IfOk result (λ outcome. PlansOwn self.now log.old log.new outcome
            (effect_by self.now (seteuid user))) }
        ensures err { OnErr result (Extends log.old log.new) }
    {
        let mut cred = self.proc.cred;
        match cred.seteuid(user) {
            Ok(()) => self.plan_ids(cred, log),
            Err(errno) => self.plan_error(errno, log),
        }
    }

    /// Sets the group's ids (POSIX.1-2017, XSH, setgid()).
    pub(crate) fn plan_setgid(&self, group: i64, log: &mut Log) -> Result<Outcome, NoMemory>
        ensures ok { IfOk result (λ outcome. PlansOwn self.now log.old log.new outcome
            (effect_by self.now (setgid group))) }
        ensures err { OnErr result (Extends log.old log.new) }
    {
        let mut cred = self.proc.cred;
        match cred.setgid(group) {
            Ok(()) => self.plan_ids(cred, log),
            Err(errno) => self.plan_error(errno, log),
        }
    }

    /// Sets the effective group (POSIX.1-2017, XSH, setegid()).
    pub(crate) fn plan_setegid(&self, group: i64, log: &mut Log) -> Result<Outcome, NoMemory>
        ensures ok { IfOk result (λ outcome. PlansOwn self.now log.old log.new outcome
            (effect_by self.now (setegid group))) }
        ensures err { OnErr result (Extends log.old log.new) }
    {
        let mut cred = self.proc.cred;
        match cred.setegid(group) {
            Ok(()) => self.plan_ids(cred, log),
            Err(errno) => self.plan_error(errno, log),
        }
    }

    /// Plans only a number that is not negative as the answer.
    fn plan_natural(&self, number: u16, log: &mut Log) -> Result<Outcome, NoMemory>
        ensures ok { IfOk result (λ outcome. PlansOwn self.now log.old log.new outcome
            (effect_by self.now (λ c. answers (pos number)))) }
        ensures err { OnErr result (log.new ≡ log.old) }
    {
        self.plan_answer(number as i64, log)
    }

    /// Plans these ids, and the answer 0.
    fn plan_ids(&self, cred: Cred, log: &mut Log) -> Result<Outcome, NoMemory>
        ensures page { (page : Rule) → ComesTo self.now page (with_ids (ids_of cred)) →
            IfOk result (λ outcome.
            PlansOwn self.now log.old log.new outcome (effect_by self.now page)) }
        ensures err { OnErr result (Extends log.old log.new) }
    {
        self.plan_part(Part::Cred(cred), 0, log)
    }
}
