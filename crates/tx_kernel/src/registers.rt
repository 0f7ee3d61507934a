//! The calls on the registers of their process, and the console.
ghost use Rattle.std.specs.Prelude.{◌≡◌, ◌≤◌, true, pos, IfOk, OnErr};
ghost use Rattle.tx_base.specs.declared.steps.Reply.TheVariants as reply;
ghost use Rattle.tx_kernel.specs.Actors.{effect_by};
ghost use Rattle.tx_kernel.specs.Own.{PlansOwn};
ghost use Rattle.tx_kernel.specs.Plans.{Extends};
ghost use Rattle.tx_model.specs.Book.{console_write, jump, keep, is_jump_taken};
ghost use Rattle.tx_model.specs.Effects.{with_answer};
ghost use Rattle.tx_model.specs.Forms.{stands};
ghost use Rattle.tx_model.specs.Memory.{address_of, bytes_at, is_good, is_mapped};

use crate::actor::Actor;
use crate::planned::{Outcome, Shown};
use tx_base::{
    ADDRESSES, CLOSED_INSIDE, CONSOLE_BYTES, Errno, LAST_POINT, NoMemory, SLOTS, When, number_below,
};
use tx_change::Log;
use tx_pages::Access;
use tx_proc::{Answer, Part, Register};

impl Actor<'_> {
    /// Goes on at another point; the last answer stays. Own rule.
    ///
    /// EINVAL where the point is over 65,535.
    pub(crate) fn plan_jump(
        &self,
        point: u32,
        when: When,
        log: &mut Log,
    ) -> Result<Outcome, NoMemory>
        ensures ok { IfOk result (λ outcome. PlansOwn self.now log.old log.new outcome
            (effect_by self.now (jump point when))) }
        ensures err { OnErr result (Extends log.old log.new) }
    {
        let ret = self.proc.regs.ret;
        if point > LAST_POINT {
            return self.plan_error(Errno::InvalidArgument, log);
        }
        if !does_jump(when, ret) {
            return self.plan_answer(ret, log);
        }
        log.push_answer(self.pid, Answer { point, ret })?;
        Ok(Outcome::Done(ret))
    }

    /// Keeps the last answer in a slot; it stays. Own rule.
    ///
    /// EINVAL where the slot is not 0 to 7.
    pub(crate) fn plan_keep(&self, slot: i64, log: &mut Log) -> Result<Outcome, NoMemory>
        ensures ok { IfOk result (λ outcome. PlansOwn self.now log.old log.new outcome
            (effect_by self.now (keep slot))) }
        ensures err { OnErr result (Extends log.old log.new) }
    {
        let ret = self.proc.regs.ret;
        let Some(number) = number_below(SLOTS, slot) else {
            return self.plan_error(Errno::InvalidArgument, log);
        };
        self.push(Part::Register(Register { number, value: ret }), log)?;
        self.push_answer(ret, log)?;
        Ok(Outcome::Done(ret))
    }

    /// Shows this many bytes at an address. Own rule.
    ///
    /// -200 inside a transaction. EINVAL where the count is not 0 to 64, EFAULT where the bytes may
    /// not be read.
    pub(crate) fn plan_console_write(
        &self,
        address: i64,
        count: i64,
        log: &mut Log,
    ) -> Result<Outcome, NoMemory>
        ensures ok { IfOk result (λ outcome. PlansOwn self.now log.old log.new outcome
            (effect_by self.now (console_write address count))) }
        ensures err { OnErr result (Extends log.old log.new) }
    {
        if self.inside.is_some() {
            return self.plan_answer(-(CLOSED_INSIDE as i64), log);
        }
        let Some(count) = number_below(CONSOLE_BYTES + 1, count) else {
            return self.plan_error(Errno::InvalidArgument, log);
        };
        if !self.proc.space.is_good(Access::Read, address, count) {
            return self.plan_error(Errno::BadAddress, log);
        }
        self.plan_shown(address, count, log)
    }

    /// Plans to show bytes that may be read.
    fn plan_shown(&self, address: i64, count: usize, log: &mut Log) -> Result<Outcome, NoMemory>
        requires few { count ≤ 64 }
        requires good { is_good is_mapped self.now.proc.now.space address count ≡ true }
        ensures ok { IfOk result (λ outcome. PlansOwn self.now log.old log.new outcome
            (effect_by self.now (λ c. stands (with_answer (pos count) c.process)
            (reply.Out (record { items = bytes_at c.process.memory (address_of address) count }))))) }
        ensures err { OnErr result (Extends log.old log.new) }
    {
        let address = number_below(ADDRESSES, address).unwrap_or(0);
        self.push_answer(count as i64, log)?;
        Ok(Outcome::Out(Shown { address, count }))
    }
}

/// Whether a jump is made when this is the last answer.
fn does_jump(when: When, ret: i64) -> bool
    ensures { result ≡ is_jump_taken when ret }
{
    match when {
        When::Always => true,
        When::IfRet(value) => ret == value,
    }
}
