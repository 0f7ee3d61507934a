//! Steps outside transactions.
ghost use Rattle.std.specs.Prelude.{◌≡◌, [], None, IfErr, IfOk, OnErr, OnOk};
ghost use Rattle.tx_base.specs.Slots.{slot_at};
ghost use Rattle.tx_kernel.specs.Actors.{IsWhole};
ghost use Rattle.tx_kernel.specs.Acts.{event_of};
ghost use Rattle.tx_content.specs.Content.{content_of, IsShaped};
ghost use Rattle.tx_content.specs.Inverses.{IsFresh};
ghost use Rattle.tx_content.specs.Made.{Answers, IsMade, IsRunning, IsUnowned, RefusesStep};
ghost use Rattle.tx_model.specs.Membership.{Outside};
ghost use Rattle.tx_txn.specs.Content.{IsKept};

use crate::content::Content;
use crate::inverse::Inverse;
use crate::kept_posts::{KeptPost, post_sends};
use crate::laws::laws;
use crate::planning::{Runner, plan};
use std::alloc::Global;
use tx_base::{Pid, Refusal};
use tx_change::Log;
use tx_kernel::{Act, Outcome, Sends};

impl Content {
    /// Makes the act of a process that runs and is in no transaction. Answers its outcome, and puts
    /// the inverse into its place: if the inverse of another step outside is there, its log's room
    /// is used again.
    ///
    /// Refuses as its plan does; the content is then as it was.
    pub fn make_outside(
        &mut self,
        alloc: Global,
        pid: Pid,
        act: &Act,
        inverse: &mut Inverse,
    ) -> Result<Outcome, Refusal>
        requires shaped { IsShaped self.old }
        requires whole { IsWhole self.old.parts }
        requires running { IsRunning (slot_at self.old.parts.procs pid.0) }
        requires kept { IsKept (content_of self.old) }
        requires unowned { IsUnowned self.old None (event_of None pid act.now) }
        ensures made { OnOk result
            (IsMade self.old Outside (event_of None pid act.now) pid.0 self.new inverse.new) }
        ensures answer { IfOk result (λ outcome.
            Answers self.old (event_of None pid act.now) pid self.new outcome) }
        ensures refused { IfErr result (RefusesStep self.old (event_of None pid act.now)) }
        ensures err { OnErr result (self.new ≡ self.old) }
    {
        self.put_fresh(alloc, inverse);
        let Inverse::Outside { log, post } = inverse else {
            unreachable!();
        };
        self.make_logged(alloc, pid, act, log, post)
    }

    /// Puts an inverse of a step outside with an empty log into a place: with the room of the log
    /// that is there, or else with that of an earlier one, if some was kept. It takes no memory,
    /// and the content stays as it is.
    #[inline(always)] // each step outside puts one
    fn put_fresh(&mut self, alloc: Global, place: &mut Inverse)
        ensures content { self.new ≡ self.old }
        ensures fresh { IsFresh place.new }
    {
        if let Inverse::Outside { log, .. } = place {
            log.truncate(0);
            return;
        }
        let log = self.txns.fresh_log(alloc);
        self.put_inverse(place, Inverse::Outside { log, post: None });
    }

    /// Makes the act of a process that runs and is in no transaction, with an empty log. Puts the
    /// changes that take it back into the log, and what takes back its post to what is kept of a
    /// starter into its place. Refuses as the plan does; the content is then as it was.
    #[inline(always)] // a call of its own costs each step outside 25
    fn make_logged(
        &mut self,
        alloc: Global,
        pid: Pid,
        act: &Act,
        log: &mut Log,
        post: &mut Option<KeptPost>,
    ) -> Result<Outcome, Refusal>
        requires shaped { IsShaped self.old }
        requires whole { IsWhole self.old.parts }
        requires running { IsRunning (slot_at self.old.parts.procs pid.0) }
        requires kept { IsKept (content_of self.old) }
        requires unowned { IsUnowned self.old None (event_of None pid act.now) }
        requires empty { log.old ≡ [] }
        ensures made { OnOk result
            (IsMade self.old Outside (event_of None pid act.now) pid.0 self.new
            (Inverse.Outside log.new post.new)) }
        ensures answer { IfOk result (λ outcome.
            Answers self.old (event_of None pid act.now) pid self.new outcome) }
        ensures refused { IfErr result (RefusesStep self.old (event_of None pid act.now)) }
        ensures err { OnErr result (self.new ≡ self.old) }
    {
        laws();
        let mut sends = Sends::Nothing;
        let runner = Runner { pid, inside: None };
        let outcome = plan(alloc, &self.parts, runner, act, log, &mut sends)?;
        log.lead_forward(&mut self.parts);
        *post = post_sends(&mut self.txns, &sends);
        Ok(outcome)
    }
}
