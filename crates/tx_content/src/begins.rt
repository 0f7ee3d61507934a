//! The first step of a transaction.
ghost use Rattle.std.specs.Prelude.{◌≡◌, false, pos, IfOk, OnErr, OnOk};
ghost use Rattle.tx_base.specs.Slots.{slot_at};
ghost use Rattle.tx_change.specs.Exchange.{AreNamed};
ghost use Rattle.tx_kernel.specs.Actors.{IsWhole};
ghost use Rattle.tx_kernel.specs.declared.planned.Outcome.TheVariants.{Done};
ghost use Rattle.tx_content.specs.Begins.{is_only, IsAlone, IsBegun, Starts};
ghost use Rattle.tx_content.specs.Content.{content_of, IsShaped};
ghost use Rattle.tx_content.specs.Made.{Answers, IsMade, IsRunning};
ghost use Rattle.tx_model.specs.Events.{Note};
ghost use Rattle.tx_model.specs.Membership.{Begins, Within};
ghost use Rattle.tx_model.specs.State.{Object as TheObject};
ghost use Rattle.tx_reserve.specs.Objects.{is_in};
ghost use Rattle.tx_txn.specs.Content.{IsKept};

use crate::content::{BoxedTxn, Content};
use crate::inverse::Inverse;
use crate::laws::laws;
use crate::planning::{Runner, plan};
use crate::table::TxnTable;
use std::alloc::Global;
use tx_base::{Mark, NoMemory, Pid};
use tx_change::Parts;
use tx_kernel::{Act, Sends};
use tx_reserve::{Object, Objects, Reservations};
use tx_txn::Txn;

impl Content {
    /// Begins a transaction of a process that runs, is in none and that nobody owns: it is answered
    /// 0, and is the only member. Puts the inverse into its place.
    ///
    /// NoMemory where a growth is refused; the content is then as it was.
    pub fn begin(
        &mut self,
        alloc: Global,
        pid: Pid,
        defers: bool,
        inverse: &mut Inverse,
    ) -> Result<(), NoMemory>
        requires shaped { IsShaped self.old }
        requires kept { IsKept (content_of self.old) }
        requires whole { IsWhole self.old.parts }
        requires running { IsRunning (slot_at self.old.parts.procs pid.0) }
        requires alone { IsAlone self.old pid.0 }
        ensures made { OnOk result
            (IsMade self.old (Within pid.0 (Begins defers)) (Note pid.0 (pos 0)) pid.0 self.new
            inverse.new) }
        ensures answer { OnOk result
            (Answers self.old (Note pid.0 (pos 0)) pid self.new (Done (pos 0))) }
        ensures err { OnErr result (self.new ≡ self.old) }
    {
        laws();
        let mut boxed = begun(alloc, &self.parts, &mut self.txns, pid, defers)?;
        start(&mut boxed.txn, &mut self.parts, &mut self.owners);
        let mark = Mark {
            starter: pid,
            ended: false,
            defers,
        };
        self.marks.put(pid, mark);
        self.txns.put(pid, boxed);
        self.put_inverse(inverse, Inverse::Begun { starter: pid });
        Ok(())
    }
}

/// The transaction that a process begins, with the plan of its first step in the log.
///
/// NoMemory where a growth is refused.
fn begun(
    alloc: Global,
    parts: &Parts,
    txns: &mut TxnTable,
    pid: Pid,
    defers: bool,
) -> Result<BoxedTxn, NoMemory>
    requires whole { IsWhole parts.now }
    requires running { IsRunning (slot_at parts.now.procs pid.0) }
    ensures boxed { IfOk result (λ boxed. IsBegun parts.now pid defers boxed.txn.value) }
    ensures table { txns.new ≡ txns.old }
{
    let proc = parts.proc(pid).unwrap();
    let mut boxed = txns.fresh(alloc, pid, defers, proc)?;
    let runner = Runner { pid, inside: None };
    let answer = Act::Answer(0);
    let mut sends = Sends::Nothing;
    match plan(
        alloc,
        parts,
        runner,
        &answer,
        &mut boxed.txn.log,
        &mut sends,
    ) {
        Ok(_outcome) => Ok(boxed),
        Err(_memory) => Err(NoMemory),
    }
}

/// Makes the first step of a transaction, which reserves its starter.
fn start(txn: &mut Txn, parts: &mut Parts, owners: &mut Reservations)
    requires named { AreNamed parts.old txn.old.log }
    requires nothing { (o : TheObject) → is_in txn.old.objects o ≡ false }
    ensures { Starts parts.old parts.new owners.old owners.new txn.old txn.new }
{
    txn.log.lead_forward(parts);
    let objects = only(txn.starter);
    let _none = txn.reserve(owners, &objects);
    owners.sized();
}

/// The set of one process.
fn only(pid: Pid) -> Objects
    ensures { (o : TheObject) → is_in result o ≡ is_only pid.0 o }
{
    let mut objects = Objects::new();
    objects.insert(Object::Proc(pid));
    objects
}
