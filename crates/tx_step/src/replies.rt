//! The replies to accepted steps.
ghost use Rattle.std.specs.Option.{option_copied};
ghost use Rattle.std.specs.Prelude.{◌≡◌, ◌≤◌, ◌<◌, ◌+◌, ◌++◌, ℕ, [], Some, length};
ghost use Rattle.tx_base.specs.declared.steps.Reply.TheVariants.{Committed, Done, Out};
ghost use Rattle.tx_base.specs.Slots.{slot_at};
ghost use Rattle.tx_change.specs.Laws.{HasPlaces};
ghost use Rattle.tx_kernel.specs.Plans.{memory_in};
ghost use Rattle.tx_model.specs.Memory.{bytes_from};
ghost use Rattle.tx_proc.specs.Parts.{process_in};
ghost use Rattle.tx_step.specs.Steps.{FitsReply, replied};
ghost use Rattle.tx_txn.specs.Outboxes.{missed_in};

use crate::answered::Answered;
use arrayvec::ArrayVec;
use tx_base::{ADDRESSES, Pid, Reply};
use tx_content::{Content, Inverse};
use tx_kernel::{Outcome, Shown};
use tx_proc::Proc;
use tx_txn::Outbox;

/// Puts the reply to an accepted step of a process into its place, by what the step was answered
/// and its inverse. A reply is large, so it is made there and not moved.
pub fn put_reply(
    reply: &mut Reply,
    content: &Content,
    pid: Pid,
    answered: Answered,
    inverse: &Inverse,
)
    requires places { HasPlaces (slot_at content.now.parts.procs pid.0) }
    requires fits { FitsReply (replied content.now pid.0 inverse.now answered) }
    ensures { reply.new ≡ replied content.now pid.0 inverse.now answered }
{
    match answered {
        Answered::Acted(outcome) => match outcome {
            Outcome::Done(ret) => put_done(reply, ret),
            Outcome::Ended => *reply = Reply::Ended,
            Outcome::Out(shown) => put_shown(reply, content.parts.proc(pid), shown),
        },
        Answered::Committed => match inverse {
            Inverse::Committed { boxed, .. } => put_committed(reply, &boxed.txn.outbox),
            _ => put_committed_alone(reply),
        },
        Answered::Aborted(status) => *reply = Reply::Aborted(status),
    }
}

/// Puts the reply to a call that was done. Most replies are such: after another of them only the
/// answer is written.
fn put_done(reply: &mut Reply, answer: i64)
    ensures { reply.new ≡ Done answer }
{
    match reply {
        Reply::Done(before) => *before = answer,
        _ => *reply = Reply::Done(answer),
    }
}

/// Puts the reply to a commit, with the signals that it held and could not deliver.
#[inline(never)] // inlined, it would have room for its list made for every reply
fn put_committed(reply: &mut Reply, outbox: &Outbox)
    requires few { length (missed_in outbox.now.sendings outbox.now.posts) ≤ 33 }
    ensures { reply.new ≡ Committed
        (record { items = missed_in outbox.now.sendings outbox.now.posts }) }
{
    *reply = Reply::Committed {
        undelivered: outbox.undelivered(),
    };
}

/// Puts the reply to a commit that held nothing.
#[inline(never)] // as for `put_committed`
fn put_committed_alone(reply: &mut Reply)
    ensures { reply.new ≡ Committed (record { items = [] }) }
{
    *reply = Reply::Committed {
        undelivered: ArrayVec::new(),
    };
}

/// Puts the reply that shows bytes of a process's memory, 0 where no page is mapped.
#[inline(never)] // as for `put_committed`
fn put_shown(reply: &mut Reply, proc: Option<&Proc>, shown: Shown)
    requires places { HasPlaces (option_copied proc) }
    requires few { shown.count ≤ 64 }
    ensures { reply.new ≡ Out
        (record {
          items = bytes_from (memory_in (process_in (option_copied proc.entry)))
              shown.address shown.count;
        }) }
{
    *reply = Reply::Out(shown_bytes(proc, shown));
}

/// The bytes to show of a process's memory, 0 where no page is mapped.
fn shown_bytes(proc: Option<&Proc>, shown: Shown) -> ArrayVec<u8, 64>
    requires places { HasPlaces (option_copied proc) }
    requires few { shown.count ≤ 64 }
    ensures { result ≡ record {
      items = bytes_from
          (memory_in (process_in (option_copied proc.entry))) shown.address shown.count;
    } }
{
    let start = shown.address.min(ADDRESSES); // what is above is no address either
    let mut bytes = ArrayVec::new();
    let mut done = 0;
    while done < shown.count {
        done += push_part(proc, start + done, shown.count - done, &mut bytes);
    }
    bytes
}

/// Appends the bytes of a process's memory from an address on, up to the end of its page, but at
/// most this many: 0 where no page is mapped. Appends one 0 if that is no address, or there is no
/// process. Answers how many.
fn push_part(
    proc: Option<&Proc>,
    address: usize,
    most: usize,
    bytes: &mut ArrayVec<u8, 64>,
) -> usize
    requires places { HasPlaces (option_copied proc) }
    requires some { 0 < most }
    requires room { length bytes.old.items + most ≤ 64 }
    ensures some { 0 < result }
    ensures few { result ≤ most }
    ensures long { length bytes.new.items ≡ length bytes.old.items + result }
    ensures rest { (n : ℕ) →
        bytes.old.items ++ bytes_from
        (memory_in (process_in (option_copied proc.entry))) address (result + n)
        ≡ bytes.new.items ++ bytes_from
        (memory_in (process_in (option_copied proc.entry))) (address + result) n }
{
    match proc {
        Some(proc) if address < ADDRESSES => {
            let part = proc.space.part(address, most);
            let _fits = bytes.try_extend_from_slice(part);
            part.len()
        }
        _ => {
            let _fits = bytes.try_push(0);
            1
        }
    }
}
