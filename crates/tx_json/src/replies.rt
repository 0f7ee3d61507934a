//! Appends replies.
ghost use Rattle.std.specs.Prelude.{◌≡◌, ◌++◌, OnOk, codes};
ghost use Rattle.tx_json.specs.Members.{list_member};
ghost use Rattle.tx_json.specs.Each.{each_tokens};
ghost use Rattle.tx_json.specs.Replies.{error_members, missed_tokens, refusal_members, reply_members};
ghost use Rattle.tx_state_text.specs.Replies.{error_name};

use crate::line::LineWriter;
use crate::members::{
    begin_list, begin_object, end_list, end_object, put_bytes, put_count, put_number, put_word,
};
use std::alloc::{AllocError, Global};
use tx_base::{Missed, Refusal, Reply};
use tx_lines::refusal_word;
use tx_state_text::error_name;

/// Appends the members that say what a step was answered. The only error is that a growth of memory
/// was refused: the writer may then end in some of them.
pub fn put_reply(alloc: Global, writer: &mut LineWriter, reply: &Reply) -> Result<(), AllocError>
    ensures { OnOk result (writer.new ≡ writer.old ++ reply_members reply.now) }
{
    match reply {
        Reply::Done(ret) => {
            put_word(writer, "reply", "ok")?;
            put_number(writer, "ret", *ret)?;
            put_error(writer, *ret)
        }
        Reply::Ended => put_word(writer, "reply", "ended"),
        Reply::Committed { undelivered } => {
            put_word(writer, "reply", "committed")?;
            put_undelivered(writer, undelivered.as_slice())
        }
        Reply::Aborted(status) => {
            put_word(writer, "reply", "aborted")?;
            put_count(writer, "status", u64::from(*status))
        }
        Reply::Out(bytes) => {
            put_word(writer, "reply", "out")?;
            put_bytes(alloc, writer, "bytes", bytes.as_slice())
        }
        Reply::No(refusal) => put_refusal(writer, *refusal),
    }
}

/// Appends the name of the error that a call returns as this number, if it is an error's.
fn put_error(writer: &mut LineWriter, ret: i64) -> Result<(), AllocError>
    ensures { OnOk result (writer.new ≡ writer.old ++ error_members (error_name ret)) }
{
    match error_name(ret) {
        Some(name) => put_word(writer, "error", name),
        None => Ok(()),
    }
}

/// Appends the held sends that could not be delivered, in order.
fn put_undelivered(writer: &mut LineWriter, undelivered: &[Missed]) -> Result<(), AllocError>
    ensures { OnOk result (writer.new ≡ writer.old
        ++ list_member (codes "undelivered") (each_tokens missed_tokens undelivered.now)) }
{
    begin_list(writer, "undelivered")?;
    for i in 0..undelivered.len() {
        put_missed(writer, &undelivered[i])?;
    }
    end_list(writer)
}

/// Appends a held send that could not be delivered: its target, its signal and its error's number.
fn put_missed(writer: &mut LineWriter, missed: &Missed) -> Result<(), AllocError>
    ensures { OnOk result (writer.new ≡ writer.old ++ missed_tokens missed.now) }
{
    begin_object(writer)?;
    put_count(writer, "target", u64::from(missed.target.0))?;
    put_count(writer, "signo", u64::from(missed.signo.0))?;
    put_count(writer, "errno", u64::from(missed.errno.number()))?;
    end_object(writer)
}

/// Appends a refusal, and the starter if one is in the way.
fn put_refusal(writer: &mut LineWriter, refusal: Refusal) -> Result<(), AllocError>
    ensures { OnOk result (writer.new ≡ writer.old ++ refusal_members refusal) }
{
    put_word(writer, "refused", refusal_word(refusal))?;
    match refusal {
        Refusal::Busy { starter } => put_count(writer, "holder", u64::from(starter.0)),
        _ => Ok(()),
    }
}
