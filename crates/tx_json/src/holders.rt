//! Writes who has a side of a pipe open.
ghost use Rattle.std.specs.Prelude.{◌≡◌, ◌++◌, OnOk, option_map};
ghost use Rattle.tx_json.specs.Holders.{holder_tokens, holders_member, holders_members};

use crate::line::LineWriter;
use crate::members::{begin_list, begin_object, end_list, end_object, put_count};
use std::alloc::AllocError;

/// A descriptor of a process that is open for a side of a pipe.
#[derive(Clone, Copy)]
pub struct Holder {
    /// 1 to 256.
    pub process: u16,
    /// 0 to 15.
    pub descriptor: u8,
}

/// Appends who has a side of a pipe open, if that was asked for, as
/// `"holders":[{"process":3,"descriptor":1}]`.
pub fn put_holders(writer: &mut LineWriter, holders: Option<&[Holder]>) -> Result<(), AllocError>
    ensures { OnOk result (writer.new ≡ writer.old
        ++ holders_members (option_map (λ held. held.now) holders.entry)) }
{
    match holders {
        Some(holders) => put_holder_list(writer, "holders", holders),
        None => Ok(()),
    }
}

/// Appends a list of descriptors of processes, as `"readers":[{"process":4,"descriptor":0}]`.
pub fn put_holder_list(
    writer: &mut LineWriter,
    name: &str,
    holders: &[Holder],
) -> Result<(), AllocError>
    ensures { OnOk result
        (writer.new ≡ writer.old ++ holders_member name.now holders.now) }
{
    begin_list(writer, name)?;
    for i in 0..holders.len() {
        put_holder(writer, holders[i])?;
    }
    end_list(writer)
}

/// Appends a descriptor of a process.
fn put_holder(writer: &mut LineWriter, holder: Holder) -> Result<(), AllocError>
    ensures { OnOk result (writer.new ≡ writer.old ++ holder_tokens holder) }
{
    begin_object(writer)?;
    put_count(writer, "process", u64::from(holder.process))?;
    put_count(writer, "descriptor", u64::from(holder.descriptor))?;
    end_object(writer)
}
