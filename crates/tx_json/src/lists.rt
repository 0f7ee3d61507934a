//! Appends lists of numbers and of signals.
ghost use Rattle.std.specs.Prelude.{◌≡◌, ◌++◌, OnOk};
ghost use Rattle.tx_base.specs.Signals.{bits_of};
ghost use Rattle.tx_json.specs.Lists.{count_item, number_item, numbers_member, set_member, signal_item};

use crate::line::LineWriter;
use crate::members::{begin_list, end_list};
use std::alloc::AllocError;
use tx_base::{SIGNALS, SigSet, Signo};
use tx_signal::has;

/// Appends a key and a list of numbers.
pub fn put_numbers(writer: &mut LineWriter, name: &str, numbers: &[i64]) -> Result<(), AllocError>
    ensures { OnOk result
        (writer.new ≡ writer.old ++ numbers_member name.now numbers.now) }
{
    begin_list(writer, name)?;
    for i in 0..numbers.len() {
        put_number_item(writer, &numbers[i])?;
    }
    end_list(writer)
}

/// Appends an item of a list: a number that may be negative.
#[tactic(auto, unfolding(crate::specs::Lists::number_item))]
fn put_number_item(writer: &mut LineWriter, number: &i64) -> Result<(), AllocError>
    ensures { OnOk result (writer.new ≡ writer.old ++ number_item number.now) }
{
    writer.i64(*number)
}

/// Appends a number of a list.
#[tactic(auto, unfolding(crate::specs::Lists::count_item))]
pub fn put_count_item(writer: &mut LineWriter, count: u64) -> Result<(), AllocError>
    ensures { OnOk result (writer.new ≡ writer.old ++ count_item count) }
{
    writer.u64(count)
}

/// Appends a key and the signals of a set, rising.
pub fn put_set(writer: &mut LineWriter, name: &str, set: SigSet) -> Result<(), AllocError>
    ensures { OnOk result
        (writer.new ≡ writer.old ++ set_member name.now (bits_of set)) }
{
    begin_list(writer, name)?;
    for number in 0..SIGNALS {
        put_signal(writer, set, Signo(number as u8))?;
    }
    end_list(writer)
}

/// Appends a signal, where it is in the set.
fn put_signal(writer: &mut LineWriter, set: SigSet, signo: Signo) -> Result<(), AllocError>
    ensures { OnOk result
        (writer.new ≡ writer.old ++ signal_item (bits_of set) signo.0) }
{
    if has(set, signo) {
        return put_count_item(writer, u64::from(signo.0));
    }
    Ok(())
}
