//! Appends the members of an object, a key and a value each.
ghost use Rattle.std.specs.Prelude.{◌≡◌, ◌++◌, OnOk};
ghost use Rattle.hex.specs.Hex.{encode_lower};
ghost use Rattle.tx_json.specs.Members.{begin_list, begin_object, count_member, end_list, end_object, flag_member, null_member, number_member, object_key, word_member};

use crate::line::LineWriter;
use std::alloc::{AllocError, Global};

/// Appends a count or a number that names something.
#[tactic(auto, unfolding(crate::specs::Members::count_member))]
pub fn put_count(writer: &mut LineWriter, name: &str, count: u64) -> Result<(), AllocError>
    ensures { OnOk result
        (writer.new ≡ writer.old ++ count_member name.now count) }
{
    writer.key(name)?;
    writer.u64(count)
}

/// Appends a number that may be negative.
#[tactic(auto, unfolding(crate::specs::Members::number_member))]
pub fn put_number(writer: &mut LineWriter, name: &str, number: i64) -> Result<(), AllocError>
    ensures { OnOk result
        (writer.new ≡ writer.old ++ number_member name.now number) }
{
    writer.key(name)?;
    writer.i64(number)
}

/// Appends a word.
#[tactic(auto, unfolding(crate::specs::Members::word_member))]
pub fn put_word(writer: &mut LineWriter, name: &str, word: &str) -> Result<(), AllocError>
    ensures { OnOk result
        (writer.new ≡ writer.old ++ word_member name.now word.now) }
{
    writer.key(name)?;
    writer.string(word)
}

/// Appends true or false.
#[tactic(auto, unfolding(crate::specs::Members::flag_member))]
pub fn put_flag(writer: &mut LineWriter, name: &str, flag: bool) -> Result<(), AllocError>
    ensures { OnOk result
        (writer.new ≡ writer.old ++ flag_member name.now flag) }
{
    writer.key(name)?;
    writer.boolean(flag)
}

/// Appends a key without a value.
#[tactic(auto, unfolding(crate::specs::Members::null_member))]
pub fn put_null(writer: &mut LineWriter, name: &str) -> Result<(), AllocError>
    ensures { OnOk result (writer.new ≡ writer.old ++ null_member name.now) }
{
    writer.key(name)?;
    writer.null()
}

/// Appends the key of an object.
#[tactic(auto, unfolding(crate::specs::Members::object_key))]
pub fn put_key(writer: &mut LineWriter, name: &str) -> Result<(), AllocError>
    ensures { OnOk result (writer.new ≡ writer.old ++ object_key name.now) }
{
    writer.key(name)
}

/// Appends bytes, two lower-case hex digits each.
pub fn put_bytes(
    alloc: Global,
    writer: &mut LineWriter,
    name: &str,
    bytes: &[u8],
) -> Result<(), AllocError>
    ensures { OnOk result (writer.new
        ≡ writer.old ++ word_member name.now (encode_lower bytes.now)) }
{
    let text = hex::encode(alloc, bytes)?;
    put_word(writer, name, text.as_str())
}

/// Begins an object.
#[tactic(auto, unfolding(crate::specs::Members::begin_object))]
pub fn begin_object(writer: &mut LineWriter) -> Result<(), AllocError>
    ensures { OnOk result (writer.new ≡ writer.old ++ begin_object) }
{
    writer.begin_object()
}

/// Ends an object.
#[tactic(auto, unfolding(crate::specs::Members::end_object))]
pub fn end_object(writer: &mut LineWriter) -> Result<(), AllocError>
    ensures { OnOk result (writer.new ≡ writer.old ++ end_object) }
{
    writer.end_object()
}

/// Appends the key of an array, and begins it.
#[tactic(auto, unfolding(crate::specs::Members::begin_list))]
pub fn begin_list(writer: &mut LineWriter, name: &str) -> Result<(), AllocError>
    ensures { OnOk result (writer.new ≡ writer.old ++ begin_list name.now) }
{
    writer.key(name)?;
    writer.begin_array()
}

/// Ends an array.
#[tactic(auto, unfolding(crate::specs::Members::end_list))]
pub fn end_list(writer: &mut LineWriter) -> Result<(), AllocError>
    ensures { OnOk result (writer.new ≡ writer.old ++ end_list) }
{
    writer.end_array()
}
