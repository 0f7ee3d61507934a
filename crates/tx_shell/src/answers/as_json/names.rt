//! Reports as JSON which processes have a name.
ghost use Rattle.std.specs.Prelude.{◌≡◌, ◌++◌, OnOk};
ghost use Rattle.tx_shell.specs.Names.{has_name, named, named_item, names_member};
ghost use Rattle.tx_waits.specs.Kinds.{limit_of};
ghost use Rattle.tx_waits.specs.declared.kinds.Kind.TheVariants.{Processes};

use crate::names::Names;
use std::alloc::AllocError;
use tx_json::{LineWriter, begin_list, begin_object, end_list, end_object, put_count, put_word};
use tx_waits::Kind;

/// Appends each process that has a name, by rising numbers, where there are some.
pub fn put_names(writer: &mut LineWriter, names: Names<'_>) -> Result<(), AllocError>
    ensures { OnOk result (writer.new ≡ writer.old ++ names_member (named names.entry)) }
{
    if !has_name(names) {
        return Ok(());
    }
    begin_list(writer, "names")?;
    for process in 0..Kind::Processes.limit() {
        put_name(writer, names, process)?;
    }
    end_list(writer)
}

/// Whether a process has a name.
fn has_name(names: Names<'_>) -> bool
    ensures { result ≡ has_name (named names.entry) (limit_of Processes) }
{
    for process in 0..Kind::Processes.limit() {
        if names.of(process).is_some() {
            return true;
        }
    }
    false
}

/// Appends a process and its name, where it has one.
fn put_name(writer: &mut LineWriter, names: Names<'_>, process: u16) -> Result<(), AllocError>
    ensures { OnOk result (writer.new
        ≡ writer.old ++ named_item process (named names.entry process)) }
{
    let Some(name) = names.of(process) else {
        return Ok(());
    };
    begin_object(writer)?;
    put_count(writer, "process", u64::from(process))?;
    put_word(writer, "name", name)?;
    end_object(writer)
}
