//! Reports as JSON which step changed a piece of the state last, or changes it next.
ghost use Rattle.std.specs.Prelude.{◌≡◌, ◌≤◌, ◌++◌, IfSome, OnOk};
ghost use Rattle.tx_journal.specs.Sessions.{position_of};
ghost use Rattle.tx_shell.specs.Members.{change_member};
ghost use Rattle.tx_shell.specs.Places.{place_of};

use crate::answers::as_json::steps::put_made;
use crate::questions::changes::Change;
use std::alloc::{AllocError, Global};
use tx_journal::Session;
use tx_json::{LineWriter, put_key, put_null};

/// Appends the step directly before the position, where it was found, or that there is none.
pub fn put_change(
    alloc: Global,
    writer: &mut LineWriter,
    session: &Session,
    found: &Option<Change>,
) -> Result<(), AllocError>
    requires { IfSome found.now (λ change. 1 ≤ position_of session.now) }
    ensures { OnOk result
        (writer.new ≡ writer.old ++ change_member (place_of session.now) found.now) }
{
    let position = session.position();
    let Some(_change) = found else {
        return put_null(writer, "change");
    };
    let Some(entry) = session.entry(position) else {
        unreachable!()
    };
    put_key(writer, "change")?;
    put_made(alloc, writer, position, entry)
}
