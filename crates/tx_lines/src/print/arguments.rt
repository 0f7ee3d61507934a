//! Prints the arguments of calls that are more than numbers.
ghost use Rattle.std.specs.Prelude.{◌≡◌, ◌++◌, OnOk, string_bytes};
ghost use Rattle.tx_lines.specs.Calls.{access_text, action_text, how_text, switch_text, waiting_text, when_text};

use crate::print::members::put_set;
use crate::print::words::put;
use std::alloc::AllocError;
use std::fmt::Write;
use tx_base::{Action, How, When};

/// What may be done with a page.
pub fn access(writable: bool) -> &'static str
    ensures { result.now ≡ access_text writable }
{
    if writable { "rw" } else { "r" }
}

/// Whether a call waits for a child.
pub fn waiting(nohang: bool) -> &'static str
    ensures { result.now ≡ waiting_text nohang }
{
    if nohang { "nohang" } else { "wait" }
}

/// Whether something is on.
pub fn switch(on: bool) -> &'static str
    ensures { result.now ≡ switch_text on }
{
    if on { "on" } else { "off" }
}

/// How a mask is changed.
pub fn way(how: How) -> &'static str
    ensures { result.now ≡ how_text how }
{
    match how {
        How::Block => "block",
        How::Unblock => "unblock",
        How::Set => "set",
    }
}

/// Appends what is done about a signal.
pub fn put_action(text: &mut String, action: Action) -> Result<(), AllocError>
    ensures { OnOk result (string_bytes text.new ≡ string_bytes text.old ++ action_text action) }
{
    match action {
        Action::Usual => put(text, "default"),
        Action::Ignore => put(text, "ignore"),
        Action::Catch { point, mask } => {
            write!(text, "catch {point} ")?;
            put_set(text, mask)
        }
    }
}

/// Appends when a jump is made.
pub fn put_when(text: &mut String, when: When) -> Result<(), AllocError>
    ensures { OnOk result (string_bytes text.new ≡ string_bytes text.old ++ when_text when) }
{
    match when {
        When::Always => put(text, "always"),
        When::IfRet(ret) => write!(text, "if {ret}"),
    }
}
