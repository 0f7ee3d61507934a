//! Reports what is wrong with a line that is neither a step nor a command.
ghost use Rattle.std.specs.Prelude.{IfOk, string_bytes};
ghost use Rattle.tx_check.specs.Sessions.{IsSessionDiagnostic};
ghost use Rattle.tx_shell.specs.Forms.{ReportsIn, ReportsOf};

use crate::lines::versions::TextVersion;
use std::alloc::Global;
use tx_base::NoMemory;
use tx_check::session_line;
use tx_json::error_answer;
use tx_script::Form;

/// What is wrong with a line of that version, in a form.
///
/// NoMemory where a growth is refused.
#[inline(never)] // as `answer_ask`
pub fn report_in(
    alloc: Global,
    form: Form,
    version: TextVersion,
    line: &[u8],
) -> Result<String, NoMemory>
    ensures { IfOk result (λ text. ReportsIn form line.now (string_bytes text)) }
{
    let is_third = matches!(version, TextVersion::Three);
    let report = session_line(alloc, is_third, version.grammar(), line)?;
    match form {
        Form::Text => mark(alloc, line, report.as_str()),
        Form::Json => error_answer(alloc, report.as_str()),
    }
}

/// What is wrong with a line, after a mark.
fn mark(alloc: Global, line: &[u8], report: &str) -> Result<String, NoMemory>
    requires { IsSessionDiagnostic line.now report.now }
    ensures { IfOk result (λ text. ReportsOf line.now (string_bytes text)) }
{
    Ok(format!(in alloc; "? {report}\n")?)
}
