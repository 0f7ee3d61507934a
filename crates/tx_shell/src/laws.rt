//! What holds of sessions, as the contract of a function that does nothing.
ghost use Rattle.tx_shell.specs.Spelled.{IsSpelled, SpellsSchedule, StaysSpelled};
ghost use Rattle.tx_shell.specs.Standings.{first_standing};
ghost use Rattle.tx_script.specs.declared.forms.Form.{Form};

/// A session has only steps that a text of its version can hold, so what `text` prints is the text
/// of a schedule, as `replay` reads it, as long as it has no more steps than a text may have.
pub fn a_session_spells_a_schedule()
    ensures first { (form : Form) → IsSpelled (first_standing form) }
    ensures stays { StaysSpelled }
    ensures schedule { SpellsSchedule }
{}
