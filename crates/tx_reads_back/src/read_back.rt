//! The law that lines of JSON read back to what they say.
ghost use Rattle.tx_reads_back.specs.ReadBack.{EntriesReadBack, StatesReadBack, StepsReadBack};

/// The line of a step reads back to its reply and, where it was accepted, its number; that of an
/// entry of a run to its number, its worker, its step's text and its reply; and the line of a state
/// to the position and to all that is said of the state (`state_in_json`): by the reader of the
/// kit's JSON and the definitions of `ReadReplies`, `ReadEntries` and `ReadStates`. The law
/// requires that numbers are of the kernel's types, and of a view what holds after every lawful
/// history.
pub fn reads_back()
    ensures steps { StepsReadBack }
    ensures entries { EntriesReadBack }
    ensures states { StatesReadBack }
{}
