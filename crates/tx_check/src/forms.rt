//! The calls and commands by name, and the form of what follows each.
ghost use Rattle.std.specs.Prelude.{◌<◌};

/// A name, and the form of the words after it, as people are shown it: a word in capitals stands
/// for others (`Field`), of words that are separated by `|` one is expected, and one in brackets
/// may be left out.
#[derive(Clone, Copy)]
pub struct Form {
    pub name: &'static str,
    pub words: &'static str,
    /// What is expected in these words. Nothing where there are none.
    pub meaning: &'static str,
}

/// The name, the words and the meaning of a form.
pub type FormRow = (&'static str, &'static str, &'static str);

/// What a word of a form stands for.
#[derive(Clone, Copy)]
pub enum Field {
    /// A number, which a program may take from a slot.
    Number,
    /// The number of a process.
    Process,
    /// A number of 0 to 255.
    Small,
    /// A number of 0 to 9223372036854775807.
    Position,
    /// A point, which a program names by a label.
    Point,
    /// Bytes in hex digits.
    Bytes,
    /// A set of signals.
    Signals,
    /// The name of a label.
    Name,
    /// One of these words, which are separated by `|`.
    Choice(&'static [u8]),
}

/// The calls of a schedule, and last `deliver`.
pub static CALLS: [FormRow; 34] = [
    ("map", "A", "a page's number"),
    ("unmap", "A", "a page's number"),
    ("protect", "A r|rw", "a page's number, and r or rw"),
    (
        "store",
        "A HEX",
        "an address, and bytes in hex or as \"text\" in version 3",
    ),
    ("load", "A", "an address"),
    ("fork", "C", "the child's number"),
    ("exit", "V", "a status"),
    (
        "waitpid",
        "T wait|nohang",
        "a child's number, and whether to wait",
    ),
    ("getpid", "", ""),
    ("getppid", "", ""),
    ("setuid", "V", "an id"),
    ("seteuid", "V", "an id"),
    ("setgid", "V", "an id"),
    ("setegid", "V", "an id"),
    (
        "pipe",
        "Q R W",
        "a pipe's number, and those of its two descriptions",
    ),
    ("dup", "F", "a descriptor"),
    ("dup2", "F G", "a descriptor, and its new number"),
    ("close", "F", "a descriptor"),
    ("set_nonblock", "F on|off", "a descriptor, and on or off"),
    (
        "read",
        "F A V",
        "a descriptor, an address, and how many bytes",
    ),
    (
        "write",
        "F A V",
        "a descriptor, an address, and how many bytes",
    ),
    ("kill", "T V", "a process, and a signal"),
    ("sigqueue", "T V V", "a process, a signal, and a value"),
    (
        "sigaction",
        "V default|ignore|catch POINT SET",
        "a signal, and what it does; to catch it, also where to go on, and what is blocked, or -",
    ),
    (
        "sigprocmask",
        "block|unblock|set SET",
        "what to do, and signals joined by commas, or - for none",
    ),
    ("sigpending", "", ""),
    ("sigreturn", "", ""),
    ("console_write", "A V", "an address, and how many bytes"),
    (
        "jump",
        "POINT always|if V",
        "where to go on, and whether always or if the last answer is V",
    ),
    ("keep", "V", "a slot, 0 to 7"),
    ("sys_xbegin", "[defer]", "defer, or nothing"),
    ("sys_xend", "", ""),
    ("sys_xabort", "", ""),
    ("deliver", "S", "a signal"),
];

/// The commands of a debugger.
pub static COMMANDS: [FormRow; 5] = [
    ("back", "", ""),
    ("forward", "", ""),
    ("goto", "K", "a position, 0 is before all steps"),
    ("state", "", ""),
    ("moved", "K", "the step that committed"),
];

/// What a piece of a state is.
const PIECES_MEANT: &str =
    "proc P, page P N, fd P F, ids P, pending P, queue P, desc D, pipe Q, txn S";

/// The commands of a session.
pub static SESSION: [FormRow; 21] = [
    ("back", "", ""),
    ("forward", "", ""),
    ("goto", "K|end", "a position, 0 is before all steps"),
    ("state", "", ""),
    ("moved", "K", "the step that committed"),
    ("steps", "[K] [L]", "the first step, and the last"),
    ("text", "", ""),
    ("try", "STEP", "a step, as 2 getpid"),
    ("diff", "K L", "two positions, 0 is before all steps"),
    ("without", "S", "the process that began the transaction"),
    ("when", "PIECE", PIECES_MEANT),
    ("why", "[STEP]", "a step, as 2 getpid"),
    ("owns", "[S]", "the process that began the transaction"),
    ("holds", "pipe|desc N", "pipe or desc, and its number"),
    ("name", "P NAME", "a process, and its name"),
    ("next", "PIECE", PIECES_MEANT),
    ("cut", "", ""),
    ("help", "[WORD]", "a word to be explained"),
    ("quit", "", ""),
    ("exit", "", ""),
    ("?", "", ""),
];

/// The pieces of a state.
pub static PIECES: [FormRow; 9] = [
    ("proc", "P", "a process"),
    ("page", "P N", "a process, and a page's number"),
    ("fd", "P F", "a process, and a descriptor"),
    ("ids", "P", "a process"),
    ("pending", "P", "a process"),
    ("queue", "P", "a process"),
    ("desc", "D", "a description"),
    ("pipe", "Q", "a pipe"),
    ("txn", "S", "the process that began the transaction"),
];

/// The form of the call of that name.
pub fn form_of_call(name: &[u8]) -> Option<Form> {
    form_of(CALLS.as_slice(), name)
}

/// The form of the debugger's command of that name.
pub fn form_of_command(name: &[u8]) -> Option<Form> {
    form_of(COMMANDS.as_slice(), name)
}

/// The form of a session's command of that name.
pub fn form_of_ask(name: &[u8]) -> Option<Form> {
    form_of(SESSION.as_slice(), name)
}

/// The form of that name.
pub fn form_of(forms: &'static [FormRow], name: &[u8]) -> Option<Form> {
    let (name, words, meaning) = *forms.iter().find(|form| form.0.as_bytes() == name)?;
    Some(Form {
        name,
        words,
        meaning,
    })
}

/// What a word of a form stands for.
pub fn field_of(word: &'static [u8]) -> Field {
    match word {
        b"A" | b"F" | b"G" | b"T" | b"V" => Field::Number,
        b"C" | b"P" => Field::Process,
        b"Q" | b"R" | b"W" | b"S" => Field::Small,
        b"K" => Field::Position,
        b"POINT" => Field::Point,
        b"HEX" => Field::Bytes,
        b"SET" => Field::Signals,
        b"NAME" => Field::Name,
        _ => Field::Choice(word),
    }
}

/// Whether a word is one of some choices, which are separated by `|`.
pub fn is_among(choices: &[u8], word: &[u8]) -> bool {
    choices
        .split(|byte| *byte == b'|')
        .any(|choice| choice == word)
}
