//! What is wrong with a line, and in which column.
ghost use Rattle.std.specs.Prelude.{◌≡◌, ◌≢◌, true, option_map, IfNone, IfSome, IsTrue};
ghost use Rattle.tx_check.specs.Speaking.{is_front, kind_of_line, kind_of_names, kind_of_what, no_label, word_of, OfGrammar, OfLabel};
ghost use Rattle.tx_check.specs.Speaking as spec;
ghost use Rattle.tx_check.specs.Diagnostics.{IsColumn, IsInLine};
ghost use Rattle.tx_check.specs.declared.trouble.What.TheVariants as whats;

use crate::forms::Form;
use crate::habits::left_out;
use crate::words::Word;
use tx_translate::MeantLines;

/// What is wrong with a line. Columns count bytes from 1; the column after the last byte is the end
/// of the line.
#[derive(Clone, Copy)]
pub struct Trouble<'a> {
    pub column: usize,
    pub what: What<'a>,
}

/// What is wrong at a column.
#[derive(Clone, Copy)]
pub enum What<'a> {
    /// The line as a whole.
    Line(LineTrouble),
    /// A byte that no line has.
    OddByte(u8),
    /// A word.
    Word(&'a [u8], WordTrouble<'a>),
}

/// Names that there are.
#[derive(Clone, Copy)]
pub enum Names<'a> {
    /// Of the calls of a schedule.
    Calls,
    /// Of the calls of a program.
    Instructions,
    /// Of commands.
    Commands,
    /// Of the commands of a session.
    Session,
    /// Of the pieces of a state.
    Pieces,
    /// Of the labels in the text of a program.
    Labels(MeantLines<'a>),
}

/// What is wrong with a line as a whole.
#[derive(Clone, Copy)]
pub enum LineTrouble {
    TooLong,
    TooManySteps,
    TooManyCommands,
    TooManyInstructions,
    TooManyLabels,
    NoEnd,
    CarriageReturn,
    ByteOrderMark,
    Comment,
    OtherComment,
    Empty,
    Space,
    NoHeader,
    NoSessionHeader,
    HeaderLate,
    ProgramInSession,
    NoStep,
    NeitherStepNorCommand,
    NoCall,
    DeferIsLater,
    MovedIsLater,
    CommandTooSoon,
    DebugAgain,
    DebugInSession,
    LabelInSchedule,
    StepInProgram,
    DebugInProgram,
    StepAmongCommands,
    ProgramHere,
    ScheduleHere,
    CommandsHere,
    NoCommands,
    NoneOfTheGrammar,
}

/// What is wrong with a word.
#[derive(Clone, Copy)]
pub enum WordTrouble<'a> {
    /// A name that is none of these.
    NoSuch(Names<'a>),
    /// A name with too few or too many words after it: what it takes, and how many there are.
    Takes(Form, usize),
    /// The first word of this line, which is a call, and no process is before it.
    LineAlone(&'a [u8]),
    /// The same of a line that only begins as that call does.
    CallAlone(Form),
    /// A number, or what could be one, that is out of this range.
    OutOfRange(&'static str),
    /// None of these words, which are separated by `|`.
    NoneOf(&'static [u8]),
    /// Characters where their bytes are expected in hex.
    InHex,
    /// No signal's name or number.
    NoSignal,
    /// A set with this member, which is none.
    NoSignalIn(&'a [u8]),
    /// A label whose name is in that earlier line.
    SecondLabel(u64),
    /// The rest says only what is expected.
    NoVersion,
    NoTextKind,
    NoNumber,
    ZeroBefore,
    SignalName,
    NoProcess,
    NoHexDigits,
    UpperCase,
    OddDigits,
    TooManyBytes,
    NoSet,
    NotRising,
    NoName,
    NoLabel,
    NoSlot,
    LabelColon,
    SessionCommand,
    NoNames,
    SignalFirst,
    SingleQuotes,
    NoneHere,
    /// These are only of version 3.
    NoProcessName,
    OpenString,
    NoEscape,
    StringSize,
    AfterString,
    NoStore,
    NoSignals,
    Twice,
}

impl<'a> What<'a> {
    /// The word of which the sentence speaks.
    pub fn word(&self) -> Option<&'a [u8]>
        ensures { option_map (λ word. word.now) result ≡ word_of self.now }
    {
        match self {
            What::Word(word, _trouble) => Some(word),
            What::Line(_) | What::OddByte(_) => None,
        }
    }

    /// Whether it is neither of a length nor of a label.
    pub fn is_of_grammar(&self) -> bool
        ensures { IsTrue result → kind_of_what self.now ≡ OfGrammar }
    {
        match self {
            What::Line(trouble) => trouble.is_of_grammar(),
            What::Word(_word, WordTrouble::NoSuch(Names::Labels(_))) => false,
            _ => true,
        }
    }

    /// The label that is nowhere, and the lines that were searched for it.
    pub fn label(&self) -> Option<(MeantLines<'a>, &'a [u8])>
        ensures label { IfSome result (λ label. kind_of_what self.now ≡ OfLabel) }
        ensures none { IfNone result (kind_of_what self.now ≢ OfLabel) }
    {
        match self {
            What::Word(word, WordTrouble::NoSuch(Names::Labels(text))) => Some((*text, word)),
            _ => None,
        }
    }

    /// What is said before the word.
    pub fn front(&self) -> &'static str
        ensures front { is_front result.now ≡ true }
        ensures in_line { IsInLine result.now }
        ensures label { kind_of_what self.now ≡ OfLabel → result.now ≡ no_label }
        ensures other { kind_of_what self.now ≡ OfGrammar → result.now ≢ no_label }
    {
        match self {
            What::Word(word, WordTrouble::NoSuch(names)) => names.front_of(word),
            What::Word(_word, WordTrouble::NoSignal) => "there is no signal ",
            What::Word(_word, WordTrouble::SecondLabel(_line)) => "label ",
            _ => "",
        }
    }
}

impl Names<'_> {
    /// What is said before that name, which is none of those: nothing of one that is left out.
    fn front_of(&self, word: &[u8]) -> &'static str
        ensures front { is_front result.now ≡ true }
        ensures in_line { IsInLine result.now }
        ensures label { kind_of_names self.now ≡ OfLabel → result.now ≡ no_label }
        ensures other { kind_of_names self.now ≡ OfGrammar → result.now ≢ no_label }
    {
        if let Some(_reason) = left_out(*self, word) {
            return "";
        }
        match self {
            Names::Calls | Names::Instructions => "no such call: ",
            Names::Commands | Names::Session => "no such command: ",
            Names::Pieces => "no such piece: ",
            Names::Labels(_text) => "no such label: ",
        }
    }
}

impl Trouble<'_> {
    /// That trouble with a line as a whole.
    pub fn of_line(column: usize, trouble: LineTrouble) -> Trouble<'static>
        ensures column { result.column ≡ column }
        ensures line { result.what ≡ whats.Line trouble }
    {
        Trouble {
            column,
            what: What::Line(trouble),
        }
    }

    /// That trouble with a word.
    pub fn of_word<'a>(word: Word<'a>, trouble: WordTrouble<'a>) -> Trouble<'a>
        ensures { result.what ≡ whats.Word word.entry.bytes trouble.entry }
    {
        Trouble {
            column: word.column,
            what: What::Word(word.bytes, trouble),
        }
    }
}

impl<'a> Trouble<'a> {
    /// The same at a column of that line: at the first, where it is at none.
    pub fn within(self, line: &[u8]) -> Trouble<'a>
        ensures column { IsColumn line.now result.column }
        ensures what { result.what ≡ self.entry.what }
    {
        if self.column > 0 && self.column <= line.len() + 1 {
            return self;
        }
        Trouble {
            column: 1,
            what: self.what,
        }
    }
}

impl LineTrouble {
    /// Whether it is not that there is too much.
    fn is_of_grammar(self) -> bool
        ensures { IsTrue result → kind_of_line self ≡ OfGrammar }
    {
        match self {
            LineTrouble::TooLong | LineTrouble::TooManySteps => false,
            LineTrouble::TooManyCommands | LineTrouble::TooManyInstructions => false,
            LineTrouble::TooManyLabels => false,
            _ => true,
        }
    }

    /// The sentence that says it.
    pub fn sentence(self) -> &'static str
        ensures is { result.now ≡ spec.line_sentence self }
        ensures in_line { IsInLine result.now }
    {
        match self {
            LineTrouble::TooLong => "the line has more than 512 bytes",
            LineTrouble::TooManySteps => "there are 4,096 steps already",
            LineTrouble::TooManyCommands => "there are 4,096 commands already",
            LineTrouble::TooManyInstructions => "there are 1,024 instructions already",
            LineTrouble::TooManyLabels => "there are 256 labels already",
            LineTrouble::NoEnd => "the last line has no end",
            LineTrouble::CarriageReturn =>
                "the line ends with CR, which only version 3 takes: txos 3 in line 1",
            LineTrouble::ByteOrderMark => "the text begins with a byte-order mark, which must go",
            LineTrouble::Comment =>
                "only version 3 has comments: txos 3 in line 1, and # before them",
            LineTrouble::OtherComment => "comments begin with #, in version 3",
            LineTrouble::Empty => "the line is empty, which only version 3 takes: txos 3 in line 1",
            LineTrouble::Space =>
                "before version 3 one space separates words, with none before or after them",
            LineTrouble::NoHeader => {
                "a text begins with txos 3 schedule N or txos 3 program N, for N processes"
            }
            LineTrouble::NoCall => "expected a call after the process",
            _ => self.misplaced(),
        }
    }

    /// The sentence that says it, where it is about what belongs in another place or text.
    fn misplaced(self) -> &'static str
        ensures is { result.now ≡ spec.misplaced_sentence self }
        ensures in_line { IsInLine result.now }
    {
        match self {
            LineTrouble::DeferIsLater => {
                "sys_xbegin defer is not in version 1: txos 3 in line 1"
            }
            LineTrouble::MovedIsLater => "moved is not in version 1: txos 3 in line 1",
            LineTrouble::CommandTooSoon => "commands come after a line debug",
            LineTrouble::DebugAgain => "commands have begun: debug is above",
            LineTrouble::LabelInSchedule => "labels need a program: txos 3 program N in line 1",
            LineTrouble::StepInProgram => "this is a program: its lines name no process",
            LineTrouble::DebugInProgram => {
                "this is a program: txos run --workers N --turns T, and no commands"
            }
            LineTrouble::StepAmongCommands =>
                "commands have begun: steps come before the line debug",
            _ => self.of_session(),
        }
    }

    /// The sentence that says it, where it is about a session.
    fn of_session(self) -> &'static str
        ensures is { result.now ≡ spec.session_sentence self }
        ensures in_line { IsInLine result.now }
    {
        match self {
            LineTrouble::NoSessionHeader => {
                "a session begins with txos 3 schedule N, for 1 to 256 processes"
            }
            LineTrouble::HeaderLate => "only the first line of a session is a header",
            LineTrouble::ProgramInSession => "a session has steps, and no program: schedule",
            LineTrouble::DebugInSession => "a session takes commands without a line debug",
            LineTrouble::NoStep => "this is no step",
            LineTrouble::NeitherStepNorCommand => "neither a step nor a command",
            _ => self.of_reader(),
        }
    }

    /// The sentence that says it, where it is about the command that must read the text.
    fn of_reader(self) -> &'static str
        ensures is { result.now ≡ spec.reader_sentence self }
        ensures in_line { IsInLine result.now }
    {
        match self {
            LineTrouble::ProgramHere => "this is a program, for txos run; expected a schedule",
            LineTrouble::ScheduleHere => "this is a schedule, for txos replay; expected a program",
            LineTrouble::CommandsHere => "commands begin here, which only txos debug and json read",
            LineTrouble::NoCommands => "expected a line debug, and commands after it",
            _ => "the grammar has no such line",
        }
    }
}

impl WordTrouble<'_> {
    /// What is said after the word, where that is what is expected. Nothing else.
    pub fn sentence(self) -> &'static str {
        match self {
            WordTrouble::NoVersion => "the version is 1, 2 or 3",
            WordTrouble::NoTextKind => "expected schedule or program",
            WordTrouble::NoNumber => "expected a number in decimal digits",
            WordTrouble::ZeroBefore => "a number has no leading 0, and 0 has no sign",
            WordTrouble::SignalName => "signals are numbers before version 3: txos 3 in line 1",
            WordTrouble::NoProcess => "a step begins with the number of its process, or kernel",
            WordTrouble::NoHexDigits => {
                "bytes are two hex digits each; in version 3 also a string: \"text\""
            }
            WordTrouble::UpperCase => "hex digits are lower case",
            WordTrouble::OddDigits => "each byte has two hex digits",
            WordTrouble::TooManyBytes => "a word has at most 64 bytes",
            WordTrouble::NoSet => "a set is - for none, or signal numbers joined by commas",
            WordTrouble::NotRising => "numbers of a set must rise",
            WordTrouble::NoName => "a name has 1 to 16 of a to z, 0 to 9 and _, a letter first",
            WordTrouble::NoLabel => "expected a label: @NAME",
            WordTrouble::NoSlot => "slots are $0 to $7",
            WordTrouble::LabelColon => "a label is a line label NAME",
            WordTrouble::SessionCommand => "this is a command of txos shell, not of a text",
            WordTrouble::NoNames => "processes get names only in schedules of version 3",
            WordTrouble::SignalFirst => "the process comes first, then the signal",
            WordTrouble::NoneHere => "this line is not allowed here",
            WordTrouble::SingleQuotes => { "a string is in double quotes, in version 3: \"text\"" }
            WordTrouble::NoProcessName => "a name has 1 to 16 letters, digits and . _ + -",
            WordTrouble::OpenString => "a string ends with \" in its line",
            WordTrouble::NoEscape =>
                "the escapes of a string are \\n, \\t, \\0, \\\" and \\\\; hex digits are any bytes",
            WordTrouble::StringSize => "a string has 1 to 64 bytes",
            WordTrouble::AfterString => "expected a space after a string",
            WordTrouble::NoStore => "a string is only the bytes of a store: store A \"text\"",
            WordTrouble::NoSignals => "a set is - for none, or signals joined by commas",
            WordTrouble::Twice => "a signal is in the set twice",
            _ => "",
        }
    }
}
