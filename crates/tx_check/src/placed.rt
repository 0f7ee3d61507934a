//! Whether what is reported of a line is true at its column.
ghost use Rattle.std.specs.Prelude.{◌≡◌, ◌≢◌, ◌<◌, ◌≤◌, ◌⊎◌, ◌++◌, ◌∷◌, [], ℕ, List, IfSome, IsFalse, IsTrue, MatchOption, None, length, option_map, true};
ghost use Rattle.tx_check.specs.Speaking.{ends_word, is_odd, kind_of_what, word_of, IsAfterWords, IsAt, IsByteAt, IsCommandAt, IsDigitAt, IsFitting, IsOddSpace, IsPlacedInLine, IsStepAt, IsTrueOf, IsWordAt, OfGrammar, OfLabel, OfLength};
ghost use Rattle.tx_check.specs.Speaking as spec;
ghost use Rattle.tx_check.specs.Diagnostics.{IsColumn, IsPlaced};
ghost use Rattle.tx_check.specs.declared.trouble.LineTrouble.TheVariants as troubles;
ghost use Rattle.tx_check.specs.declared.trouble.What.TheVariants as whats;
ghost use Rattle.tx_translate.specs.OwnLines.{without_return};

use crate::diagnose::shapes::BYTE_ORDER_MARK;
use crate::own::own_word;
use crate::trouble::{LineTrouble, Names, Trouble, What, WordTrouble};
use tx_lines::LINE_BYTES;
use tx_translate::{MeantLines, split_word};

/// What is reported of a line where that trouble was found: the trouble, where what it says is true
/// at its column. Of a line that is too long nothing else is reported.
pub fn placed<'a>(line: &'a [u8], trouble: Trouble<'a>) -> Trouble<'a>
    ensures placed { IsPlaced line.now result }
    ensures long { 512 < length (without_return line.now) →
        result.what ≡ whats.Line troubles.TooLong }
    ensures kind { IsFitting line.now trouble.entry.what →
        kind_of_what result.what ≡ kind_of_what trouble.entry.what }
{
    if before_return(line).len() > LINE_BYTES {
        return Trouble::of_line(LINE_BYTES + 1, LineTrouble::TooLong);
    }
    let trouble = trouble.within(line);
    if is_of_length(line, &trouble.what) {
        return trouble;
    }
    if is_in_line(line, &trouble) && is_word_there(line, &trouble) {
        return trouble;
    }
    match trouble.what.label() {
        Some((text, word)) => no_label(line, text, word),
        None => of_bytes(line, trouble.column),
    }
}

/// Whether it says that a line is too long, and it is, or that it is one too many, which is true
/// wherever it is reported.
fn is_of_length(line: &[u8], what: &What<'_>) -> bool
    ensures line { IsTrue result → (column : ℕ) → IsPlacedInLine line.now column what.now }
    ensures word { IsTrue result → word_of what.now ≡ None }
    ensures other { IsFalse result → kind_of_what what.now ≡ OfLength →
        what.now ≡ whats.Line troubles.TooLong }
    ensures short { IsFalse result → kind_of_what what.now ≡ OfLength → length line.now ≤ 512 }
{
    match what {
        What::Line(LineTrouble::TooLong) => line.len() > LINE_BYTES,
        What::Line(LineTrouble::TooManySteps) => true,
        What::Line(LineTrouble::TooManyCommands) => true,
        What::Line(LineTrouble::TooManyInstructions) => true,
        What::Line(LineTrouble::TooManyLabels) => true,
        _ => false,
    }
}

/// That there is no such label, at the first place in a line where the word is; at the line's end
/// where it is nowhere.
fn no_label<'a>(line: &'a [u8], text: MeantLines<'a>, word: &'a [u8]) -> Trouble<'a>
    ensures placed { IsPlaced line.now result }
    ensures kind { kind_of_what result.what ≡ OfLabel }
{
    for at in 0..line.len() {
        if is_word_at(line, at + 1, word) {
            return Trouble {
                column: at + 1,
                what: What::Word(word, WordTrouble::NoSuch(Names::Labels(text))),
            };
        }
    }
    let column = line.len() + 1;
    let word = word_from(line, column);
    Trouble {
        column,
        what: What::Word(word, WordTrouble::NoSuch(Names::Labels(text))),
    }
}

/// What is reported of any line that the grammar does not have: the byte in that column, where no
/// line of the first two versions has it, or else the first word.
fn of_bytes(line: &[u8], column: usize) -> Trouble<'_>
    requires { IsColumn line.now column }
    ensures placed { IsPlaced line.now result }
    ensures kind { kind_of_what result.what ≡ OfGrammar }
{
    match odd_byte_at(line, column) {
        Some(byte) => Trouble {
            column,
            what: What::OddByte(byte),
        },
        None => of_first_word(line),
    }
}

/// The byte in that column, where no line of the first two versions has one and it is neither a tab
/// nor at the line's end.
fn odd_byte_at(line: &[u8], column: usize) -> Option<u8>
    requires { IsColumn line.now column }
    ensures { IfSome result (λ byte. IsByteAt line.now column byte × (is_odd byte ≡ true)) }
{
    let (_front, left) = line.split_at(column - 1);
    match left {
        [byte, _next, ..] => odd_byte(*byte),
        _ => None,
    }
}

/// That byte, where no line of the first two versions has it, and it is no tab.
fn odd_byte(byte: u8) -> Option<u8>
    ensures byte { IfSome result (λ odd. odd ≡ byte) }
    ensures odd { IfSome result (λ odd. is_odd byte ≡ true) }
{
    (is_odd(byte) && byte != b'\t').then_some(byte)
}

/// What is reported of any line: at its first word, that it may not be where it is; or what is
/// there where it has no word.
fn of_first_word(line: &[u8]) -> Trouble<'_>
    ensures placed { IsPlaced line.now result }
    ensures kind { kind_of_what result.what ≡ OfGrammar }
{
    if let Some(first) = own_word(line, 0) {
        return none_here(line, first.column);
    }
    match line {
        [] => Trouble::of_line(1, LineTrouble::Empty),
        [byte, ..] => of_first_byte(line, *byte),
    }
}

/// What is reported of any line that begins with that byte: what the byte is, or, where it can be a
/// word's, that the line may not be where it is.
fn of_first_byte(line: &[u8], byte: u8) -> Trouble<'_>
    requires { IsByteAt line.now 1 byte }
    ensures placed { IsPlaced line.now result }
    ensures kind { kind_of_what result.what ≡ OfGrammar }
{
    match byte {
        b' ' => Trouble::of_line(1, LineTrouble::Space),
        b'#' => Trouble::of_line(1, LineTrouble::Comment),
        _ if is_odd(byte) => Trouble {
            column: 1,
            what: What::OddByte(byte),
        },
        _ => none_here(line, 1),
    }
}

/// That a line may not be where it is, at the word in that column.
fn none_here(line: &[u8], column: usize) -> Trouble<'_>
    requires { IsColumn line.now column }
    ensures placed { IsPlaced line.now result }
    ensures kind { kind_of_what result.what ≡ OfGrammar }
{
    Trouble {
        column,
        what: What::Word(word_from(line, column), WordTrouble::NoneHere),
    }
}

/// The word in that column of a line: what is there up to the end of the word.
fn word_from(line: &[u8], column: usize) -> &[u8]
    requires { IsColumn line.now column }
    ensures { IsWordAt line.now column result.now }
{
    let (_front, left) = line.split_at(column - 1);
    for at in 0..left.len() {
        let (word, rest) = left.split_at(at);
        if ends_word(rest) {
            return word;
        }
    }
    left
}

/// Whether what is reported of a line is true, where it is about no word.
fn is_in_line(line: &[u8], trouble: &Trouble<'_>) -> bool
    requires { IsColumn line.now trouble.now.column }
    ensures { IsTrue result → IsPlacedInLine line.now trouble.now.column trouble.now.what }
{
    match trouble.what {
        What::Line(wrong) => is_true_of(line, trouble.column, wrong),
        What::OddByte(byte) => is_odd(byte) && is_byte_at(line, trouble.column, byte),
        _ => true,
    }
}

/// Whether that is true of a line, in that column.
fn is_true_of(line: &[u8], column: usize, trouble: LineTrouble) -> bool
    requires { IsColumn line.now column }
    ensures { IsTrue result → IsTrueOf trouble line.now column }
{
    match trouble {
        LineTrouble::TooLong => line.len() > LINE_BYTES,
        LineTrouble::NoEnd => column == line.len() + 1,
        LineTrouble::CarriageReturn => column == line.len() && is_byte_at(line, column, b'\r'),
        LineTrouble::ByteOrderMark => is_at(line, column, BYTE_ORDER_MARK.as_slice()),
        LineTrouble::Comment => is_byte_at(line, column, b'#'),
        LineTrouble::OtherComment => is_comment_at(line, column),
        LineTrouble::Empty | LineTrouble::NoCommands => line.is_empty(),
        LineTrouble::Space => is_odd_space(line, column),
        LineTrouble::NoCall => is_after_words(line, column),
        LineTrouble::CommandTooSoon => is_command_at(line, column),
        LineTrouble::StepInProgram | LineTrouble::StepAmongCommands => is_step_at(line, column),
        LineTrouble::NoStep => false,
        LineTrouble::NeitherStepNorCommand | LineTrouble::NoneOfTheGrammar => false,
        _ => is_named_at(line, column, trouble),
    }
}

/// Whether that column has the word that such a trouble always has there.
fn is_named_at(line: &[u8], column: usize, trouble: LineTrouble) -> bool
    requires { IsColumn line.now column }
    ensures { IsTrue result → IfSome (spec.word_for trouble) (λ word.
        IsWordAt line.now column word) }
{
    word_for(trouble).is_none_or(|word| is_word_at(line, column, word))
}

/// The word in the column of a trouble with a line, where it is always the same.
fn word_for(trouble: LineTrouble) -> Option<&'static [u8]>
    ensures { option_map (λ word. word.now) result ≡ spec.word_for trouble }
{
    match trouble {
        LineTrouble::NoSessionHeader | LineTrouble::HeaderLate => Some(b"txos"),
        LineTrouble::ProgramInSession | LineTrouble::ProgramHere => Some(b"program"),
        LineTrouble::ScheduleHere => Some(b"schedule"),
        LineTrouble::DebugAgain | LineTrouble::DebugInProgram => Some(b"debug"),
        LineTrouble::DebugInSession | LineTrouble::CommandsHere => Some(b"debug"),
        LineTrouble::LabelInSchedule => Some(b"label"),
        LineTrouble::MovedIsLater => Some(b"moved"),
        LineTrouble::DeferIsLater => Some(b"sys_xbegin"),
        _ => None,
    }
}

/// Whether a comment of another language is in that column of a line.
fn is_comment_at(line: &[u8], column: usize) -> bool
    requires { IsColumn line.now column }
    ensures { IsTrue result → IsTrueOf troubles.OtherComment line.now column }
{
    is_at(line, column, b"//") || is_at(line, column, b"/*") || is_at(line, column, b";")
}

/// Whether a space in that column of a line separates no two words.
fn is_odd_space(line: &[u8], column: usize) -> bool
    requires { IsColumn line.now column }
    ensures { IsTrue result → IsOddSpace line.now column }
{
    let (front, left) = line.split_at(column - 1);
    match left {
        [b' '] => true,
        [b' ', b' ', ..] => true,
        [b' ', ..] => front.is_empty(),
        _ => false,
    }
}

/// Whether no word is in that column of a line, or after it.
fn is_after_words(line: &[u8], column: usize) -> bool
    requires { IsColumn line.now column }
    ensures { IsTrue result → IsAfterWords line.now column }
{
    let (_front, left) = line.split_at(column - 1);
    split_word(before_return(left)).is_none()
}

/// A line without the byte 13 at its end, where it has one.
pub fn before_return(line: &[u8]) -> &[u8]
    ensures parts { (line.now ≡ result.now) ⊎ (line.now ≡ result.now ++ 13 ∷ []) }
    ensures same { result.now ≡ without_return line.now }
    ensures shorter { length result.now ≤ length line.now }
{
    match before_end(b"\r", line) {
        Some(front) => front,
        None => line,
    }
}

/// What is before that end of a line. Nothing where the line does not end so.
fn before_end<'a>(end: &[u8], line: &'a [u8]) -> Option<&'a [u8]>
    ensures { MatchOption result ((front : List ℕ) → line.now ≢ front ++ end.now) (λ front.
        line.now ≡ front.now ++ end.now) }
{
    line.strip_suffix(end)
}

/// Whether a command is in that column of a line.
fn is_command_at(line: &[u8], column: usize) -> bool
    requires { IsColumn line.now column }
    ensures { IsTrue result → IsCommandAt line.now column }
{
    is_word_at(line, column, b"back")
        || is_word_at(line, column, b"forward")
        || is_word_at(line, column, b"goto")
        || is_word_at(line, column, b"state")
        || is_word_at(line, column, b"moved")
}

/// Whether what a step begins with is in that column of a line.
fn is_step_at(line: &[u8], column: usize) -> bool
    requires { IsColumn line.now column }
    ensures { IsTrue result → IsStepAt line.now column }
{
    is_word_at(line, column, b"kernel") || is_digit_at(line, column)
}

/// Whether a digit is in that column of a line.
fn is_digit_at(line: &[u8], column: usize) -> bool
    requires { IsColumn line.now column }
    ensures { IsTrue result → IsDigitAt line.now column }
{
    let (_front, left) = line.split_at(column - 1);
    match left {
        [byte, ..] => byte.is_ascii_digit(),
        [] => false,
    }
}

/// Whether no line of the first two versions has that byte.
fn is_odd(byte: u8) -> bool
    ensures { result ≡ is_odd byte }
{
    !(byte == b' ' || byte.is_ascii_graphic())
}

/// Whether the word that the trouble names is in its column.
fn is_word_there(line: &[u8], trouble: &Trouble<'_>) -> bool
    requires { IsColumn line.now trouble.now.column }
    ensures { IsTrue result → IfSome (word_of trouble.now.what) (λ word.
        IsWordAt line.now trouble.now.column word) }
{
    match trouble.what.word() {
        Some(word) => is_word_at(line, trouble.column, word),
        None => true,
    }
}

/// Whether those bytes are in that column of a line.
fn is_at(line: &[u8], column: usize, bytes: &[u8]) -> bool
    requires { IsColumn line.now column }
    ensures { IsTrue result → IsAt line.now column bytes.now }
{
    let (_front, left) = line.split_at(column - 1);
    after_front(bytes, left).is_some()
}

/// Whether that byte is in that column of a line.
fn is_byte_at(line: &[u8], column: usize, byte: u8) -> bool
    requires { IsColumn line.now column }
    ensures { IsTrue result → IsByteAt line.now column byte }
{
    is_at(line, column, [byte].as_slice())
}

/// Whether that word is in that column of a line.
fn is_word_at(line: &[u8], column: usize, word: &[u8]) -> bool
    requires { IsColumn line.now column }
    ensures { IsTrue result → IsWordAt line.now column word.now }
{
    let (_front, left) = line.split_at(column - 1);
    match after_front(word, left) {
        Some(rest) => ends_word(rest),
        None => false,
    }
}

/// Whether a word of a line ends before these bytes.
fn ends_word(rest: &[u8]) -> bool
    ensures { result ≡ ends_word rest.now }
{
    match rest {
        [] => true,
        [byte, ..] => *byte == 9 || *byte == 13 || *byte == 32 || *byte == 35,
    }
}

/// What follows that front of a line. Nothing where the line does not begin so.
fn after_front<'a>(front: &[u8], line: &'a [u8]) -> Option<&'a [u8]>
    ensures { MatchOption result ((rest : List ℕ) → line.now ≢ front.now ++ rest) (λ rest.
        line.now ≡ front.now ++ rest.now) }
{
    line.strip_prefix(front)
}
