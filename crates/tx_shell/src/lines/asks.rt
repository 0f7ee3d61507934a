//! What a session is asked for by lines that are no steps.
ghost use Rattle.std.specs.Prelude.{◌≡◌, ◌≢◌, ◌<◌, ◌≤◌, ◌^◌, ◌++◌, ◌∷◌, ℕ, List, MatchOption, IfSome, None, codes, false, true};
ghost use Rattle.std.specs.Fmt.{decimal};
ghost use Rattle.tx_translate.specs.Names.{is_name};
ghost use Rattle.tx_shell.specs.Answers.{ask_text, lets_go, FitsAsk, IsNoAsk, IsOfName, IsOfNumbers, IsOfWords};
ghost use Rattle.tx_shell.specs.declared.lines.asks.Ask.{Ask};
ghost use Rattle.tx_shell.specs.declared.lines.versions.TextVersion.{TextVersion as TheVersion};

use crate::lines::pieces::{byte_after, read_piece};
use crate::lines::versions::TextVersion;
use std::str;
use tx_base::{DescNo, Pid, PipeNo, Step};
use tx_journal::Piece;
use tx_lines::{Command, read_command, read_pid, read_position, read_step, split_word};
use tx_translate::is_name;

/// What a session is asked for by a line that is no step.
#[derive(Drop)]
pub enum Ask<'a> {
    /// A command of the debugger.
    Walk(Command),
    /// To go to the position after all steps.
    GotoEnd,
    /// To list all steps, and the position among them.
    Steps,
    /// To list the steps from that number on.
    StepsFrom(u64),
    /// To list the steps from one number to another.
    StepsBetween(u64, u64),
    /// To print the text of the schedule that makes the steps up to the position.
    Text,
    /// To report what a step would be answered, and how the state would differ after it.
    Try(Step),
    /// To go back to the step that changed this piece last.
    When(Piece),
    /// To go on to the step that changes it next.
    Next(Piece),
    /// To report how the state at the second of these positions differs from that at the first.
    Diff(u64, u64),
    /// To report how the state would differ after an abort of the transaction of this starter.
    Without(u16),
    /// To report why a step would be refused.
    Why(Step),
    /// To report why the step that was refused last would be refused.
    WhyRefused,
    /// To report what each live transaction has reserved.
    Owns,
    /// To report what the live transaction of this starter has reserved.
    OwnsOf(u16),
    /// To report who has this pipe open.
    HoldsPipe(PipeNo),
    /// To report who has this description open.
    HoldsDesc(DescNo),
    /// To give a process, 1 to 256, a name: 1 to 16 letters, digits, `.`, `_`, `+` and `-`. Only in
    /// version 3.
    Name(Pid, &'a str),
    /// To drop the steps after the position.
    Cut,
    /// To say what can be asked for.
    Help,
    /// To say what a word means.
    HelpOn(&'a [u8]),
}

impl Ask<'_> {
    /// Whether steps must be dropped.
    pub fn lets_go(&self) -> bool
        ensures { result ≡ lets_go self.now }
    {
        matches!(self, Ask::Cut)
    }
}

/// What a line asks for, in that version. Nothing where it is another line.
pub fn read_ask(version: TextVersion, line: &[u8]) -> Option<Ask<'_>>
    ensures found { IfSome result (λ ask. line.now ≡ ask_text ask) }
    ensures fits { IfSome result (FitsAsk version) }
    ensures none { result ≡ None → IsNoAsk version line.now }
{
    if let Some(command) = read_command(version.grammar(), line) {
        return Some(Ask::Walk(command));
    }
    if let Some(ask) = read_words(line) {
        return Some(ask);
    }
    if let Some(ask) = read_numbered(line) {
        return Some(ask);
    }
    if let Some(words) = rest_after(b"try ", line) {
        return Some(Ask::Try(read_step(version.grammar(), words)?));
    }
    if let Some(words) = rest_after(b"when ", line) {
        return Some(Ask::When(read_piece(words)?));
    }
    if let Some(words) = rest_after(b"next ", line) {
        return Some(Ask::Next(read_piece(words)?));
    }
    if let Some(words) = rest_after(b"why ", line) {
        return Some(Ask::Why(read_step(version.grammar(), words)?));
    }
    if let Some(words) = rest_after(b"name ", line) {
        return read_name(version, words);
    }
    Some(Ask::HelpOn(rest_after(b"help ", line)?))
}

/// What follows that front of a line. Nothing where the line does not begin so.
pub fn rest_after<'a>(front: &[u8], line: &'a [u8]) -> Option<&'a [u8]>
    ensures { MatchOption result ((rest : List ℕ) → line.now ≢ front.now ++ rest) (λ rest.
        line.now ≡ front.now ++ rest.now) }
{
    line.strip_prefix(front)
}

/// What a line of a word or two asks for, without a number.
fn read_words(line: &[u8]) -> Option<Ask<'static>>
    ensures found { IfSome result (λ ask. line.now ≡ ask_text ask) }
    ensures fits { (version : TheVersion) → IfSome result (FitsAsk version) }
    ensures none { result ≡ None → (ask : Ask) → IsOfWords ask → line.now ≢ ask_text ask }
{
    if line == b"steps".as_slice() {
        return Some(Ask::Steps);
    }
    if line == b"text".as_slice() {
        return Some(Ask::Text);
    }
    if line == b"goto end".as_slice() {
        return Some(Ask::GotoEnd);
    }
    if line == b"why".as_slice() {
        return Some(Ask::WhyRefused);
    }
    if line == b"owns".as_slice() {
        return Some(Ask::Owns);
    }
    if line == b"cut".as_slice() {
        return Some(Ask::Cut);
    }
    if line == b"help".as_slice() {
        return Some(Ask::Help);
    }
    None
}

/// What a line asks for that has numbers after its first word.
fn read_numbered(line: &[u8]) -> Option<Ask<'static>>
    ensures found { IfSome result (λ ask. line.now ≡ ask_text ask) }
    ensures fits { (version : TheVersion) → IfSome result (FitsAsk version) }
    ensures none { result ≡ None → (version : TheVersion) (ask : Ask) →
        IsOfNumbers ask → FitsAsk version ask → line.now ≢ ask_text ask }
{
    if let Some(numbers) = rest_after(b"steps ", line) {
        return read_steps(numbers);
    }
    if let Some(numbers) = rest_after(b"diff ", line) {
        let (from, to) = two_numbers(numbers)?;
        return Some(Ask::Diff(from, to));
    }
    if let Some(word) = rest_after(b"without ", line) {
        return Some(Ask::Without(read_starter(word)?));
    }
    if let Some(word) = rest_after(b"owns ", line) {
        return Some(Ask::OwnsOf(read_starter(word)?));
    }
    if let Some(number) = byte_after(b"holds pipe ", line) {
        return Some(Ask::HoldsPipe(PipeNo(number)));
    }
    let number = byte_after(b"holds desc ", line)?;
    Some(Ask::HoldsDesc(DescNo(number)))
}

/// The name that words give to a process, its number first. Nothing where they give none, and in
/// the first two versions.
fn read_name(version: TextVersion, words: &[u8]) -> Option<Ask<'_>>
    ensures found { IfSome result (λ ask. codes "name " ++ words.now ≡ ask_text ask) }
    ensures fits { IfSome result (FitsAsk version) }
    ensures none { result ≡ None → (ask : Ask) →
        IsOfName ask → FitsAsk version ask → codes "name " ++ words.now ≢ ask_text ask }
{
    if !matches!(version, TextVersion::Three) {
        return None;
    }
    let (number, name) = split_word(words)?;
    let process = read_process(number)?;
    let name = read_name_word(name)?;
    Some(Ask::Name(process, name))
}

/// The process, 1 to 256, whose number a word spells.
fn read_process(word: &[u8]) -> Option<Pid>
    ensures found { IfSome result (λ process. word.now ≡ decimal process.0) }
    ensures fits { IfSome result (λ process. (1 ≤ process.0) × (process.0 ≤ 256)) }
    ensures none { result ≡ None → (process : ℕ) →
        1 ≤ process → process ≤ 256 → word.now ≢ decimal process }
{
    let process = read_pid(word)?;
    if process.0 < 1 || process.0 > 256 {
        return None;
    }
    Some(process)
}

/// A word that may be a name.
fn read_name_word(word: &[u8]) -> Option<&str>
    ensures { MatchOption result (is_name word.now ≡ false)
        (λ name. (name.now ≡ word.now) × (is_name word.now ≡ true)) }
{
    if !is_name(word) {
        return None;
    }
    match str::from_utf8(word) {
        Ok(name) => Some(name),
        Err(_error) => unreachable!(),
    }
}

/// Which steps to list, by one number or two.
fn read_steps(numbers: &[u8]) -> Option<Ask<'static>>
    ensures found { IfSome result (λ ask. codes "steps " ++ numbers.now ≡ ask_text ask) }
    ensures fits { (version : TheVersion) → IfSome result (FitsAsk version) }
    ensures one { result ≡ None → (first : ℕ) → first < 2 ^ 63 → numbers.now ≢ decimal first }
    ensures two { result ≡ None → (first last : ℕ) → first < 2 ^ 63 → last < 2 ^ 63 →
        numbers.now ≢ decimal first ++ 32 ∷ decimal last }
{
    if let Some(first) = read_position(numbers) {
        return Some(Ask::StepsFrom(first));
    }
    let (first, last) = two_numbers(numbers)?;
    Some(Ask::StepsBetween(first, last))
}

/// The starter whose number a word spells.
fn read_starter(word: &[u8]) -> Option<u16>
    ensures found { IfSome result (λ starter. word.now ≡ decimal starter) }
    ensures none { result ≡ None → (starter : ℕ) → starter < 2 ^ 16 → word.now ≢ decimal starter }
{
    let Pid(starter) = read_pid(word)?;
    Some(starter)
}

/// The two numbers that a text spells with a space between them. Nothing where it is another text.
fn two_numbers(numbers: &[u8]) -> Option<(u64, u64)>
    ensures found { IfSome result (λ r. numbers.now ≡ decimal r.0 ++ 32 ∷ decimal r.1) }
    ensures fits { IfSome result (λ r. (r.0 < 2 ^ 63) × (r.1 < 2 ^ 63)) }
    ensures none { result ≡ None → (first last : ℕ) → first < 2 ^ 63 → last < 2 ^ 63 →
        numbers.now ≢ decimal first ++ 32 ∷ decimal last }
{
    let (first, last) = split_word(numbers)?;
    let first = read_position(first)?;
    let last = read_position(last)?;
    Some((first, last))
}
