//! The name that is nearest to a mistyped one.
ghost use Rattle.std.specs.Prelude.{◌≡◌, ◌<◌, ◌≤◌, ◌++◌, ◌∷◌, [], ℕ, List, None, Some, map, option_map, IfNone, IfOk, IfSome};
ghost use Rattle.tx_check.specs.Near as spec;
ghost use Rattle.tx_check.specs.Near.{call_names, name_of, near, with_name, FindsLabel, FindsName, FindsNear, IsFoundIn, IsKnown, IsNear};
ghost use Rattle.tx_check.specs.declared.trouble.Names.TheVariants as lists;
ghost use Rattle.tx_lines.specs.Programs.{BeginsLabel};
ghost use Rattle.tx_translate.specs.MeantLines.{left_of, line_of};
ghost use Rattle.tx_translate.specs.declared.meant_lines.MeantLines.{MeantLines};

use crate::forms::{CALLS, COMMANDS, Form, FormRow, PIECES, SESSION};
use crate::habits::{call_meant, command_meant, session_meant};
use crate::labels::LABEL_FRONT;
use crate::trouble::Names;
use std::alloc::Global;
use strsim::osa_distance;
use tx_base::NoMemory;
use tx_translate::{MeantLines, OwnLine, Room};

/// How many edits a near name takes at most. One of `n` bytes is near where it takes at most
/// `n / 3`.
const EDITS: usize = 4;

/// A name that is near to a word.
#[derive(Clone, Copy)]
pub enum NearName<'a> {
    /// That of a call, a command or a piece.
    Form(Form),
    /// That of a call, with which no line of a session begins.
    Step(Form),
    /// That of the label which the line means.
    Label(OwnLine<'a>),
}

/// The name among those there are that is meant by a word: one that people know it by from
/// elsewhere, or the one that is nearest to it, where one is near.
pub fn near_name<'a>(
    alloc: Global,
    names: Names<'a>,
    word: &[u8],
) -> Result<Option<NearName<'a>>, NoMemory>
    ensures { IfOk result (IsFoundIn names.entry word.now) }
{
    if let Some(name) = known_elsewhere(names, word) {
        return Ok(Some(name));
    }
    match names {
        Names::Calls => nearest_name(alloc, CALLS.as_slice(), word),
        // A program has no `deliver`, which is last.
        Names::Instructions => nearest_name(alloc, &CALLS[..CALLS.len() - 1], word),
        Names::Commands => nearest_name(alloc, COMMANDS.as_slice(), word),
        Names::Pieces => nearest_name(alloc, PIECES.as_slice(), word),
        Names::Session => nearest_in_session(alloc, word),
        Names::Labels(text) => nearest_label(alloc, text, bare_name(word)),
    }
}

/// The name of a label without the `@` before it.
fn bare_name(word: &[u8]) -> &[u8]
    ensures { result.now ≡ spec.bare_name word.now }
{
    match word {
        [b'@', name @ ..] => name,
        _ => word,
    }
}

/// The name here of what has that name elsewhere.
fn known_elsewhere(names: Names<'_>, word: &[u8]) -> Option<NearName<'static>>
    ensures known { IfSome result (λ name. IsKnown (Some name)) }
    ensures pieces { names.entry ≡ lists.Pieces → result ≡ None }
    ensures labels { (text : MeantLines) → names.entry ≡ lists.Labels text → result ≡ None }
{
    match names {
        Names::Calls | Names::Instructions => Some(NearName::Form(call_meant(word)?)),
        Names::Commands => Some(NearName::Form(command_meant(word)?)),
        Names::Session => match session_meant(word) {
            Some(form) => Some(NearName::Form(form)),
            None => Some(NearName::Step(call_meant(word)?)),
        },
        Names::Pieces | Names::Labels(_) => None,
    }
}

/// The nearest of some names.
fn nearest_name(
    alloc: Global,
    forms: &'static [FormRow],
    word: &[u8],
) -> Result<Option<NearName<'static>>, NoMemory>
    ensures { IfOk result (λ found. FindsName word.now (map (λ form. form.0.now) forms.now) 5
        (option_map name_of found)) }
{
    let nearest = nearest_form(alloc, None, forms, false, word)?;
    Ok(named(nearest))
}

/// The nearest command of a session, or a call that is nearer.
fn nearest_in_session(alloc: Global, word: &[u8]) -> Result<Option<NearName<'static>>, NoMemory>
    ensures { IfOk result (λ found. FindsName word.now
        (map (λ form. form.0.now) SESSION ++ call_names) 5 (option_map name_of found)) }
{
    let command = nearest_form(alloc, None, SESSION.as_slice(), false, word)?;
    let nearest = nearest_form(alloc, command, CALLS.as_slice(), true, word)?;
    Ok(named(nearest))
}

/// The name that was found, without the number of its edits.
fn named<'a>(found: Option<(NearName<'a>, usize)>) -> Option<NearName<'a>>
    ensures { (word : List ℕ) (names : List (List ℕ)) →
        FindsNear word names 5 (option_map near found.entry) →
        FindsName word names 5 (option_map name_of result) }
{
    match found {
        Some((name, _edits)) => Some(name),
        None => None,
    }
}

/// The nearest name of those that were looked at, or that of a form, or of the step of one, where
/// that takes fewer edits: the first where several are as near.
fn nearest_form(
    alloc: Global,
    nearest: Option<(NearName<'static>, usize)>,
    forms: &'static [FormRow],
    is_step: bool,
    word: &[u8],
) -> Result<Option<(NearName<'static>, usize)>, NoMemory>
    ensures { IfOk result (λ found. (names : List (List ℕ)) →
        FindsNear word.now names 5 (option_map near nearest.entry) →
        FindsNear word.now (names ++ map (λ form. form.0.now) forms.now) 5
        (option_map near found)) }
{
    let mut found = nearest;
    for at in 0..forms.len() {
        let (name, words, meaning) = forms[at];
        let one = near_of(
            Form {
                name,
                words,
                meaning,
            },
            is_step,
        );
        found = nearer(alloc, found, one, name.as_bytes(), word)?;
    }
    Ok(found)
}

/// The name of that form, or of a step of it.
fn near_of(form: Form, is_step: bool) -> NearName<'static>
    ensures { name_of result ≡ form.name.now }
{
    if is_step {
        return NearName::Step(form);
    }
    NearName::Form(form)
}

/// The nearest name of those that were looked at, or that one more where it takes fewer edits.
fn nearer<'a>(
    alloc: Global,
    nearest: Option<(NearName<'a>, usize)>,
    one: NearName<'a>,
    name: &[u8],
    word: &[u8],
) -> Result<Option<(NearName<'a>, usize)>, NoMemory>
    requires { name.now ≡ name_of one }
    ensures { IfOk result (λ next. (names : List (List ℕ)) →
        FindsNear word.now names 5 (option_map near nearest.entry) →
        FindsNear word.now (names ++ name.now ∷ []) 5 (option_map near next)) }
{
    match fewer_edits(alloc, bound(nearest), name, word)? {
        Some(fewer) => Ok(Some((one, fewer))),
        None => Ok(nearest),
    }
}

/// How many edits are too many, where that name was found.
fn bound(nearest: Option<(NearName<'_>, usize)>) -> usize
    ensures { result ≡ spec.bound 5 (option_map near nearest.entry) }
{
    nearest.map_or(EDITS + 1, |found| found.1)
}

/// The nearest of the names of the labels in a text: the first where several are as near.
fn nearest_label<'a>(
    alloc: Global,
    text: MeantLines<'a>,
    word: &[u8],
) -> Result<Option<NearName<'a>>, NoMemory>
    ensures { IfOk result (λ found.
        FindsLabel word.now (left_of text.entry) (option_map name_of found)) }
{
    let mut nearest = None;
    let mut left = text;
    while let Some((line, rest)) = left.split() {
        nearest = nearer_label(alloc, nearest, line, word)?;
        left = rest;
    }
    Ok(named(nearest))
}

/// The nearest label of those that were looked at, or the one that a line means where its name
/// takes fewer edits.
fn nearer_label<'a>(
    alloc: Global,
    nearest: Option<(NearName<'a>, usize)>,
    line: OwnLine<'a>,
    word: &[u8],
) -> Result<Option<(NearName<'a>, usize)>, NoMemory>
    ensures { IfOk result (λ next. (names : List (List ℕ)) →
        FindsNear word.now names 5 (option_map near nearest.entry) →
        FindsNear word.now (with_name (line_of line.entry) names) 5 (option_map near next)) }
{
    let mut room = Room::new();
    match label_name(line, &mut room) {
        Some(name) => nearer(alloc, nearest, NearName::Label(line), name, word),
        None => Ok(nearest),
    }
}

/// The name of the label that a line means. Nothing where it means none.
fn label_name<'a>(line: OwnLine<'a>, room: &'a mut Room) -> Option<&'a [u8]>
    ensures label { IfSome result (λ name. BeginsLabel (line_of line.entry)) }
    ensures name { IfSome result (λ name. name.now ≡ spec.label_name (line_of line.entry)) }
    ensures none { IfNone result (BeginsLabel (line_of line.entry) → ⊥) }
{
    let label = line.label(room)?;
    Some(label.split_at(LABEL_FRONT).1)
}

/// How many edits a name takes, where they are fewer than those, and few for the name.
fn fewer_edits(
    alloc: Global,
    edits: usize,
    name: &[u8],
    word: &[u8],
) -> Result<Option<usize>, NoMemory>
    ensures near { IfOk result (λ found. IfSome found (IsNear word.now name.now)) }
    ensures fewer { IfOk result (λ found. IfSome found (λ fewer. fewer < edits)) }
    ensures far { IfOk result (λ found. IfNone found
        ((other : ℕ) → IsNear word.now name.now other → edits ≤ other)) }
{
    if name.len().abs_diff(word.len()) > EDITS {
        return Ok(None);
    }
    let (Ok(name_text), Ok(word_text)) = (str::from_utf8(name), str::from_utf8(word)) else {
        return Ok(None);
    };
    let fewer = osa_distance(alloc, name_text, word_text)?;
    Ok((fewer < edits && fewer <= EDITS && fewer <= name.len() / 3).then_some(fewer))
}
