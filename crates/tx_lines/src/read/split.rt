//! The words of a line, separated by spaces, and the numbers among them.
ghost use Rattle.std.specs.Prelude.{◌≡◌, ◌≢◌, ◌<◌, ◌++◌, ◌∷◌, ℤ, ℕ, List, FitsSigned, IfSome, IsSomeAnd, MatchOption, Some, option_map};
ghost use Rattle.std.specs.Int.{w64};
ghost use Rattle.std.specs.Fmt.{signed_decimal};
ghost use Rattle.tx_lines.specs.Calls.{pair_text, triple_text};
ghost use Rattle.tx_lines.specs.Words.{first_word, parts_at};

use crate::read::leading::split_unsigned;
use crate::read::numbers::number;
use crate::read::search::find;

/// The text before the first byte of that kind, and the text after it. Nothing where there is
/// none.
pub fn split_at(mark: u8, text: &[u8]) -> Option<(&[u8], &[u8])>
    ensures { option_map (λ r. (r.0.now, r.1.now)) result ≡ parts_at mark text.now }
{
    let at = find(mark, text)?;
    Some((&text[..at], &text[at + 1..]))
}

/// The text before the first space, and the text after it. Nothing where there is no space.
pub fn split_word(line: &[u8]) -> Option<(&[u8], &[u8])>
    ensures { option_map (λ r. (r.0.now, r.1.now)) result ≡ first_word line.now }
{
    split_at(b' ', line)
}

/// What follows that front of a line. Nothing where the line does not begin so.
pub fn after_front<'a>(front: &[u8], line: &'a [u8]) -> Option<&'a [u8]>
    ensures { MatchOption result ((rest : List ℕ) → line.now ≢ front.now ++ rest) (λ rest.
        line.now ≡ front.now ++ rest.now) }
{
    line.strip_prefix(front)
}

/// The number before the first space, and the text after it. Nothing where there is no space, or
/// no number before it.
#[inline(always)] // most lines have a number, of few digits
pub fn split_number(line: &[u8]) -> Option<(i64, &[u8])>
    ensures found { IfSome result (λ r. line.now ≡ signed_decimal r.0 ++ 32 ∷ r.1.now) }
    ensures fits { IfSome result (λ r. FitsSigned w64 r.0) }
    ensures only { (z : ℤ) (rest : List ℕ) → FitsSigned w64 z →
        line.now ≡ signed_decimal z ++ 32 ∷ rest →
        IsSomeAnd result (λ r. (r.0 ≡ z) × (r.1.now ≡ rest)) }
{
    match split_unsigned(line) {
        Some((number, rest)) => Some((i64::try_from(number).ok()?, rest)),
        None => split_any(line),
    }
}

/// The number before the first space, with a sign or without, and the text after it: as
/// `split_number`.
#[inline(never)] // inlined, it would keep `split_number` from being inlined
fn split_any(line: &[u8]) -> Option<(i64, &[u8])>
    ensures found { IfSome result (λ r. line.now ≡ signed_decimal r.0 ++ 32 ∷ r.1.now) }
    ensures fits { IfSome result (λ r. FitsSigned w64 r.0) }
    ensures only { (z : ℤ) (rest : List ℕ) → FitsSigned w64 z →
        line.now ≡ signed_decimal z ++ 32 ∷ rest →
        IsSomeAnd result (λ r. (r.0 ≡ z) × (r.1.now ≡ rest)) }
{
    let (first, rest) = split_word(line)?;
    let number = number(first)?;
    Some((number, rest))
}

/// The two numbers that a text spells. Nothing where it is another text.
pub fn pair(text: &[u8]) -> Option<(i64, i64)>
    ensures found { IfSome result (λ r. text.now ≡ pair_text r.0 r.1) }
    ensures fits { IfSome result (λ r. FitsSigned w64 r.0 × FitsSigned w64 r.1) }
    ensures only { (a b : ℤ) → FitsSigned w64 a → FitsSigned w64 b → text.now ≡ pair_text a b →
        IsSomeAnd result (λ r. (r.0 ≡ a) × (r.1 ≡ b)) }
{
    let (first, rest) = split_number(text)?;
    let second = number(rest)?;
    Some((first, second))
}

/// The three numbers that a text spells. Nothing where it is another text.
pub fn triple(text: &[u8]) -> Option<(i64, i64, i64)>
    ensures found { IfSome result (λ r. text.now ≡ triple_text r.0 r.1 r.2) }
    ensures fits { IfSome result (λ r.
        FitsSigned w64 r.0 × FitsSigned w64 r.1 × FitsSigned w64 r.2) }
    ensures only { (a b c : ℤ) → FitsSigned w64 a → FitsSigned w64 b → FitsSigned w64 c →
        text.now ≡ triple_text a b c → IsSomeAnd result (λ r. (r.0 ≡ a) × (r.1 ≡ b) × (r.2 ≡ c)) }
{
    let (first, rest) = split_number(text)?;
    let (second, third) = pair(rest)?;
    Some((first, second, third))
}
