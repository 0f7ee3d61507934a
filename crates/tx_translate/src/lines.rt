//! The lines of a text that a person wrote.
ghost use Rattle.std.specs.Prelude.{◌≡◌, ◌≢◌, ◌∷◌, ◌++◌, ◌<◌, [], ℕ, List, length, IfSome, MatchOption};
ghost use Rattle.tx_translate.specs.OwnLines.{own_lines, without_return};

use tx_lines::take_line;

/// The first line of a text, without its end, and the text after it. Nothing where the text has no
/// byte.
pub fn split_line(text: &[u8]) -> Option<(&[u8], &[u8])>
    ensures lines { MatchOption result (own_lines text.now ≡ [])
        (λ r. own_lines text.now ≡ r.0.now ∷ own_lines r.1.now) }
    ensures shorter { IfSome result (λ r. length r.1.now < length text.now) }
{
    if text.is_empty() {
        return None;
    }
    let (line, rest) = take_line(text);
    match rest {
        Some(rest) => Some((before_return(line), rest)),
        None => Some((before_return(line), &[])),
    }
}

/// A line without the byte 13 at its end, where it has one.
pub fn before_return(line: &[u8]) -> &[u8]
    ensures { result.now ≡ without_return line.now }
{
    match before_end(b"\r", line) {
        Some(front) => front,
        None => line,
    }
}

/// The line before that end. Nothing where the line does not end so.
fn before_end<'a>(end: &[u8], line: &'a [u8]) -> Option<&'a [u8]>
    ensures { MatchOption result ((front : List ℕ) → line.now ≢ front ++ end.now) (λ front.
        line.now ≡ front.now ++ end.now) }
{
    line.strip_suffix(end)
}
