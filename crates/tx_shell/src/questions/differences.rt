//! Reports by which lines texts differ.
ghost use Rattle.std.specs.Prelude.{◌≡◌, ◌++◌, ◌∷◌, [], IfOk, OnOk, bytes_eq, map, string_bytes};
ghost use Rattle.std.specs.List.{position};
ghost use Rattle.std.specs.Str.Lines.{lines};
ghost use Rattle.tx_shell.specs.Differences.{all_differing, differing, has_line, left_over, less_line, marked};

use std::alloc::{AllocError, Global};
use std::fmt::Write;
use tx_base::NoMemory;

/// Appends how each of some texts differs from the one of the others that has its place.
///
/// NoMemory where a growth is refused; some of the lines may then be after the text.
pub fn put_all_differing(
    text: &mut String,
    before: &[String],
    after: &[String],
) -> Result<(), NoMemory>
    ensures { OnOk result (string_bytes text.new ≡ string_bytes text.old
        ++ all_differing (map string_bytes before.now) (map string_bytes after.now)) }
{
    let end = before.len().min(after.len());
    for i in 0..end {
        put_differing(text, before[i].as_str(), after[i].as_str())?;
    }
    Ok(())
}

/// Appends the lines of a text that another lacks, and then those of the other that it lacks, a
/// line each. Each line of the one is looked for in the other, among the lines that are left.
///
/// NoMemory where a growth is refused; some of the lines may then be after the text.
pub fn put_differing(text: &mut String, before: &str, after: &str) -> Result<(), NoMemory>
    ensures { OnOk result (string_bytes text.new
        ≡ string_bytes text.old ++ differing before.now after.now) }
{
    let alloc = *text.allocator();
    let gone = lines_in(alloc, before)?;
    let come = lines_in(alloc, after)?;
    put_left_over(text, "- ", gone.as_slice(), lines_in(alloc, after)?)?;
    put_left_over(text, "+ ", come.as_slice(), gone)?;
    Ok(())
}

/// The lines of a text.
fn lines_in(alloc: Global, text: &str) -> Result<Vec<&str>, AllocError>
    ensures { IfOk result (λ found. map (λ line. line.now) found.items ≡ lines text.now) }
{
    text.lines().collect(alloc)
}

/// Appends the lines that the others do not have, each after a mark.
fn put_left_over(
    text: &mut String,
    mark: &str,
    lines: &[&str],
    others: Vec<&str>,
) -> Result<(), AllocError>
    ensures { OnOk result (string_bytes text.new ≡ string_bytes text.old
        ++ marked mark.now (left_over (map (λ line. line.now) lines.now)
        (map (λ other. other.now) others.entry.items))) }
{
    let mut others = others;
    for line in lines {
        if !take_out(&mut others, line) {
            put_marked(text, mark, line)?;
        }
    }
    Ok(())
}

/// Takes the first of the others out that is that line. Answers whether there was one.
fn take_out(others: &mut Vec<&str>, line: &str) -> bool
    ensures has { result ≡ has_line line.now (map (λ other. other.now) others.old.items) }
    ensures less { map (λ other. other.now) others.new.items
        ≡ less_line line.now (map (λ other. other.now) others.old.items) }
{
    match place_of(others.as_slice(), line) {
        Some(place) => {
            let _line = others.remove(place);
            true
        }
        None => false,
    }
}

/// The place of the first of the others that is that line.
fn place_of(others: &[&str], line: &str) -> Option<usize>
    ensures { result ≡ position (λ other. bytes_eq other.now line.now) others.now }
{
    others.iter().position(|other| *other == line)
}

/// Appends a line after a mark.
fn put_marked(text: &mut String, mark: &str, line: &str) -> Result<(), AllocError>
    ensures { OnOk result (string_bytes text.new
        ≡ string_bytes text.old ++ (mark.now ++ (line.now ++ 10 ∷ []))) }
{
    write!(text, "{mark}{line}\n")
}
