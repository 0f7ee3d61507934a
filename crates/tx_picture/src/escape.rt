//! Texts in which what has a meaning of its own is escaped.
ghost use Rattle.std.specs.Prelude.{◌≡◌, ◌++◌, OnOk, string_bytes};
ghost use Rattle.tx_picture.specs.Svg.{escaped, escaped_byte};

use std::alloc::AllocError;
use tx_lines::put;

/// Appends a text in which what has a meaning of its own is escaped. A byte that is
/// neither a line's end nor printable ASCII is shown as a question mark.
pub(crate) fn put_escaped(text: &mut String, words: &[u8]) -> Result<(), AllocError>
    ensures { OnOk result (string_bytes text.new ≡ string_bytes text.old ++ escaped words.now) }
{
    for i in 0..words.len() {
        put_escaped_byte(text, words[i])?;
    }
    Ok(())
}

/// Appends a byte of a text.
fn put_escaped_byte(text: &mut String, byte: u8) -> Result<(), AllocError>
    ensures { OnOk result (string_bytes text.new ≡ string_bytes text.old ++ escaped_byte byte) }
{
    match byte {
        b'&' => put(text, "&amp;"),
        b'<' => put(text, "&lt;"),
        b'>' => put(text, "&gt;"),
        b'"' => put(text, "&quot;"),
        b'\n' => put(text, "\n"),
        b' '..=b'~' => text.push(byte as char),
        _ => put(text, "?"),
    }
}
