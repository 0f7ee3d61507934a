//! What is wrong with a line before its words are checked.
use crate::trouble::{LineTrouble, Trouble, What};
use crate::words::odd_space;

/// What some editors put before a text.
pub const BYTE_ORDER_MARK: [u8; 3] = [0xef, 0xbb, 0xbf];

/// What is wrong with the bytes of a line, or with the spaces between its words.
pub fn shape_trouble(line: &[u8]) -> Option<Trouble<'static>> {
    if line.is_empty() {
        return Some(Trouble::of_line(1, LineTrouble::Empty));
    }
    if line.starts_with(BYTE_ORDER_MARK.as_slice()) {
        return Some(Trouble::of_line(1, LineTrouble::ByteOrderMark));
    }
    if line[line.len() - 1] == b'\r' {
        return Some(Trouble::of_line(line.len(), LineTrouble::CarriageReturn));
    }
    if line[0] == b'#' {
        return Some(Trouble::of_line(1, LineTrouble::Comment));
    }
    if line.starts_with(b"//") || line.starts_with(b"/*") || line.starts_with(b";") {
        return Some(Trouble::of_line(1, LineTrouble::OtherComment));
    }
    let space = |column| Trouble::of_line(column, LineTrouble::Space);
    odd_byte(line).or_else(|| odd_space(line).map(space))
}

/// The first byte of a line that is neither a space nor a character of ASCII.
fn odd_byte(line: &[u8]) -> Option<Trouble<'static>> {
    let is_odd = |byte: &u8| *byte != b' ' && !byte.is_ascii_graphic();
    let at = line.iter().position(is_odd)?;
    Some(Trouble {
        column: at + 1,
        what: What::OddByte(line[at]),
    })
}
