//! Reads the bytes that a string means.
ghost use Rattle.std.specs.Prelude.{◌≡◌, ◌≢◌, ◌<◌, None, Some, IfSome, MatchOption, length, option_map, slice_index, false};
ghost use Rattle.hex.specs.Hex.{IsBytes};
ghost use Rattle.tx_translate.specs.Strings.{after_first, escape_of, meant, meant_from};

use arrayvec::ArrayVec;

/// The bytes that a string means after its first `"`, 1 to 64. Nothing where it has no end,
/// another escape, more after its end, or another number of bytes.
pub fn meant(string: &[u8]) -> Option<ArrayVec<u8, 64>>
    ensures meant { option_map (λ r. r.items) result ≡ meant string.now }
    ensures some { IfSome result (λ r. 0 < length r.items) }
    ensures fits { IfSome result (λ r. IsBytes r.items) }
{
    let mut bytes = ArrayVec::new();
    let mut left = string;
    while let Some((first, others)) = left.split_first() {
        if *first == b'"' {
            return (others.is_empty() && !bytes.is_empty()).then_some(bytes);
        }
        let (byte, rest) = split_byte(left)?;
        if bytes.is_full() {
            return None;
        }
        bytes.push(byte);
        left = rest;
    }
    None
}

/// The first byte of what is left of a string, by itself or by an escape, and what follows.
/// Nothing where there is no such escape, or nothing is left.
fn split_byte(left: &[u8]) -> Option<(u8, &[u8])>
    requires { slice_index left.now 0 ≢ 34 }
    ensures meant { MatchOption result (meant_from false left.now ≡ None) (λ r.
        meant_from false left.now ≡ after_first (Some r.0) (meant_from false r.1.now)) }
    ensures shorter { IfSome result (λ r. length r.1.now < length left.now) }
{
    let (first, rest) = left.split_first()?;
    if *first != b'\\' {
        return Some((*first, rest));
    }
    let (second, rest) = rest.split_first()?;
    let byte = escape(*second)?;
    Some((byte, rest))
}

/// The byte that an escape means, by the byte after its `\`. Nothing where there is no such
/// escape.
fn escape(byte: u8) -> Option<u8>
    ensures { result ≡ escape_of byte }
{
    match byte {
        b'n' => Some(b'\n'),
        b't' => Some(b'\t'),
        b'0' => Some(0),
        b'"' => Some(b'"'),
        b'\\' => Some(b'\\'),
        _ => None,
    }
}
