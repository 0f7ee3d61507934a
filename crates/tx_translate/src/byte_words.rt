//! Puts words for bytes as version 2 spells them.
ghost use Rattle.std.specs.Prelude.{◌≡◌, ◌++◌, ◌<◌, map, slice_index, OnErr, OnOk};
ghost use Rattle.std.specs.Char.{is_ascii_hexdigit, to_ascii_lowercase};
ghost use Rattle.std.specs.List.{list_all};
ghost use Rattle.hex.specs.Hex.{encode_lower, lower_digits};
ghost use Rattle.tx_translate.specs.ByteWords.{digits_of, is_hex, lower_or, plain_bytes};
ghost use Rattle.tx_translate.specs.Rooms.{IsOver};

use crate::room::{Full, Room, put, put_byte};
use crate::spellings::is;
use crate::strings::meant;

/// Appends a word with lower-case hex digits for its bytes, or as it is where it spells none.
/// After an error the room may have some of them.
pub fn put_bytes(room: &mut Room, word: &[u8]) -> Result<(), Full>
    ensures put { OnOk result (room.new.items ≡ room.old.items ++ plain_bytes word.now) }
    ensures full { OnErr result (IsOver (room.old.items ++ plain_bytes word.now)) }
{
    match word.split_first() {
        Some((b'"', string)) => match meant(string) {
            Some(bytes) => put_hex(room, bytes.as_slice()),
            None => put(room, word),
        },
        _ => put_digits(room, word),
    }
}

/// Appends bytes in lower-case hex digits.
#[tactic(auto, unfolding(hex::specs::Hex::encode_with))]
fn put_hex(room: &mut Room, bytes: &[u8]) -> Result<(), Full>
    ensures put { OnOk result (room.new.items ≡ room.old.items ++ encode_lower bytes.now) }
    ensures full { OnErr result (IsOver (room.old.items ++ encode_lower bytes.now)) }
{
    let mut left = bytes;
    while let Some((byte, rest)) = left.split_first() {
        put_byte(room, hex_digit(*byte / 16))?;
        put_byte(room, hex_digit(*byte % 16))?;
        left = rest;
    }
    Ok(())
}

/// The lower-case hex digit of a number.
fn hex_digit(number: u8) -> u8
    requires { number < 16 }
    ensures { result ≡ slice_index lower_digits number }
{
    if number < 10 {
        b'0' + number
    } else {
        b'a' + (number - 10)
    }
}

/// Appends the digits of a word in lower case, or the word as it is where it has none.
fn put_digits(room: &mut Room, word: &[u8]) -> Result<(), Full>
    ensures put { OnOk result
        (room.new.items ≡ room.old.items ++ lower_or word.now (digits_of word.now)) }
    ensures full { OnErr result
        (IsOver (room.old.items ++ lower_or word.now (digits_of word.now))) }
{
    let digits = digits_of(word);
    if is_hex(digits) {
        put_lower(room, digits)
    } else {
        put(room, word)
    }
}

/// A word without its `0x`, where it begins so.
fn digits_of(word: &[u8]) -> &[u8]
    ensures { result.now ≡ digits_of word.now }
{
    if word.len() >= 2 && is(&word[..2], b"0x") {
        &word[2..]
    } else {
        word
    }
}

/// Whether a word is hex digits for 1 to 64 bytes.
fn is_hex(digits: &[u8]) -> bool
    ensures { result ≡ is_hex digits.now }
{
    !digits.is_empty() && digits.len() <= 128 && digits.len() % 2 == 0 && are_hex_digits(digits)
}

/// Whether all bytes are hex digits of either case.
fn are_hex_digits(bytes: &[u8]) -> bool
    ensures { result ≡ list_all is_ascii_hexdigit bytes.now }
{
    bytes.iter().all(|byte| byte.is_ascii_hexdigit())
}

/// Appends digits in lower case.
fn put_lower(room: &mut Room, digits: &[u8]) -> Result<(), Full>
    ensures put { OnOk result
        (room.new.items ≡ room.old.items ++ map to_ascii_lowercase digits.now) }
    ensures full { OnErr result
        (IsOver (room.old.items ++ map to_ascii_lowercase digits.now)) }
{
    let mut left = digits;
    while let Some((digit, rest)) = left.split_first() {
        put_byte(room, digit.to_ascii_lowercase())?;
        left = rest;
    }
    Ok(())
}
