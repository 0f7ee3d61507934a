//! Prints bytes in hex digits.
ghost use Rattle.std.specs.Prelude.{◌≡◌, ◌++◌, ◌<◌, ◌≤◌, OnOk, length, map, slice_index, string_bytes, take};
ghost use Rattle.std.specs.Simd.Lanes.{Each1};
ghost use Rattle.hex.specs.Hex.{encode_lower, lower_digits};
ghost use Rattle.tx_lines.specs.Bytes.{bytes_text};

use crate::print::words::{put, put_byte};
use std::alloc::AllocError;
use std::simd::prelude::*;
use std::str;

/// How many bytes are printed at once.
const BLOCK: usize = 16;

/// Appends bytes in hex digits, or `-` where there is none.
pub fn put_bytes(text: &mut String, bytes: &[u8]) -> Result<(), AllocError>
    ensures { OnOk result (string_bytes text.new ≡ string_bytes text.old ++ bytes_text bytes.now) }
{
    if bytes.is_empty() {
        return put(text, "-");
    }
    put_digits(text, bytes)
}

/// Appends two hex digits for each byte, and nothing where there is none. The only error is a
/// refused growth of memory: the text may then end with the digits of the first bytes.
pub fn put_digits(text: &mut String, bytes: &[u8]) -> Result<(), AllocError>
    ensures { OnOk result
        (string_bytes text.new ≡ string_bytes text.old ++ encode_lower bytes.now) }
{
    let mut rest = bytes;
    while rest.len() >= BLOCK {
        put_block(text, rest)?;
        rest = &rest[BLOCK..];
    }
    put_each(text, rest)
}

/// As `put_digits`, byte by byte.
fn put_each(text: &mut String, bytes: &[u8]) -> Result<(), AllocError>
    ensures { OnOk result
        (string_bytes text.new ≡ string_bytes text.old ++ encode_lower bytes.now) }
{
    let mut rest = bytes;
    while let Some((byte, later)) = rest.split_first() {
        put_byte(text, *byte)?;
        rest = later;
    }
    Ok(())
}

/// Appends the hex digits of the first bytes, as many as a block has.
fn put_block(text: &mut String, bytes: &[u8]) -> Result<(), AllocError>
    requires { 16 ≤ length bytes.now }
    ensures { OnOk result (string_bytes text.new ≡
        string_bytes text.old ++ encode_lower (take 16 bytes.now)) }
{
    let digits = digits_of(u8x16::from_slice(bytes));
    let Ok(digits) = str::from_utf8(&digits) else {
        unreachable!()
    };
    text.push_str(digits)
}

/// The hex digits of some bytes, the high one of each first.
#[inline(always)] // passing vectors in memory costs more than the work on them
fn digits_of(bytes: u8x16) -> [u8; 32]
    requires lanes { length bytes ≡ 16 }
    requires fits { Each1 (λ byte. byte < 256) bytes }
    ensures { result ≡ encode_lower bytes }
{
    let high = each_digit(bytes >> u8x16::splat(4));
    let low = each_digit(bytes & u8x16::splat(15));
    let (front, back) = high.interleave(low);
    let mut digits = [0; 32];
    front.copy_to_slice(&mut digits[..16]);
    back.copy_to_slice(&mut digits[16..]);
    digits
}

/// The hex digit of each number.
#[inline(always)] // as `digits_of`
fn each_digit(numbers: u8x16) -> u8x16
    requires lanes { length numbers ≡ 16 }
    requires small { Each1 (λ number. number < 16) numbers }
    ensures { result ≡ map (slice_index lower_digits) numbers }
{
    let decimal = numbers + u8x16::splat(b'0');
    let letter = numbers + u8x16::splat(b'a' - 10);
    numbers.simd_lt(u8x16::splat(10)).select(decimal, letter)
}
