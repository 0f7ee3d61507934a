//! Writes words, numbers and bytes to a text in memory.
ghost use Rattle.std.specs.Prelude.{◌≡◌, ◌++◌, ◌∷◌, ◌<◌, [], OnOk, slice_index, string_bytes};
ghost use Rattle.std.specs.Fmt.{decimal, signed_decimal};
ghost use Rattle.hex.specs.Hex.{lower_digits};
ghost use Rattle.tx_lines.specs.Bytes.{two_digits};

use itoa::Buffer;
use std::alloc::AllocError;
use std::fmt::Write;

/// Appends a word, or several with their separators. The only error is a refused growth of memory:
/// the text is then unchanged.
pub fn put(text: &mut String, word: &str) -> Result<(), AllocError>
    ensures { OnOk result (string_bytes text.new ≡ string_bytes text.old ++ word.now) }
{
    text.push_str(word)
}

/// Appends a number in decimal digits, with `-` before a negative one.
pub fn put_number(text: &mut String, number: i64) -> Result<(), AllocError>
    ensures { OnOk result (string_bytes text.new ≡ string_bytes text.old ++ signed_decimal number) }
{
    match u8::try_from(number) {
        // Most answers are one digit, which needs no buffer.
        Ok(digit) if digit < 10 => put_digit(text, digit),
        _ => {
            let mut buffer = Buffer::new();
            text.push_str(buffer.format(number))
        }
    }
}

/// Appends a decimal digit.
fn put_digit(text: &mut String, digit: u8) -> Result<(), AllocError>
    requires { digit < 10 }
    ensures { OnOk result (string_bytes text.new ≡ string_bytes text.old ++ decimal digit) }
{
    text.push((b'0' + digit) as char)
}

/// Appends a count or a process number in decimal digits. The only error is a refused growth of
/// memory: the text is then unchanged.
pub fn put_count(text: &mut String, count: u64) -> Result<(), AllocError>
    ensures { OnOk result (string_bytes text.new ≡ string_bytes text.old ++ decimal count) }
{
    let mut buffer = Buffer::new();
    text.push_str(buffer.format(count))
}

/// Appends a count or the number of a thing, and a space.
pub fn put_count_first(text: &mut String, count: u64) -> Result<(), AllocError>
    ensures { OnOk result
        (string_bytes text.new ≡ string_bytes text.old ++ (decimal count ++ 32 ∷ [])) }
{
    put_count(text, count)?;
    put(text, " ")
}

/// Appends a byte, as two lower-case hex digits.
pub fn put_byte(text: &mut String, byte: u8) -> Result<(), AllocError>
    ensures { OnOk result (string_bytes text.new ≡ string_bytes text.old ++ two_digits byte) }
{
    text.push(digit(byte / 16))?;
    text.push(digit(byte % 16))
}

/// The lower-case hex digit of a number.
fn digit(number: u8) -> char
    requires { number < 16 }
    ensures digit { result ≡ slice_index lower_digits number }
    ensures ascii { result < 128 }
{
    if number < 10 {
        (b'0' + number) as char
    } else {
        (b'a' + (number - 10)) as char
    }
}
