//! The numbers of lines, in decimal digits that are raised by one.
ghost use Rattle.std.specs.Prelude.{◌≡◌, ◌+◌, ◌-◌, ◌%◌, ◌^◌, ◌<◌, ◌++◌, OnOk, string_bytes};
ghost use Rattle.std.specs.Fmt.{decimal};

use itoa::Buffer;
use std::alloc::{AllocError, Global};
use std::marker::Model;

/// A number in decimal digits. Raising it by one is cheaper than printing the next number.
#[derive(Drop)]
pub struct Numeral {
    number: u64,
    /// All digits but the last.
    front: String,
    /// The last digit, as a byte of text.
    last: u8,
}

impl Model for Numeral {
    ghost use Rattle.std.specs.Prelude.{◌≡◌, ◌<◌, ℕ, ◌+◌, ◌%◌, ◌^◌, string_bytes};
    ghost use Rattle.tx_lines.specs.Numerals.{front_text};

    ghost Value = { ℕ };

    ghost view = { λ numeral. numeral.number };

    ghost invariant = { λ numeral.
        (string_bytes numeral.front ≡ front_text numeral.number)
        × (numeral.last ≡ 48 + numeral.number % 10) × (numeral.number < 2 ^ 64) };
}

impl Numeral {
    /// The number of the first line. It takes no memory.
    pub fn one(alloc: Global) -> Numeral
        ensures { result ≡ 1 }
    {
        Numeral {
            number: 1,
            front: String::new(alloc),
            last: b'1',
        }
    }

    /// Appends the number. The only error is a refused growth of memory: the text may then end
    /// with the first digits.
    #[inline(always)] // each line of a report has one
    pub fn append_to(&self, text: &mut String) -> Result<(), AllocError>
        ensures { OnOk result
            (string_bytes text.new ≡ string_bytes text.old ++ decimal self.now) }
    {
        put_front(text, self.front.as_str())?;
        text.push(self.last as char)
    }

    /// Goes on to the next number. The only error is a refused growth of memory: the number is
    /// then another one.
    #[inline(always)] // as `append_to`
    pub fn raise(&mut self) -> Result<(), AllocError>
        requires { self.old < 2 ^ 64 - 1 }
        ensures { OnOk result (self.new ≡ self.old + 1) }
    {
        if self.last == b'9' {
            return self.raise_front();
        }
        self.number += 1;
        self.last += 1;
        Ok(())
    }

    /// The same where the last digit is a nine.
    #[inline(never)] // one number in ten needs it
    fn raise_front(&mut self) -> Result<(), AllocError>
        requires nine { self.old % 10 ≡ 9 }
        requires below { self.old < 2 ^ 64 - 1 }
        ensures { OnOk result (self.new ≡ self.old + 1) }
    {
        let next = self.number + 1;
        let mut buffer = Buffer::new();
        self.number = 0;
        self.last = b'0';
        self.front.clear();
        self.front.push_str(buffer.format(next / 10))?;
        self.number = next;
        Ok(())
    }
}

/// Appends the front of a number. Two or three digits, as in most, are copied without a call.
#[inline(always)] // as `Numeral::append_to`
fn put_front(text: &mut String, front: &str) -> Result<(), AllocError>
    ensures { OnOk result (string_bytes text.new ≡ string_bytes text.old ++ front.now) }
{
    match front.len() {
        3 => text.push_str(front),
        2 => text.push_str(front),
        _ => text.push_str(front),
    }
}
