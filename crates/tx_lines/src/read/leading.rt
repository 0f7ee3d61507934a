//! Numbers at the front of a text, each with a space after it.
ghost use Rattle.std.specs.Prelude.{◌≡◌, ◌<◌, ◌≤◌, ◌^◌, ◌++◌, ◌∷◌, ◌↔◌, ℕ, List, IfSome, IsSomeAnd, IsTrue, length, slice_index, take};
ghost use Rattle.std.specs.Int.{IsInRange};
ghost use Rattle.std.specs.Str.Parse.{digits_value, AllDigits};
ghost use Rattle.std.specs.Fmt.{decimal};
ghost use Rattle.tx_base.specs.declared.names.Pid.{Pid};

use crate::read::numbers::DIGITS;
use tx_base::Pid;

/// The number without a sign before the first space, and the text after it: `0`, or up to 19
/// digits of which the first is not 0. Nothing where there is no space, or another word before it.
#[inline(always)] // as `split_number`
pub fn split_unsigned(line: &[u8]) -> Option<(u64, &[u8])>
    ensures found { IfSome result (λ r. line.now ≡ decimal r.0 ++ 32 ∷ r.1.now) }
    ensures fits { IfSome result (λ r. r.0 < 10 ^ 19) }
    ensures only { (n : ℕ) (rest : List ℕ) → n < 10 ^ 19 → line.now ≡ decimal n ++ 32 ∷ rest →
        IsSomeAnd result (λ r. (r.0 ≡ n) × (r.1.now ≡ rest)) }
{
    if line.len() > 1 && line[1] == b' ' && line[0].is_ascii_digit() {
        return Some((u64::from(line[0] - b'0'), &line[2..])); // what most lines begin with
    }
    split_two(line)
}

/// As `split_unsigned`, where the number has more than one digit: two without a loop.
#[inline(always)] // as `split_number`
fn split_two(line: &[u8]) -> Option<(u64, &[u8])>
    ensures found { IfSome result (λ r. line.now ≡ decimal r.0 ++ 32 ∷ r.1.now) }
    ensures fits { IfSome result (λ r. r.0 < 10 ^ 19) }
    ensures only { (n : ℕ) (rest : List ℕ) → 10 ≤ n → n < 10 ^ 19 →
        line.now ≡ decimal n ++ 32 ∷ rest → IsSomeAnd result (λ r. (r.0 ≡ n) × (r.1.now ≡ rest)) }
{
    if line.len() > 2 && line[2] == b' ' && line[0] > b'0' && are_digits(line[0], line[1]) {
        let number = 10 * (line[0] - b'0') + (line[1] - b'0');
        return Some((u64::from(number), &line[3..]));
    }
    split_longer(line)
}

/// Whether two bytes are digits.
fn are_digits(first: u8, second: u8) -> bool
    ensures { IsTrue result ↔ (IsInRange 48 57 first × IsInRange 48 57 second) }
{
    first.is_ascii_digit() && second.is_ascii_digit()
}

/// As `split_two`, by a loop.
#[inline(never)] // inlined, its loop would keep `split_unsigned` from being inlined
fn split_longer(line: &[u8]) -> Option<(u64, &[u8])>
    ensures found { IfSome result (λ r. line.now ≡ decimal r.0 ++ 32 ∷ r.1.now) }
    ensures fits { IfSome result (λ r. r.0 < 10 ^ 19) }
    ensures only { (n : ℕ) (rest : List ℕ) → 10 ≤ n → n < 10 ^ 19 →
        line.now ≡ decimal n ++ 32 ∷ rest → IsSomeAnd result (λ r. (r.0 ≡ n) × (r.1.now ≡ rest)) }
{
    let (number, count) = digits_before_space(line)?;
    if count == 0 {
        return None;
    }
    if line[0] == b'0' {
        return None;
    }
    Some((number, &line[count + 1..]))
}

/// The number that the digits before the first space spell, and how many they are. Nothing where
/// there is no space after at most 19 digits.
fn digits_before_space(line: &[u8]) -> Option<(u64, usize)>
    ensures digits { IfSome result (λ r. AllDigits 10 (take r.1 line.now)) }
    ensures value { IfSome result (λ r. r.0 ≡ digits_value 10 (take r.1 line.now)) }
    ensures few { IfSome result (λ r. r.1 < 20) }
    ensures inside { IfSome result (λ r. r.1 < length line.now) }
    ensures space { IfSome result (λ r. slice_index line.now r.1 ≡ 32) }
    ensures only { (n : ℕ) (rest : List ℕ) → n < 10 ^ 19 → line.now ≡ decimal n ++ 32 ∷ rest →
        IsSomeAnd result (λ r. r.1 ≡ length (decimal n)) }
{
    let mut number = 0;
    for i in 0..line.len() {
        let byte = line[i];
        if byte == b' ' {
            return Some((number, i));
        }
        if i == DIGITS {
            return None;
        }
        if !byte.is_ascii_digit() {
            return None;
        }
        number = 10 * number + u64::from(byte - b'0');
    }
    None
}

/// The process number, 0 to 65535, before the first space, and the text after it. Nothing where
/// there is no space, or no such number before it.
pub fn split_pid(line: &[u8]) -> Option<(Pid, &[u8])>
    ensures found { IfSome result (λ r. line.now ≡ decimal r.0.0 ++ 32 ∷ r.1.now) }
    ensures fits { IfSome result (λ r. r.0.0 < 2 ^ 16) }
    ensures only { (p : Pid) (rest : List ℕ) → p.0 < 2 ^ 16 → line.now ≡ decimal p.0 ++ 32 ∷ rest →
        IsSomeAnd result (λ r. (r.0 ≡ p) × (r.1.now ≡ rest)) }
{
    let (number, rest) = split_unsigned(line)?;
    let number = u16::try_from(number).ok()?;
    Some((Pid(number), rest))
}

/// The number of 0 to 255 before the first space, and the text after it. Nothing where there is no
/// space, or no such number before it.
pub fn split_byte(line: &[u8]) -> Option<(u8, &[u8])>
    ensures found { IfSome result (λ r. line.now ≡ decimal r.0 ++ 32 ∷ r.1.now) }
    ensures fits { IfSome result (λ r. r.0 < 2 ^ 8) }
    ensures only { (n : ℕ) (rest : List ℕ) → n < 2 ^ 8 → line.now ≡ decimal n ++ 32 ∷ rest →
        IsSomeAnd result (λ r. (r.0 ≡ n) × (r.1.now ≡ rest)) }
{
    let (number, rest) = split_unsigned(line)?;
    let number = u8::try_from(number).ok()?;
    Some((number, rest))
}

/// The point before the first space, and the text after it. Nothing where there is no space, or no
/// point before it.
pub fn split_point(line: &[u8]) -> Option<(u32, &[u8])>
    ensures found { IfSome result (λ r. line.now ≡ decimal r.0 ++ 32 ∷ r.1.now) }
    ensures fits { IfSome result (λ r. r.0 < 2 ^ 32) }
    ensures only { (n : ℕ) (rest : List ℕ) → n < 2 ^ 32 → line.now ≡ decimal n ++ 32 ∷ rest →
        IsSomeAnd result (λ r. (r.0 ≡ n) × (r.1.now ≡ rest)) }
{
    let (number, rest) = split_unsigned(line)?;
    let point = u32::try_from(number).ok()?;
    Some((point, rest))
}
