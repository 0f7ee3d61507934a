//! The numbers of a text: one spelling each.
ghost use Rattle.std.specs.Prelude.{◌≡◌, ◌<◌, ◌≤◌, ◌^◌, ◌∷◌, ℕ, ℤ, length, IfSome, Some, FitsSigned};
ghost use Rattle.std.specs.Str.Parse.{digits_value, AllDigits};
ghost use Rattle.std.specs.Int.{w64};
ghost use Rattle.std.specs.Fmt.{decimal, signed_decimal};

/// How many digits a number may have.
pub const DIGITS: usize = 19;

/// The number that a word spells: `0`, or digits of which the first is not 0, with `-` before a
/// negative one. Nothing where it is another word, or out of range.
pub fn number(word: &[u8]) -> Option<i64>
    ensures found { IfSome result (λ z. word.now ≡ signed_decimal z) }
    ensures fits { IfSome result (FitsSigned w64) }
    ensures only { (z : ℤ) → FitsSigned w64 z → word.now ≡ signed_decimal z → result ≡ Some z }
{
    match word.strip_prefix(b"-".as_slice()) {
        Some(digits) => negative(digits),
        None => i64::try_from(unsigned(word)?).ok(),
    }
}

/// The negative number of which a word spells the digits.
fn negative(word: &[u8]) -> Option<i64>
    ensures found { IfSome result (λ z. 45 ∷ word.now ≡ signed_decimal z) }
    ensures fits { IfSome result (FitsSigned w64) }
    ensures only { (z : ℤ) → FitsSigned w64 z → 45 ∷ word.now ≡ signed_decimal z → result ≡ Some z }
{
    let magnitude = unsigned(word)?;
    if magnitude == 0 {
        return None;
    }
    if magnitude > i64::MIN.unsigned_abs() {
        return None;
    }
    Some(-1 - (magnitude - 1) as i64)
}

/// The number without a sign that a word spells: `0`, or up to 19 digits of which the first is
/// not 0. Nothing where it is another word.
pub fn unsigned(word: &[u8]) -> Option<u64>
    ensures found { IfSome result (λ n. word.now ≡ decimal n) }
    ensures only { (n : ℕ) → n < 10 ^ 19 → word.now ≡ decimal n → result ≡ Some n }
{
    if word.is_empty() {
        return None;
    }
    if word.len() > DIGITS {
        return None;
    }
    if word[0] == b'0' {
        return if word.len() == 1 { Some(0) } else { None };
    }
    digits(word)
}

/// The number that some digits spell.
fn digits(word: &[u8]) -> Option<u64>
    requires few { length word.now ≤ 19 }
    ensures found { IfSome result (λ n. AllDigits 10 word.now × (n ≡ digits_value 10 word.now)) }
    ensures only { AllDigits 10 word.now → result ≡ Some (digits_value 10 word.now) }
{
    let mut number = 0;
    for byte in word {
        if !byte.is_ascii_digit() {
            return None;
        }
        number = 10 * number + u64::from(byte - b'0');
    }
    Some(number)
}
