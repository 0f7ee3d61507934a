//! The bytes of a text: two lower-case hex digits each.
ghost use Rattle.std.specs.Prelude.{◌≡◌, ◌*◌, ◌%◌, ◌<◌, ◌≤◌, [], length, slice_index, IfSome, IsSomeAnd, List, ℕ, Some};
ghost use Rattle.std.specs.Bool.{then_some};
ghost use Rattle.hex.specs.Hex.{IsBytes, encode_lower, lower_digits};

use arrayvec::ArrayVec;

/// How many bytes one word may spell.
const BYTES: usize = 64;

/// Reads the bytes that a word spells, 1 to 64. Returns whether it spells any.
pub fn read_bytes(word: &[u8], bytes: &mut ArrayVec<u8, 64>) -> bool
    requires { bytes.old.items ≡ [] }
    ensures found { IfSome (then_some result bytes.new) (λ bytes.
        word.now ≡ encode_lower bytes.items) }
    ensures fits { IfSome (then_some result bytes.new) (λ bytes. IsBytes bytes.items) }
    ensures some { IfSome (then_some result bytes.new) (λ bytes. 0 < length bytes.items) }
    ensures few { IfSome (then_some result bytes.new) (λ bytes. length bytes.items ≤ 64) }
    ensures only { (spelled : List ℕ) → IsBytes spelled → 0 < length spelled → length spelled ≤ 64 →
        word.now ≡ encode_lower spelled →
        IsSomeAnd (then_some result bytes.new) (λ found. found.items ≡ spelled) }
{
    if word.is_empty() {
        return false;
    }
    if word.len() > 2 * BYTES {
        return false;
    }
    if word.len() % 2 == 1 {
        return false;
    }
    pairs(word, bytes)
}

/// Reads the bytes of a word of pairs of digits.
fn pairs(word: &[u8], bytes: &mut ArrayVec<u8, 64>) -> bool
    requires none { bytes.old.items ≡ [] }
    requires even { length word.now % 2 ≡ 0 }
    requires few { length word.now ≤ 128 }
    ensures found { IfSome (then_some result bytes.new) (λ bytes.
        word.now ≡ encode_lower bytes.items) }
    ensures fits { IfSome (then_some result bytes.new) (λ bytes. IsBytes bytes.items) }
    ensures only { (spelled : List ℕ) → IsBytes spelled → word.now ≡ encode_lower spelled →
        IsSomeAnd (then_some result bytes.new) (λ found. found.items ≡ spelled) }
{
    for at in 0..word.len() / 2 {
        let Some(high) = digit(word[2 * at]) else {
            return false;
        };
        let Some(low) = digit(word[2 * at + 1]) else {
            return false;
        };
        bytes.push(16 * high + low);
    }
    true
}

/// The value of a lower-case hex digit.
fn digit(byte: u8) -> Option<u8>
    ensures found { IfSome result (λ number. byte ≡ slice_index lower_digits number) }
    ensures small { IfSome result (λ number. number < 16) }
    ensures only { (number : ℕ) → number < 16 → byte ≡ slice_index lower_digits number →
        result ≡ Some number }
{
    match byte {
        b'0'..=b'9' => Some(byte - b'0'),
        b'a'..=b'f' => Some(byte - b'a' + 10),
        _ => None,
    }
}
