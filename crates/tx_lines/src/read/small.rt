//! The numbers of a text that have a narrower range: those of processes and signals, and
//! positions.
ghost use Rattle.std.specs.Prelude.{◌≡◌, ◌<◌, ◌^◌, ℕ, IfSome, Some};
ghost use Rattle.std.specs.Fmt.{decimal};
ghost use Rattle.tx_base.specs.declared.names.Pid.{Pid};

use crate::read::numbers::unsigned;
use tx_base::Pid;

/// The process number that a word spells, 0 to 65535. Nothing where it is another word.
pub fn read_pid(word: &[u8]) -> Option<Pid>
    ensures found { IfSome result (λ p. word.now ≡ decimal p.0) }
    ensures fits { IfSome result (λ p. p.0 < 2 ^ 16) }
    ensures only { (p : Pid) → p.0 < 2 ^ 16 → word.now ≡ decimal p.0 → result ≡ Some p }
{
    let number = u16::try_from(unsigned(word)?).ok()?;
    Some(Pid(number))
}

/// The number of 0 to 255 that a word spells. Nothing where it is another word.
pub fn read_byte(word: &[u8]) -> Option<u8>
    ensures found { IfSome result (λ n. word.now ≡ decimal n) }
    ensures fits { IfSome result (λ n. n < 2 ^ 8) }
    ensures only { (n : ℕ) → n < 2 ^ 8 → word.now ≡ decimal n → result ≡ Some n }
{
    u8::try_from(unsigned(word)?).ok()
}

/// The position that a word spells, 0 to 9223372036854775807. Nothing where it is another word.
pub fn read_position(word: &[u8]) -> Option<u64>
    ensures found { IfSome result (λ n. word.now ≡ decimal n) }
    ensures fits { IfSome result (λ n. n < 2 ^ 63) }
    ensures only { (n : ℕ) → n < 2 ^ 63 → word.now ≡ decimal n → result ≡ Some n }
{
    let position = unsigned(word)?;
    if position > i64::MAX.unsigned_abs() {
        return None;
    }
    Some(position)
}
