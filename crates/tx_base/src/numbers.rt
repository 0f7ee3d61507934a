//! Numbers that programs compute.
ghost use Rattle.std.specs.Prelude.{◌≡◌, ◌<◌, ◌^◌};
ghost use Rattle.tx_base.specs.Numbers.{below};

/// A number that a program computed, where it is 0 or more and below the limit.
pub fn number_below(limit: usize, number: i64) -> Option<usize>
    requires { limit < 2 ^ 32 }
    ensures { result ≡ below limit number }
{
    if number < 0 || number >= limit as i64 {
        return None;
    }
    Some(number as usize)
}
