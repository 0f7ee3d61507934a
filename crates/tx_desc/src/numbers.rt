//! Descriptors that a program computes.
ghost use Rattle.std.specs.Prelude.{◌≡◌};
ghost use Rattle.tx_model.specs.Descriptors.{descriptor};

use tx_base::{DESCRIPTORS, number_below};

/// A number that a program computed, where it is one of a descriptor: 0 to 15.
pub fn descriptor_at(fd: i64) -> Option<usize>
    ensures { result ≡ descriptor fd }
{
    number_below(DESCRIPTORS, fd)
}
