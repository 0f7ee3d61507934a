//! Arrows that begin or end at one mark: each is moved aside from those before it.
ghost use Rattle.std.specs.Prelude.{◌≡◌, ◌*◌, ◌+◌, ◌<◌, ℕ, IfOk, length, min, slice_index, slice_set};

use std::alloc::{AllocError, Global};

/// How far an arrow begins below the mark of its write, and ends above that of its read, in pixels.
#[derive(Clone, Copy)]
pub(crate) struct Fan {
    pub below: u64,
    pub above: u64,
}

/// How many rows there are to count at: as many as a row's number can name.
pub(crate) const ROWS: usize = 65_536;

/// No arrow at the mark of any of so many rows.
pub(crate) fn no_counts(alloc: Global, rows: usize) -> Result<Vec<u8>, AllocError>
    ensures long { IfOk result (λ counts. length counts.items ≡ rows) }
    ensures none { IfOk result (λ counts. (row : ℕ) → slice_index counts.items row ≡ 0) }
{
    vec![in alloc; 0; rows]
}

/// Counts an arrow at the mark of a row, up to three. Answers how far it is moved aside.
pub(crate) fn moved_aside(counts: &mut [u8], row: u16) -> u64
    requires { length counts.old ≡ 65536 }
    ensures fits { row < 65536 }
    ensures aside { result ≡ 3 * slice_index counts.old row }
    ensures counted { counts.new
        ≡ slice_set counts.old row (min (slice_index counts.old row + 1) 3) }
{
    let before = counts[row as usize];
    counts[row as usize] = before.saturating_add(1).min(3);
    3 * u64::from(before)
}
