//! Finds the first byte of a kind in a text.
ghost use Rattle.std.specs.Prelude.{◌≡◌, ◌≢◌, ℕ, ◌+◌, ◌<◌, ◌≤◌, IfSome, drop, length, option_map, slice_index, take};
ghost use Rattle.tx_lines.specs.Words.{parts_at};

use std::simd::prelude::*;

/// The place of the first byte of that kind. Nothing where there is none.
#[inline(never)] // inlined, its loops would keep the offsets that its callers go on with
pub fn find(mark: u8, text: &[u8]) -> Option<usize>
    ensures place { option_map (λ at. (take at text.now, drop (at + 1) text.now)) result
        ≡ parts_at mark text.now }
    ensures inside { IfSome result (λ at. at < length text.now) }
{
    let mut at = 0;
    while 16 <= text.len() - at {
        let others = others::<16>(mark, text, at);
        at += others;
        if others < 16 {
            return Some(at);
        }
    }
    find_by_eight(at, mark, text)
}

/// As `find`, where none is before that place, and fewer than 16 bytes follow it.
fn find_by_eight(from: usize, mark: u8, text: &[u8]) -> Option<usize>
    requires inside { from ≤ length text.now }
    requires before { (k : ℕ) → k < from → slice_index text.now k ≢ mark }
    ensures place { option_map (λ at. (take at text.now, drop (at + 1) text.now)) result
        ≡ parts_at mark text.now }
    ensures inside { IfSome result (λ at. at < length text.now) }
{
    if text.len() - from < 8 {
        return find_by_four(from, mark, text);
    }
    let others = others::<8>(mark, text, from);
    if others < 8 {
        Some(from + others)
    } else {
        find_by_four(from + 8, mark, text)
    }
}

/// As `find_by_eight`, where fewer than eight bytes follow the place.
fn find_by_four(from: usize, mark: u8, text: &[u8]) -> Option<usize>
    requires inside { from ≤ length text.now }
    requires before { (k : ℕ) → k < from → slice_index text.now k ≢ mark }
    ensures place { option_map (λ at. (take at text.now, drop (at + 1) text.now)) result
        ≡ parts_at mark text.now }
    ensures inside { IfSome result (λ at. at < length text.now) }
{
    if text.len() - from < 4 {
        return find_from(from, mark, text);
    }
    let others = others::<4>(mark, text, from);
    if others < 4 {
        Some(from + others)
    } else {
        find_from(from + 4, mark, text)
    }
}

/// As `find`, where none is before that place.
fn find_from(from: usize, mark: u8, text: &[u8]) -> Option<usize>
    requires { (k : ℕ) → k < from → slice_index text.now k ≢ mark }
    ensures place { option_map (λ at. (take at text.now, drop (at + 1) text.now)) result
        ≡ parts_at mark text.now }
    ensures inside { IfSome result (λ at. at < length text.now) }
{
    for i in from..text.len() {
        if text[i] == mark {
            return Some(i);
        }
    }
    None
}

/// How many of the next bytes, as many as there are lanes, come before the first of that kind: all
/// where none of them is of it.
fn others<const LANES: usize>(mark: u8, text: &[u8], at: usize) -> usize
    requires lanes { LANES ≤ 64 }
    requires inside { at + LANES ≤ length text.now }
    ensures few { result ≤ LANES }
    ensures before { (k : ℕ) → at ≤ k → k < at + result → slice_index text.now k ≢ mark }
    ensures first { result < LANES → slice_index text.now (at + result) ≡ mark }
{
    let marks = Simd::<u8, LANES>::from_slice(&text[at..])
        .simd_eq(Simd::<u8, LANES>::splat(mark))
        .to_bitmask();
    if marks == 0 {
        LANES
    } else {
        marks.trailing_zeros() as usize
    }
}
