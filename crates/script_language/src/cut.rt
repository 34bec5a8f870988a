//! A text cut at its first space, or at its first line feed.
ghost use Rattle.std.specs.Prelude.{◌≡◌, ◌≢◌, ◌+◌, ◌≤◌, ◌<◌, ℕ, IfNone, IfSome, length, slice_index, take};
ghost use Rattle.std.specs.Str.Iter.{LacksByte};
ghost use Rattle.script_language.specs.Line.{IsFirstCut};

use std::simd::prelude::*;

/// How many bytes are looked at together.
const LANES: usize = 16;

/// Returns what comes before the first mark of a text, and what comes after it.
pub fn cut_at(text: &str, mark: char) -> Option<(&str, &str)>
    requires ascii { mark < 128 }
    ensures some { IfSome result (λ parts. IsFirstCut mark text.now parts.0.now parts.1.now) }
    ensures none { IfNone result (LacksByte mark text.now) }
{
    cut_front_at(text, text.as_bytes(), mark)
}

/// What `cut_at` answers of a text with which `bytes` begin.
///
/// A short text is searched as fast as a long one where more bytes follow it.
pub fn cut_front_at<'a>(text: &'a str, bytes: &[u8], mark: char) -> Option<(&'a str, &'a str)>
    requires ascii { mark < 128 }
    requires front { take (length text.now) bytes.now ≡ text.now }
    ensures some { IfSome result (λ parts. IsFirstCut mark text.now parts.0.now parts.1.now) }
    ensures none { IfNone result (LacksByte mark text.now) }
{
    // No byte of a longer character is a mark.
    let at = place_before(bytes, text.len(), mark as u8)?;
    Some((&text[..at], &text[at + 1..]))
}

/// The first place of a byte among the first `end` bytes.
///
/// What follows them is looked at with them, but does not count.
#[inline]
fn place_before(bytes: &[u8], end: usize, byte: u8) -> Option<usize>
    requires end { end ≤ length bytes.now }
    ensures before { IfSome result (λ at. at < end) }
    ensures there { IfSome result (λ at. slice_index bytes.now at ≡ byte) }
    ensures first { IfSome result (λ at. (k : ℕ) → k < at → slice_index bytes.now k ≢ byte) }
    ensures none { IfNone result ((k : ℕ) → k < end → slice_index bytes.now k ≢ byte) }
{
    let mut at = 0;
    while at < end {
        if bytes.len() - at < LANES {
            if bytes[at] == byte {
                return Some(at);
            }
            at += 1;
        } else {
            let count = count_before(bytes, at, byte);
            if count < LANES {
                let place = at + count;
                return if place < end { Some(place) } else { None };
            }
            at += LANES;
        }
    }
    None
}

/// How many of the 16 bytes from `at` on come before the first one that is `byte`.
#[inline]
fn count_before(bytes: &[u8], at: usize, byte: u8) -> usize
    requires room { at + LANES ≤ length bytes.now }
    ensures bound { result ≤ LANES }
    ensures others { (k : ℕ) → at ≤ k → k < at + result → slice_index bytes.now k ≢ byte }
    ensures there { result < LANES → slice_index bytes.now (at + result) ≡ byte }
{
    let lanes = u8x16::from_slice(&bytes[at..]);
    let mask = lanes.simd_eq(u8x16::splat(byte)).to_bitmask();
    if mask == 0 {
        LANES
    } else {
        mask.trailing_zeros() as usize
    }
}
