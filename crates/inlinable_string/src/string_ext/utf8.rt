//! The lossy decoder of UTF-8: what is well-formed is copied, with U+FFFD for the rest.
ghost use Rattle.std.specs.Prelude.{◌≡◌, ◌+◌, ◌<◌, ◌≤◌, ◌∷◌, [], ◌++◌, length, take, drop, if◌then◌else◌, IfOk, IfSome, MatchResult, IsUtf8};
ghost use Rattle.std.specs.Str.{chars};
ghost use Rattle.std.specs.String.{string_bytes};
ghost use Rattle.inlinable_string.specs.Text.{size};
ghost use Rattle.inlinable_string.specs.Lossy.{lossy_utf8, char_len, subpart_len, count_in, following};

use crate::cells::write_at;
use crate::well_formed::is_ascii;
use std::alloc::{AllocError, Global};

/// The bytes that are tested for ASCII together: fewer than in the test for UTF-8, since those of a
/// block that fails are read by characters.
const LANES: usize = 8;

/// Decodes the bytes, with U+FFFD for each maximal subpart that is no character. Allocates once,
/// with the capacity that [`room_for`] returns.
pub(super) fn lossy(alloc: Global, bytes: &[u8]) -> Result<String, AllocError>
    ensures { IfOk result (λ made. chars (string_bytes made) ≡ lossy_utf8 bytes.now) }
{
    let Some(room) = room_for(bytes) else {
        return Err(AllocError);
    };
    let mut made = vec![in alloc; 0u8; room]?;
    let len = write(bytes, made.as_mut_slice());
    made.truncate(len);
    Ok(unsafe { String::from_utf8_unchecked(made) })
}

/// Returns a bound on the length of that text: one for each byte that is ASCII, and three for each
/// other, as if all of these were replaced. `None` past `usize::MAX`.
fn room_for(bytes: &[u8]) -> Option<usize>
    ensures { IfSome result (λ room. size (lossy_utf8 bytes.now) ≤ room) }
{
    let mut others: usize = 0;
    let mut start = 0;
    // Counts in a `u8` are added 16 at a time, those in a `usize` by two.
    while start < bytes.len() {
        let end = start + (bytes.len() - start).min(255);
        let mut few: u8 = 0;
        for i in start..end {
            if 0x80 <= bytes[i] {
                few += 1;
            }
        }
        others += usize::from(few);
        start = end;
    }
    others.checked_mul(2)?.checked_add(bytes.len())
}

/// Writes that text to the front of `made`, and returns how many bytes it has.
fn write(bytes: &[u8], made: &mut [u8]) -> usize
    requires { size (lossy_utf8 bytes.now) ≤ length made.old }
    ensures utf8 { IsUtf8 (take result made.new) }
    ensures text { chars (take result made.new) ≡ lossy_utf8 bytes.now }
{
    let mut rest = bytes;
    let mut end = 0;
    while 0 < rest.len() {
        if LANES <= rest.len() && is_ascii(&rest[..LANES]) {
            write_at(made, end, &rest[..LANES]);
            rest = &rest[LANES..];
            end += LANES;
            continue;
        }
        // These bytes are read by characters, and no block of them is tested.
        let untested = rest.len().saturating_sub(LANES);
        while untested < rest.len() {
            match char_or_subpart_len(rest) {
                Ok(len) => {
                    write_char(rest, len, made, end);
                    rest = &rest[len..];
                    end += len;
                }
                Err(len) => {
                    write_replacement(made, end);
                    rest = &rest[len..];
                    end += 3;
                }
            }
        }
    }
    end
}

/// Writes the first `len` of these bytes.
// No loop and no `copy_from_slice`: for so few bytes each takes longer.
#[inline(always)]
fn write_char(bytes: &[u8], len: usize, made: &mut [u8], at: usize)
    requires char { (0 < len) × (len ≤ 4) × (len ≤ length bytes.now) }
    requires room { at + len ≤ length made.old }
    ensures { take (at + len) made.new ≡ take at made.old ++ take len bytes.now }
{
    made[at] = bytes[0];
    if 1 < len {
        made[at + 1] = bytes[1];
        if 2 < len {
            made[at + 2] = bytes[2];
            if 3 < len {
                made[at + 3] = bytes[3];
            }
        }
    }
}

/// Writes U+FFFD.
#[inline(always)]
fn write_replacement(made: &mut [u8], at: usize)
    requires { at + 3 ≤ length made.old }
    ensures { take (at + 3) made.new ≡ take at made.old ++ 0xEF ∷ 0xBF ∷ 0xBD ∷ [] }
{
    made[at] = 0xEF;
    made[at + 1] = 0xBF;
    made[at + 2] = 0xBD;
}

/// Returns the length of the character that begins `bytes`; if none does, the error is the length
/// of the maximal subpart.
fn char_or_subpart_len(bytes: &[u8]) -> Result<usize, usize>
    requires { 0 < length bytes.now }
    ensures len { MatchResult result
        (λ len. (char_len bytes.now ≡ len) × (0 < len) × (len ≤ 4))
        (λ len. (char_len bytes.now ≡ 0) × (subpart_len bytes.now ≡ len) × (0 < len)) }
    ensures within { MatchResult result
        (λ len. len ≤ length bytes.now) (λ len. len ≤ length bytes.now) }
{
    let first = bytes[0];
    if first < 0x80 {
        return Ok(1);
    }
    if first < 0xC2 || 0xF4 < first {
        return Err(1);
    }
    if !second_in_range(bytes, first) {
        return Err(1);
    }
    if first < 0xE0 {
        return Ok(2);
    }
    if !byte_in_range(bytes, 2, 0x80, 0xBF) {
        return Err(2);
    }
    if first < 0xF0 {
        return Ok(3);
    }
    if byte_in_range(bytes, 3, 0x80, 0xBF) {
        Ok(4)
    } else {
        Err(3)
    }
}

/// Returns whether there is a byte at that index, and it is in the range.
fn byte_in_range(bytes: &[u8], index: usize, least: u8, most: u8) -> bool
    ensures { count_in ((least, most) ∷ []) (drop index bytes.now) ≡ (if result then 1 else 0) }
{
    index < bytes.len() && least <= bytes[index] && bytes[index] <= most
}

/// Returns whether there is a second byte, and it is in the range that the first one gives.
fn second_in_range(bytes: &[u8], first: u8) -> bool
    ensures { 0xC2 ≤ first → first ≤ 0xF4
        → count_in (take 1 (following first)) (drop 1 bytes.now) ≡ (if result then 1 else 0) }
{
    match first {
        0xE0 => byte_in_range(bytes, 1, 0xA0, 0xBF),
        0xED => byte_in_range(bytes, 1, 0x80, 0x9F),
        0xF0 => byte_in_range(bytes, 1, 0x90, 0xBF),
        0xF4 => byte_in_range(bytes, 1, 0x80, 0x8F),
        _ => byte_in_range(bytes, 1, 0x80, 0xBF),
    }
}
