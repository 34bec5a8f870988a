//! A decoder of UTF-16: each unit is read by itself and its two neighbours.
ghost use Rattle.std.specs.Prelude.{ℕ, slice_index, ◌≡◌, ◌+◌, ◌-◌, ◌*◌, ◌%◌, ◌<◌, ◌≤◌, ◌↔◌, ◌||◌, [], ◌∷◌, ◌++◌, length, take, IfOk, IsTrue, Err};
ghost use Rattle.std.specs.Char.Utf16.{is_high_surrogate, is_low_surrogate, surrogate_pair_char};
ghost use Rattle.std.specs.Str.{chars, IsAscii};
ghost use Rattle.std.specs.String.{string_bytes};
ghost use Rattle.inlinable_string.specs.Text.{bytes_of, size};
ghost use Rattle.inlinable_string.specs.Utf16.{HasUnpaired, lossy_unit, lossy_utf16, lossy_utf16_before};
ghost use Rattle.inlinable_string.specs.Utf16Count.{unit_len, len_before, mismatches_before};
ghost use Rattle.inlinable_string.specs.declared.string_ext.make.Utf16Error.TheVariants.{Unpaired};

use super::make::Utf16Error;
use std::alloc::{AllocError, Global};

/// Decodes the units. Fails with [`Utf16Error::Unpaired`] exactly if a surrogate is without its
/// partner, and otherwise as [`lossy`] does.
pub(super) fn paired(alloc: Global, units: &[u16]) -> Result<String, Utf16Error>
    ensures read { IfOk result (λ made. chars (string_bytes made) ≡ lossy_utf16 units.now) }
    ensures unpaired { (result ≡ Err Unpaired) ↔ HasUnpaired units.now }
{
    if is_ascii(units) {
        return Ok(ascii_text(alloc, units)?);
    }
    let counted = count(units);
    if 0 < counted.unpaired {
        return Err(Utf16Error::Unpaired);
    }
    Ok(text_of_len(alloc, units, counted.len)?)
}

/// Decodes the units, with U+FFFD for each that is unpaired. Allocates once and exactly.
pub(super) fn lossy(alloc: Global, units: &[u16]) -> Result<String, AllocError>
    ensures { IfOk result (λ made. chars (string_bytes made) ≡ lossy_utf16 units.now) }
{
    if is_ascii(units) {
        return ascii_text(alloc, units);
    }
    text_of_len(alloc, units, count(units).len)
}

/// Returns whether each unit is ASCII.
// No early exit, so that the loop is vectorized.
fn is_ascii(units: &[u16]) -> bool
    ensures { IsTrue result ↔ IsAscii units.now }
{
    let mut is_ascii = true;
    for i in 0..units.len() {
        is_ascii &= units[i] < 0x80;
    }
    is_ascii
}

/// Decodes units that are ASCII.
fn ascii_text(alloc: Global, units: &[u16]) -> Result<String, AllocError>
    requires { IsAscii units.now }
    ensures { IfOk result (λ made. chars (string_bytes made) ≡ lossy_utf16 units.now) }
{
    let mut bytes = vec![in alloc; 0u8; units.len()]?;
    write_ascii(units, bytes.as_mut_slice());
    Ok(unsafe { String::from_utf8_unchecked(bytes) })
}

/// Writes units that are ASCII, a byte each.
fn write_ascii(units: &[u16], bytes: &mut [u8])
    requires ascii { IsAscii units.now }
    requires room { length bytes.old ≡ length units.now }
    ensures { bytes.new ≡ units.now }
{
    for i in 0..units.len() {
        bytes[i] = units[i] as u8;
    }
}

/// The length of the text of some units, in bytes, and the number of unpaired units.
#[derive(Clone, Copy)]
struct Counted {
    len: usize,
    unpaired: usize,
}

/// The units that are counted together: three times as many is below `2 ^ 16`.
const MOST: usize = 0x4000;

/// Counts the units.
// A unit is counted with the one before it; which of a pair's gives the character is left open.
fn count(units: &[u16]) -> Counted
    ensures len { result.len ≡ size (lossy_utf16 units.now) }
    ensures unpaired { (0 < result.unpaired) ↔ HasUnpaired units.now }
{
    if units.is_empty() {
        return Counted {
            len: 0,
            unpaired: 0,
        };
    }
    let mut len = usize::from(unit_len(units[0]));
    let mut unpaired = usize::from(is_low(units[0]));
    let mut from = 1;
    while MOST <= units.len() - from {
        let part = count_part(units, from, from + MOST);
        len += part.len;
        unpaired += part.unpaired;
        from += MOST;
    }
    let part = count_part(units, from, units.len());
    unpaired += part.unpaired + usize::from(is_high(units[units.len() - 1]));
    Counted {
        len: len + part.len + unpaired,
        unpaired,
    }
}

/// Counts the units from `from` up to `to`: what each is by itself, and those that do not match the
/// one before them.
// In 16 bits and without a branch, so that several are counted at a time.
#[inline(always)]
#[tactic(auto, using(crate::proofs::Counted::counted_more))]
fn count_part(units: &[u16], from: usize, to: usize) -> Counted
    requires start { 0 < from }
    requires end { from ≤ to }
    requires bound { to ≤ length units.now }
    requires few { to ≤ from + 0x4000 }
    ensures len { len_before units.now from + result.len ≡ len_before units.now to }
    ensures unpaired { mismatches_before units.now from + result.unpaired
        ≡ mismatches_before units.now to }
    ensures len_bound { result.len ≤ 3 * (to - from) }
    ensures unpaired_bound { result.unpaired ≤ to - from }
{
    let mut len: u16 = 0;
    let mut unpaired: u16 = 0;
    for i in from..to {
        len += unit_len(units[i]);
        unpaired += u16::from(is_high(units[i - 1]) != is_low(units[i]));
    }
    Counted {
        len: usize::from(len),
        unpaired: usize::from(unpaired),
    }
}

/// How many bytes a unit counts for: a surrogate for half of the four of a pair.
#[inline(always)]
fn unit_len(unit: u16) -> u16
    ensures { result ≡ unit_len unit }
{
    1 + u16::from(0x80 <= unit) + u16::from(0x800 <= unit && !is_surrogate(unit))
}

/// Decodes the units, of whose text the length is known.
fn text_of_len(alloc: Global, units: &[u16], len: usize) -> Result<String, AllocError>
    requires { len ≡ size (lossy_utf16 units.now) }
    ensures { IfOk result (λ made. chars (string_bytes made) ≡ lossy_utf16 units.now) }
{
    let mut bytes = vec![in alloc; 0u8; len]?;
    write_units(units, bytes.as_mut_slice());
    Ok(unsafe { String::from_utf8_unchecked(bytes) })
}

/// Writes the UTF-8 of that text.
fn write_units(units: &[u16], bytes: &mut [u8])
    requires { length bytes.old ≡ size (lossy_utf16 units.now) }
    ensures { bytes.new ≡ bytes_of (lossy_utf16 units.now) }
{
    if bytes.len() < units.len() + units.len() / 4 {
        write_mostly_ascii(units, bytes);
    } else {
        write_each(units, bytes);
    }
}

/// The same, unit by unit.
#[tactic(auto, using(crate::proofs::Units::written))]
fn write_each(units: &[u16], bytes: &mut [u8])
    requires { length bytes.old ≡ size (lossy_utf16 units.now) }
    ensures { bytes.new ≡ bytes_of (lossy_utf16 units.now) }
{
    let mut at = 0;
    for i in 0..units.len() {
        at = write_unit(units, i, bytes, at);
    }
}

/// The units that are tested for ASCII together.
const LANES: usize = 8;

/// The same, with units that are ASCII written several at a time: quicker where most are.
// Out of line: else the bytes may be the units for all that the compiler knows, and each is written
// by itself. Where a block is not ASCII, none is tested up to the unit that is not.
#[inline(never)]
#[tactic(auto, using(crate::proofs::Units::written))]
fn write_mostly_ascii(units: &[u16], bytes: &mut [u8])
    requires { length bytes.old ≡ size (lossy_utf16 units.now) }
    ensures { bytes.new ≡ bytes_of (lossy_utf16 units.now) }
{
    let mut at = 0;
    let mut i = 0;
    let mut is_tested = true;
    while i < units.len() {
        if is_tested && LANES <= units.len() - i && is_ascii_block(units, i) {
            at = write_block(units, i, bytes, at);
            i += LANES;
        } else {
            is_tested = 0x80 <= units[i];
            at = write_unit(units, i, bytes, at);
            i += 1;
        }
    }
}

/// Returns whether each of the units of the block at `from` is ASCII.
#[inline(always)]
fn is_ascii_block(units: &[u16], from: usize) -> bool
    requires { from + 8 ≤ length units.now }
    ensures { IsTrue result
        ↔ ((j : ℕ) → from ≤ j → j < from + 8 → slice_index units.now j < 0x80) }
{
    let mut is_ascii = true;
    for i in from..from + LANES {
        is_ascii &= units[i] < 0x80;
    }
    is_ascii
}

/// Writes the units of that block after what those before it give, and returns where they end.
#[inline(always)]
#[tactic(auto, using(crate::proofs::Units::written))]
fn write_block(units: &[u16], from: usize, bytes: &mut [u8], at: usize) -> usize
    requires units { from + 8 ≤ length units.now }
    requires ascii { (j : ℕ) → from ≤ j → j < from + 8 → slice_index units.now j < 0x80 }
    requires room { length bytes.old ≡ size (lossy_utf16 units.now) }
    requires at { at ≡ size (lossy_utf16_before units.now from) }
    requires before { take at bytes.old ≡ bytes_of (lossy_utf16_before units.now from) }
    ensures end { result ≡ size (lossy_utf16_before units.now (from + 8)) }
    ensures bytes { take result bytes.new ≡ bytes_of (lossy_utf16_before units.now (from + 8)) }
{
    let mut end = at;
    for i in from..from + LANES {
        end = write_ascii_unit(units, i, bytes, end);
    }
    end
}

/// Writes the unit at `i`, which is ASCII, at `at`, and returns where it ends.
#[inline(always)]
fn write_ascii_unit(units: &[u16], i: usize, bytes: &mut [u8], at: usize) -> usize
    requires unit { i < length units.now }
    requires ascii { slice_index units.now i < 0x80 }
    requires room { at + size (lossy_unit units.now i) ≤ length bytes.old }
    ensures end { result ≡ at + size (lossy_unit units.now i) }
    ensures bytes { take result bytes.new ≡ take at bytes.old ++ bytes_of (lossy_unit units.now i) }
{
    bytes[at] = units[i] as u8;
    at + 1
}

/// Writes the UTF-8 of what the unit at `i` gives from `at` on, and returns where that ends.
#[inline(always)]
fn write_unit(units: &[u16], i: usize, bytes: &mut [u8], at: usize) -> usize
    requires unit { i < length units.now }
    requires room { at + size (lossy_unit units.now i) ≤ length bytes.old }
    ensures end { result ≡ at + size (lossy_unit units.now i) }
    ensures bytes { take result bytes.new ≡ take at bytes.old ++ bytes_of (lossy_unit units.now i) }
{
    let unit = units[i];
    // The usual cases first: no neighbour is looked at.
    if unit < 0x80 {
        return write_ascii_unit(units, i, bytes, at);
    }
    if !is_surrogate(unit) {
        return write_char(unit_char(unit), bytes, at);
    }
    if is_high(unit) {
        if 1 < units.len() - i && is_low(units[i + 1]) {
            return write_char(pair_char(unit, units[i + 1]), bytes, at);
        }
    } else if 0 < i && is_high(units[i - 1]) {
        return at;
    }
    write_char(char::REPLACEMENT_CHARACTER, bytes, at)
}

/// Writes the UTF-8 of a character from `at` on, and returns where it ends.
#[inline(always)]
#[tactic(auto, using(crate::proofs::Written::char_bytes))]
fn write_char(ch: char, bytes: &mut [u8], at: usize) -> usize
    requires room { at + size (ch ∷ []) ≤ length bytes.old }
    ensures end { result ≡ at + size (ch ∷ []) }
    ensures bytes { take result bytes.new ≡ take at bytes.old ++ bytes_of (ch ∷ []) }
{
    let code = ch as u32;
    if code < 0x80 {
        bytes[at] = code as u8;
        return at + 1;
    }
    if code < 0x800 {
        bytes[at] = (0xC0 + code / 0x40) as u8;
        bytes[at + 1] = continuation_byte(code);
        return at + 2;
    }
    if code < 0x1_0000 {
        bytes[at] = (0xE0 + code / 0x1000) as u8;
        bytes[at + 1] = continuation_byte(code / 0x40);
        bytes[at + 2] = continuation_byte(code);
        return at + 3;
    }
    bytes[at] = (0xF0 + code / 0x4_0000) as u8;
    bytes[at + 1] = continuation_byte(code / 0x1000);
    bytes[at + 2] = continuation_byte(code / 0x40);
    bytes[at + 3] = continuation_byte(code);
    at + 4
}

/// The byte of the six low bits.
#[inline(always)]
fn continuation_byte(bits: u32) -> u8
    ensures { result ≡ 0x80 + bits % 0x40 }
{
    (0x80 + bits % 0x40) as u8
}

/// Returns whether a unit is a surrogate.
#[inline(always)]
fn is_surrogate(unit: u16) -> bool
    ensures { result ≡ (is_high_surrogate unit || is_low_surrogate unit) }
{
    0xD800 <= unit && unit < 0xE000
}

/// Returns whether a unit is a high surrogate.
fn is_high(unit: u16) -> bool
    ensures { result ≡ is_high_surrogate unit }
{
    0xD800 <= unit && unit < 0xDC00
}

/// Returns whether a unit is a low surrogate.
fn is_low(unit: u16) -> bool
    ensures { result ≡ is_low_surrogate unit }
{
    0xDC00 <= unit && unit < 0xE000
}

/// Returns the character of a pair.
fn pair_char(high: u16, low: u16) -> char
    requires high { IsTrue (is_high_surrogate high) }
    requires low { IsTrue (is_low_surrogate low) }
    ensures { result ≡ surrogate_pair_char high low }
{
    let code = 0x1_0000 + (high as u32 % 0x400) * 0x400 + low as u32 % 0x400;
    unsafe { char::from_u32_unchecked(code) }
}

/// Returns the character of a unit that is no surrogate.
fn unit_char(unit: u16) -> char
    requires high { ¬ IsTrue (is_high_surrogate unit) }
    requires low { ¬ IsTrue (is_low_surrogate unit) }
    ensures { result ≡ unit }
{
    unsafe { char::from_u32_unchecked(unit as u32) }
}
