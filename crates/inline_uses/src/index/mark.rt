//! An id beside a part of its text, which decides most comparisons.
ghost use Rattle.std.specs.Prelude.{◌≡◌, ◌<◌, length, drop};
ghost use Rattle.std.specs.Int.{from_be_bytes, w64};
ghost use Rattle.std.specs.List.{AllByRecursion};
ghost use Rattle.inline_uses.specs.Index.{mark_order};
ghost use Rattle.inline_uses.specs.Symbols.{key_order};

use super::Texts;
use std::cmp::Ordering;

/// An id, beside eight bytes of its text as a number.
#[derive(Clone, Copy)]
pub(super) struct Mark {
    pub(super) bits: u64,
    pub(super) id: usize,
}

/// Returns the eight bytes after the first `skipped` as a number, of which the first byte counts
/// most, with zeros for those past the end.
#[inline]
pub(super) fn bits_after(bytes: &[u8], skipped: usize) -> u64
    ensures value { result ≡ from_be_bytes w64 (drop skipped bytes.now) }
    ensures bytes { AllByRecursion (λ b. b < 256) bytes.now }
{
    let rest = rest_of(bytes, skipped);
    match rest.first_chunk::<8>() {
        Some(front) => u64::from_be_bytes(*front),
        None => bits_of_few(rest),
    }
}

/// Returns the bytes after the first `skipped`, none if there are no more.
#[inline]
fn rest_of(bytes: &[u8], skipped: usize) -> &[u8]
    ensures { result.now ≡ drop skipped bytes.now }
{
    &bytes[skipped.min(bytes.len())..]
}

/// Returns the same number of fewer than eight bytes.
fn bits_of_few(bytes: &[u8]) -> u64
    requires { length bytes.now < 8 }
    ensures { result ≡ from_be_bytes w64 bytes.now }
{
    match bytes {
        [] => 0,
        [a] => u64::from_be_bytes([*a, 0, 0, 0, 0, 0, 0, 0]),
        [a, b] => u64::from_be_bytes([*a, *b, 0, 0, 0, 0, 0, 0]),
        [a, b, c] => u64::from_be_bytes([*a, *b, *c, 0, 0, 0, 0, 0]),
        [a, b, c, d] => u64::from_be_bytes([*a, *b, *c, *d, 0, 0, 0, 0]),
        [a, b, c, d, e] => u64::from_be_bytes([*a, *b, *c, *d, *e, 0, 0, 0]),
        [a, b, c, d, e, f] => u64::from_be_bytes([*a, *b, *c, *d, *e, *f, 0, 0]),
        [a, b, c, d, e, f, g, ..] => u64::from_be_bytes([*a, *b, *c, *d, *e, *f, *g, 0]),
    }
}

/// Returns how the text of a mark compares to another text, whose own bits these are: by the bits,
/// and if they are equal by the texts.
#[inline]
pub(super) fn compare<T: Texts>(texts: &T, mark: &Mark, bits: u64, text: &str) -> Ordering
    ensures { result ≡ mark_order (T.text_of texts.now) bits text.now mark.now }
{
    if mark.bits == bits {
        compare_texts(texts.text(mark.id), text)
    } else if mark.bits < bits {
        Ordering::Less
    } else {
        Ordering::Greater
    }
}

/// Returns how two texts compare. As texts, their first 16 bytes are compared at once; as bytes,
/// what longer ones have in common is passed by wide steps.
#[inline]
pub(super) fn compare_texts(known: &str, text: &str) -> Ordering
    ensures { result ≡ key_order known.now text.now }
{
    if text.len() <= 16 {
        known.cmp(text)
    } else {
        compare_bytes(known.as_bytes(), text.as_bytes())
    }
}

/// Returns how two sequences of bytes compare. Whether they are equal, as most are that come here,
/// is found by wider steps than which is the lesser.
#[inline]
pub(super) fn compare_bytes(known: &[u8], bytes: &[u8]) -> Ordering
    ensures { result ≡ key_order known.now bytes.now }
{
    if known == bytes {
        Ordering::Equal
    } else {
        known.cmp(bytes)
    }
}
