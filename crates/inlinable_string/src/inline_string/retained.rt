//! The characters of a text in an array that pass a test.
ghost use Rattle.std.specs.Prelude.{◌≡◌, ℕ, Bool, ◌+◌, ◌≤◌, ◌<◌, ◌++◌, length, take, drop, encode_utf8, filter, IsUtf8};
ghost use Rattle.std.specs.Str.{chars};
ghost use Rattle.inlinable_string.specs.Text.{size};
ghost use Rattle.inlinable_string.specs.Retained.{IsRetained, Tests};

use super::{InlineStringN, char_at};
use std::str;

impl<const N: usize> InlineStringN<N> {
    /// Keeps the characters for which `f` returns true, in their order. Calls it for each character
    /// once, from the first on. Cannot fail.
    pub fn retain<F: FnMut(char) -> bool>(&mut self, f: F)
        requires { F.IsAlwaysCallable f }
        ensures text { IsRetained F.FnMut f self.old self.new }
        ensures filtered { (test : ℕ → Bool) → Tests F.FnMut f test
            → self.new ≡ filter test self.old }
        ensures bound { size self.new ≤ size self.old }
    {
        let (start, end) = (self.window.start, self.window.start + self.window.len);
        let cells = &mut self.window.bytes[..];
        self.window.len = retain_in_front(&mut cells[start..end], f);
    }
}

/// Moves the characters for which `keep` returns true to the front, in their order, and returns
/// how many bytes they have.
fn retain_in_front<F: FnMut(char) -> bool>(cells: &mut [u8], mut keep: F) -> usize
    requires utf8 { IsUtf8 cells.old }
    requires callable { F.IsAlwaysCallable keep }
    ensures text { IsRetained F.FnMut keep (chars cells.old) (chars (take result cells.new)) }
    ensures filtered { (test : ℕ → Bool) → Tests F.FnMut keep test
        → chars (take result cells.new) ≡ filter test (chars cells.old) }
    ensures bound { size (chars (take result cells.new)) ≤ size (chars cells.old) }
    ensures utf8 { IsUtf8 (take result cells.new) }
    ensures within { result ≤ length cells.old }
{
    let mut read = 0;
    let mut kept = 0;
    while read < cells.len() {
        let (ch, len) = first_char(&cells[read..]);
        if keep(ch) {
            move_back(cells, read, len, kept);
            kept += len;
        }
        read += len;
    }
    kept
}

/// The first character, and its length.
fn first_char(bytes: &[u8]) -> (char, usize)
    requires utf8 { IsUtf8 bytes.now }
    requires some { 0 < length bytes.now }
    ensures bytes { bytes.now ≡ encode_utf8 result.0 ++ drop result.1 bytes.now }
    ensures len { result.1 ≡ length (encode_utf8 result.0) }
    ensures some { 0 < result.1 }
    ensures within { result.1 ≤ length bytes.now }
{
    char_at(unsafe { str::from_utf8_unchecked(bytes) }, 0)
}

/// Copies the `len` bytes from `from` on to those from `at` on, which is not after them.
fn move_back(cells: &mut [u8], from: usize, len: usize, at: usize)
    requires back { at ≤ from }
    requires within { from + len ≤ length cells.old }
    ensures text { take (at + len) cells.new ≡ take at cells.old ++ take len (drop from cells.old) }
    ensures rest { drop (from + len) cells.new ≡ drop (from + len) cells.old }
{
    cells.copy_within(from..from + len, at);
}
