//! Printing a text in an array, which is that of its `str`, and writing into one.
ghost use Rattle.std.specs.Prelude.{◌≡◌, ◌+◌, ◌≤◌, ◌<◌, ◌++◌, length, true, Some, IsOk, OnOk, OnErr, MatchResult};
ghost use Rattle.std.specs.Char.{is_ascii};
ghost use Rattle.std.specs.Fmt.{styled_text, debug_str};
ghost use Rattle.std.specs.List.{list_all};
ghost use Rattle.std.specs.Str.{chars};
ghost use Rattle.inlinable_string.specs.Text.{bytes_of, size};

use crate::inline_string::InlineStringN;
use std::fmt;

/// The text, padded as its `str` is: by width, fill and alignment, counted in characters.
impl<const N: usize> fmt::Display for InlineStringN<N> {
    ghost output = { λ s. Some (bytes_of s) };

    ghost styled_output = { λ s spec. Some (styled_text spec (bytes_of s)) };

    fn fmt<W: fmt::Write>(&self, f: &mut fmt::Formatter<W>) -> fmt::Result {
        f.pad(self.as_str())
    }
}

/// The text between quotes, as its `str` is printed.
impl<const N: usize> fmt::Debug for InlineStringN<N> {
    ghost debug_output = { λ s. debug_str (bytes_of s) };

    fn fmt<W: fmt::Write>(&self, f: &mut fmt::Formatter<W>) -> fmt::Result {
        fmt::Debug::fmt(&self.as_str(), f)
    }
}

/// Appends what is written. Fails if the string does not fit, and then changes nothing.
impl<const N: usize> fmt::Write for InlineStringN<N> {
    ghost write_str_gives = { λ s bytes t. bytes_of t ≡ bytes_of s ++ bytes };

    fn write_str(&mut self, s: &str) -> fmt::Result
        ensures fits { MatchResult result
            (λ _. size self.old + length s.now ≤ N)
            (λ _. N < size self.old + length s.now) }
        ensures bytes { IsOk result → bytes_of self.new ≡ bytes_of self.old ++ s.now }
        ensures text { OnOk result (self.new ≡ self.old ++ chars s.now) }
        ensures ascii { list_all is_ascii s.now ≡ true
            → OnOk result (self.new ≡ self.old ++ s.now) }
        ensures len { OnOk result (size self.new ≡ size self.old + length s.now) }
        ensures err { OnErr result (self.new ≡ self.old) }
    {
        match self.push_str(s) {
            Ok(()) => Ok(()),
            Err(_) => Err(fmt::Error),
        }
    }
}
