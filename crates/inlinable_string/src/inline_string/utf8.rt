//! A text in an array from bytes that may be UTF-8.
ghost use Rattle.std.specs.Prelude.{◌≡◌, ◌≤◌, length, IfOk, MatchResult, IsUtf8};
ghost use Rattle.std.specs.Str.{chars, IsValidUpTo, valid_up_to};
ghost use Rattle.inlinable_string.specs.Text.{bytes_of};

use super::InlineStringN;
use std::str::{self, Utf8Error};

impl<const N: usize> InlineStringN<N> {
    /// Makes a text of `bytes`, which must be at most `N`. Fails exactly if they are not UTF-8; the
    /// error says how many of the first ones are.
    pub fn from_utf8(bytes: &[u8]) -> Result<Self, Utf8Error>
        requires { length bytes.now ≤ N }
        ensures cases { MatchResult result (λ _. IsUtf8 bytes.now)
            (λ error. ¬ (IsUtf8 bytes.now) × IsValidUpTo bytes.now (valid_up_to error)) }
        ensures text { IfOk result (λ made. made ≡ chars bytes.now) }
        ensures bytes { IfOk result (λ made. bytes_of made ≡ bytes.now) }
    {
        let string = str::from_utf8(bytes)?;
        Ok(Self::from(string))
    }
}
