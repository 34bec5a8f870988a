//! A text in an array as a `str`: `DerefStr` lends it to each method of `str`, `AsStr` and
//! `AsSlice` to generic code; a `for` goes over its characters.
ghost use Rattle.std.specs.Prelude.{◌≡◌, ◌+◌, ◌≤◌, ◌++◌, length, true};
ghost use Rattle.std.specs.Char.{is_ascii};
ghost use Rattle.std.specs.Iterator.Runs.{EveryRun, ItemsAreChars};
ghost use Rattle.std.specs.List.{list_all};
ghost use Rattle.std.specs.Str.{chars};
ghost use Rattle.std.specs.Str.Iter.{chars_rest, chars_steps};
ghost use Rattle.inlinable_string.specs.Text.{bytes_of, size};

use crate::inline_string::InlineStringN;
use std::convert::{AsSlice, AsStr};
use std::ops::{AddAssign, DerefStr};
use std::str::Chars;

impl<const N: usize> DerefStr for InlineStringN<N> {
    ghost deref_gives = { λ s bytes. (bytes ≡ bytes_of s) × (length bytes ≤ N) };

    fn deref(&self) -> &str {
        self.as_str()
    }
}

impl<const N: usize> AsStr for InlineStringN<N> {
    ghost text = { λ s. bytes_of s };

    fn as_str(&self) -> &str {
        InlineStringN::as_str(self)
    }
}

impl<const N: usize> AsSlice<u8> for InlineStringN<N> {
    ghost items = { λ s. bytes_of s };

    fn as_slice(&self) -> &[u8] {
        self.as_bytes()
    }
}

impl<'a, const N: usize> IntoIterator for &'a InlineStringN<N> {
    type Item = char;

    type IntoIter = Chars<'a>;

    ghost into_iter_gives = { λ s it. (chars_rest it ≡ bytes_of s.now)
        × EveryRun chars_steps (λ p. ItemsAreChars p (chars_rest p.from)) };

    fn into_iter(self) -> Chars<'a> {
        self.as_str().chars()
    }
}

/// Appends a string, which must fit.
impl<const N: usize> AddAssign<&str> for InlineStringN<N> {
    ghost can_add_assign = { λ s added. size s + length added.now ≤ N };

    ghost add_assign_gives = { λ s added t. (t ≡ s ++ chars added.now)
        × (list_all is_ascii added.now ≡ true → t ≡ s ++ added.now) };

    fn add_assign(&mut self, rhs: &str) {
        let _ = self.push_str(rhs);
    }
}
