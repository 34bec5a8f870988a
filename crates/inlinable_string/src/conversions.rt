//! Conversions that need no allocator, under the names that std's traits give them.
ghost use Rattle.std.specs.Prelude.{◌≡◌, ◌≤◌, ◌<◌, [], ◌∷◌, length, true, MatchResult};
ghost use Rattle.std.specs.Char.{is_ascii};
ghost use Rattle.std.specs.List.{list_all};
ghost use Rattle.std.specs.Str.{chars};
ghost use Rattle.inlinable_string.specs.Text.{size};
ghost use Rattle.inlinable_string.specs.State.{storage_when_made};
ghost use Rattle.inlinable_string.specs.StringValues.{string_state};
ghost use Rattle.inlinable_string.specs.Values.{inlinable_policy, inlinable_state};
ghost use Rattle.inlinable_string.specs.declared.string_ext.Storage.TheVariants.{Heap, Inline};

use crate::boxable_string::BoxableString;
use crate::inlinable_string::{InlinableString, InlinableStringN};
use crate::inline_string::{InlineStringN, NotEnoughSpaceError};
use crate::string_ext::StringExt;
use std::str::FromStr;

/// The same as `try_from` of a `&str`: fails exactly if the text has more than `N` bytes.
impl<const N: usize> FromStr for InlineStringN<N> {
    type Err = NotEnoughSpaceError;

    ghost from_str_gives = { λ bytes result. MatchResult result
        (λ made. (made ≡ chars bytes)
        × (list_all is_ascii bytes ≡ true → made ≡ bytes) × (length bytes ≤ N))
        (λ _. N < length bytes) };

    fn from_str(s: &str) -> Result<Self, NotEnoughSpaceError> {
        Self::try_from(s)
    }
}

/// Fails exactly if the text has more than `N` bytes.
impl<const N: usize> TryFrom<&str> for InlineStringN<N> {
    type Error = NotEnoughSpaceError;

    ghost try_from_gives = { λ string result. MatchResult result
        (λ made. (made ≡ chars string.now)
        × (list_all is_ascii string.now ≡ true → made ≡ string.now) × (length string.now ≤ N))
        (λ _. N < length string.now) };

    fn try_from(string: &str) -> Result<Self, NotEnoughSpaceError> {
        if N < string.len() {
            return Err(NotEnoughSpaceError);
        }
        Ok(Self::from(string))
    }
}

/// Fails exactly if the character has more than `N` bytes.
impl<const N: usize> TryFrom<char> for InlineStringN<N> {
    type Error = NotEnoughSpaceError;

    ghost try_from_gives = { λ ch result. MatchResult result
        (λ made. (made ≡ ch ∷ []) × (size (ch ∷ []) ≤ N)) (λ _. N < size (ch ∷ [])) };

    fn try_from(ch: char) -> Result<Self, NotEnoughSpaceError> {
        let mut made = Self::new();
        made.push(ch)?;
        Ok(made)
    }
}

/// Copies the text, whatever its storage. Fails exactly if it has more than `N` bytes, and then
/// returns it.
impl<const N: usize> TryFrom<InlinableStringN<N>> for InlineStringN<N> {
    type Error = InlinableStringN<N>;

    ghost try_from_gives = { λ text result. MatchResult result
        (λ made. (made ≡ (inlinable_state N text).text)
        × (size (inlinable_state N text).text ≤ N))
        (λ back. (back ≡ text) × (N < size (inlinable_state N text).text)) };

    fn try_from(text: InlinableStringN<N>) -> Result<Self, InlinableStringN<N>> {
        if N < text.len() {
            return Err(text);
        }
        Ok(Self::from(text.as_str()))
    }
}

/// Copies the text of a `String`. Fails exactly if it has more than `N` bytes, and then returns it.
impl<const N: usize> TryFrom<String> for InlineStringN<N> {
    type Error = String;

    ghost try_from_gives = { λ string result. MatchResult result
        (λ made. (made ≡ (string_state string).text) × (size (string_state string).text ≤ N))
        (λ back. (back ≡ string) × (N < size (string_state string).text)) };

    fn try_from(string: String) -> Result<Self, String> {
        if N < string.len() {
            return Err(string);
        }
        Ok(Self::from(string.as_str()))
    }
}

/// The same as [`InlinableStringN::from_string`], with the `String`'s allocator.
impl<const N: usize> From<String> for InlinableStringN<N> {
    ghost from_gives = { λ string made.
        ((inlinable_state N made).text ≡ (string_state string).text)
        × ((inlinable_state N made).storage
        ≡ storage_when_made (inlinable_policy N) (size (string_state string).text))
        × ((inlinable_state N made).storage ≡ Heap
        → (inlinable_state N made).capacity ≡ (string_state string).capacity) };

    fn from(string: String) -> Self {
        let alloc = *string.allocator();
        Self::from_string(alloc, string)
    }
}

/// The same as [`InlinableStringN::into_string`]: if the allocation fails, the text is returned.
impl<const N: usize> TryFrom<InlinableStringN<N>> for String {
    type Error = InlinableStringN<N>;

    ghost try_from_gives = { λ text result. MatchResult result
        (λ made. (string_state made).text ≡ (inlinable_state N text).text)
        (λ back. (back ≡ text) × ((inlinable_state N text).storage ≡ Inline)) };

    fn try_from(text: InlinableStringN<N>) -> Result<Self, InlinableStringN<N>> {
        text.into_string()
    }
}

/// Converts the text without allocating; its storage is unchanged.
impl From<InlinableString> for BoxableString {
    ghost from_gives = { λ text made. made.0 ≡ text };

    fn from(text: InlinableString) -> Self {
        BoxableString(text)
    }
}
