//! Text in an array, which never allocates and has a limit.
//!
//! Use [`InlineStringN`] if no text is longer than the limit, or longer ones are to be rejected; to
//! accept them, use [`crate::InlinableStringN`].
ghost use Rattle.std.specs.Prelude.{◌≡◌, ⊤, ℕ, ◌+◌, ◌-◌, ◌≤◌, ◌<◌, ◌↔◌, List, ◌++◌, [], ◌∷◌, length, drop, replicate, encode_utf8, IsTrue, true, OnOk, OnErr, Err, Some, MatchOption, MatchResult, IsUtf8, if◌then◌else◌, codes};
ghost use Rattle.std.specs.Bool.{OnTrue, OnFalse};
ghost use Rattle.std.specs.Char.{is_ascii};
ghost use Rattle.std.specs.List.{list_all};
ghost use Rattle.std.specs.Str.{all_scalars, chars, IsCharBoundary};
ghost use Rattle.inlinable_string.specs.Text.{bytes_of, size, IsCut, IsPlace, IsSplice, IsRemoval};

use crate::well_formed::text_in;
use std::alloc::AllocError;
use std::error::Error;
use std::marker::Model;
use std::{fmt, str};
use window::Window;

mod ascii_case;
mod borrowed;
mod compared;
mod copied;
mod drained;
mod joins;
mod printed;
mod repeated;
mod replaced;
mod retained;
mod room;
mod split;
mod trimmed;
mod utf8;
mod window;

/// The capacity of an [`InlineString`] in bytes, as in the crate `inlinable_string`.
pub const INLINE_STRING_CAPACITY: usize = 30;

/// An [`InlineStringN`] of 30 bytes, the capacity of the Rust crate.
pub type InlineString = InlineStringN<INLINE_STRING_CAPACITY>;

/// The result would exceed the capacity. The text is unchanged.
#[derive(Clone, Copy, Debug, PartialEq, Eq)]
pub struct NotEnoughSpaceError;

impl Error for NotEnoughSpaceError {}

impl fmt::Display for NotEnoughSpaceError {
    ghost output = { λ _. Some (codes "the text does not fit") };

    fn fmt<W: fmt::Write>(&self, f: &mut fmt::Formatter<W>) -> fmt::Result {
        f.write_str("the text does not fit")
    }
}

/// Why `replace_bytes` failed. The text is unchanged.
#[derive(Clone, Copy, Debug, PartialEq, Eq)]
pub enum ReplaceError {
    /// The lengths differ.
    WrongLength,
    /// The bytes are not UTF-8.
    NotUtf8,
}

impl Error for ReplaceError {}

impl fmt::Display for ReplaceError {
    ghost use Rattle.inlinable_string.specs.declared.inline_string.ReplaceError.TheVariants.{NotUtf8};

    ghost output = { λ error. Some (if ⟦<ReplaceError as PartialEq>⟧.eq error NotUtf8
        then codes "the bytes are not UTF-8"
        else codes "the bytes are not as many as the text's") };

    fn fmt<W: fmt::Write>(&self, f: &mut fmt::Formatter<W>) -> fmt::Result {
        match self {
            ReplaceError::WrongLength => f.write_str("the bytes are not as many as the text's"),
            ReplaceError::NotUtf8 => f.write_str("the bytes are not UTF-8"),
        }
    }
}

/// A UTF-8 string of at most `N` bytes, stored in the value itself. No method allocates. A contract
/// sees the list of its characters.
#[derive(Drop)]
pub struct InlineStringN<const N: usize> {
    window: Window<N>,
}

impl<const N: usize> Model for InlineStringN<N> {
    ghost use Rattle.std.specs.Prelude.{◌≡◌, ℕ, ◌+◌, ◌≤◌, List, length, take, drop, IsUtf8};
    ghost use Rattle.std.specs.Str.{chars};

    ghost Value = { List ℕ };

    ghost view = { λ s. chars (take s.window.len (drop s.window.start s.window.bytes)) };

    ghost invariant = { λ s. (length s.window.bytes ≡ N) × (s.window.start + s.window.len ≤ N)
        × ∥ IsUtf8 (take s.window.len (drop s.window.start s.window.bytes)) ∥₁ };
}

impl<const N: usize> InlineStringN<N> {
    /// Returns the empty text.
    #[inline]
    #[tactic(auto, using(crate::proofs::Text::no_bytes))]
    pub fn new() -> Self
        ensures { result ≡ [] }
    {
        InlineStringN {
            window: Window {
                start: 0,
                len: 0,
                bytes: [0; N],
            },
        }
    }

    /// Makes a text of `string`, which must have at most `N` bytes.
    #[inline]
    pub fn from(string: &str) -> Self
        requires { length string.now ≤ N }
        ensures text { result ≡ chars string.now }
        ensures bytes { bytes_of result ≡ string.now }
        ensures ascii { list_all is_ascii string.now ≡ true → result ≡ string.now }
        ensures len { size result ≡ length string.now }
    {
        let mut text = Self::new();
        let _ = text.push_str(string);
        text
    }

    /// Appends `ch`. Fails, and changes nothing, exactly where the result would have more than `N`
    /// bytes.
    #[inline]
    pub fn push(&mut self, ch: char) -> Result<(), NotEnoughSpaceError>
        ensures fits { MatchResult result
            (λ _. size self.old + size (ch ∷ []) ≤ N)
            (λ _. N < size self.old + size (ch ∷ [])) }
        ensures ok { OnOk result (self.new ≡ self.old ++ ch ∷ []) }
        ensures len { OnOk result (size self.new ≡ size self.old + size (ch ∷ [])) }
        ensures char_len { size (ch ∷ []) ≤ 4 }
        ensures err { OnErr result (self.new ≡ self.old) }
    {
        if self.try_push_ascii(ch) {
            return Ok(());
        }
        self.push_general(ch)
    }

    /// Appends `ch` if it is ASCII and there is room after the text: the usual push, in which
    /// nothing moves. Else returns false and changes nothing.
    #[inline]
    pub(crate) fn try_push_ascii(&mut self, ch: char) -> bool
        ensures fits { OnTrue result (size self.old + size (ch ∷ []) ≤ N) }
        ensures pushed { OnTrue result (self.new ≡ self.old ++ ch ∷ []) }
        ensures len { OnTrue result (size self.new ≡ size self.old + size (ch ∷ [])) }
        ensures char_len { OnTrue result (size (ch ∷ []) ≡ 1) }
        ensures refused { OnFalse result (self.new ≡ self.old) }
    {
        if ch.is_ascii() {
            if self.window.push_byte(ch as u8) {
                return true;
            }
        }
        false
    }

    /// [`InlineStringN::push`] of any character, before or after the text. Out of line, to keep the
    /// push of an ASCII character after the text small.
    #[cold]
    #[inline(never)]
    #[tactic(auto, using(crate::proofs::Window::one_char))]
    fn push_general(&mut self, ch: char) -> Result<(), NotEnoughSpaceError>
        ensures fits { MatchResult result
            (λ _. size self.old + size (ch ∷ []) ≤ N)
            (λ _. N < size self.old + size (ch ∷ [])) }
        ensures ok { OnOk result (self.new ≡ self.old ++ ch ∷ []) }
        ensures len { OnOk result (size self.new ≡ size self.old + size (ch ∷ [])) }
        ensures char_len { size (ch ∷ []) ≤ 4 }
        ensures err { OnErr result (self.new ≡ self.old) }
    {
        let mut buffer = [0; 4];
        self.push_str(ch.encode_utf8(&mut buffer))
    }

    /// Appends `string`. Fails, and changes nothing, exactly where the result would have more than
    /// `N` bytes.
    #[inline]
    pub fn push_str(&mut self, string: &str) -> Result<(), NotEnoughSpaceError>
        ensures fits { MatchResult result
            (λ _. size self.old + length string.now ≤ N)
            (λ _. N < size self.old + length string.now) }
        ensures ok { OnOk result (self.new ≡ self.old ++ chars string.now) }
        ensures bytes { OnOk result (bytes_of self.new ≡ bytes_of self.old ++ string.now) }
        ensures ascii { list_all is_ascii string.now ≡ true
            → OnOk result (self.new ≡ self.old ++ string.now) }
        ensures len { OnOk result (size self.new ≡ size self.old + length string.now) }
        ensures err { OnErr result (self.new ≡ self.old) }
    {
        self.window.append(string.as_bytes())?;
        Ok(())
    }

    /// Inserts `ch` at byte `idx`, which must be a character boundary of the text
    /// (`is_char_boundary`). Fails, and changes nothing, exactly where the result would have more
    /// than `N` bytes.
    #[inline]
    #[tactic(auto, using(crate::proofs::Text::place_within))]
    pub fn insert(&mut self, idx: usize, ch: char) -> Result<(), NotEnoughSpaceError>
        requires { IsPlace self.old idx }
        ensures fits { MatchResult result
            (λ _. size self.old + size (ch ∷ []) ≤ N)
            (λ _. N < size self.old + size (ch ∷ [])) }
        ensures ok { OnOk result (IsSplice self.old idx (ch ∷ []) self.new) }
        ensures len { OnOk result (size self.new ≡ size self.old + size (ch ∷ [])) }
        ensures char_len { size (ch ∷ []) ≤ 4 }
        ensures err { OnErr result (self.new ≡ self.old) }

        // What was inserted ends at a character boundary.
        ensures within { idx ≤ size self.old }
        ensures behind { OnOk result (IsPlace self.new (idx + size (ch ∷ []))) }
    {
        if ch.is_ascii() {
            self.window.insert_byte(idx, ch as u8)?;
            return Ok(());
        }
        let mut buffer = [0; 4];
        self.insert_str(idx, ch.encode_utf8(&mut buffer))
    }

    /// Inserts `string` at byte `idx`, which must be a character boundary of the text
    /// (`is_char_boundary`). Fails, and changes nothing, exactly where the result would have more
    /// than `N` bytes.
    #[tactic(auto, using(crate::proofs::Text::place_within))]
    pub fn insert_str(&mut self, idx: usize, string: &str) -> Result<(), NotEnoughSpaceError>
        requires place { IsPlace self.old idx }
        ensures fits { MatchResult result
            (λ _. size self.old + length string.now ≤ N)
            (λ _. N < size self.old + length string.now) }
        ensures ok { OnOk result (IsSplice self.old idx (chars string.now) self.new) }
        ensures ascii { list_all is_ascii string.now ≡ true
            → OnOk result (IsSplice self.old idx string.now self.new) }
        ensures len { OnOk result (size self.new ≡ size self.old + length string.now) }
        ensures err { OnErr result (self.new ≡ self.old) }

        // What was inserted ends at a character boundary.
        ensures within { idx ≤ size self.old }
        ensures behind { OnOk result (IsPlace self.new (idx + length string.now)) }
    {
        self.window.insert(idx, string.as_bytes())?;
        Ok(())
    }

    /// Keeps the first `new_len` bytes. They must end at a character boundary of the text
    /// (`is_char_boundary`).
    #[inline]
    pub fn truncate(&mut self, new_len: usize)
        requires { IsPlace self.old new_len }
        ensures text { (rest : List ℕ) × IsCut self.old new_len self.new rest }
        ensures len { size self.new ≡ new_len }
        ensures back { self.old ≡ self.new ++ chars (drop new_len (bytes_of self.old)) }
    {
        self.window.truncate(new_len);
    }

    /// Removes and returns the last character; `None` if the text is empty.
    pub fn pop(&mut self) -> Option<char>
        ensures text { MatchOption result
            ((self.old ≡ []) × (self.new ≡ []))
            (λ c. self.old ≡ self.new ++ c ∷ []) }
        ensures len { MatchOption result (size self.old ≡ 0)
            (λ c. size self.new + size (c ∷ []) ≡ size self.old) }
        ensures bound { size self.new ≤ size self.old }
    {
        let len = self.window.len;
        let mut rest = self.as_str().chars();
        let last = rest.next_back()?;
        let rest_len = rest.as_str().len();
        self.window.drop_back(len - rest_len);
        Some(last)
    }

    /// Removes and returns the character that begins at byte `idx`, which must be a character
    /// boundary of the text before its end.
    #[inline]
    pub fn remove(&mut self, idx: usize) -> char
        requires place { IsPlace self.old idx }
        requires below { idx < size self.old }
        ensures text { IsRemoval self.old idx result self.new }
        ensures len { size self.new + size (result ∷ []) ≡ size self.old }
        ensures at { IsPlace self.new idx }
    {
        let (ch, next) = char_at(self.as_str(), idx);
        self.window.remove(idx, next);
        ch
    }

    /// Empties the text.
    #[inline]
    #[tactic(auto, using(crate::proofs::Text::no_bytes))]
    pub fn clear(&mut self)
        ensures { self.new ≡ [] }
    {
        self.window.clear();
    }

    /// Overwrites the text with `bytes`, which must have its length and be UTF-8. The length is
    /// tested first. An error changes nothing.
    pub fn replace_bytes(&mut self, bytes: &[u8]) -> Result<(), ReplaceError>
        ensures ok { OnOk result (bytes_of self.new ≡ bytes.now) }
        ensures err { OnErr result (self.new ≡ self.old) }

        // When each answer comes.
        ensures same_length { OnOk result (length bytes.now ≡ size self.old) }
        ensures well_formed { OnOk result (IsUtf8 bytes.now) }
        ensures wrong_length { result ≡ Err ReplaceError.WrongLength
            → ¬ (length bytes.now ≡ size self.old) }
        ensures not_utf8 { result ≡ Err ReplaceError.NotUtf8
            → (length bytes.now ≡ size self.old) × ¬ (IsUtf8 bytes.now) }
    {
        if bytes.len() != self.window.len {
            return Err(ReplaceError::WrongLength);
        }
        let Some(string) = text_in(bytes) else {
            return Err(ReplaceError::NotUtf8);
        };
        self.window.overwrite(string.as_bytes());
        Ok(())
    }

    /// Returns the length in bytes.
    #[inline]
    pub fn len(&self) -> usize
        ensures value { result ≡ size self.now }
        ensures within { size self.now ≤ N }
        ensures scalars { all_scalars self.now ≡ true }
    {
        self.window.len
    }

    /// Returns whether the text is empty.
    #[inline]
    #[tactic(auto, using(crate::proofs::Text::no_bytes))]
    pub fn is_empty(&self) -> bool
        ensures text { IsTrue result ↔ (self.now ≡ []) }
        ensures len { IsTrue result ↔ (size self.now ≡ 0) }
    {
        self.len() == 0
    }

    /// Returns whether byte `idx` is a character boundary of the text: 0, its length, or the first
    /// byte of a character. Use it to establish the precondition of `insert`, `insert_str` and
    /// `truncate`; `remove` also needs `idx < len()`.
    #[inline]
    pub fn is_char_boundary(&self, idx: usize) -> bool
        ensures { IsTrue result ↔ IsPlace self.now idx }
    {
        self.as_str().is_char_boundary(idx)
    }

    /// Returns the UTF-8 bytes of the text.
    #[inline]
    pub fn as_bytes(&self) -> &[u8]
        ensures value { result.now ≡ bytes_of self.now }
        ensures within { length result.now ≤ N }
    {
        self.as_str().as_bytes()
    }

    /// Returns the bytes of the text, and zeros after them.
    pub fn into_bytes(self) -> [u8; N]
        ensures { result ≡ bytes_of self.entry ++ replicate (N - size self.entry) 0 }
    {
        self.window.to_bytes()
    }

    /// Returns the text as a `str`. Its character boundaries are those of the text.
    #[inline]
    pub fn as_str(&self) -> &str
        ensures value { result.now ≡ bytes_of self.now }
        ensures text { chars result.now ≡ self.now }
        ensures places { (p : ℕ) → IsCharBoundary result.now p ↔ IsPlace self.now p }
        ensures within { length result.now ≤ N }
    {
        let cells = &self.window.bytes[..];
        unsafe {
            str::from_utf8_unchecked(&cells[self.window.start..self.window.start + self.window.len])
        }
    }
}

/// Returns the character that begins at `idx`, and where it ends.
#[inline]
fn char_at(text: &str, idx: usize) -> (char, usize)
    requires place { IsCharBoundary text.now idx }
    requires below { idx < length text.now }
    ensures order { idx ≤ result.1 }
    ensures within { result.1 ≤ length text.now }
    ensures bytes { drop idx text.now ≡ encode_utf8 result.0 ++ drop result.1 text.now }
{
    let mut rest = text[idx..].chars();
    let Some(ch) = rest.next() else {
        unreachable!();
    };
    (ch, text.len() - rest.as_str().len())
}

impl<const N: usize> Default for InlineStringN<N> {
    ghost is_default = { λ text. text ≡ [] };

    fn default() -> Self {
        Self::new()
    }
}

impl<const N: usize> Clone for InlineStringN<N> {
    ghost is_clone = { λ text copy. copy ≡ text };

    ghost is_infallible = { λ _. ⊤ };

    #[inline]
    fn clone(&self) -> Result<Self, AllocError> {
        Ok(InlineStringN {
            window: self.window,
        })
    }
}
