//! The traits of a text that can be edited: code over them is written once for `String`, for
//! [`crate::InlinableStringN`] and for a type of one's own.
ghost use Rattle.std.specs.Prelude.{◌≡◌, ℕ, ◌+◌, ◌≤◌, ◌<◌, ◌↔◌, List, ◌++◌, [], ◌∷◌, length, drop, IsTrue, true, OnOk, OnErr, IsOk, Err, MatchOption, IsUtf8};
ghost use Rattle.std.specs.Char.{is_ascii};
ghost use Rattle.std.specs.List.{list_all};
ghost use Rattle.std.specs.Str.{chars, IsCharBoundary};
ghost use Rattle.inlinable_string.specs.Text.{bytes_of, size, IsCut, IsPlace, IsSplice, IsRemoval};
ghost use Rattle.inlinable_string.specs.declared.string_ext.Storage.TheVariants.{Heap};
ghost use Rattle.inlinable_string.specs.State.{TextState, IsLawful, IsSameText, HasRoom, HasInlineRoom, storage_with_room, storage_when_shrunk};

use crate::inline_string::ReplaceError;
use std::alloc::{AllocError, Global};

mod joins;
mod make;
mod splits;
mod std_string;
mod utf16;
mod utf8;

pub use joins::{extend_chars, extend_strs};
pub use make::{StringMake, Utf16Error};
pub use splits::split_once;

/// Where the bytes of a text are stored.
#[derive(Clone, Copy, Debug, PartialEq, Eq)]
pub enum Storage {
    /// In the value itself.
    Inline,
    /// In an allocation.
    Heap,
}

/// A text that can be edited, inline or on the heap. Lengths and indices are in bytes.
///
/// `AllocError` means that an allocation failed; the text and its storage are unchanged. A growing
/// method may fail wherever `String`'s would, except for a push within the current capacity, and an
/// insertion within the limit of an inline text.
pub trait StringExt {
    /// What a contract sees of the value.
    ghost state: { Self → TextState };

    /// Appends `ch`.
    ///
    /// Cannot fail if the capacity suffices, inline or on the heap.
    fn push(&mut self, ch: char) -> Result<(), AllocError>
        ensures text { OnOk result
            ((state self.new).text ≡ (state self.old).text ++ ch ∷ []) }
        ensures len { OnOk result
            (size (state self.new).text ≡ size (state self.old).text + size (ch ∷ [])) }
        ensures char_len { size (ch ∷ []) ≤ 4 }
        ensures storage { OnOk result
            ((state self.new).storage ≡ storage_with_room (state self.old) (size (ch ∷ []))) }
        ensures err { OnErr result (IsSameText (state self.old) (state self.new)) }

        // What fits cannot fail, and the capacity does not shrink.
        ensures granted { HasRoom (state self.old) (size (ch ∷ [])) → IsOk result }
        ensures inline_granted { HasInlineRoom (state self.old) (size (ch ∷ [])) → IsOk result }
        ensures room { OnOk result ((state self.old).capacity ≤ (state self.new).capacity) }
        ensures policy { (state self.new).policy ≡ (state self.old).policy };

    /// Appends `string`.
    ///
    /// Cannot fail if the capacity suffices, inline or on the heap.
    fn push_str(&mut self, string: &str) -> Result<(), AllocError>
        ensures text { OnOk result
            ((state self.new).text ≡ (state self.old).text ++ chars string.now) }
        ensures bytes { OnOk result (bytes_of (state self.new).text
            ≡ bytes_of (state self.old).text ++ string.now) }
        ensures ascii { list_all is_ascii string.now ≡ true
            → OnOk result ((state self.new).text ≡ (state self.old).text ++ string.now) }
        ensures len { OnOk result
            (size (state self.new).text ≡ size (state self.old).text + length string.now) }
        ensures storage { OnOk result
            ((state self.new).storage ≡ storage_with_room (state self.old) (length string.now)) }
        ensures err { OnErr result (IsSameText (state self.old) (state self.new)) }

        // What fits cannot fail, and the capacity does not shrink.
        ensures granted { HasRoom (state self.old) (length string.now) → IsOk result }
        ensures inline_granted { HasInlineRoom (state self.old) (length string.now) → IsOk result }
        ensures room { OnOk result ((state self.old).capacity ≤ (state self.new).capacity) }
        ensures policy { (state self.new).policy ≡ (state self.old).policy };

    /// Inserts `ch` at byte `idx`, which must be a character boundary of the text
    /// (`is_char_boundary`).
    ///
    /// Cannot fail if the text is stored inline and the result fits there.
    fn insert(&mut self, idx: usize, ch: char) -> Result<(), AllocError>
        requires { IsPlace (state self.old).text idx }
        ensures text { OnOk result
            (IsSplice (state self.old).text idx (ch ∷ []) (state self.new).text) }
        ensures len { OnOk result
            (size (state self.new).text ≡ size (state self.old).text + size (ch ∷ [])) }
        ensures char_len { size (ch ∷ []) ≤ 4 }
        ensures storage { OnOk result
            ((state self.new).storage ≡ storage_with_room (state self.old) (size (ch ∷ []))) }
        ensures err { OnErr result (IsSameText (state self.old) (state self.new)) }
        ensures inline_granted { HasInlineRoom (state self.old) (size (ch ∷ [])) → IsOk result }
        ensures policy { (state self.new).policy ≡ (state self.old).policy }

        // What was inserted ends at a character boundary.
        ensures within { idx ≤ size (state self.old).text }
        ensures behind { OnOk result (IsPlace (state self.new).text (idx + size (ch ∷ []))) };

    /// Inserts `string` at byte `idx`, which must be a character boundary of the text
    /// (`is_char_boundary`).
    ///
    /// Cannot fail if the text is stored inline and the result fits there.
    fn insert_str(&mut self, idx: usize, string: &str) -> Result<(), AllocError>
        requires { IsPlace (state self.old).text idx }
        ensures text { OnOk result
            (IsSplice (state self.old).text idx (chars string.now) (state self.new).text) }
        ensures ascii { list_all is_ascii string.now ≡ true
            → OnOk result (IsSplice (state self.old).text idx string.now (state self.new).text) }
        ensures len { OnOk result
            (size (state self.new).text ≡ size (state self.old).text + length string.now) }
        ensures storage { OnOk result
            ((state self.new).storage ≡ storage_with_room (state self.old) (length string.now)) }
        ensures err { OnErr result (IsSameText (state self.old) (state self.new)) }
        ensures inline_granted { HasInlineRoom (state self.old) (length string.now) → IsOk result }
        ensures policy { (state self.new).policy ≡ (state self.old).policy }

        // What was inserted ends at a character boundary.
        ensures within { idx ≤ size (state self.old).text }
        ensures behind { OnOk result (IsPlace (state self.new).text (idx + length string.now)) };

    /// Reserves capacity for at least `additional` more bytes. May reserve more.
    ///
    /// Pushes directly after it that add at most `additional` bytes together cannot fail. A text
    /// that would not fit inline with them moves to the heap. `AllocError` on capacity overflow.
    fn reserve(&mut self, additional: usize) -> Result<(), AllocError>
        ensures text { (state self.new).text ≡ (state self.old).text }
        ensures storage { OnOk result
            ((state self.new).storage ≡ storage_with_room (state self.old) additional) }
        ensures room { OnOk result (HasRoom (state self.new) additional) }
        ensures err { OnErr result (IsSameText (state self.old) (state self.new)) }
        ensures inline_granted { HasInlineRoom (state self.old) additional → IsOk result }
        ensures policy { (state self.new).policy ≡ (state self.old).policy };

    /// Reserves the minimum capacity for `additional` more bytes, else as [`StringExt::reserve`].
    fn reserve_exact(&mut self, additional: usize) -> Result<(), AllocError>
        ensures text { (state self.new).text ≡ (state self.old).text }
        ensures storage { OnOk result
            ((state self.new).storage ≡ storage_with_room (state self.old) additional) }
        ensures room { OnOk result (HasRoom (state self.new) additional) }
        ensures err { OnErr result (IsSameText (state self.old) (state self.new)) }
        ensures inline_granted { HasInlineRoom (state self.old) additional → IsOk result }
        ensures policy { (state self.new).policy ≡ (state self.old).policy };

    /// Shrinks the capacity, by how much is not specified; it never grows on the heap. A heap text
    /// of at most `limit` bytes moves back inline if its type does that, which cannot fail.
    fn shrink_to_fit(&mut self) -> Result<(), AllocError>
        ensures text { (state self.new).text ≡ (state self.old).text }
        ensures storage { OnOk result
            ((state self.new).storage ≡ storage_when_shrunk (state self.old)) }
        ensures capacity { (state self.new).storage ≡ Heap
            → (state self.new).capacity ≤ (state self.old).capacity }
        ensures err { OnErr result (IsSameText (state self.old) (state self.new)) }
        ensures granted { IsTrue (state self.old).policy.demotes
            → size (state self.old).text ≤ (state self.old).policy.limit → IsOk result }
        ensures policy { (state self.new).policy ≡ (state self.old).policy };

    /// Keeps the first `new_len` bytes. They must end at a character boundary of the text
    /// (`is_char_boundary`). The storage stays.
    fn truncate(&mut self, new_len: usize)
        requires { IsPlace (state self.old).text new_len }
        ensures text { (rest : List ℕ)
            × IsCut (state self.old).text new_len (state self.new).text rest }
        ensures len { size (state self.new).text ≡ new_len }
        ensures storage { (state self.new).storage ≡ (state self.old).storage }
        ensures policy { (state self.new).policy ≡ (state self.old).policy }
        ensures back { (state self.old).text
            ≡ (state self.new).text ++ chars (drop new_len (bytes_of (state self.old).text)) };

    /// Removes and returns the last character; `None` if the text is empty. The storage stays.
    fn pop(&mut self) -> Option<char>
        ensures text { MatchOption result
            (((state self.old).text ≡ []) × ((state self.new).text ≡ []))
            (λ c. (state self.old).text ≡ (state self.new).text ++ c ∷ []) }
        ensures len { MatchOption result (size (state self.old).text ≡ 0)
            (λ c. size (state self.new).text + size (c ∷ []) ≡ size (state self.old).text) }
        ensures bound { size (state self.new).text ≤ size (state self.old).text }
        ensures storage { (state self.new).storage ≡ (state self.old).storage }
        ensures policy { (state self.new).policy ≡ (state self.old).policy };

    /// Removes and returns the character that begins at byte `idx`, which must be a character
    /// boundary of the text before its end. The storage stays.
    fn remove(&mut self, idx: usize) -> char
        requires place { IsPlace (state self.old).text idx }
        requires below { idx < size (state self.old).text }
        ensures text { IsRemoval (state self.old).text idx result (state self.new).text }
        ensures len { size (state self.new).text + size (result ∷ []) ≡ size (state self.old).text }
        ensures storage { (state self.new).storage ≡ (state self.old).storage }
        ensures policy { (state self.new).policy ≡ (state self.old).policy }
        ensures at { IsPlace (state self.new).text idx };

    /// Empties the text. It stays inline or on the heap.
    #[tactic(auto, using(crate::proofs::Text::no_bytes))]
    fn clear(&mut self)
        ensures text { (state self.new).text ≡ [] }
        ensures storage { (state self.new).storage ≡ (state self.old).storage }
        ensures policy { (state self.new).policy ≡ (state self.old).policy }
    {
        self.truncate(0);
    }

    /// Overwrites the text with `bytes`, which must have its length and be UTF-8. The length is
    /// tested first. An error changes nothing. Does not allocate, and the storage stays.
    fn replace_bytes(&mut self, bytes: &[u8]) -> Result<(), ReplaceError>
        ensures text { OnOk result (bytes_of (state self.new).text ≡ bytes.now) }
        ensures err { OnErr result (IsSameText (state self.old) (state self.new)) }

        // When each answer comes.
        ensures same_length { OnOk result (length bytes.now ≡ size (state self.old).text) }
        ensures well_formed { OnOk result (IsUtf8 bytes.now) }
        ensures wrong_length { result ≡ Err ReplaceError.WrongLength
            → ¬ (length bytes.now ≡ size (state self.old).text) }
        ensures not_utf8 { result ≡ Err ReplaceError.NotUtf8
            → (length bytes.now ≡ size (state self.old).text) × ¬ (IsUtf8 bytes.now) }
        ensures storage { (state self.new).storage ≡ (state self.old).storage }
        ensures policy { (state self.new).policy ≡ (state self.old).policy };

    /// Returns the capacity in bytes.
    fn capacity(&self) -> usize
        ensures value { result ≡ (state self.now).capacity }
        ensures laws { IsLawful (state self.now) };

    /// Returns where the bytes are stored.
    fn storage(&self) -> Storage
        ensures value { result ≡ (state self.now).storage }
        ensures laws { IsLawful (state self.now) };

    /// Returns the length in bytes.
    fn len(&self) -> usize
        ensures value { result ≡ size (state self.now).text }
        ensures laws { IsLawful (state self.now) };

    /// Returns whether the text is empty.
    #[tactic(auto, using(crate::proofs::Text::no_bytes))]
    fn is_empty(&self) -> bool
        ensures text { IsTrue result ↔ ((state self.now).text ≡ []) }
        ensures len { IsTrue result ↔ (size (state self.now).text ≡ 0) }
    {
        self.len() == 0
    }

    /// Returns whether byte `idx` is a character boundary of the text: 0, its length, or the first
    /// byte of a character. Use it to establish the precondition of `insert`, `insert_str` and
    /// `truncate`; `remove` also needs `idx < len()`.
    fn is_char_boundary(&self, idx: usize) -> bool
        ensures { IsTrue result ↔ IsPlace (state self.now).text idx }
    {
        self.as_str().is_char_boundary(idx)
    }

    /// Returns whether the text is `string`.
    fn eq_str(&self, string: &str) -> bool
        ensures bytes { IsTrue result ↔ (bytes_of (state self.now).text ≡ string.now) }
        ensures text { IsTrue result ↔ ((state self.now).text ≡ chars string.now) }
        ensures ascii { list_all is_ascii string.now ≡ true
            → (IsTrue result ↔ ((state self.now).text ≡ string.now)) }
    {
        self.as_str() == string
    }

    /// Returns the UTF-8 bytes of the text.
    fn as_bytes(&self) -> &[u8]
        ensures { result.now ≡ bytes_of (state self.now).text };

    /// Returns the text as a `str`. Its character boundaries are those of the text.
    fn as_str(&self) -> &str
        ensures bytes { result.now ≡ bytes_of (state self.now).text }
        ensures text { chars result.now ≡ (state self.now).text }
        ensures places { (p : ℕ) → IsCharBoundary result.now p ↔ IsPlace (state self.now).text p };
}
