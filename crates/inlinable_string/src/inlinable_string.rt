//! A text that is stored inline while it has at most `N` bytes, and moves to the heap when it
//! outgrows them.
ghost use Rattle.std.specs.Prelude.{◌≡◌, ◌+◌, ◌≤◌, ◌++◌, [], ◌∷◌, length, IfOk, IsOk, OnOk, OnErr};
ghost use Rattle.inlinable_string.specs.Text.{size};
ghost use Rattle.inlinable_string.specs.State.{IsSameText, HasRoom, HasInlineRoom, storage_with_room};
ghost use Rattle.inlinable_string.specs.Values.{inlinable_policy, inlinable_state};

use crate::inline_string::{INLINE_STRING_CAPACITY, InlineStringN, ReplaceError};
use crate::string_ext::{Storage, StringExt};
use std::alloc::{AllocError, Global};

mod ascii_case;
mod borrowed;
mod collected;
mod compared;
mod drained;
mod emptied;
mod into_string;
mod joins;
mod limits;
mod makers;
mod printed;
mod promotion;
mod repeated;
mod replaced;
mod retained;
mod split;
mod trimmed;

/// An [`InlinableStringN`] of 30 bytes inline, the capacity of the Rust crate.
pub type InlinableString = InlinableStringN<INLINE_STRING_CAPACITY>;

/// A UTF-8 text of any length: in the value itself, or on the heap once a growth has passed `N`
/// bytes. Shortening it does not move it back.
///
/// Each variant keeps the allocator, so that growths need none.
#[derive(Drop)]
pub enum InlinableStringN<const N: usize> {
    /// On the heap, however short.
    Heap(String, Global),
    /// In the value itself.
    Inline(InlineStringN<N>, Global),
}

// The heap arms call the trait's methods: their contracts speak of characters, and those that
// `String` has of its own speak of bytes.
impl<const N: usize> StringExt for InlinableStringN<N> {
    ghost state = { inlinable_state N };

    #[inline]
    fn push(&mut self, ch: char) -> Result<(), AllocError> {
        if ch.is_ascii() {
            match self {
                InlinableStringN::Heap(text, _) => return StringExt::push(text, ch),
                InlinableStringN::Inline(text, _) => {
                    if text.try_push_ascii(ch) {
                        return Ok(());
                    }
                }
            }
        }
        // One call: where the answers of two meet, LLVM tests for an error after each push.
        self.push_general(ch)
    }

    #[inline]
    fn push_str(&mut self, string: &str) -> Result<(), AllocError> {
        match self {
            InlinableStringN::Heap(text, _) => StringExt::push_str(text, string),
            InlinableStringN::Inline(text, _) => match text.push_str(string) {
                Ok(()) => Ok(()),
                Err(_) => self.promote_and_append(string),
            },
        }
    }

    #[inline]
    fn insert(&mut self, idx: usize, ch: char) -> Result<(), AllocError> {
        match self {
            InlinableStringN::Heap(text, _) => StringExt::insert(text, idx, ch),
            InlinableStringN::Inline(text, _) => match text.insert(idx, ch) {
                Ok(()) => Ok(()),
                Err(_) => {
                    // A push: with `push` as its one caller, `push_general` is compiled into it.
                    if idx == text.len() {
                        return self.push_general(ch);
                    }
                    let mut buffer = [0; 4];
                    self.promote_and_insert(idx, ch.encode_utf8(&mut buffer), 0)
                }
            },
        }
    }

    #[inline]
    fn insert_str(&mut self, idx: usize, string: &str) -> Result<(), AllocError> {
        match self {
            InlinableStringN::Heap(text, _) => StringExt::insert_str(text, idx, string),
            InlinableStringN::Inline(text, _) => match text.insert_str(idx, string) {
                Ok(()) => Ok(()),
                Err(_) => self.promote_and_insert(idx, string, 0),
            },
        }
    }

    #[inline]
    #[tactic(auto, using(crate::proofs::Text::kept))]
    fn reserve(&mut self, additional: usize) -> Result<(), AllocError> {
        match self {
            InlinableStringN::Heap(text, _) => StringExt::reserve(text, additional),
            InlinableStringN::Inline(text, _) => {
                let len = text.len();
                if additional <= N - len {
                    return Ok(());
                }
                self.promote_and_insert(len, "", additional)
            }
        }
    }

    #[inline]
    #[tactic(auto, using(crate::proofs::Text::kept))]
    fn reserve_exact(&mut self, additional: usize) -> Result<(), AllocError> {
        match self {
            InlinableStringN::Heap(text, _) => StringExt::reserve_exact(text, additional),
            InlinableStringN::Inline(text, _) => {
                let len = text.len();
                if additional <= N - len {
                    return Ok(());
                }
                self.promote_and_insert(len, "", additional)
            }
        }
    }

    #[inline]
    #[tactic(auto, using(crate::proofs::Text::sizes))]
    fn shrink_to_fit(&mut self) -> Result<(), AllocError> {
        match self {
            InlinableStringN::Heap(text, alloc) => {
                if N < StringExt::len(text) {
                    return StringExt::shrink_to_fit(text);
                }
                let alloc = *alloc;
                let inline = InlineStringN::from(text.as_str());
                *self = InlinableStringN::Inline(inline, alloc);
                Ok(())
            }
            InlinableStringN::Inline(_, _) => Ok(()),
        }
    }

    #[inline]
    fn truncate(&mut self, new_len: usize) {
        match self {
            InlinableStringN::Heap(text, _) => StringExt::truncate(text, new_len),
            InlinableStringN::Inline(text, _) => text.truncate(new_len),
        }
    }

    // No `#[inline]`: with `String`'s `pop` out of line, a loop of pops would test the storage each
    // time.
    fn pop(&mut self) -> Option<char> {
        match self {
            InlinableStringN::Heap(text, _) => StringExt::pop(text),
            InlinableStringN::Inline(text, _) => text.pop(),
        }
    }

    #[inline]
    fn remove(&mut self, idx: usize) -> char {
        match self {
            InlinableStringN::Heap(text, _) => StringExt::remove(text, idx),
            InlinableStringN::Inline(text, _) => text.remove(idx),
        }
    }

    #[inline]
    fn replace_bytes(&mut self, bytes: &[u8]) -> Result<(), ReplaceError> {
        match self {
            InlinableStringN::Heap(text, _) => StringExt::replace_bytes(text, bytes),
            InlinableStringN::Inline(text, _) => text.replace_bytes(bytes),
        }
    }

    #[inline]
    fn capacity(&self) -> usize {
        // Only `len` states the laws of the value.
        let _ = self.len();
        match self {
            InlinableStringN::Heap(text, _) => StringExt::capacity(text),
            InlinableStringN::Inline(_, _) => N,
        }
    }

    #[inline]
    fn storage(&self) -> Storage {
        // Only `len` states the laws of the value.
        let _ = self.len();
        match self {
            InlinableStringN::Heap(_, _) => Storage::Heap,
            InlinableStringN::Inline(_, _) => Storage::Inline,
        }
    }

    #[inline]
    fn len(&self) -> usize {
        match self {
            InlinableStringN::Heap(text, _) => StringExt::len(text),
            InlinableStringN::Inline(text, _) => text.len(),
        }
    }

    #[inline]
    fn as_bytes(&self) -> &[u8] {
        match self {
            InlinableStringN::Heap(text, _) => StringExt::as_bytes(text),
            InlinableStringN::Inline(text, _) => text.as_bytes(),
        }
    }

    #[inline]
    fn as_str(&self) -> &str {
        match self {
            InlinableStringN::Heap(text, _) => StringExt::as_str(text),
            InlinableStringN::Inline(text, _) => text.as_str(),
        }
    }
}

impl<const N: usize> InlinableStringN<N> {
    /// `push` of any character, whatever the storage. Out of line, to keep the push of an ASCII
    /// character after an inline text small.
    #[cold]
    #[inline(never)]
    fn push_general(&mut self, ch: char) -> Result<(), AllocError>
        ensures text { OnOk result ((inlinable_state N self.new).text
            ≡ (inlinable_state N self.old).text ++ ch ∷ []) }
        ensures len { OnOk result (size (inlinable_state N self.new).text
            ≡ size (inlinable_state N self.old).text + size (ch ∷ [])) }
        ensures char_len { size (ch ∷ []) ≤ 4 }
        ensures storage { OnOk result ((inlinable_state N self.new).storage
            ≡ storage_with_room (inlinable_state N self.old) (size (ch ∷ []))) }
        ensures err { OnErr result
            (IsSameText (inlinable_state N self.old) (inlinable_state N self.new)) }

        // What fits cannot fail, and the capacity does not shrink.
        ensures granted { HasRoom (inlinable_state N self.old) (size (ch ∷ [])) → IsOk result }
        ensures inline_granted { HasInlineRoom (inlinable_state N self.old) (size (ch ∷ []))
            → IsOk result }
        ensures room { OnOk result
            ((inlinable_state N self.old).capacity ≤ (inlinable_state N self.new).capacity) }
        ensures policy { (inlinable_state N self.new).policy
            ≡ (inlinable_state N self.old).policy }
    {
        if let InlinableStringN::Inline(text, _) = self {
            if ch.is_ascii() && text.len() == N {
                return self.promote_and_push(ch);
            }
        }
        let mut buffer = [0; 4];
        let string = ch.encode_utf8(&mut buffer);
        // Not by `push_str`: a promotion with one caller alone is compiled into `push_str`, which
        // is then no longer inlined where it is called.
        match self {
            InlinableStringN::Heap(text, _) => StringExt::push_str(text, string),
            InlinableStringN::Inline(text, _) => match text.push_str(string) {
                Ok(()) => Ok(()),
                Err(_) => self.promote_and_append(string),
            },
        }
    }
}

/// The copy is stored as the text is. Copying an inline text cannot fail.
impl<const N: usize> Clone for InlinableStringN<N> {
    ghost use Rattle.inlinable_string.specs.declared.string_ext.Storage.TheVariants.{Inline};

    ghost is_clone = { λ text copy. IsSameText (inlinable_state N text) (inlinable_state N copy) };

    ghost is_infallible = { λ text. (inlinable_state N text).storage ≡ Inline };

    #[inline]
    fn clone(&self) -> Result<Self, AllocError> {
        match self {
            InlinableStringN::Heap(text, alloc) => Self::clone_heap_inlined(*alloc, text),
            InlinableStringN::Inline(text, alloc) => {
                let copy = text.copy();
                Ok(InlinableStringN::Inline(copy, *alloc))
            }
        }
    }
}
