//! Texts that are stored inline if they fit, and texts that take over a heap allocation.
ghost use Rattle.std.specs.Prelude.{◌≡◌, ◌≤◌, [], length, true, IfOk, IsOk};
ghost use Rattle.std.specs.Char.{is_ascii};
ghost use Rattle.std.specs.List.{list_all};
ghost use Rattle.std.specs.Str.{chars};
ghost use Rattle.std.specs.String.{string_bytes, string_capacity};
ghost use Rattle.inlinable_string.specs.State.{storage_when_made};
ghost use Rattle.inlinable_string.specs.Text.{bytes_of};
ghost use Rattle.inlinable_string.specs.Values.{inlinable_policy, inlinable_state};

use super::InlinableStringN;
use crate::inline_string::InlineStringN;
use crate::string_ext::{Storage, StringMake};
use crate::well_formed::string_from;
use std::alloc::{AllocError, Global};
use std::string::FromUtf8Error;

impl<const N: usize> InlinableStringN<N> {
    /// Makes a text of `string`. It is stored inline if it has at most `N` bytes; then the call
    /// does not allocate and cannot fail.
    #[inline]
    pub fn from(alloc: Global, string: &str) -> Result<Self, AllocError>
        ensures text { IfOk result (λ made. (inlinable_state N made).text ≡ chars string.now) }
        ensures bytes { IfOk result (λ made. bytes_of (inlinable_state N made).text ≡ string.now) }
        ensures ascii { list_all is_ascii string.now ≡ true
            → IfOk result (λ made. (inlinable_state N made).text ≡ string.now) }
        ensures storage { IfOk result (λ made. (inlinable_state N made).storage
            ≡ storage_when_made (inlinable_policy N) (length string.now)) }
        ensures policy { IfOk result
            (λ made. (inlinable_state N made).policy ≡ inlinable_policy N) }
        ensures granted { length string.now ≤ N → IsOk result }
    {
        // A short text is written where it stays: made apart, it would be moved once more.
        let mut made = Self::new(alloc);
        if N < string.len() {
            made = InlinableStringN::Heap(String::from_str(alloc, string)?, alloc);
        } else if let InlinableStringN::Inline(text, _) = &mut made {
            let _ = text.push_str(string);
        }
        Ok(made)
    }

    /// The same as [`InlinableStringN::from`].
    #[inline]
    pub fn from_str(alloc: Global, s: &str) -> Result<Self, AllocError>
        ensures text { IfOk result (λ made. (inlinable_state N made).text ≡ chars s.now) }
        ensures bytes { IfOk result (λ made. bytes_of (inlinable_state N made).text ≡ s.now) }
        ensures ascii { list_all is_ascii s.now ≡ true
            → IfOk result (λ made. (inlinable_state N made).text ≡ s.now) }
        ensures storage { IfOk result (λ made. (inlinable_state N made).storage
            ≡ storage_when_made (inlinable_policy N) (length s.now)) }
        ensures policy { IfOk result
            (λ made. (inlinable_state N made).policy ≡ inlinable_policy N) }
        ensures granted { length s.now ≤ N → IsOk result }
    {
        Self::from(alloc, s)
    }

    /// Makes a text of `string`, stored inline if it has at most `N` bytes; a longer one keeps its
    /// allocation and its capacity. Does not allocate.
    pub fn from_string(alloc: Global, string: String) -> Self
        ensures text { (inlinable_state N result).text ≡ chars (string_bytes string) }
        ensures storage { (inlinable_state N result).storage
            ≡ storage_when_made (inlinable_policy N) (length (string_bytes string)) }
        ensures policy { (inlinable_state N result).policy ≡ inlinable_policy N }
        ensures room { (inlinable_state N result).storage ≡ Storage.Heap
            → (inlinable_state N result).capacity ≡ string_capacity string }
    {
        if string.len() <= N {
            let inline = InlineStringN::from(string.as_str());
            return InlinableStringN::Inline(inline, alloc);
        }
        InlinableStringN::Heap(string, alloc)
    }

    /// Returns the empty text, stored inline. Does not allocate.
    pub fn default(alloc: Global) -> Self
        ensures text { (inlinable_state N result).text ≡ [] }
        ensures storage { (inlinable_state N result).storage ≡ Storage.Inline }
        ensures policy { (inlinable_state N result).policy ≡ inlinable_policy N }
    {
        Self::new(alloc)
    }
}

impl<const N: usize> StringMake for InlinableStringN<N> {
    ghost policy = { inlinable_policy N };

    #[inline]
    fn new(alloc: Global) -> Self {
        InlinableStringN::Inline(InlineStringN::new(), alloc)
    }

    #[inline]
    #[tactic(auto, using(crate::proofs::Text::no_bytes))]
    fn with_capacity(alloc: Global, capacity: usize) -> Result<Self, AllocError> {
        if capacity <= N {
            return Ok(Self::new(alloc));
        }
        let heap = String::with_capacity(alloc, capacity)?;
        Ok(InlinableStringN::Heap(heap, alloc))
    }

    #[tactic(auto, using(crate::proofs::Makers::bytes_made))]
    fn from_utf8(alloc: Global, vec: Vec<u8>) -> Result<Self, FromUtf8Error> {
        let heap = string_from(vec)?;
        Ok(InlinableStringN::Heap(heap, alloc))
    }

    #[tactic(auto, using(crate::proofs::Makers::made))]
    unsafe fn from_utf8_unchecked(alloc: Global, bytes: Vec<u8>) -> Self {
        let heap = unsafe { String::from_utf8_unchecked(bytes) };
        InlinableStringN::Heap(heap, alloc)
    }

    #[tactic(auto, using(crate::proofs::Makers::made))]
    fn into_bytes(self) -> Result<Vec<u8>, Self> {
        match self {
            InlinableStringN::Heap(text, _) => Ok(text.into_bytes()),
            InlinableStringN::Inline(text, alloc) => {
                match Vec::from_slice(alloc, text.as_bytes()) {
                    Ok(bytes) => Ok(bytes),
                    Err(_) => Err(InlinableStringN::Inline(text, alloc)),
                }
            }
        }
    }
}
