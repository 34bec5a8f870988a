//! A text split in two.
ghost use Rattle.std.specs.Prelude.{◌≡◌, ◌+◌, ◌≤◌, take, drop, IfOk, IsOk, OnOk, OnErr};
ghost use Rattle.inlinable_string.specs.State.{storage_when_made};
ghost use Rattle.inlinable_string.specs.Text.{bytes_of, size, IsCut, IsPlace};
ghost use Rattle.inlinable_string.specs.Values.{inlinable_policy, inlinable_state};

use super::InlinableStringN;
use crate::string_ext::Storage;
use std::alloc::AllocError;

impl<const N: usize> InlinableStringN<N> {
    /// Splits the text in two at byte `at`, which must be a character boundary of the text
    /// (`is_char_boundary`). The text keeps the first `at` bytes, its storage and its capacity; the
    /// rest is returned, inline if it has at most `N` bytes.
    ///
    /// Allocates only if the rest has more than `N` bytes, once and exactly. Cannot fail if it has
    /// not, or if the text is inline. An `AllocError` leaves the text unchanged.
    pub fn split_off(&mut self, at: usize) -> Result<Self, AllocError>
        requires { IsPlace (inlinable_state N self.old).text at }
        ensures text { IfOk result (λ tail. IsCut (inlinable_state N self.old).text at
            (inlinable_state N self.new).text (inlinable_state N tail).text) }
        ensures tail_len { IfOk result (λ tail. at + size (inlinable_state N tail).text
            ≡ size (inlinable_state N self.old).text) }
        ensures err { OnErr result
            ((inlinable_state N self.new).text ≡ (inlinable_state N self.old).text) }

        // The bytes of both, for an offset that a search of the bytes returned.
        ensures front { OnOk result (bytes_of (inlinable_state N self.new).text
            ≡ take at (bytes_of (inlinable_state N self.old).text)) }
        ensures back { IfOk result (λ tail. bytes_of (inlinable_state N tail).text
            ≡ drop at (bytes_of (inlinable_state N self.old).text)) }

        // Where both are stored, and when the rest needs no allocation.
        ensures storage { (inlinable_state N self.new).storage
            ≡ (inlinable_state N self.old).storage }
        ensures capacity { (inlinable_state N self.new).capacity
            ≡ (inlinable_state N self.old).capacity }
        ensures policy { (inlinable_state N self.new).policy
            ≡ (inlinable_state N self.old).policy }
        ensures tail_storage { IfOk result (λ tail. (inlinable_state N tail).storage
            ≡ storage_when_made (inlinable_policy N) (size (inlinable_state N tail).text)) }
        ensures granted { size (inlinable_state N self.old).text ≤ at + N → IsOk result }
        ensures inline_granted { (inlinable_state N self.old).storage ≡ Storage.Inline
            → IsOk result }
    {
        match self {
            InlinableStringN::Heap(text, alloc) => {
                let tail = Self::from(*alloc, &text.as_str()[at..])?;
                text.truncate(at);
                Ok(tail)
            }
            InlinableStringN::Inline(text, alloc) => {
                let alloc = *alloc;
                Ok(InlinableStringN::Inline(text.split_off(at), alloc))
            }
        }
    }
}
