//! A range of a text, taken out as a text of its own.
ghost use Rattle.std.specs.Prelude.{◌≡◌, ◌+◌, ◌≤◌, IfOk, IsOk, OnErr};
ghost use Rattle.inlinable_string.specs.Text.{size, IsPlace};
ghost use Rattle.inlinable_string.specs.State.{IsSameText, storage_when_made};
ghost use Rattle.inlinable_string.specs.Ranges.{IsDrained};
ghost use Rattle.inlinable_string.specs.Values.{inlinable_policy, inlinable_state};

use super::InlinableStringN;
use super::replaced::remove_on_heap;
use crate::string_ext::{Storage, StringExt};
use std::alloc::AllocError;
use std::ops::Range;

impl<const N: usize> InlinableStringN<N> {
    /// Removes the bytes in `range`, and returns them as a text, inline if it has at most `N`
    /// bytes. Both ends must be character boundaries of the text (`is_char_boundary`), the start
    /// not after the end. What is left stays where it is stored, a heap text with its capacity.
    ///
    /// Allocates only if `range` has more than `N` bytes, once and exactly. Cannot fail if it has
    /// not, or if the text is inline. An `AllocError` leaves the text unchanged.
    #[tactic(auto, using(crate::proofs::Text::place_within))]
    pub fn drain(&mut self, range: Range<usize>) -> Result<Self, AllocError>
        requires start { IsPlace (inlinable_state N self.old).text range.start }
        requires end { IsPlace (inlinable_state N self.old).text range.end }
        requires order { range.start ≤ range.end }
        ensures drained { IfOk result (λ part. IsDrained (inlinable_state N self.old).text
            range.start range.end (inlinable_state N part).text
            (inlinable_state N self.new).text) }
        ensures len { IfOk result (λ part. size (inlinable_state N self.new).text
            + size (inlinable_state N part).text ≡ size (inlinable_state N self.old).text) }
        ensures drained_len { IfOk result (λ part. range.start
            + size (inlinable_state N part).text ≡ range.end) }
        ensures err { OnErr result
            (IsSameText (inlinable_state N self.old) (inlinable_state N self.new)) }

        // Where the bytes were, there is a character boundary.
        ensures within { range.end ≤ size (inlinable_state N self.old).text }
        ensures at { IsPlace (inlinable_state N self.new).text range.start }

        // Where both are stored, and when the part needs no allocation.
        ensures storage { (inlinable_state N self.new).storage
            ≡ (inlinable_state N self.old).storage }
        ensures capacity { (inlinable_state N self.old).capacity
            ≤ (inlinable_state N self.new).capacity }
        ensures policy { (inlinable_state N self.new).policy
            ≡ (inlinable_state N self.old).policy }
        ensures drained_storage { IfOk result (λ part. (inlinable_state N part).storage
            ≡ storage_when_made (inlinable_policy N) (size (inlinable_state N part).text)) }
        ensures drained_capacity { IfOk result (λ part. size (inlinable_state N part).text
            ≤ (inlinable_state N part).capacity) }
        ensures granted { range.end ≤ range.start + N → IsOk result }
        ensures inline_granted { (inlinable_state N self.old).storage ≡ Storage.Inline
            → IsOk result }
    {
        match self {
            InlinableStringN::Heap(text, alloc) => {
                let part = Self::from(*alloc, &text.as_str()[range.start..range.end])?;
                // Only `len` states the laws of the value.
                let _ = part.len();
                remove_on_heap(text, range.start, range.end);
                Ok(part)
            }
            InlinableStringN::Inline(text, alloc) => {
                let alloc = *alloc;
                Ok(InlinableStringN::Inline(text.drain(range), alloc))
            }
        }
    }
}
