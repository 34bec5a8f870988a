//! Copies of a string, one after the other.
ghost use Rattle.std.specs.Prelude.{◌≡◌, ◌*◌, ◌≤◌, length, IfOk, IsOk};
ghost use Rattle.std.specs.List.{repeat};
ghost use Rattle.std.specs.Str.{chars};
ghost use Rattle.inlinable_string.specs.Text.{bytes_of, size};
ghost use Rattle.inlinable_string.specs.State.{storage_when_made};
ghost use Rattle.inlinable_string.specs.Values.{inlinable_policy, inlinable_state};

use super::InlinableStringN;
use crate::inline_string::InlineStringN;
use std::alloc::{AllocError, Global};

impl<const N: usize> InlinableStringN<N> {
    /// Makes a text of `times` copies of `string`, stored inline if it has at most `N` bytes; then
    /// the call does not allocate and cannot fail. A longer text is made by one allocation.
    /// `AllocError` on capacity overflow, too.
    pub fn repeat(alloc: Global, string: &str, times: usize) -> Result<Self, AllocError>
        ensures text { IfOk result
            (λ made. (inlinable_state N made).text ≡ repeat times (chars string.now)) }
        ensures bytes { IfOk result
            (λ made. bytes_of (inlinable_state N made).text ≡ repeat times string.now) }
        ensures len { IfOk result
            (λ made. size (inlinable_state N made).text ≡ times * length string.now) }
        ensures storage { IfOk result (λ made. (inlinable_state N made).storage
            ≡ storage_when_made (inlinable_policy N) (times * length string.now)) }
        ensures policy { IfOk result
            (λ made. (inlinable_state N made).policy ≡ inlinable_policy N) }
        ensures granted { times * length string.now ≤ N → IsOk result }
    {
        if let Ok(text) = InlineStringN::repeat(string, times) {
            return Ok(InlinableStringN::Inline(text, alloc));
        }
        let text = string.repeat(alloc, times)?;
        Ok(InlinableStringN::Heap(text, alloc))
    }
}
