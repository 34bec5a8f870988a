//! Views: what a caller knows of a length, a capacity or the storage.
ghost use Rattle.std.specs.Prelude.{◌≡◌, ℕ, ◌+◌, ◌≤◌, ◌<◌, ◌↔◌, List, ◌++◌, [], ◌∷◌, IsTrue, IfNone, IfSome};
ghost use Rattle.inlinable_string.specs.Text.{bytes_of, size};
ghost use Rattle.inlinable_string.specs.State.{HasRoom};
ghost use Rattle.inlinable_string.specs.Values.{inlinable_state};

use inlinable_string::{InlinableStringN, Storage, StringExt};

/// The capacity is at least the length: `capacity` alone states it.
pub fn upper_bound<S: StringExt>(text: &S) -> usize
    ensures { size (S.state text.now).text ≤ result }
{
    text.capacity()
}

/// An inline text has the capacity of its limit: `storage` alone states it.
pub fn lies_inline(text: &dyn StringExt) -> bool
    ensures when { IsTrue result ↔ ((state text.now).storage ≡ Storage.Inline) }
    ensures room { IsTrue result → (state text.now).capacity ≡ (state text.now).policy.limit }
    ensures size { IsTrue result → size (state text.now).text ≤ (state text.now).policy.limit }
{
    text.storage() == Storage::Inline
}

/// How many bytes more have room.
pub fn spare<S: StringExt>(text: &S) -> usize
    ensures exact { size (S.state text.now).text + result ≡ (S.state text.now).capacity }
    ensures room { HasRoom (S.state text.now) result }
{
    text.capacity() - text.len()
}

/// The last byte, if there is one.
pub fn last_byte<S: StringExt>(text: &S) -> Option<u8>
    ensures none { IfNone result (size (S.state text.now).text ≡ 0) }
    ensures last { IfSome result
        (λ b. (front : List ℕ) × (bytes_of (S.state text.now).text ≡ front ++ b ∷ [])) }
{
    let (last, _) = text.as_bytes().split_last()?;
    Some(*last)
}

/// Whether a text is empty, whatever its storage.
pub fn is_nothing<const N: usize>(text: &InlinableStringN<N>) -> bool
    ensures { IsTrue result ↔ ((inlinable_state N text.now).text ≡ []) }
{
    text.is_empty()
}
