//! A range of the text, replaced by another text.
ghost use Rattle.std.specs.Prelude.{◌≡◌, ◌+◌, ◌-◌, ◌≤◌, [], length, true, IfOk, IsOk, OnOk, OnErr};
ghost use Rattle.std.specs.Char.{is_ascii};
ghost use Rattle.std.specs.List.{list_all, remove_range, replace_range};
ghost use Rattle.std.specs.Str.{chars, IsCharBoundary};
ghost use Rattle.std.specs.String.{string_bytes, string_capacity};
ghost use Rattle.inlinable_string.specs.Text.{bytes_of, size, IsPlace};
ghost use Rattle.inlinable_string.specs.State.{IsSameText, HasRoom, HasInlineRoom, storage_with_room};
ghost use Rattle.inlinable_string.specs.Ranges.{IsRangeReplaced};
ghost use Rattle.inlinable_string.specs.Values.{inlinable_state};
ghost use Rattle.inlinable_string.specs.StringValues.{string_state};

use super::InlinableStringN;
use crate::string_ext::{Storage, StringExt};
use std::alloc::{AllocError, Global};
use std::ops::Range;

impl<const N: usize> InlinableStringN<N> {
    /// Replaces the bytes in `range` by `replace_with`, which may be of another length; the empty
    /// string removes them. Both ends must be character boundaries of the text
    /// (`is_char_boundary`), the start not after the end.
    ///
    /// An inline text moves to the heap if the result has more than `N` bytes; a heap text stays
    /// there. Cannot fail if the text is stored inline and the result fits there, or if the
    /// capacity suffices for the whole text and `replace_with`.
    pub fn replace_range(
        &mut self,
        range: Range<usize>,
        replace_with: &str,
    ) -> Result<(), AllocError>
        requires start { IsPlace (inlinable_state N self.old).text range.start }
        requires end { IsPlace (inlinable_state N self.old).text range.end }
        requires order { range.start ≤ range.end }
        ensures text { OnOk result (IsRangeReplaced (inlinable_state N self.old).text range.start
            range.end (chars replace_with.now) (inlinable_state N self.new).text) }
        ensures bytes { OnOk result (bytes_of (inlinable_state N self.new).text
            ≡ replace_range (bytes_of (inlinable_state N self.old).text) range.start range.end
            replace_with.now) }
        ensures ascii { list_all is_ascii replace_with.now ≡ true → OnOk result
            (IsRangeReplaced (inlinable_state N self.old).text range.start range.end
            replace_with.now (inlinable_state N self.new).text) }
        ensures len { OnOk result
            (size (inlinable_state N self.new).text + (range.end - range.start)
            ≡ size (inlinable_state N self.old).text + length replace_with.now) }
        ensures storage { OnOk result ((inlinable_state N self.new).storage
            ≡ storage_with_room (inlinable_state N self.old)
            (length replace_with.now - (range.end - range.start))) }
        ensures err { OnErr result
            (IsSameText (inlinable_state N self.old) (inlinable_state N self.new)) }

        // What fits cannot fail, and the capacity does not shrink.
        ensures granted { HasRoom (inlinable_state N self.old) (length replace_with.now)
            → IsOk result }
        ensures inline_granted { HasInlineRoom (inlinable_state N self.old)
            (length replace_with.now - (range.end - range.start)) → IsOk result }
        ensures room { OnOk result
            ((inlinable_state N self.old).capacity ≤ (inlinable_state N self.new).capacity) }
        ensures policy { (inlinable_state N self.new).policy
            ≡ (inlinable_state N self.old).policy }

        // What was put in ends at a character boundary.
        ensures within { range.end ≤ size (inlinable_state N self.old).text }
        ensures behind { OnOk result (IsPlace (inlinable_state N self.new).text
            (range.start + length replace_with.now)) }
    {
        // `len` states the laws of the value.
        let _ = self.len();
        let (from, to) = (range.start, range.end);
        match self {
            InlinableStringN::Heap(text, _) => replace_on_heap(text, from, to, replace_with),
            InlinableStringN::Inline(text, _) => match text.replace_range(range, replace_with) {
                Ok(()) => Ok(()),
                Err(_) => self.promote_and_replace(from, to, replace_with),
            },
        }
    }

    /// Moves an inline text to the heap while replacing the bytes from `from` to `to` by `added`.
    /// Allocates once, exactly, before it changes anything. Out of line, to keep the inline path
    /// small.
    #[cold]
    #[inline(never)]
    fn promote_and_replace(&mut self, from: usize, to: usize, added: &str) -> Result<(), AllocError>
        requires inline { (inlinable_state N self.old).storage ≡ Storage.Inline }
        requires start { IsPlace (inlinable_state N self.old).text from }
        requires end { IsPlace (inlinable_state N self.old).text to }
        requires order { from ≤ to }
        ensures text { OnOk result (IsRangeReplaced (inlinable_state N self.old).text from to
            (chars added.now) (inlinable_state N self.new).text) }
        ensures bytes { OnOk result (bytes_of (inlinable_state N self.new).text
            ≡ replace_range (bytes_of (inlinable_state N self.old).text) from to added.now) }
        ensures storage { OnOk result ((inlinable_state N self.new).storage ≡ Storage.Heap) }
        ensures room { OnOk result (size (inlinable_state N self.old).text + length added.now
            ≤ (inlinable_state N self.new).capacity + (to - from)) }
        ensures err { OnErr result
            (IsSameText (inlinable_state N self.old) (inlinable_state N self.new)) }
    {
        let InlinableStringN::Inline(text, alloc) = self else {
            unreachable!();
        };
        let alloc = *alloc;
        let heap = replace_to_heap(alloc, text.as_str(), from, to, added)?;
        *self = InlinableStringN::Heap(heap, alloc);
        Ok(())
    }
}

/// `String::replace_range`, with a contract that speaks of characters.
#[inline(never)]
fn replace_on_heap(text: &mut String, from: usize, to: usize, added: &str) -> Result<(), AllocError>
    requires start { IsPlace (string_state text.old).text from }
    requires end { IsPlace (string_state text.old).text to }
    requires order { from ≤ to }
    ensures text { OnOk result (IsRangeReplaced (string_state text.old).text from to
        (chars added.now) (string_state text.new).text) }
    ensures bytes { OnOk result (bytes_of (string_state text.new).text
        ≡ replace_range (bytes_of (string_state text.old).text) from to added.now) }
    ensures err { OnErr result (IsSameText (string_state text.old) (string_state text.new)) }
    ensures granted { HasRoom (string_state text.old) (length added.now) → IsOk result }
    ensures room { OnOk result
        ((string_state text.old).capacity ≤ (string_state text.new).capacity) }
{
    text.replace_range(from..to, added)
}

/// Removes the bytes from `from` to `to` of a text on the heap, which keeps its capacity.
pub(super) fn remove_on_heap(text: &mut String, from: usize, to: usize)
    requires start { IsPlace (string_state text.old).text from }
    requires end { IsPlace (string_state text.old).text to }
    requires order { from ≤ to }
    ensures removed { IsRangeReplaced (string_state text.old).text from to []
        (string_state text.new).text }
    ensures bytes { bytes_of (string_state text.new).text
        ≡ remove_range (bytes_of (string_state text.old).text) from to }
    ensures room { (string_state text.old).capacity ≤ (string_state text.new).capacity }
{
    // `len` states the laws of the value.
    let _ = StringExt::len(text);
    let _ = replace_on_heap(text, from, to, "");
}

/// Returns the text with the bytes from `from` to `to` replaced by `added`, on the heap, with
/// capacity for no more. `AllocError` on capacity overflow.
fn replace_to_heap(
    alloc: Global,
    text: &str,
    from: usize,
    to: usize,
    added: &str,
) -> Result<String, AllocError>
    requires start { IsCharBoundary text.now from }
    requires end { IsCharBoundary text.now to }
    requires order { from ≤ to }
    ensures bytes { IfOk result
        (λ made. string_bytes made ≡ replace_range text.now from to added.now) }
    ensures room { IfOk result
        (λ made. length text.now + length added.now ≤ string_capacity made + (to - from)) }
{
    let Some(size) = (text.len() - (to - from)).checked_add(added.len()) else {
        return Err(AllocError);
    };
    let mut made = String::with_capacity(alloc, size)?;
    made.push_str(&text[..from])?;
    made.push_str(added)?;
    made.push_str(&text[to..])?;
    Ok(made)
}
