//! The way of a text from the value to the heap: for a growth that passes the limit, a reservation
//! and a copy of a heap text.
//!
//! Each function allocates once, exactly, before it changes anything.
ghost use Rattle.std.specs.Prelude.{◌≡◌, ◌+◌, ◌≤◌, ◌++◌, [], ◌∷◌, length, IfOk, OnOk, OnErr};
ghost use Rattle.std.specs.List.{insert_slice};
ghost use Rattle.std.specs.Str.{chars, IsCharBoundary};
ghost use Rattle.std.specs.String.{string_bytes, string_capacity};
ghost use Rattle.inlinable_string.specs.Text.{size, IsPlace, IsSplice};
ghost use Rattle.inlinable_string.specs.State.{IsSameText};
ghost use Rattle.inlinable_string.specs.Values.{inlinable_state};

use super::InlinableStringN;
use crate::string_ext::Storage;
use std::alloc::{AllocError, Global};

impl<const N: usize> InlinableStringN<N> {
    /// Moves an inline text to the heap while inserting `added` at `idx`, with capacity for `spare`
    /// more bytes. Out of line, to keep the inline path small.
    #[cold]
    #[inline(never)]
    pub(super) fn promote_and_insert(
        &mut self,
        idx: usize,
        added: &str,
        spare: usize,
    ) -> Result<(), AllocError>
        requires inline { (inlinable_state N self.old).storage ≡ Storage.Inline }
        requires place { IsPlace (inlinable_state N self.old).text idx }
        ensures text { OnOk result (IsSplice (inlinable_state N self.old).text idx
            (chars added.now) (inlinable_state N self.new).text) }
        ensures len { OnOk result (size (inlinable_state N self.new).text
            ≡ size (inlinable_state N self.old).text + length added.now) }
        ensures storage { OnOk result ((inlinable_state N self.new).storage ≡ Storage.Heap) }
        ensures room { OnOk result
            (size (inlinable_state N self.old).text + length added.now + spare
            ≤ (inlinable_state N self.new).capacity) }
        ensures err { OnErr result
            (IsSameText (inlinable_state N self.old) (inlinable_state N self.new)) }
    {
        let InlinableStringN::Inline(text, alloc) = self else {
            unreachable!();
        };
        let alloc = *alloc;
        let heap = insert_to_heap(alloc, text.as_str(), idx, added, spare)?;
        *self = InlinableStringN::Heap(heap, alloc);
        Ok(())
    }

    /// Like `promote_and_insert` at the end, without splitting the text. Inlined, so that an empty
    /// text comes at once to what copies `added` alone.
    #[inline(always)]
    pub(super) fn promote_and_append(&mut self, added: &str) -> Result<(), AllocError>
        requires inline { (inlinable_state N self.old).storage ≡ Storage.Inline }
        ensures text { OnOk result ((inlinable_state N self.new).text
            ≡ (inlinable_state N self.old).text ++ chars added.now) }
        ensures len { OnOk result (size (inlinable_state N self.new).text
            ≡ size (inlinable_state N self.old).text + length added.now) }
        ensures storage { OnOk result ((inlinable_state N self.new).storage ≡ Storage.Heap) }
        ensures room { OnOk result
            (size (inlinable_state N self.old).text + length added.now
            ≤ (inlinable_state N self.new).capacity) }
        ensures err { OnErr result
            (IsSameText (inlinable_state N self.old) (inlinable_state N self.new)) }
    {
        let InlinableStringN::Inline(text, alloc) = self else {
            unreachable!();
        };
        let alloc = *alloc;
        if text.is_empty() {
            return self.become_copy(alloc, added);
        }
        self.promote_joined(added)
    }

    /// The same, of any text. Out of line, to keep the inline path small.
    #[cold]
    #[inline(never)]
    fn promote_joined(&mut self, added: &str) -> Result<(), AllocError>
        requires inline { (inlinable_state N self.old).storage ≡ Storage.Inline }
        ensures text { OnOk result ((inlinable_state N self.new).text
            ≡ (inlinable_state N self.old).text ++ chars added.now) }
        ensures len { OnOk result (size (inlinable_state N self.new).text
            ≡ size (inlinable_state N self.old).text + length added.now) }
        ensures storage { OnOk result ((inlinable_state N self.new).storage ≡ Storage.Heap) }
        ensures room { OnOk result
            (size (inlinable_state N self.old).text + length added.now
            ≤ (inlinable_state N self.new).capacity) }
        ensures err { OnErr result
            (IsSameText (inlinable_state N self.old) (inlinable_state N self.new)) }
    {
        let InlinableStringN::Inline(text, alloc) = self else {
            unreachable!();
        };
        let alloc = *alloc;
        let heap = concat_to_heap(alloc, text.as_str(), added)?;
        self.become_heap(alloc, heap);
        Ok(())
    }

    /// Becomes a copy of `string` on the heap. Out of line, so that few registers are saved.
    #[cold]
    #[inline(never)]
    fn become_copy(&mut self, alloc: Global, string: &str) -> Result<(), AllocError>
        ensures text { OnOk result ((inlinable_state N self.new).text ≡ chars string.now) }
        ensures storage { OnOk result ((inlinable_state N self.new).storage ≡ Storage.Heap) }
        ensures room { OnOk result (length string.now ≤ (inlinable_state N self.new).capacity) }
        ensures err { OnErr result
            (IsSameText (inlinable_state N self.old) (inlinable_state N self.new)) }
    {
        let heap = String::from_str(alloc, string)?;
        self.become_heap(alloc, heap);
        Ok(())
    }

    /// Becomes a heap text. Inlined, so that the bytes that such a text leaves unused are cleared
    /// where it is written.
    #[inline(always)]
    fn become_heap(&mut self, alloc: Global, heap: String)
        ensures text { (inlinable_state N self.new).text ≡ chars (string_bytes heap) }
        ensures capacity { (inlinable_state N self.new).capacity ≡ string_capacity heap }
        ensures storage { (inlinable_state N self.new).storage ≡ Storage.Heap }
    {
        *self = InlinableStringN::Heap(heap, alloc);
    }

    /// Like `promote_and_append`, of one character, without a second text to copy.
    #[inline(always)]
    pub(super) fn promote_and_push(&mut self, ch: char) -> Result<(), AllocError>
        requires inline { (inlinable_state N self.old).storage ≡ Storage.Inline }
        ensures text { OnOk result ((inlinable_state N self.new).text
            ≡ (inlinable_state N self.old).text ++ ch ∷ []) }
        ensures len { OnOk result (size (inlinable_state N self.new).text
            ≡ size (inlinable_state N self.old).text + size (ch ∷ [])) }
        ensures storage { OnOk result ((inlinable_state N self.new).storage ≡ Storage.Heap) }
        ensures room { OnOk result
            (size (inlinable_state N self.old).text + size (ch ∷ [])
            ≤ (inlinable_state N self.new).capacity) }
        ensures err { OnErr result
            (IsSameText (inlinable_state N self.old) (inlinable_state N self.new)) }
    {
        let InlinableStringN::Inline(text, alloc) = self else {
            unreachable!();
        };
        let alloc = *alloc;
        let mut heap = copy_to_heap(alloc, text.as_str(), ch.len_utf8())?;
        heap.push(ch)?;
        *self = InlinableStringN::Heap(heap, alloc);
        Ok(())
    }

    /// Copies a heap text, onto the heap. Out of line, to keep the copy of an inline text small.
    #[cold]
    #[inline(never)]
    pub(super) fn clone_heap(alloc: Global, text: &String) -> Result<Self, AllocError>
        ensures text { IfOk result
            (λ made. (inlinable_state N made).text ≡ chars (string_bytes text.now)) }
        ensures storage { IfOk result (λ made. (inlinable_state N made).storage ≡ Storage.Heap) }
    {
        let copy = text.clone()?;
        Ok(InlinableStringN::Heap(copy, alloc))
    }

    /// The same. Inlined, so that the place of what `clone_heap` returns is cleared in the branch
    /// that calls it, and not for an inline text too.
    #[inline(always)]
    pub(super) fn clone_heap_inlined(alloc: Global, text: &String) -> Result<Self, AllocError>
        ensures text { IfOk result
            (λ made. (inlinable_state N made).text ≡ chars (string_bytes text.now)) }
        ensures storage { IfOk result (λ made. (inlinable_state N made).storage ≡ Storage.Heap) }
    {
        Self::clone_heap(alloc, text)
    }
}

/// Concatenates both texts on the heap. `AllocError` on capacity overflow. Inlined, so that the
/// `String` does not come back through memory.
#[inline(always)]
fn concat_to_heap(alloc: Global, text: &str, added: &str) -> Result<String, AllocError>
    ensures bytes { IfOk result (λ made. string_bytes made ≡ text.now ++ added.now) }
    ensures room { IfOk result
        (λ made. length text.now + length added.now ≤ string_capacity made) }
{
    // No empty text comes here. With this case LLVM's code for the others is shorter.
    if text.is_empty() {
        return String::from_str(alloc, added);
    }
    let Some(size) = text.len().checked_add(added.len()) else {
        return Err(AllocError);
    };
    let mut made = String::with_capacity(alloc, size)?;
    made.push_str(text)?;
    made.push_str(added)?;
    Ok(made)
}

/// Copies the text to the heap, with capacity for `spare` more bytes. `AllocError` on capacity
/// overflow. Inlined, as `concat_to_heap`, which takes longer if it calls this.
#[inline(always)]
fn copy_to_heap(alloc: Global, text: &str, spare: usize) -> Result<String, AllocError>
    ensures bytes { IfOk result (λ made. string_bytes made ≡ text.now) }
    ensures room { IfOk result (λ made. length text.now + spare ≤ string_capacity made) }
{
    let Some(size) = text.len().checked_add(spare) else {
        return Err(AllocError);
    };
    let mut made = String::with_capacity(alloc, size)?;
    made.push_str(text)?;
    Ok(made)
}

/// Returns the text with `added` inserted at `idx`, on the heap, with capacity for `spare` more
/// bytes. `AllocError` on capacity overflow.
fn insert_to_heap(
    alloc: Global,
    text: &str,
    idx: usize,
    added: &str,
    spare: usize,
) -> Result<String, AllocError>
    requires { IsCharBoundary text.now idx }
    ensures bytes { IfOk result
        (λ made. string_bytes made ≡ insert_slice text.now idx added.now) }
    ensures room { IfOk result
        (λ made. length text.now + length added.now + spare ≤ string_capacity made) }
{
    let Some(size) = text.len().checked_add(added.len()) else {
        return Err(AllocError);
    };
    let Some(capacity) = size.checked_add(spare) else {
        return Err(AllocError);
    };
    let mut made = String::with_capacity(alloc, capacity)?;
    made.push_str(&text[..idx])?;
    made.push_str(added)?;
    made.push_str(&text[idx..])?;
    Ok(made)
}
