//! An array with a text in it, and its edits: which bytes they leave, and where the text starts.
ghost use Rattle.std.specs.Prelude.{◌≡◌, ◌+◌, ◌-◌, ◌≤◌, ◌<◌, ◌++◌, [], ◌∷◌, length, take, drop, replicate, OnOk, OnErr, MatchResult};
ghost use Rattle.std.specs.Bool.{OnTrue, OnFalse};
ghost use Rattle.std.specs.List.{insert_slice, remove_range, replace_range};
ghost use Rattle.inlinable_string.specs.Cells.{window_bytes, IsInside, start_with_more, start_with_less, start_after_insertion, start_after_removal};

use super::NotEnoughSpaceError;
use crate::cells::{insert_byte, insert_in, remove_in, write_at, write_front};

mod rows;

/// An array, and the part of it that is the text: the `len` bytes from `start` on, so that an edit
/// near the front moves few bytes.
// `Copy`, so that a copy of a text is one value. Field by field it is made on the stack first: the
// array in pieces that overlap, across which it is then read, and the processor waits for them.
// `len` comes second, as in std's `String`, so that an `InlinableStringN` has it in one place.
#[derive(Clone, Copy)]
pub(super) struct Window<const N: usize> {
    pub(super) start: usize,
    pub(super) len: usize,
    pub(super) bytes: [u8; N],
}

impl<const N: usize> Window<N> {
    /// Appends `byte` if there is room after the text. Else returns false and changes nothing.
    #[inline]
    pub(super) fn push_byte(&mut self, byte: u8) -> bool
        requires { IsInside self.old }
        ensures inside { IsInside self.new }
        ensures room { OnTrue result (self.old.start + self.old.len < N) }
        ensures start { self.new.start ≡ self.old.start }
        ensures len { OnTrue result (self.new.len ≡ self.old.len + 1) }
        ensures text { OnTrue result
            (window_bytes self.new ≡ window_bytes self.old ++ byte ∷ []) }
        ensures refused { OnFalse result (self.new ≡ self.old) }
    {
        let end = self.start + self.len;
        if end < N {
            // The length first: else LLVM joins this with a push onto the heap, by a jump.
            self.len += 1;
            self.bytes[end] = byte;
            return true;
        }
        false
    }

    /// Appends `added`. Fails, and changes nothing, exactly where the text would have more than `N`
    /// bytes.
    #[inline]
    pub(super) fn append(&mut self, added: &[u8]) -> Result<(), NotEnoughSpaceError>
        requires { IsInside self.old }
        ensures inside { IsInside self.new }
        ensures fits { MatchResult result
            (λ _. self.old.len + length added.now ≤ N)
            (λ _. N < self.old.len + length added.now) }
        ensures start { OnOk result (self.new.start
            ≡ start_after_insertion self.old self.old.len (length added.now)) }
        ensures len { OnOk result (self.new.len ≡ self.old.len + length added.now) }
        ensures text { OnOk result
            (window_bytes self.new ≡ window_bytes self.old ++ added.now) }
        ensures err { OnErr result (self.new ≡ self.old) }
    {
        let len = self.len;
        let end = self.start + len;
        // The usual case by itself, and first: there is room after the text, and nothing moves.
        if added.len() <= N - end {
            let new_len = len + added.len();
            write_at(&mut self.bytes[..], end, added);
            self.len = new_len;
            return Ok(());
        }
        if N - len < added.len() {
            return Err(NotEnoughSpaceError);
        }
        let start = insert_in(&mut self.bytes[..], self.start, len, len, added);
        self.start = start;
        self.len = len + added.len();
        Ok(())
    }

    /// Inserts `added` at byte `at` of the text. Fails, and changes nothing, exactly where the text
    /// would have more than `N` bytes.
    #[inline]
    pub(super) fn insert(&mut self, at: usize, added: &[u8]) -> Result<(), NotEnoughSpaceError>
        requires inside { IsInside self.old }
        requires place { at ≤ self.old.len }
        ensures inside { IsInside self.new }
        ensures fits { MatchResult result
            (λ _. self.old.len + length added.now ≤ N)
            (λ _. N < self.old.len + length added.now) }
        ensures start { OnOk result
            (self.new.start ≡ start_after_insertion self.old at (length added.now)) }
        ensures len { OnOk result (self.new.len ≡ self.old.len + length added.now) }
        ensures text { OnOk result
            (window_bytes self.new ≡ insert_slice (window_bytes self.old) at added.now) }
        ensures err { OnErr result (self.new ≡ self.old) }
    {
        let old_len = self.len;
        if N - old_len < added.len() {
            return Err(NotEnoughSpaceError);
        }
        let new_len = old_len + added.len();
        let start = insert_in(&mut self.bytes[..], self.start, old_len, at, added);
        self.start = start;
        self.len = new_len;
        Ok(())
    }

    /// [`Window::insert`] of one byte.
    #[inline]
    pub(super) fn insert_byte(&mut self, at: usize, byte: u8) -> Result<(), NotEnoughSpaceError>
        requires inside { IsInside self.old }
        requires place { at ≤ self.old.len }
        ensures inside { IsInside self.new }
        ensures fits { MatchResult result (λ _. self.old.len < N) (λ _. self.old.len ≡ N) }
        ensures start { OnOk result (self.new.start ≡ start_after_insertion self.old at 1) }
        ensures len { OnOk result (self.new.len ≡ self.old.len + 1) }
        ensures text { OnOk result
            (window_bytes self.new ≡ insert_slice (window_bytes self.old) at (byte ∷ [])) }
        ensures err { OnErr result (self.new ≡ self.old) }
    {
        let len = self.len;
        if len == N {
            return Err(NotEnoughSpaceError);
        }
        insert_byte(&mut self.bytes[..], &mut self.start, len, at, byte);
        self.len = len + 1;
        Ok(())
    }

    /// Removes the bytes `from..to` of the text.
    #[inline]
    pub(super) fn remove(&mut self, from: usize, to: usize)
        requires inside { IsInside self.old }
        requires order { from ≤ to }
        requires place { to ≤ self.old.len }
        ensures inside { IsInside self.new }
        ensures start { self.new.start ≡ start_after_removal self.old from to }
        ensures len { self.new.len ≡ self.old.len - (to - from) }
        ensures text { window_bytes self.new ≡ remove_range (window_bytes self.old) from to }
    {
        let len = self.len;
        let start = remove_in(&mut self.bytes[..], self.start, len, from, to);
        self.start = start;
        self.len = len - (to - from);
    }

    /// Replaces the bytes `from..to` of the text by `added`: removes them, and then inserts. Fails,
    /// and changes nothing, exactly where the text would have more than `N` bytes.
    #[inline]
    pub(super) fn replace(
        &mut self,
        from: usize,
        to: usize,
        added: &[u8],
    ) -> Result<(), NotEnoughSpaceError>
        requires inside { IsInside self.old }
        requires order { from ≤ to }
        requires place { to ≤ self.old.len }
        ensures inside { IsInside self.new }
        ensures fits { MatchResult result
            (λ _. self.old.len + length added.now ≤ N + (to - from))
            (λ _. N + (to - from) < self.old.len + length added.now) }
        ensures start { OnOk result (
            let left = self.old.len - (to - from) in
            let cut = start_after_removal self.old from to in
            self.new.start ≡ start_with_more cut (N - left - cut) left from (length added.now)) }
        ensures len { OnOk result
            (self.new.len + (to - from) ≡ self.old.len + length added.now) }
        ensures text { OnOk result (window_bytes self.new
            ≡ insert_slice (remove_range (window_bytes self.old) from to) from added.now) }
        ensures err { OnErr result (self.new ≡ self.old) }
    {
        let rest_len = self.len - (to - from);
        if N - rest_len < added.len() {
            return Err(NotEnoughSpaceError);
        }
        let cut = remove_in(&mut self.bytes[..], self.start, self.len, from, to);
        let start = insert_in(&mut self.bytes[..], cut, rest_len, from, added);
        self.start = start;
        self.len = rest_len + added.len();
        Ok(())
    }

    /// Keeps the first `new_len` bytes of the text.
    #[inline]
    pub(super) fn truncate(&mut self, new_len: usize)
        requires inside { IsInside self.old }
        requires place { new_len ≤ self.old.len }
        ensures inside { IsInside self.new }
        ensures start { self.new.start ≡ self.old.start }
        ensures len { self.new.len ≡ new_len }
        ensures text { window_bytes self.new ≡ take new_len (window_bytes self.old) }
    {
        self.len = new_len;
    }

    /// Removes the last `count` bytes of the text.
    #[inline]
    pub(super) fn drop_back(&mut self, count: usize)
        requires inside { IsInside self.old }
        requires place { count ≤ self.old.len }
        ensures inside { IsInside self.new }
        ensures start { self.new.start ≡ self.old.start }
        ensures len { self.new.len ≡ self.old.len - count }
        ensures text { window_bytes self.new
            ≡ take (self.old.len - count) (window_bytes self.old) }
    {
        self.len -= count;
    }

    /// Removes the first `count` bytes of the text. Moves none.
    #[inline]
    pub(super) fn drop_front(&mut self, count: usize)
        requires inside { IsInside self.old }
        requires place { count ≤ self.old.len }
        ensures inside { IsInside self.new }
        ensures start { self.new.start ≡ self.old.start + count }
        ensures len { self.new.len ≡ self.old.len - count }
        ensures text { window_bytes self.new ≡ drop count (window_bytes self.old) }
    {
        self.start += count;
        self.len -= count;
    }

    /// Empties the text.
    #[inline]
    pub(super) fn clear(&mut self)
        requires { IsInside self.old }
        ensures inside { IsInside self.new }
        ensures start { self.new.start ≡ self.old.start }
        ensures len { self.new.len ≡ 0 }
        ensures text { window_bytes self.new ≡ [] }
    {
        self.len = 0;
    }

    /// Overwrites the text with `bytes`, which must be as many.
    #[inline]
    pub(super) fn overwrite(&mut self, bytes: &[u8])
        requires inside { IsInside self.old }
        requires count { length bytes.now ≡ self.old.len }
        ensures inside { IsInside self.new }
        ensures start { self.new.start ≡ self.old.start }
        ensures len { self.new.len ≡ self.old.len }
        ensures text { window_bytes self.new ≡ bytes.now }
    {
        write_at(&mut self.bytes[..], self.start, bytes);
    }

    /// Returns the bytes of the text, and zeros after them.
    #[inline]
    pub(super) fn to_bytes(&self) -> [u8; N]
        requires { IsInside self.now }
        ensures { result ≡ window_bytes self.now ++ replicate (N - self.now.len) 0 }
    {
        let mut bytes = [0; N];
        let cells = &self.bytes[..];
        write_front(&mut bytes[..], &cells[self.start..self.start + self.len]);
        bytes
    }
}
