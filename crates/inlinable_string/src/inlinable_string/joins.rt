//! Joining: another text, or the items of an iterator one by one, at the end of a text.
ghost use Rattle.std.specs.Prelude.{◌≡◌, ◌+◌, ◌≤◌, ◌<◌, ℕ, List, ◌++◌, length, true, OnOk, OnErr, IfOk, IfErr, IsOk, IsUtf8};
ghost use Rattle.std.specs.Char.{is_ascii};
ghost use Rattle.std.specs.Iterator.{IsFinite};
ghost use Rattle.std.specs.Iterator.Runs.{SomeRun, WholeRun, EachRunFrom};
ghost use Rattle.std.specs.List.{list_all};
ghost use Rattle.std.specs.Str.{chars};
ghost use Rattle.inlinable_string.specs.Text.{bytes_of, size};
ghost use Rattle.inlinable_string.specs.State.{IsSameText, HasRoom, HasInlineRoom, storage_with_room, storage_when_made};
ghost use Rattle.inlinable_string.specs.Joins.{text_of_chars, text_of_char_refs, text_of_strs, text_of_strs_with, IsExtended, IsRefusedLast};
ghost use Rattle.inlinable_string.specs.Values.{inlinable_policy, inlinable_state};

use crate::inlinable_string::InlinableStringN;
use crate::string_ext::{self, StringExt, StringMake};
use std::alloc::{AllocError, Global};

impl<const N: usize> InlinableStringN<N> {
    /// Returns the text with `other` appended. If the allocation fails, the text is returned, its
    /// storage unchanged; its capacity may be less.
    pub fn add(mut self, other: &str) -> Result<Self, Self>
        ensures text { IfOk result (λ joined. (inlinable_state N joined).text
            ≡ (inlinable_state N self.entry).text ++ chars other.now) }
        ensures bytes { IfOk result (λ joined. bytes_of (inlinable_state N joined).text
            ≡ bytes_of (inlinable_state N self.entry).text ++ other.now) }
        ensures ascii { list_all is_ascii other.now ≡ true → IfOk result (λ joined.
            (inlinable_state N joined).text ≡ (inlinable_state N self.entry).text ++ other.now) }
        ensures len { IfOk result (λ joined. size (inlinable_state N joined).text
            ≡ size (inlinable_state N self.entry).text + length other.now) }
        ensures storage { IfOk result (λ joined. (inlinable_state N joined).storage
            ≡ storage_with_room (inlinable_state N self.entry) (length other.now)) }
        ensures err { IfErr result
            (λ same. IsSameText (inlinable_state N self.entry) (inlinable_state N same)) }

        // What fits cannot fail, and the capacity does not shrink.
        ensures granted { HasRoom (inlinable_state N self.entry) (length other.now) → IsOk result }
        ensures inline_granted { HasInlineRoom (inlinable_state N self.entry) (length other.now)
            → IsOk result }
        ensures room { IfOk result (λ joined. (inlinable_state N self.entry).capacity
            ≤ (inlinable_state N joined).capacity) }
    {
        match self.push_str(other) {
            Ok(()) => Ok(self),
            Err(_) => Err(self),
        }
    }

    /// Appends the characters of an iterator that ends, one by one. Its `size_hint` is ignored.
    ///
    /// Fails only at a character that takes the text past the capacity it had at the call. The
    /// characters before it have been appended; it is lost.
    pub fn extend_chars<I: Iterator<Item = char>>(&mut self, items: I) -> Result<(), AllocError>
        requires can { I.can_next items }
        requires ends { IsFinite (I.remaining items) }
        ensures ok { OnOk result (WholeRun I.next_gives items (λ run. IsExtended
            (inlinable_state N self.old) run.items (inlinable_state N self.new))) }
        ensures err { OnErr result (SomeRun I.next_gives items (λ run. IsRefusedLast text_of_chars
            (inlinable_state N self.old) run.items (inlinable_state N self.new))) }

        // What fits cannot fail, and the capacity does not shrink.
        ensures granted { EachRunFrom I.next_gives items
            (λ run. HasRoom (inlinable_state N self.old) (size run.items)) → IsOk result }
        ensures room { OnOk result
            ((inlinable_state N self.old).capacity ≤ (inlinable_state N self.new).capacity) }
    {
        string_ext::extend_chars(self, items)
    }

    /// Appends the characters that the references of an iterator point to, as
    /// [`InlinableStringN::extend_chars`] does.
    pub fn extend_char_refs<'a, I: Iterator<Item = &'a char>>(
        &mut self,
        items: I,
    ) -> Result<(), AllocError>
        requires can { I.can_next items }
        requires ends { IsFinite (I.remaining items) }
        ensures ok { OnOk result (WholeRun I.next_gives items (λ run. IsExtended
            (inlinable_state N self.old) (text_of_char_refs run.items)
            (inlinable_state N self.new))) }
        ensures err { OnErr result (SomeRun I.next_gives items (λ run. IsRefusedLast
            text_of_char_refs (inlinable_state N self.old) run.items
            (inlinable_state N self.new))) }

        // What fits cannot fail, and the capacity does not shrink.
        ensures granted { EachRunFrom I.next_gives items (λ run.
            HasRoom (inlinable_state N self.old) (size (text_of_char_refs run.items)))
            → IsOk result }
        ensures room { OnOk result
            ((inlinable_state N self.old).capacity ≤ (inlinable_state N self.new).capacity) }
    {
        // `len` states the laws of the value.
        let _ = self.len();
        for ch in items {
            self.push(*ch)?;
        }
        Ok(())
    }

    /// Appends the strings of an iterator that ends, one by one. Its `size_hint` is ignored.
    ///
    /// Fails only at a string that takes the text past the capacity it had at the call. The strings
    /// before it have been appended, and nothing of it.
    pub fn extend_strs<'a, I: Iterator<Item = &'a str>>(
        &mut self,
        items: I,
    ) -> Result<(), AllocError>
        requires can { I.can_next items }
        requires ends { IsFinite (I.remaining items) }
        ensures ok { OnOk result (WholeRun I.next_gives items (λ run. IsExtended
            (inlinable_state N self.old) (text_of_strs run.items)
            (inlinable_state N self.new))) }
        ensures err { OnErr result (SomeRun I.next_gives items (λ run. IsRefusedLast text_of_strs
            (inlinable_state N self.old) run.items (inlinable_state N self.new))) }

        // What fits cannot fail, and the capacity does not shrink.
        ensures granted { EachRunFrom I.next_gives items (λ run.
            HasRoom (inlinable_state N self.old) (size (text_of_strs run.items)))
            → IsOk result }
        ensures room { OnOk result
            ((inlinable_state N self.old).capacity ≤ (inlinable_state N self.new).capacity) }
    {
        string_ext::extend_strs(self, items)
    }

    /// Collects the characters of an iterator that ends. The text is stored inline if it has at
    /// most `N` bytes; this fails only at a character that takes it past them.
    #[tactic(auto, using(crate::proofs::Text::parts))]
    pub fn from_chars<I: Iterator<Item = char>>(alloc: Global, items: I) -> Result<Self, AllocError>
        requires can { I.can_next items }
        requires ends { IsFinite (I.remaining items) }
        ensures text { IfOk result (λ made. WholeRun I.next_gives items
            (λ run. (inlinable_state N made).text ≡ run.items)) }
        ensures storage { IfOk result (λ made. (inlinable_state N made).storage
            ≡ storage_when_made (inlinable_policy N) (size (inlinable_state N made).text)) }
        ensures err { OnErr result (SomeRun I.next_gives items (λ run. N < size run.items)) }
        ensures granted { EachRunFrom I.next_gives items (λ run. size run.items ≤ N)
            → IsOk result }

        // The items of a `chars()` are the characters of its string.
        ensures characters { (bs cs : List ℕ) → IsUtf8 bs → bytes_of cs ≡ bs → cs ≡ chars bs }
    {
        let mut made = Self::new(alloc);
        made.extend_chars(items)?;
        Ok(made)
    }

    /// Concatenates the strings of an iterator that ends. The text is stored inline if it has at
    /// most `N` bytes; this fails only at a string that takes it past them.
    #[tactic(auto, using(crate::proofs::Text::ascii_chars))]
    pub fn from_strs<'a, I: Iterator<Item = &'a str>>(
        alloc: Global,
        items: I,
    ) -> Result<Self, AllocError>
        requires can { I.can_next items }
        requires ends { IsFinite (I.remaining items) }
        ensures text { IfOk result (λ made. WholeRun I.next_gives items
            (λ run. (inlinable_state N made).text ≡ text_of_strs run.items)) }
        ensures storage { IfOk result (λ made. (inlinable_state N made).storage
            ≡ storage_when_made (inlinable_policy N) (size (inlinable_state N made).text)) }
        ensures err { OnErr result (SomeRun I.next_gives items
            (λ run. N < size (text_of_strs run.items))) }
        ensures granted { EachRunFrom I.next_gives items
            (λ run. size (text_of_strs run.items) ≤ N) → IsOk result }

        // A literal of ASCII among the items is its own characters.
        ensures ascii { (bs : List ℕ) → list_all is_ascii bs ≡ true → chars bs ≡ bs }
    {
        let mut made = Self::new(alloc);
        made.extend_strs(items)?;
        Ok(made.copied_in_parts())
    }

    /// Concatenates the strings of an iterator that ends, with `separator` between each two. The
    /// text is stored inline if it has at most `N` bytes; this fails only at a string that takes it
    /// past them.
    #[tactic(auto, using(crate::proofs::Text::ascii_chars))]
    pub fn from_strs_with<'a, I: Iterator<Item = &'a str>>(
        alloc: Global,
        separator: &str,
        items: I,
    ) -> Result<Self, AllocError>
        requires can { I.can_next items }
        requires ends { IsFinite (I.remaining items) }
        ensures text { IfOk result (λ made. WholeRun I.next_gives items (λ run.
            (inlinable_state N made).text
            ≡ text_of_strs_with (chars separator.now) run.items)) }
        ensures storage { IfOk result (λ made. (inlinable_state N made).storage
            ≡ storage_when_made (inlinable_policy N) (size (inlinable_state N made).text)) }
        ensures err { OnErr result (SomeRun I.next_gives items
            (λ run. N < size (text_of_strs_with (chars separator.now) run.items))) }
        ensures granted { EachRunFrom I.next_gives items
            (λ run. size (text_of_strs_with (chars separator.now) run.items) ≤ N) → IsOk result }

        // A literal of ASCII, as the separator or among the items, is its own characters.
        ensures ascii { (bs : List ℕ) → list_all is_ascii bs ≡ true → chars bs ≡ bs }
    {
        let mut made = Self::new(alloc);
        // What comes before the next string.
        let mut before = "";
        for string in items {
            made.push_both(before, string)?;
            before = separator;
        }
        Ok(made)
    }

    /// Returns the text unchanged.
    ///
    /// The length of an inline text is written again, so that LLVM copies it by itself, from a
    /// register. Otherwise one read takes the length and what is beside it, and the processor waits
    /// until the last push has stored both.
    #[inline]
    fn copied_in_parts(self) -> Self
        ensures { result ≡ self.entry }
    {
        let mut text = self;
        if let InlinableStringN::Inline(inline, _) = &mut text {
            let len = inline.len();
            inline.truncate(len);
        }
        text
    }

    /// Appends `before` and then `string`. After an error `before` may have been appended.
    #[tactic(auto, using(crate::proofs::Text::sizes))]
    fn push_both(&mut self, before: &str, string: &str) -> Result<(), AllocError>
        ensures text { OnOk result ((inlinable_state N self.new).text
            ≡ (inlinable_state N self.old).text ++ (chars before.now ++ chars string.now)) }
        ensures storage { OnOk result ((inlinable_state N self.new).storage ≡ storage_with_room
            (inlinable_state N self.old) (size (chars before.now ++ chars string.now))) }

        // What fits cannot fail, and the capacity does not shrink.
        ensures granted { HasRoom (inlinable_state N self.old)
            (size (chars before.now ++ chars string.now)) → IsOk result }
        ensures room { OnOk result
            ((inlinable_state N self.old).capacity ≤ (inlinable_state N self.new).capacity) }
        ensures policy { (inlinable_state N self.new).policy ≡ (inlinable_state N self.old).policy }
    {
        self.push_str(before)?;
        self.push_str(string)
    }
}
