//! The items of an iterator, one by one, at the end of a text in an array.
ghost use Rattle.std.specs.Prelude.{◌≡◌, ◌+◌, ◌≤◌, ◌<◌, ℕ, List, ◌++◌, [], ◌∷◌, true, OnOk, OnErr, IfOk, IsOk, MatchResult, IsUtf8};
ghost use Rattle.std.specs.Borrow.{Bor};
ghost use Rattle.std.specs.Char.{is_ascii};
ghost use Rattle.std.specs.Iterator.{IsFinite};
ghost use Rattle.std.specs.Iterator.Runs.{SomeRun, WholeRun, EachRunFrom};
ghost use Rattle.std.specs.List.{list_all};
ghost use Rattle.std.specs.Str.{chars};
ghost use Rattle.inlinable_string.specs.Text.{bytes_of, size};
ghost use Rattle.inlinable_string.specs.Joins.{text_of_strs, text_of_strs_with};

use super::{InlineStringN, NotEnoughSpaceError};
use crate::well_formed::utf8_param;

impl<const N: usize> InlineStringN<N> {
    /// Appends the characters of an iterator that ends, one by one.
    ///
    /// Fails at the first character that would take the text past `N` bytes. The characters before
    /// it have been appended; it is lost.
    pub fn extend_chars<I: Iterator<Item = char>>(
        &mut self,
        items: I,
    ) -> Result<(), NotEnoughSpaceError>
        requires can { I.can_next items }
        requires ends { IsFinite (I.remaining items) }
        ensures ok { OnOk result
            (WholeRun I.next_gives items (λ run. self.new ≡ self.old ++ run.items)) }
        ensures err { OnErr result (SomeRun I.next_gives items (λ run.
            (taken : List ℕ) × (refused : ℕ) × (run.items ≡ taken ++ refused ∷ [])
            × (self.new ≡ self.old ++ taken) × (N < size self.old + size run.items))) }
        ensures granted { EachRunFrom I.next_gives items
            (λ run. size self.old + size run.items ≤ N) → IsOk result }
    {
        for ch in items {
            self.push(ch)?;
        }
        Ok(())
    }

    /// Appends the strings of an iterator that ends, one by one.
    ///
    /// Fails at the first string that would take the text past `N` bytes. The strings before it
    /// have been appended, and nothing of it.
    pub fn extend_strs<'a, I: Iterator<Item = &'a str>>(
        &mut self,
        items: I,
    ) -> Result<(), NotEnoughSpaceError>
        requires can { I.can_next items }
        requires ends { IsFinite (I.remaining items) }
        ensures ok { OnOk result (WholeRun I.next_gives items
            (λ run. self.new ≡ self.old ++ text_of_strs run.items)) }
        ensures err { OnErr result (SomeRun I.next_gives items (λ run. (taken : List (Bor (List ℕ)))
            × (refused : Bor (List ℕ)) × (run.items ≡ taken ++ refused ∷ [])
            × (self.new ≡ self.old ++ text_of_strs taken)
            × (N < size self.old + size (text_of_strs run.items)))) }
        ensures granted { EachRunFrom I.next_gives items
            (λ run. size self.old + size (text_of_strs run.items) ≤ N) → IsOk result }
    {
        for string in items {
            self.push_str(utf8_param(string))?;
        }
        Ok(())
    }

    /// Collects the characters of an iterator that ends. Fails exactly if the text would have more
    /// than `N` bytes, at the first character that takes it past them.
    #[tactic(auto, using(crate::proofs::Text::parts))]
    pub fn from_chars<I: Iterator<Item = char>>(items: I) -> Result<Self, NotEnoughSpaceError>
        requires can { I.can_next items }
        requires ends { IsFinite (I.remaining items) }
        ensures text { IfOk result
            (λ made. WholeRun I.next_gives items (λ run. made ≡ run.items)) }
        ensures err { OnErr result (SomeRun I.next_gives items (λ run. N < size run.items)) }
        ensures granted { EachRunFrom I.next_gives items (λ run. size run.items ≤ N)
            → IsOk result }

        // The items of a `chars()` are the characters of its string.
        ensures characters { (bs cs : List ℕ) → IsUtf8 bs → bytes_of cs ≡ bs → cs ≡ chars bs }
    {
        let mut made = Self::new();
        made.extend_chars(items)?;
        Ok(made)
    }

    /// Concatenates the strings of an iterator that ends. Fails exactly if the text would have more
    /// than `N` bytes, at the first string that takes it past them.
    #[tactic(auto, using(crate::proofs::Text::ascii_chars))]
    pub fn from_strs<'a, I: Iterator<Item = &'a str>>(items: I) -> Result<Self, NotEnoughSpaceError>
        requires can { I.can_next items }
        requires ends { IsFinite (I.remaining items) }
        ensures text { IfOk result
            (λ made. WholeRun I.next_gives items (λ run. made ≡ text_of_strs run.items)) }
        ensures err { OnErr result (SomeRun I.next_gives items
            (λ run. N < size (text_of_strs run.items))) }
        ensures granted { EachRunFrom I.next_gives items
            (λ run. size (text_of_strs run.items) ≤ N) → IsOk result }

        // A literal of ASCII among the items is its own characters.
        ensures ascii { (bs : List ℕ) → list_all is_ascii bs ≡ true → chars bs ≡ bs }
    {
        let mut made = Self::new();
        made.extend_strs(items)?;
        Ok(made)
    }

    /// Concatenates the strings of an iterator that ends, with `separator` between each two. Fails
    /// exactly if the text would have more than `N` bytes, at the first string that takes it past
    /// them.
    #[tactic(auto, using(crate::proofs::Text::ascii_chars))]
    pub fn from_strs_with<'a, I: Iterator<Item = &'a str>>(
        separator: &str,
        items: I,
    ) -> Result<Self, NotEnoughSpaceError>
        requires can { I.can_next items }
        requires ends { IsFinite (I.remaining items) }
        ensures text { IfOk result (λ made. WholeRun I.next_gives items
            (λ run. made ≡ text_of_strs_with (chars separator.now) run.items)) }
        ensures err { OnErr result (SomeRun I.next_gives items
            (λ run. N < size (text_of_strs_with (chars separator.now) run.items))) }
        ensures granted { EachRunFrom I.next_gives items
            (λ run. size (text_of_strs_with (chars separator.now) run.items) ≤ N) → IsOk result }

        // A literal of ASCII, as the separator or among the items, is its own characters.
        ensures ascii { (bs : List ℕ) → list_all is_ascii bs ≡ true → chars bs ≡ bs }
    {
        let mut made = Self::new();
        // What comes before the next string.
        let mut before = "";
        for string in items {
            made.push_both(before, string)?;
            before = separator;
        }
        Ok(made)
    }

    /// Appends `before` and then `string`. Fails exactly where the result would have more than `N`
    /// bytes; then `before` may have been appended.
    #[tactic(auto, using(crate::proofs::Text::sizes))]
    fn push_both(&mut self, before: &str, string: &str) -> Result<(), NotEnoughSpaceError>
        ensures fits { MatchResult result
            (λ _. size self.old + size (chars before.now ++ chars string.now) ≤ N)
            (λ _. N < size self.old + size (chars before.now ++ chars string.now)) }
        ensures ok { OnOk result (self.new ≡ self.old ++ (chars before.now ++ chars string.now)) }
    {
        self.push_str(before)?;
        self.push_str(string)
    }
}
