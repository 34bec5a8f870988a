//! Lemmas on a text as a `str`, and on what std's traits append to one or collect.
ghost use Rattle.std.specs.Prelude.{◌≡◌, ◌↔◌, ℕ, ◌+◌, ◌≤◌, List, ◌++◌, length};
ghost use Rattle.std.specs.Borrow.{Bor};
ghost use Rattle.std.specs.Str.{chars};
ghost use Rattle.std.specs.Str.Iter.{chars_rest};
ghost use Rattle.inlinable_string.specs.Text.{bytes_of, size};
ghost use Rattle.inlinable_string.specs.State.{storage_when_made};
ghost use Rattle.inlinable_string.specs.Joins.{text_of_strs, IsExtended};
ghost use Rattle.inlinable_string.specs.Values.{inlinable_policy, inlinable_state};
ghost use Rattle.inlinable_string.specs.declared.inlinable_string.InlinableStringN.{InlinableStringN};

use crate::inlinable_string::InlinableStringN;
use crate::inline_string::InlineStringN;
use std::convert::{AsSlice, AsStr};
use std::ops::{AddAssign, DerefStr};

/// The `str` and the bytes that a text lends are its own.
pub fn texts_lend_their_bytes<const N: usize>()
    ensures inline_deref { (s bytes : List ℕ) → ⟦<InlineStringN<N> as DerefStr>⟧.deref_gives s bytes
        → bytes ≡ bytes_of s }
    ensures inline_str { (s : List ℕ) → ⟦<InlineStringN<N> as AsStr>⟧.text s ≡ bytes_of s }
    ensures inline_slice { (s : List ℕ) → ⟦<InlineStringN<N> as AsSlice<u8>>⟧.items s ≡ bytes_of s }
    ensures deref { (s : InlinableStringN N) (bytes : List ℕ)
        → ⟦<InlinableStringN<N> as DerefStr>⟧.deref_gives s bytes
        → bytes ≡ bytes_of (inlinable_state N s).text }
    ensures slice { (s : InlinableStringN N) → ⟦<InlinableStringN<N> as AsSlice<u8>>⟧.items s
        ≡ bytes_of (inlinable_state N s).text }
{}

/// A `for` over a text in an array goes over its characters.
pub fn loops_go_over_the_text<'a, const N: usize>()
    ensures rest { (s : Bor (List ℕ)) (rest : _)
        → ⟦<&'a InlineStringN<N> as IntoIterator>⟧.into_iter_gives s rest
        → chars_rest rest ≡ bytes_of s.now }
{}

/// `+=` appends a string, and may be written if it fits.
pub fn strings_that_fit_are_added<'a, const N: usize>()
    ensures fits { (s : List ℕ) (added : Bor (List ℕ))
        → ⟦<InlineStringN<N> as AddAssign<&'a str>>⟧.can_add_assign s added
        ↔ (size s + length added.now ≤ N) }
    ensures text { (s : List ℕ) (added : Bor (List ℕ)) (t : List ℕ)
        → ⟦<InlineStringN<N> as AddAssign<&'a str>>⟧.add_assign_gives s added t
        → t ≡ s ++ chars added.now }
{}

/// `extend` and `collect` append the items that they took, in order; where the text is stored is
/// determined by its size.
pub fn items_are_joined<'a, const N: usize>()
    ensures chars_added { (s : InlinableStringN N) (items : List ℕ) (t : InlinableStringN N)
        → ⟦<InlinableStringN<N> as Extend<char>>⟧.extend_gives s items t
        → IsExtended (inlinable_state N s) items (inlinable_state N t) }
    ensures chars_collected { (items : List ℕ) (t : InlinableStringN N)
        → ⟦<InlinableStringN<N> as FromIterator<char>>⟧.from_iter_gives items t
        → ((inlinable_state N t).text ≡ items) × ((inlinable_state N t).storage
        ≡ storage_when_made (inlinable_policy N) (size items)) }
    ensures strs_added { (s : InlinableStringN N) (items : List (Bor (List ℕ)))
        (t : InlinableStringN N)
        → ⟦<InlinableStringN<N> as Extend<&'a str>>⟧.extend_gives s items t
        → IsExtended (inlinable_state N s) (text_of_strs items) (inlinable_state N t) }
    ensures strs_collected { (items : List (Bor (List ℕ))) (t : InlinableStringN N)
        → ⟦<InlinableStringN<N> as FromIterator<&'a str>>⟧.from_iter_gives items t
        → ((inlinable_state N t).text ≡ text_of_strs items) × ((inlinable_state N t).storage
        ≡ storage_when_made (inlinable_policy N) (size (text_of_strs items))) }
{}
