//! Lemmas on what goes by the text alone: equality, order, hashes and copies.
ghost use Rattle.std.specs.Prelude.{◌≡◌, ◌↔◌, ⊤, ℕ, List, IsTrue, true, Some};
ghost use Rattle.std.specs.Ordering.{nat_cmp};
ghost use Rattle.std.specs.Cmp.{IsTotalOrder};
ghost use Rattle.std.specs.Cmp.Lexicographic.{slice_cmp};
ghost use Rattle.std.specs.Hash as fed;
ghost use Rattle.std.specs.Str.{all_scalars};
ghost use Rattle.inlinable_string.specs.Text.{bytes_of};
ghost use Rattle.inlinable_string.specs.State.{IsLawful, IsSameText};
ghost use Rattle.inlinable_string.specs.Values.{inlinable_state};
ghost use Rattle.inlinable_string.specs.declared.inlinable_string.InlinableStringN.{InlinableStringN};

use crate::inlinable_string::InlinableStringN;
use crate::inline_string::InlineStringN;
use crate::string_ext::Storage;
use std::cmp::Ordering;
use std::hash::Hash;

/// Two texts are equal exactly if they have the same bytes, and so the same characters, whatever
/// their storage. `len` states that these are scalar values.
#[tactic(auto, using(crate::proofs::Compared::same_characters))]
pub fn equality_is_that_of_texts<const N: usize>()
    ensures inline_bytes { (s t : List ℕ) → IsTrue (⟦<InlineStringN<N> as PartialEq>⟧.eq s t)
        ↔ (bytes_of s ≡ bytes_of t) }
    ensures inline_characters { (s t : List ℕ) → all_scalars s ≡ true
        → IsTrue (⟦<InlineStringN<N> as PartialEq>⟧.eq s t) ↔ (s ≡ t) }
    ensures bytes { (s t : InlinableStringN N)
        → IsTrue (⟦<InlinableStringN<N> as PartialEq>⟧.eq s t)
        ↔ (bytes_of (inlinable_state N s).text ≡ bytes_of (inlinable_state N t).text) }
    ensures characters { (s t : InlinableStringN N) → IsLawful (inlinable_state N s)
        → IsTrue (⟦<InlinableStringN<N> as PartialEq>⟧.eq s t)
        ↔ ((inlinable_state N s).text ≡ (inlinable_state N t).text) }
{}

/// Texts are ordered by their bytes, a prefix before the whole, whatever their storage. The order
/// is total, and `Equal` exactly for the same bytes.
#[tactic(auto, using(crate::proofs::Compared::ordered))]
pub fn order_is_that_of_the_bytes<const N: usize>()
    ensures inline_value { (s t : List ℕ) → ⟦<InlineStringN<N> as Ord>⟧.cmp s t
        ≡ slice_cmp nat_cmp (bytes_of s) (bytes_of t) }
    ensures inline_partial { (s t : List ℕ) → ⟦<InlineStringN<N> as PartialOrd>⟧.partial_cmp s t
        ≡ Some (slice_cmp nat_cmp (bytes_of s) (bytes_of t)) }
    ensures inline_total { IsTotalOrder ⟦<InlineStringN<N> as Ord>⟧.cmp }
    ensures inline_equal { (s t : List ℕ) → (⟦<InlineStringN<N> as Ord>⟧.cmp s t ≡ Ordering.Equal)
        ↔ (bytes_of s ≡ bytes_of t) }
    ensures value { (s t : InlinableStringN N) → ⟦<InlinableStringN<N> as Ord>⟧.cmp s t
        ≡ slice_cmp nat_cmp
        (bytes_of (inlinable_state N s).text) (bytes_of (inlinable_state N t).text) }
    ensures partial { (s t : InlinableStringN N)
        → ⟦<InlinableStringN<N> as PartialOrd>⟧.partial_cmp s t ≡ Some (slice_cmp nat_cmp
        (bytes_of (inlinable_state N s).text) (bytes_of (inlinable_state N t).text)) }
    ensures total { IsTotalOrder ⟦<InlinableStringN<N> as Ord>⟧.cmp }
    ensures equal { (s t : InlinableStringN N)
        → (⟦<InlinableStringN<N> as Ord>⟧.cmp s t ≡ Ordering.Equal)
        ↔ (bytes_of (inlinable_state N s).text ≡ bytes_of (inlinable_state N t).text) }
{}

/// A text feeds a hasher what a `str` of its bytes does; so equal texts hash alike, whatever their
/// storage.
pub fn hashes_are_those_of_the_str<const N: usize>()
    ensures inline { (s : List ℕ) → ⟦<InlineStringN<N> as Hash>⟧.hash_input s
        ≡ fed.str (bytes_of s) }
    ensures any { (s : InlinableStringN N) → ⟦<InlinableStringN<N> as Hash>⟧.hash_input s
        ≡ fed.str (bytes_of (inlinable_state N s).text) }
    ensures alike { (s t : InlinableStringN N)
        → bytes_of (inlinable_state N s).text ≡ bytes_of (inlinable_state N t).text
        → ⟦<InlinableStringN<N> as Hash>⟧.hash_input s
        ≡ ⟦<InlinableStringN<N> as Hash>⟧.hash_input t }
{}

/// A copy has the text and the storage of the original. Copying an inline text cannot fail; copying
/// any other may.
pub fn copies_are_alike<const N: usize>()
    ensures inline { (s t : List ℕ) → ⟦<InlineStringN<N> as Clone>⟧.is_clone s t ↔ (t ≡ s) }
    ensures inline_granted { (s : List ℕ) → ⟦<InlineStringN<N> as Clone>⟧.is_infallible s }
    ensures any { (s t : InlinableStringN N) → ⟦<InlinableStringN<N> as Clone>⟧.is_clone s t
        ↔ IsSameText (inlinable_state N s) (inlinable_state N t) }
    ensures granted { (s : InlinableStringN N) → ⟦<InlinableStringN<N> as Clone>⟧.is_infallible s
        ↔ ((inlinable_state N s).storage ≡ Storage.Inline) }
{}
