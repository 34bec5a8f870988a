//! Equality, order and hashes of a text in an array, which are those of its `str`: neither where
//! it starts nor the free bytes beside it are seen.
ghost use Rattle.std.specs.Prelude.{◌≡◌, ◌↔◌, IsTrue, Some, nat_eq, refl, true};
ghost use Rattle.std.specs.Char.{is_ascii};
ghost use Rattle.std.specs.Ordering.{nat_cmp};
ghost use Rattle.std.specs.Cmp.{on_equiv, on_total, on_po, on_per, partial_equiv_from_equiv};
ghost use Rattle.std.specs.Cmp.Lexicographic.{pointwise, slice_cmp, nat_list_eq_equiv, nat_list_cmp_total, texts_po, texts_ties};
ghost use Rattle.std.specs.Cmp.Rules.{hashing};
ghost use Rattle.std.specs.Hash as fed;
ghost use Rattle.std.specs.List.{list_all};
ghost use Rattle.std.specs.Str.{chars};
ghost use Rattle.std.proofs.Common.{rules};
ghost use Rattle.inlinable_string.specs.Text.{bytes_of};

use crate::inline_string::InlineStringN;
use std::cmp::Ordering;
use std::hash::{Hash, Hasher};

impl<const N: usize> InlineStringN<N> {
    /// Returns whether the text is `string`.
    pub fn eq_str(&self, string: &str) -> bool
        ensures bytes { IsTrue result ↔ (bytes_of self.now ≡ string.now) }
        ensures text { IsTrue result ↔ (self.now ≡ chars string.now) }
        ensures ascii { list_all is_ascii string.now ≡ true
            → (IsTrue result ↔ (self.now ≡ string.now)) }
    {
        self.as_str() == string
    }
}

impl<const N: usize> PartialEq for InlineStringN<N> {
    ghost eq = { λ s t. pointwise nat_eq (bytes_of s) (bytes_of t) };

    ghost laws = { on_per (λ s. bytes_of s) (partial_equiv_from_equiv nat_list_eq_equiv) };

    #[inline]
    fn eq(&self, other: &Self) -> bool {
        self.as_str() == other.as_str()
    }
}

impl<const N: usize> Eq for InlineStringN<N> {
    ghost laws = { on_equiv (λ s. bytes_of s) nat_list_eq_equiv };
}

impl<const N: usize> PartialOrd for InlineStringN<N> {
    ghost partial_cmp = { λ s t. Some (slice_cmp nat_cmp (bytes_of s) (bytes_of t)) };

    ghost laws = { on_po (λ s. bytes_of s) texts_po };

    fn partial_cmp(&self, other: &Self) -> Option<Ordering> {
        Some(self.cmp(other))
    }
}

/// By the bytes as numbers; a prefix comes before the whole.
impl<const N: usize> Ord for InlineStringN<N> {
    ghost cmp = { λ s t. slice_cmp nat_cmp (bytes_of s) (bytes_of t) };

    ghost total = { on_total (λ s. bytes_of s) nat_list_cmp_total };

    ghost matches_partial_cmp = { λ s t. refl };

    ghost matches_eq = { λ s t. texts_ties (bytes_of s) (bytes_of t) };

    fn cmp(&self, other: &Self) -> Ordering {
        self.as_str().cmp(other.as_str())
    }
}

impl<const N: usize> Hash for InlineStringN<N> {
    ghost hash_input = { λ s. fed.str (bytes_of s) };

    ghost respects_eq = { Prim.search (hashing, rules) };

    fn hash<H: Hasher>(&self, state: &mut H) {
        self.as_str().hash(state);
    }
}
