//! Equality, order and hashes, which are those of the text as a `str`, whatever its storage.
ghost use Rattle.std.specs.Prelude.{Some, nat_eq, refl};
ghost use Rattle.std.specs.Ordering.{nat_cmp};
ghost use Rattle.std.specs.Cmp.{on_equiv, on_total, on_po, on_per, partial_equiv_from_equiv};
ghost use Rattle.std.specs.Cmp.Lexicographic.{pointwise, slice_cmp, nat_list_eq_equiv, nat_list_cmp_total, texts_po, texts_ties};
ghost use Rattle.std.specs.Cmp.Rules.{hashing};
ghost use Rattle.std.specs.Hash as fed;
ghost use Rattle.std.proofs.Common.{rules};
ghost use Rattle.inlinable_string.specs.Text.{bytes_of};
ghost use Rattle.inlinable_string.specs.Values.{inlinable_state};

use crate::inlinable_string::InlinableStringN;
use crate::string_ext::StringExt;
use std::cmp::Ordering;
use std::hash::{Hash, Hasher};

impl<const N: usize> PartialEq for InlinableStringN<N> {
    ghost eq = { λ s t. pointwise nat_eq
        (bytes_of (inlinable_state N s).text) (bytes_of (inlinable_state N t).text) };

    ghost laws = { on_per (λ s. bytes_of (inlinable_state N s).text)
        (partial_equiv_from_equiv nat_list_eq_equiv) };

    #[inline]
    fn eq(&self, other: &Self) -> bool {
        self.as_str() == other.as_str()
    }
}

impl<const N: usize> Eq for InlinableStringN<N> {
    ghost laws = { on_equiv (λ s. bytes_of (inlinable_state N s).text) nat_list_eq_equiv };
}

impl<const N: usize> PartialOrd for InlinableStringN<N> {
    ghost partial_cmp = { λ s t. Some (slice_cmp nat_cmp
        (bytes_of (inlinable_state N s).text) (bytes_of (inlinable_state N t).text)) };

    ghost laws = { on_po (λ s. bytes_of (inlinable_state N s).text) texts_po };

    fn partial_cmp(&self, other: &Self) -> Option<Ordering> {
        Some(self.cmp(other))
    }
}

/// By the bytes as numbers; a prefix comes before the whole.
impl<const N: usize> Ord for InlinableStringN<N> {
    ghost cmp = { λ s t. slice_cmp nat_cmp
        (bytes_of (inlinable_state N s).text) (bytes_of (inlinable_state N t).text) };

    ghost total = { on_total (λ s. bytes_of (inlinable_state N s).text) nat_list_cmp_total };

    ghost matches_partial_cmp = { λ s t. refl };

    ghost matches_eq = { λ s t. texts_ties
        (bytes_of (inlinable_state N s).text) (bytes_of (inlinable_state N t).text) };

    fn cmp(&self, other: &Self) -> Ordering {
        self.as_str().cmp(other.as_str())
    }
}

impl<const N: usize> Hash for InlinableStringN<N> {
    ghost hash_input = { λ s. fed.str (bytes_of (inlinable_state N s).text) };

    ghost respects_eq = { Prim.search (hashing, rules) };

    fn hash<H: Hasher>(&self, state: &mut H) {
        self.as_str().hash(state);
    }
}
