//! Keys with the places that they are under, in the order of a tree's map.
ghost use Rattle.std.specs.Prelude.{◌≡◌, ◌+◌, ◌<◌, ◌^◌, Some, IfSome, refl};
ghost use Rattle.std.specs.Cmp.{eq_by_cmp_equiv, partial_equiv_from_equiv, partial_order_from_total};
ghost use Rattle.std.specs.Ordering.{eq_by_cmp};
ghost use Rattle.inline_uses.specs.Tree.{place_order};
ghost use Rattle.inline_uses.specs.PlacedKeys.{place_order_total};

use inlinable_string::InlineStringN;
use std::cmp::Ordering;
use std::marker::Model;

/// A key and the place that it is under. A contract sees the two.
#[derive(Drop)]
pub(crate) struct PlacedKey {
    // 0 for the top, and for a node one more than its number, so that one comparison orders places.
    place: usize,
    key: InlineStringN<16>,
}

impl Model for PlacedKey {
    ghost use Rattle.std.specs.Prelude.{ℕ, List, Option};
    ghost use Rattle.inline_uses.specs.PlacedKeys.{place_of};

    ghost Value = { Option ℕ × List ℕ };

    ghost view = { λ s. (place_of s.place, s.key) };
}

impl PlacedKey {
    /// The key under the place.
    #[inline]
    pub(crate) fn new(place: Option<usize>, key: InlineStringN<16>) -> Self
        requires { IfSome place (λ id. id + 1 < 2 ^ 64) }
        ensures { result ≡ (place, key) }
    {
        let place = match place {
            Some(id) => id + 1,
            None => 0,
        };
        PlacedKey { place, key }
    }

    /// The key alone.
    #[inline]
    pub(crate) fn key(&self) -> &InlineStringN<16>
        ensures { result.now ≡ self.now.1 }
    {
        &self.key
    }
}

impl PartialEq for PlacedKey {
    ghost eq = { eq_by_cmp place_order };

    ghost laws = { partial_equiv_from_equiv (eq_by_cmp_equiv place_order_total) };

    fn eq(&self, other: &Self) -> bool {
        self.cmp(other).is_eq()
    }
}

impl Eq for PlacedKey {
    ghost laws = { eq_by_cmp_equiv place_order_total };
}

impl PartialOrd for PlacedKey {
    ghost partial_cmp = { λ a b. Some (place_order a b) };

    ghost laws = { partial_order_from_total place_order_total };

    fn partial_cmp(&self, other: &Self) -> Option<Ordering> {
        Some(self.cmp(other))
    }
}

/// By the places as numbers, of which the top is the least, and then by the keys.
impl Ord for PlacedKey {
    ghost cmp = { place_order };

    ghost total = { place_order_total };

    ghost matches_partial_cmp = { λ a b. refl };

    ghost matches_eq = { λ a b. refl };

    #[inline]
    fn cmp(&self, other: &Self) -> Ordering {
        if self.place == other.place {
            return self.key.cmp(&other.key);
        }
        if self.place < other.place {
            Ordering::Less
        } else {
            Ordering::Greater
        }
    }
}
