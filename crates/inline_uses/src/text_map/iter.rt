//! The iterator over the entries of a map.
ghost use Rattle.std.specs.Prelude.{◌≡◌, map};
ghost use Rattle.std.specs.Iterator.{YieldsFirstBy, YieldsLastBy, item_count};
ghost use Rattle.inline_uses.specs.Index.{IsPlace};
ghost use Rattle.inline_uses.specs.TextMap.{AreMapped, deref_entry, entries_in, entry_of};

use crate::index::{Index, Spot};
use inlinable_string::InlinableString;
use std::marker::Model;

/// Keys of a map with their values, in the order of the keys. A contract sees the list of those
/// that are left.
#[derive(Drop)]
pub struct Iter<'a, V> {
    entries: &'a Vec<(InlinableString, V)>,
    order: &'a Index,
    next: Spot,
    end: Spot,
}

impl<'a, V> Model for Iter<'a, V> {
    ghost use Rattle.std.specs.Prelude.{map};
    ghost use Rattle.std.specs.Coded.{coded_list, coded×, coded_ℕ};
    ghost use Rattle.inline_uses.specs.Index.{IsPlace};
    ghost use Rattle.inline_uses.specs.TextMap.{AreMapped, Entries, entries_in, entry_of};

    ghost Value = { Entries V };

    ghost coded = { coded_list (coded× (coded_list coded_ℕ) V.code) };

    ghost view = { λ a. entries_in (map entry_of a.entries.now.items) a.order.now a.next a.end };

    ghost invariant = { λ a. AreMapped (map entry_of a.entries.now.items) a.order.now
        × IsPlace a.order.now a.next × IsPlace a.order.now a.end };
}

impl<'a, V> Iter<'a, V> {
    /// Returns the iterator over the entries from one place up to another, in the order of the
    /// keys.
    pub(super) fn new(
        entries: &'a Vec<(InlinableString, V)>,
        order: &'a Index,
        next: Spot,
        end: Spot,
    ) -> Self
        requires mapped { AreMapped (map entry_of entries.now.items) order.now }
        requires next { IsPlace order.now next }
        requires end { IsPlace order.now end }
        ensures { result ≡ entries_in (map entry_of entries.now.items) order.now next end }
    {
        Iter {
            entries,
            order,
            next,
            end,
        }
    }
}

impl<'a, V> Iterator for Iter<'a, V> {
    type Item = (&'a InlinableString, &'a V);

    ghost next_gives = { YieldsFirstBy deref_entry (λ rest. rest) };

    ghost remaining = { item_count (λ rest. rest) };

    fn next(&mut self) -> Option<(&'a InlinableString, &'a V)> {
        let spot = self.order.first_in(self.next, self.end)?;
        self.next = self.order.after(spot);
        let entry = &self.entries[self.order.id(spot)];
        Some((&entry.0, &entry.1))
    }
}

impl<'a, V> DoubleEndedIterator for Iter<'a, V> {
    ghost next_back_gives = { YieldsLastBy deref_entry (λ rest. rest) };

    fn next_back(&mut self) -> Option<(&'a InlinableString, &'a V)> {
        let spot = self.order.last_in(self.next, self.end)?;
        self.end = spot;
        let entry = &self.entries[self.order.id(spot)];
        Some((&entry.0, &entry.1))
    }
}

/// The length is found by the runs of the index between both ends, without going over the entries.
impl<'a, V> ExactSizeIterator for Iter<'a, V> {
    fn len(&self) -> usize {
        self.order.count_between(self.next, self.end)
    }
}
