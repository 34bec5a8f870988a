//! A map from texts, for many keys.
ghost use Rattle.std.specs.Prelude.{◌≡◌, ◌<◌, ◌^◌, ℕ, [], ◌∷◌, ◌++◌, length, map, option_copied, IfOk, IfSome, IfErr, OnOk, OnErr, IsOk, IsSome, IsTrue, ◌↔◌};
ghost use Rattle.std.specs.Map.{keys_of};
ghost use Rattle.std.specs.Option.{option_copied_mut};
ghost use Rattle.inline_uses.specs.Index.{IsIndex, ids_in};
ghost use Rattle.inline_uses.specs.Symbols.{text_at};
ghost use Rattle.inline_uses.specs.TextMap.{AreInOrder, AreMapped, AreOthers, IsFound, IsMissing, IsRenumbered, entries_between, entries_by, entry_of, value_of, with_value, without};

use crate::index::{Index, Spot, Texts};
use inlinable_string::laws::bytes_of_parts;
use inlinable_string::{InlinableString, StringExt};
pub use iter::Iter;
use std::alloc::{AllocError, AllocFailed, Global};
use std::marker::Model;
use std::mem::replace;

mod iter;
mod json;

/// Values under texts. A search takes a number of comparisons that is logarithmic in the number of
/// keys, whatever they are, since nothing is hashed, and allocates nothing. A new key moves the
/// numbers of at most 255 others; now and then it splits their run, which moves the runs after it.
/// A deletion moves one entry. A contract sees the list of the keys, each as its bytes, with their
/// values, in the order of the keys.
///
/// With some tens of keys or more this is faster than a [`Store`](crate::store::Store), whose
/// entries stand in one slice in the order of their keys.
#[derive(Drop)]
pub struct TextMap<V> {
    alloc: Global,
    entries: Vec<(InlinableString, V)>,
    order: Index,
}

impl<V> Model for TextMap<V> {
    ghost use Rattle.std.specs.Coded.{coded_list, coded×, coded_ℕ};
    ghost use Rattle.inline_uses.specs.TextMap.{Entries, entries_of, IsMapped};

    ghost Value = { Entries V };

    ghost coded = { coded_list (coded× (coded_list coded_ℕ) V.code) };

    ghost view = { entries_of };

    ghost invariant = { IsMapped };
}

#[tactic(auto, using(crate::proofs::Mapped::map_known))]
impl<V> TextMap<V> {
    ghost use Rattle.std.specs.Borrow.{sem};
    ghost use Rattle.inline_uses.specs.Lending.{LendsValue};

    /// Returns the map of no key.
    pub fn new(alloc: Global) -> Self
        ensures { result ≡ [] }
    {
        let entries = Vec::new(alloc);
        let order = Index::new(alloc);
        TextMap {
            alloc,
            entries,
            order,
        }
    }

    /// Returns the number of keys.
    pub fn len(&self) -> usize
        ensures count { result ≡ length self.now }
        ensures order { AreInOrder self.now }
    {
        self.entries.len()
    }

    /// Returns whether there is no key.
    pub fn is_empty(&self) -> bool
        ensures { IsTrue result ↔ (length self.now ≡ 0) }
    {
        self.len() == 0
    }

    /// Returns the keys with their values, in the order of the keys.
    pub fn iter(&self) -> Iter<'_, V>
        ensures all { result ≡ self.now }
        ensures order { AreInOrder self.now }
        ensures fits { length result < 2 ^ 64 }
    {
        Iter::new(
            &self.entries,
            &self.order,
            self.order.start(),
            self.order.end(),
        )
    }

    /// Returns the keys from `from` up to and not including `to` with their values, in the order of
    /// the keys: none if `to` is not after `from`.
    pub fn range(&self, from: &str, to: &str) -> Iter<'_, V>
        ensures between { result ≡ entries_between self.now from.now to.now }
        ensures order { AreInOrder self.now }
        ensures fits { length result < 2 ^ 64 }
    {
        let start = self.order.place_from(&self.entries, from);
        let end = self.order.place_from(&self.entries, to);
        Iter::new(&self.entries, &self.order, start, end)
    }

    /// Returns the value under a key, if it has one. Cannot fail, whatever the key's length.
    pub fn get(&self, key: &str) -> Option<&V>
        ensures { option_copied result ≡ value_of self.now key.now }
    {
        match search(&self.entries, &self.order, key) {
            Ok(id) => Some(&self.entries[id].1),
            Err(_) => None,
        }
    }

    /// Returns the value under a key to be changed, if it has one. Cannot fail, whatever the key's
    /// length.
    pub fn get_mut(&mut self, key: &str) -> Option<&mut V>
        ensures* writes_back { sem 𝓛 (LendsValue V.row self.entry key.now result) }
        ensures value { option_copied_mut result ≡ value_of self.old key.now }
    {
        match search(&self.entries, &self.order, key) {
            Ok(id) => Some(&mut self.entries[id].1),
            Err(_) => None,
        }
    }
}

impl<V: Drop> TextMap<V> {
    ghost use Rattle.std.specs.Borrow.{sem};
    ghost use Rattle.std.specs.Option.{unwrap_or};
    ghost use Rattle.inline_uses.specs.Lending.{LendsValueIfOk};

    /// Reserves memory for this many keys. Fails only if an allocation does; the map is unchanged
    /// in either case.
    fn reserve(&mut self, count: usize) -> Result<(), AllocError>
        ensures { self.new ≡ self.old }
    {
        self.entries.reserve(count)?;
        self.order.reserve(count)
    }

    /// Puts a value under a key, and returns the one that it had. Fails only if an allocation does,
    /// and never if the key has a value; the map is then unchanged, and the new value comes back.
    pub fn put(&mut self, key: &str, value: V) -> Result<Option<V>, AllocFailed<V>>
        ensures old { IfOk result (λ old. old ≡ value_of self.old key.now) }
        ensures ok { OnOk result (self.new ≡ with_value self.old key.now value) }
        ensures err { OnErr result (self.new ≡ self.old) }
        ensures known { IsSome (value_of self.old key.now) → IsOk result }
        ensures value_returned { IfErr result (λ failed. failed.value ≡ value) }
    {
        match search(&self.entries, &self.order, key) {
            Ok(id) => Ok(Some(replace(&mut self.entries[id].1, value))),
            Err(spot) => {
                let Self {
                    alloc,
                    entries,
                    order,
                } = self;
                insert(*alloc, entries, order, key, value, spot)?;
                Ok(None)
            }
        }
    }

    /// Puts a value under a key, soon if the key goes after all others. Fails only if an allocation
    /// does; the map is then unchanged.
    fn put_from_end(&mut self, key: &str, value: V) -> Result<(), AllocFailed<V>>
        ensures ok { OnOk result (self.new ≡ with_value self.old key.now value) }
        ensures err { OnErr result (self.new ≡ self.old) }
    {
        let Some(spot) = end_for(&self.entries, &self.order, key) else {
            drop(self.put(key, value)?);
            return Ok(());
        };
        let Self {
            alloc,
            entries,
            order,
        } = self;
        insert(*alloc, entries, order, key, value, spot)
    }

    /// Returns the value under a key to be changed. A key that has none gets this one first. Fails
    /// only if an allocation does, and never if the key has a value; the map is then unchanged, and
    /// the new value comes back.
    pub fn get_or_put(&mut self, key: &str, value: V) -> Result<&mut V, AllocFailed<V>>
        ensures* writes_back { sem 𝓛 (LendsValueIfOk V.row self.entry key.now result) }
        ensures value { IfOk result (λ r. r.now ≡ unwrap_or (value_of self.old key.now) value) }
        ensures known { IsSome (value_of self.old key.now) → IsOk result }
        ensures value_returned { IfErr result (λ failed. failed.value ≡ value) }
    {
        match search(&self.entries, &self.order, key) {
            Ok(id) => Ok(&mut self.entries[id].1),
            Err(spot) => {
                let id = self.entries.len();
                insert(
                    self.alloc,
                    &mut self.entries,
                    &mut self.order,
                    key,
                    value,
                    spot,
                )?;
                Ok(&mut self.entries[id].1)
            }
        }
    }

    /// Removes a key, and returns its value if it had one. Cannot fail.
    #[tactic(auto, using(crate::proofs::Deleted::number_within))]
    pub fn delete(&mut self, key: &str) -> Option<V>
        ensures left { self.new ≡ without self.old key.now }
        ensures value { result ≡ value_of self.old key.now }
    {
        let Ok(spot) = self.order.locate(&self.entries, key) else {
            return None;
        };
        let id = self.order.id(spot);
        self.order.remove(&self.entries, spot);
        rename_last(&mut self.order, &self.entries, id);
        let (_, value) = self.entries.swap_remove(id);
        Some(value)
    }
}

/// Returns the number of the entry of a key, or else where its number goes. Does not allocate.
#[inline]
fn search<V>(entries: &Vec<(InlinableString, V)>, order: &Index, key: &str) -> Result<usize, Spot>
    requires mapped { AreMapped (map entry_of entries.now.items) order.now }
    ensures within { IfOk result (λ id. id < length entries.now.items) }
    ensures found { IfOk result (λ id. (at : ℕ)
        × IsFound (map entry_of entries.now.items) order.now key.now at id) }
    ensures missing { IfErr result
        (IsMissing (map entry_of entries.now.items) order.now key.now) }
{
    order.find(entries, key)
}

/// Returns where the number of a key goes, if that is after all others.
fn end_for<V>(entries: &Vec<(InlinableString, V)>, order: &Index, key: &str) -> Option<Spot>
    requires mapped { AreMapped (map entry_of entries.now.items) order.now }
    ensures { IfSome result (IsMissing (map entry_of entries.now.items) order.now key.now) }
{
    order.end_for(entries, key)
}

/// Inserts a key that has no entry, whose entry is then the last one. Fails only if an allocation
/// does; the entries are then unchanged, and the value comes back.
#[inline(always)]
fn insert<V>(
    alloc: Global,
    entries: &mut Vec<(InlinableString, V)>,
    order: &mut Index,
    key: &str,
    value: V,
    spot: Spot,
) -> Result<(), AllocFailed<V>>
    requires mapped { AreMapped (map entry_of entries.old.items) order.old }
    requires missing { IsMissing (map entry_of entries.old.items) order.old key.now spot }
    ensures mapped { AreMapped (map entry_of entries.new.items) order.new }
    ensures entry { OnOk result (map entry_of entries.new.items
        ≡ map entry_of entries.old.items ++ (key.now, value) ∷ []) }
    ensures ok { OnOk result (entries_by (map entry_of entries.new.items) order.new
        ≡ with_value (entries_by (map entry_of entries.old.items) order.old) key.now value) }
    ensures err { OnErr result (entries_by (map entry_of entries.new.items) order.new
        ≡ entries_by (map entry_of entries.old.items) order.old) }
    ensures value_returned { IfErr result (λ failed. failed.value ≡ value) }
{
    bytes_of_parts();
    let Ok(key) = InlinableString::from(alloc, key) else {
        return Err(AllocFailed { value });
    };
    let id = entries.len();
    if let Err(failed) = entries.push((key, value)) {
        let (_, value) = failed.value;
        return Err(AllocFailed { value });
    }
    match order.insert(entries, spot, id) {
        Ok(()) => Ok(()),
        Err(_) => {
            let (_, value) = entries.swap_remove(id);
            Err(AllocFailed { value })
        }
    }
}

/// Gives the number of an entry, which is in the index no longer, to the last entry, which is to
/// take its place.
fn rename_last<V>(order: &mut Index, entries: &Vec<(InlinableString, V)>, id: usize)
    requires within { id < length entries.now.items }
    requires others { AreOthers (length entries.now.items) id (ids_in order.old) }
    requires index { IsIndex (text_at (keys_of (map entry_of entries.now.items))) order.old }
    ensures { IsRenumbered (map entry_of entries.now.items) id order.old order.new }
{
    let last = entries.len() - 1;
    if id == last {
        return;
    }
    if let Ok(moved) = order.locate(entries, entries.text(last)) {
        order.rename(moved, id);
    }
}

/// The keys by the numbers of their entries. A number that has none is given the empty text.
impl<V> Texts for Vec<(InlinableString, V)> {
    ghost use Rattle.std.specs.Prelude.{map};
    ghost use Rattle.std.specs.Map.{keys_of};
    ghost use Rattle.inline_uses.specs.Symbols.{text_at};
    ghost use Rattle.inline_uses.specs.TextMap.{entry_of};

    ghost text_of = { λ entries id. text_at (keys_of (map entry_of entries.items)) id };

    fn text(&self, id: usize) -> &str {
        match self.get(id) {
            Some(entry) => entry.0.as_str(),
            None => "",
        }
    }
}
