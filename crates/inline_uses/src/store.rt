//! A store of texts under texts, in the order of their keys.
ghost use Rattle.std.specs.Prelude.{◌≡◌, ℕ, ◌<◌, ◌≤◌, true, false, [], Some, length, map, slice_get, slice_index_or, is_some, option_copied, IfOk, IfErr, OnOk, OnErr, IsOk, IsSome};
ghost use Rattle.std.specs.Map.{keys_of};
ghost use Rattle.std.specs.Ordering.{is_gt};
ghost use Rattle.inline_uses.specs.Symbols.{IsGap, key_order};
ghost use Rattle.inline_uses.specs.Store.{AreInOrder, entry_of, entries_between, value_of, with_value, without};

use inlinable_string::laws::bytes_of_parts;
use inlinable_string::{InlinableString, StringExt};
use std::alloc::{AllocError, Global};
use std::cmp::Ordering;
use std::marker::Model;
use window::Window;

pub mod json;
mod of_map;
mod window;

/// A key and its value.
pub type Entry = (InlinableString, InlinableString);

/// Texts under texts, in the order of their keys. A search takes a number of comparisons that is
/// logarithmic in the number of keys, and allocates nothing. Each text is stored once. An insertion
/// or a removal among 64 entries or more moves those on its shorter side, and among fewer those
/// after it; where that side has no room for an insertion, a pass over all entries makes it, for at
/// least an eighth of their number. A contract sees the list of the keys with their values, each as
/// its bytes.
///
/// For a hundred keys or more a [`TextMap`](crate::text_map::TextMap) is faster.
#[derive(Drop)]
pub struct Store {
    alloc: Global,
    entries: Window,
}

impl Model for Store {
    ghost use Rattle.inline_uses.specs.Store.{Entries, entries_of, AreInOrder};

    ghost Value = { Entries };

    ghost view = { entries_of };

    ghost invariant = { λ s. AreInOrder (entries_of s) };
}

impl Store {
    /// Returns the store of no key.
    #[tactic(auto, unfolding(crate::proofs::Names::IsStrictlySortedBy))]
    pub fn new(alloc: Global) -> Self
        ensures { result ≡ [] }
    {
        Store {
            alloc,
            entries: Window::new(alloc),
        }
    }

    /// Returns the number of keys.
    pub fn len(&self) -> usize
        ensures count { result ≡ length self.now }
        ensures order { AreInOrder self.now }
    {
        self.entries.len()
    }

    /// Returns the value under a key, if it has one. Cannot fail, whatever the key's length.
    pub fn get(&self, key: &str) -> Option<&str>
        ensures { option_copied result ≡ value_of self.now key.now }
    {
        match self.search(key) {
            Ok(at) => Some(self.entries.as_slice()[at].1.as_str()),
            Err(_) => None,
        }
    }

    /// Puts a value under a key, in place of the one that it had. Fails only if an allocation does,
    /// and never if the key has a value and the new one has at most 30 bytes; the store is then
    /// unchanged.
    pub fn put(&mut self, key: &str, value: &str) -> Result<(), AllocError>
        ensures ok { OnOk result (self.new ≡ with_value self.old key.now value.now) }
        ensures err { OnErr result (self.new ≡ self.old) }
        ensures short { IsSome (value_of self.old key.now) → length value.now ≤ 30 → IsOk result }
    {
        bytes_of_parts();
        let value = InlinableString::from(self.alloc, value)?;
        match self.search(key) {
            Ok(at) => self.entries.set_value(at, value),
            Err(at) => {
                let key = InlinableString::from(self.alloc, key)?;
                self.entries.insert(at, (key, value))?;
            }
        }
        Ok(())
    }

    /// Removes a key with its value, and returns whether it was there. Cannot fail.
    pub fn delete(&mut self, key: &str) -> bool
        ensures left { self.new ≡ without self.old key.now }
        ensures found { result ≡ is_some (value_of self.old key.now) }
    {
        match self.search(key) {
            Ok(at) => {
                self.entries.remove(at);
                true
            }
            Err(_) => false,
        }
    }

    /// Returns the keys with their values, in the order of the keys.
    pub fn scan(&self) -> &[Entry]
        ensures all { map entry_of result.now ≡ self.now }
        ensures order { AreInOrder self.now }
    {
        self.entries.as_slice()
    }

    /// Returns the keys from `from` up to and not including `to` with their values, in the order of
    /// the keys: none if `to` is not after `from`.
    pub fn range(&self, from: &str, to: &str) -> &[Entry]
        ensures between { map entry_of result.now ≡ entries_between self.now from.now to.now }
        ensures order { AreInOrder self.now }
    {
        let start = self.first_from(from);
        let end = self.first_from(to).max(start);
        &self.entries.as_slice()[start..end]
    }

    /// The index of the first key that is not below this one.
    fn first_from(&self, key: &str) -> usize
        ensures within { result ≤ length self.now }
        ensures below { (i : ℕ) → i < result
            → is_gt (key_order key.now (slice_index_or (keys_of self.now) i [])) ≡ true }
        ensures above { (i : ℕ) → result ≤ i → i < length self.now
            → is_gt (key_order key.now (slice_index_or (keys_of self.now) i [])) ≡ false }
    {
        match self.search(key) {
            Ok(at) => at,
            Err(at) => at,
        }
    }

    /// The index of a key, or the one at which it would be inserted.
    fn search(&self, key: &str) -> Result<usize, usize>
        ensures order { AreInOrder self.now }
        ensures found { IfOk result (λ at. slice_get (keys_of self.now) at ≡ Some key.now) }
        ensures gap { IfErr result (λ at. IsGap (keys_of self.now) key.now at) }
    {
        let entries = self.entries.as_slice();
        let mut start = 0;
        let mut end = entries.len();
        while start < end {
            let middle = start + (end - start) / 2;
            match compare(&entries[middle], key) {
                Ordering::Less => start = middle + 1,
                Ordering::Equal => return Ok(middle),
                Ordering::Greater => end = middle,
            }
        }
        Err(start)
    }
}

/// Returns how the key of an entry compares to another.
fn compare(entry: &Entry, key: &str) -> Ordering
    ensures { result ≡ key_order (entry_of entry.now).0 key.now }
{
    bytes_of_parts();
    entry.0.as_str().as_bytes().cmp(key.as_bytes())
}
