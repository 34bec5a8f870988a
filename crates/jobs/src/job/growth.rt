//! A table gets keys in no order, no two the same. Each is looked for, and two that are not there
//! for each. `bench/growth` times this at many sizes.
use super::task::Task;
use crate::digest::Digest;
use crate::input::drawn::Drawn;
use crate::input::names::Names;
use inlinable_string::{InlinableString, StringExt};
use inline_uses::store::Store;
use inline_uses::symbols::Symbols;
use inline_uses::text_map::TextMap;
use std::alloc::{AllocError, Global};

/// What keys are put into.
pub trait Table: Drop {
    fn empty(alloc: Global) -> Self;

    /// Puts in a key that is new, with a value if the table has values.
    fn put(
        &mut self,
        alloc: Global,
        key: &str,
        value: &str,
        digest: &mut Digest,
    ) -> Result<(), AllocError>;

    /// Adds what is found under a key.
    fn add_found(&self, key: &str, digest: &mut Digest);
}

/// A table that keeps nothing: what it costs to draw the keys and the values.
#[derive(Drop)]
pub struct Nothing;

/// The digest of what is found. An input is `size` keys.
pub fn digest_of<T: Table>(task: &Task) -> Option<u64> {
    let mut digest = Digest::new();
    for input in 0..task.inputs {
        let names = Names::new(task.seed, input);
        let table: T = filled(task, &names, &mut digest).ok()?;
        add_all_found(task, &names, &table, &mut digest).ok()?;
    }
    Some(digest.value())
}

fn filled<T: Table>(task: &Task, names: &Names, digest: &mut Digest) -> Result<T, AllocError> {
    let mut table = T::empty(task.alloc);
    let mut key = String::new(task.alloc);
    let mut value = String::new(task.alloc);
    for number in 0..task.size as u64 {
        names.write_distinct(number, &mut key)?;
        names.write_value(number, &mut value)?;
        table.put(task.alloc, &key, &value, digest)?;
    }
    Ok(table)
}

/// Looks for each key, in another order than they came in, and for twice that number of keys that
/// are not there.
fn add_all_found<T: Table>(
    task: &Task,
    names: &Names,
    table: &T,
    digest: &mut Digest,
) -> Result<(), AllocError> {
    let size = task.size as u64;
    let mut key = String::new(task.alloc);
    let drawn = Drawn::new(task.seed, size);
    for place in 0..=drawn.last {
        if let Some(number) = drawn.at(place) {
            names.write_distinct(number, &mut key)?;
            table.add_found(&key, digest);
        }
    }
    for number in size..size.saturating_mul(3) {
        names.write_distinct(number, &mut key)?;
        table.add_found(&key, digest);
    }
    Ok(())
}

impl Table for Nothing {
    fn empty(_: Global) -> Self {
        Nothing
    }

    fn put(
        &mut self,
        _: Global,
        key: &str,
        value: &str,
        digest: &mut Digest,
    ) -> Result<(), AllocError> {
        digest.add(key.len());
        digest.add(value.len());
        Ok(())
    }

    fn add_found(&self, key: &str, digest: &mut Digest) {
        digest.add(key.len());
    }
}

impl Table for Symbols {
    fn empty(alloc: Global) -> Self {
        Symbols::new(alloc)
    }

    fn put(
        &mut self,
        _: Global,
        key: &str,
        _: &str,
        digest: &mut Digest,
    ) -> Result<(), AllocError> {
        digest.add(self.intern(key)?);
        Ok(())
    }

    fn add_found(&self, key: &str, digest: &mut Digest) {
        digest.add_found(self.find(key));
    }
}

impl Table for Store {
    fn empty(alloc: Global) -> Self {
        Store::new(alloc)
    }

    fn put(&mut self, _: Global, key: &str, value: &str, _: &mut Digest) -> Result<(), AllocError> {
        Store::put(self, key, value)
    }

    fn add_found(&self, key: &str, digest: &mut Digest) {
        digest.add_found_text(self.get(key));
    }
}

impl Table for TextMap<InlinableString> {
    fn empty(alloc: Global) -> Self {
        TextMap::new(alloc)
    }

    fn put(
        &mut self,
        alloc: Global,
        key: &str,
        value: &str,
        _: &mut Digest,
    ) -> Result<(), AllocError> {
        let value = InlinableString::from(alloc, value)?;
        drop(TextMap::put(self, key, value)?);
        Ok(())
    }

    fn add_found(&self, key: &str, digest: &mut Digest) {
        match self.get(key) {
            Some(value) => digest.add_found_text(Some(value.as_str())),
            None => digest.add_found_text(None),
        }
    }
}
