//! A program keeps values under keys that come in no order, and writes them to bytes and reads them
//! back.
use super::task::Task;
use crate::digest::Digest;
use crate::input::names::Names;
use inlinable_string::StringExt;
use inline_uses::store::Store;
use std::alloc::AllocError;

/// The digest of what is found, and of the bytes. An input is `size` keys.
pub fn digest_of(task: &Task) -> Option<u64> {
    let mut digest = Digest::new();
    for input in 0..task.inputs {
        let names = Names::new(task.seed, input);
        let store = filled(task, &names, &mut digest).ok()?;
        add_found(task, &names, &store, &mut digest).ok()?;
        let bytes = store.to_bytes().ok()?;
        digest.add_text(std::str::from_utf8(&bytes).ok()?);
        let read = Store::from_bytes(task.alloc, &bytes).ok()?;
        add_entries(&read, &mut digest);
    }
    Some(digest.value())
}

/// The store of the keys, of which one in eight is deleted and one in four gets another value.
fn filled(task: &Task, names: &Names, digest: &mut Digest) -> Result<Store, AllocError> {
    let mut store = Store::new(task.alloc);
    let mut key = String::new(task.alloc);
    let mut value = String::new(task.alloc);
    for number in 0..task.size {
        names.write(number as u64, &mut key)?;
        names.write_value(number as u64, &mut value)?;
        store.put(&key, &value)?;
        if number % 8 == 7 {
            names.write((number / 2) as u64, &mut key)?;
            digest.add(usize::from(store.delete(&key)));
        }
        if number % 4 == 3 {
            names.write((number / 3) as u64, &mut key)?;
            store.put(&key, "another")?;
        }
    }
    Ok(store)
}

/// Looks for keys, of which some are there, and for the keys between two.
fn add_found(
    task: &Task,
    names: &Names,
    store: &Store,
    digest: &mut Digest,
) -> Result<(), AllocError> {
    let mut key = String::new(task.alloc);
    let mut end = String::new(task.alloc);
    for number in 0..task.size {
        names.write((number as u64).wrapping_mul(2), &mut key)?;
        digest.add_found_text(store.get(&key));
        if number % 16 == 0 {
            names.write((number as u64).wrapping_add(1), &mut end)?;
            digest.add(store.range(&key, &end).len());
        }
    }
    Ok(())
}

fn add_entries(store: &Store, digest: &mut Digest) {
    for (key, value) in store.scan() {
        digest.add_text(key.as_str());
        digest.add_text(value.as_str());
    }
}
