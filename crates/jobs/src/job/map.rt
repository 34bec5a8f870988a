//! The same as the store's job over a map, whose digest is the same.
use super::task::Task;
use crate::digest::Digest;
use crate::input::names::Names;
use inlinable_string::{InlinableString, StringExt};
use inline_uses::text_map::TextMap;
use std::alloc::AllocError;

/// The digest of what is found, and of the bytes. An input is `size` keys.
pub fn digest_of(task: &Task) -> Option<u64> {
    let mut digest = Digest::new();
    for input in 0..task.inputs {
        let names = Names::new(task.seed, input);
        let map = filled(task, &names, &mut digest).ok()?;
        add_found(task, &names, &map, &mut digest).ok()?;
        let bytes = map.to_bytes().ok()?;
        digest.add_text(std::str::from_utf8(&bytes).ok()?);
        let read = TextMap::from_bytes(task.alloc, &bytes).ok()?;
        add_entries(&read, &mut digest);
    }
    Some(digest.value())
}

/// The map of the keys, of which one in eight is deleted and one in four gets another value.
fn filled(
    task: &Task,
    names: &Names,
    digest: &mut Digest,
) -> Result<TextMap<InlinableString>, AllocError> {
    let mut map = TextMap::new(task.alloc);
    let mut key = String::new(task.alloc);
    let mut value = String::new(task.alloc);
    for number in 0..task.size {
        names.write(number as u64, &mut key)?;
        names.write_value(number as u64, &mut value)?;
        drop(map.put(&key, InlinableString::from(task.alloc, &value)?)?);
        if number % 8 == 7 {
            names.write((number / 2) as u64, &mut key)?;
            digest.add(usize::from(map.delete(&key).is_some()));
        }
        if number % 4 == 3 {
            names.write((number / 3) as u64, &mut key)?;
            drop(map.put(&key, InlinableString::from(task.alloc, "another")?)?);
        }
    }
    Ok(map)
}

/// Looks for keys, of which some are there, and for the keys between two.
fn add_found(
    task: &Task,
    names: &Names,
    map: &TextMap<InlinableString>,
    digest: &mut Digest,
) -> Result<(), AllocError> {
    let mut key = String::new(task.alloc);
    let mut end = String::new(task.alloc);
    for number in 0..task.size {
        names.write((number as u64).wrapping_mul(2), &mut key)?;
        digest.add_found_text(text_of(map.get(&key)));
        if number % 16 == 0 {
            names.write((number as u64).wrapping_add(1), &mut end)?;
            digest.add(map.range(&key, &end).len());
        }
    }
    Ok(())
}

fn text_of(value: Option<&InlinableString>) -> Option<&str> {
    let value = value?;
    Some(value.as_str())
}

fn add_entries(map: &TextMap<InlinableString>, digest: &mut Digest) {
    for (key, value) in map.iter() {
        digest.add_text(key.as_str());
        digest.add_text(value.as_str());
    }
}
