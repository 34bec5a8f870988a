//! Stores as bytes.
use inlinable_string::InlinableString;
use inline_uses::store::Store;
use inline_uses::store::json::{ReadError, copied};
use inline_uses::text_map::TextMap;
use std::alloc::{AllocError, Global};
use std::test::Fail;
use test_support::letters::LETTERS_31;

/// Keys with their values, and the JSON of the store that has them.
const ENTRIES: &[(&str, &str)] = &[("é\"", "\n€"), ("", ""), (LETTERS_31, LETTERS_31)];

const JSON: &str =
    r#"{"":"","aaaaaaaaaaaaaaaaaaaaaaaaaaaaaaa":"aaaaaaaaaaaaaaaaaaaaaaaaaaaaaaa","é\"":"\n€"}"#;

/// And so are those of the map that is read from them.
#[test]
fn a_store_and_its_copy_are_written_as_these_bytes(rt: HostRuntime) -> Result<(), Fail> {
    for (entries, json) in [(&ENTRIES[..0], "{}"), (ENTRIES, JSON)] {
        let bytes = copied(&store_of(rt.alloc(), entries)?)?.to_bytes()?;
        assert!(rt; bytes.as_slice() == json.as_bytes());
        assert!(rt; bytes_of_map(rt.alloc(), &bytes)?.as_slice() == json.as_bytes());
    }
    Ok(())
}

fn store_of(alloc: Global, entries: &[(&str, &str)]) -> Result<Store, AllocError> {
    let mut store = Store::new(alloc);
    for (key, value) in entries {
        store.put(key, value)?;
    }
    Ok(store)
}

/// The bytes of the map that is read from these.
fn bytes_of_map(alloc: Global, bytes: &[u8]) -> Result<Vec<u8>, ReadError> {
    let map: TextMap<InlinableString> = TextMap::from_bytes(alloc, bytes)?;
    Ok(map.to_bytes()?)
}

/// What is no JSON, or no object of strings.
const NONE: &[&[u8]] = &[
    b"[\"a\"]",
    b"{\"a\":\"one\",\"b\":[]}",
    b"{\"a\":\"one\"}x",
    b"{\"a\":\"\xff\"}",
];

/// Whether neither a store nor a map is read, and not for lack of memory.
fn is_no_store(alloc: Global, bytes: &[u8]) -> bool {
    matches!(Store::from_bytes(alloc, bytes), Err(ReadError::NotAStore))
        && matches!(TextMap::from_bytes(alloc, bytes), Err(ReadError::NotAStore))
}

#[test]
fn bytes_of_no_store_are_told_from_an_allocation_failure(rt: HostRuntime) {
    for bytes in NONE {
        assert!(rt; is_no_store(rt.alloc(), bytes));
    }
    for end in 0..JSON.len() {
        assert!(rt; is_no_store(rt.alloc(), &JSON.as_bytes()[..end]));
    }
}
