//! The requests of a store.
use super::Start::{Falling, Rising, Two};
use super::{Call, GREATEST, LEAST, SHORT, Start, UNKNOWN, assert_requests, assert_unseen};
use StoreCall::{Delete, DeleteMany, Get, Put, ScanAndRange};
use inline_uses::store::Store;
use std::alloc::{AllocError, Global};
use std::test::Fail;
use test_support::letters::LETTERS_31;

/// What is called.
#[derive(Clone, Copy)]
enum StoreCall {
    Put(&'static str, &'static str),
    Get,
    ScanAndRange,
    Delete,
    DeleteMany,
}

/// Keys of 100 numbers, from either side of the middle.
const DELETED: &[&str] = &["000001", "000049", "000050", "000098", "000000", "000099"];

impl Call for StoreCall {
    type Subject = Store;

    /// Each text is the value under itself.
    fn subject(alloc: Global, start: Start) -> Result<Store, AllocError> {
        let mut store = Store::new(alloc);
        for turn in 0..start.len() {
            let text = start.text(turn);
            store.put(text.as_str(), text.as_str())?;
        }
        Ok(store)
    }

    fn make(self, _: Global, store: &mut Store) -> Result<bool, AllocError> {
        let is_right = match self {
            Put(key, value) => {
                store.put(key, value)?;
                store.get(key) == Some(value)
            }
            Get => store.get(LETTERS_31) == Some(LETTERS_31) && store.get(UNKNOWN).is_none(),
            ScanAndRange => store.scan().len() == 2 && store.range(LETTERS_31, SHORT).len() == 1,
            Delete => store.delete(LETTERS_31) && store.delete(SHORT) && !store.delete(UNKNOWN),
            DeleteMany => are_deleted(store, DELETED),
        };
        Ok(is_right)
    }
}

/// Deletes these keys, and returns whether each was there.
fn are_deleted(store: &mut Store, keys: &[&str]) -> bool {
    keys.iter().all(|key| store.delete(key))
}

#[test]
fn the_first_key(rt: HostRuntime) -> Result<(), Fail> {
    assert_requests(&rt, Rising(0), 0, Put(GREATEST, SHORT), 1)
}

/// There is room for four.
#[test]
fn a_later_key(rt: HostRuntime) -> Result<(), Fail> {
    assert_requests(&rt, Rising(3), 1, Put(LEAST, SHORT), 0)
}

/// Both texts are on the heap, and there is no room for a fifth entry.
#[test]
fn a_long_fifth_key(rt: HostRuntime) -> Result<(), Fail> {
    assert_requests(&rt, Rising(4), 1, Put(LETTERS_31, LETTERS_31), 3)
}

#[test]
fn a_short_value_under_a_known_key(rt: HostRuntime) -> Result<(), Fail> {
    assert_requests(&rt, Rising(4), 1, Put("000002", SHORT), 0)
}

#[test]
fn a_long_value_under_a_known_key(rt: HostRuntime) -> Result<(), Fail> {
    assert_requests(&rt, Rising(4), 1, Put("000002", LETTERS_31), 1)
}

/// Room before 64 keys, of which there is none after five requests for room. Where it fails the key
/// requests room for itself.
#[test]
fn a_key_before_many(rt: HostRuntime) -> Result<(), Fail> {
    assert_unseen(&rt, Rising(64), 5, Put(LEAST, SHORT), (1, 1))
}

/// Room for a quarter of 120 keys, half of it before them, where there is room for eight. The key
/// does without.
#[test]
fn a_key_before_many_with_room_after_them(rt: HostRuntime) -> Result<(), Fail> {
    assert_unseen(&rt, Rising(120), 6, Put(LEAST, SHORT), (1, 1))
}

/// There is room before them since the last of them came.
#[test]
fn a_second_key_before_many(rt: HostRuntime) -> Result<(), Fail> {
    assert_requests(&rt, Falling(65), 6, Put(LEAST, SHORT), 0)
}

/// Two entries request room for entries, and for the long key and its value.
#[test]
fn get(rt: HostRuntime) -> Result<(), Fail> {
    assert_requests(&rt, Two, 3, Get, 0)
}

#[test]
fn scan_and_range(rt: HostRuntime) -> Result<(), Fail> {
    assert_requests(&rt, Two, 3, ScanAndRange, 0)
}

#[test]
fn delete(rt: HostRuntime) -> Result<(), Fail> {
    assert_requests(&rt, Two, 3, Delete, 0)
}

/// Entries move on either side of what is deleted. 100 keys requested room six times.
#[test]
fn delete_of_many(rt: HostRuntime) -> Result<(), Fail> {
    assert_requests(&rt, Rising(100), 6, DeleteMany, 0)
}
