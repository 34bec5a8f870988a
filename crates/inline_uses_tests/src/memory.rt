//! How much memory is enough: for many or long texts what there is, for a few a little, and none
//! where there is room. And how much memory a store keeps.
use crate::names::name;
use inline_uses::store::Store;
use inline_uses::symbols::Symbols;
use inline_uses::text_map::TextMap;
use inline_uses::tree::Tree;
use serde_json::{Map, Value};
use std::alloc::{AllocError, Global};
use std::process::Abort;
use std::test::Fail;
use test_support::{Hoard, NEEDS_THE_PROVED_BUILD};

/// Gives ids to the texts of these numbers. The first that gets none.
fn first_refused(symbols: &mut Symbols, from: usize, to: usize) -> Option<usize> {
    (from..to).find(|number| symbols.intern(name(*number).as_str()).is_err())
}

/// Puts the empty text under the keys of these numbers, and deletes the key that came `most` before
/// each. The first that is not put.
fn first_not_put(store: &mut Store, from: usize, to: usize, most: usize) -> Option<usize> {
    for number in from..to {
        if store.put(name(number).as_str(), "").is_err() {
            return Some(number);
        }
        if most <= number {
            store.delete(name(number - most).as_str());
        }
    }
    None
}

#[test]
fn many_texts_get_ids(rt: HostRuntime) {
    let mut symbols = Symbols::new(rt.alloc());
    let refused = first_refused(&mut symbols, 0, 100_000);
    assert!(rt; refused.is_none(), "{refused:?} refused");
}

/// Each is below all before it.
#[test]
fn many_texts_that_fall_get_ids_within_the_time_of_a_test(rt: HostRuntime) -> Result<(), Fail> {
    let mut symbols = Symbols::new(rt.alloc());
    for turn in 0..20_000usize {
        symbols.intern(name(19_999 - turn).as_str())?;
    }
    assert!(rt; symbols.len() == 20_000);
    Ok(())
}

#[test]
fn many_keys_are_put(rt: HostRuntime) {
    let mut store = Store::new(rt.alloc());
    let refused = first_not_put(&mut store, 0, 20_000, usize::MAX);
    assert!(rt; refused.is_none(), "{refused:?} refused");
}

/// The length of a long text.
const LONG: usize = 300;

#[test]
fn a_long_text_gets_an_id_and_a_value(rt: HostRuntime) -> Result<(), Fail> {
    let alloc = rt.alloc();
    let (mut symbols, mut map) = (Symbols::new(alloc), TextMap::new(alloc));
    for bytes in [LONG, 100_000] {
        let long = "a".repeat(alloc, bytes)?;
        let are_put = [symbols.intern(&long).is_ok(), map.put(&long, 0).is_ok()];
        assert!(rt; are_put == [true; 2], "{are_put:?} refused");
    }
    Ok(())
}

#[test]
fn a_long_value_is_put_under_a_long_key(rt: HostRuntime) -> Result<(), Fail> {
    let (long, mut store) = ("a".repeat(rt.alloc(), LONG)?, Store::new(rt.alloc()));
    let is_put = store.put(&long, &long).is_ok();
    assert!(rt; is_put, "refused");
    Ok(())
}

/// There is capacity for 1,024 texts, since it is doubled, and the last run has 232 ids and
/// capacity for 256.
#[test]
fn room_is_doubled(rt: HostRuntime) {
    let mut symbols = Symbols::new(rt.alloc());
    assert!(rt; first_refused(&mut symbols, 0, 1000).is_none());
    let hoard = Hoard::take(rt.alloc()).expect(&rt, NEEDS_THE_PROVED_BUILD);
    let refused = first_refused(&mut symbols, 1000, 2000);
    drop(hoard);
    assert!(rt; refused == Some(1024), "the first refused is {refused:?}");
}

/// Whether a new text gets an id after others, while all memory but these bytes is held.
fn is_enough(rt: &(impl Abort + AllocGlobal), texts: usize, bytes: usize) -> Result<bool, Fail> {
    let alloc = rt.alloc();
    let mut symbols = Symbols::new(alloc);
    assert!(rt; first_refused(&mut symbols, 0, texts).is_none());
    let spare: Vec<u8> = Vec::with_capacity(alloc, bytes)?;
    let hoard = Hoard::take(alloc).expect(rt, NEEDS_THE_PROVED_BUILD);
    drop(spare);
    let is_enough = symbols.intern("new").is_ok();
    drop(hoard);
    Ok(is_enough)
}

/// Room for four texts, and for an index of four.
#[test]
fn two_kib_are_enough_for_the_first_text(rt: HostRuntime) -> Result<(), Fail> {
    let is_enough = is_enough(&rt, 0, 2048)?;
    assert!(rt; is_enough, "more was needed");
    Ok(())
}

/// Room for 512 texts, and for a run of its own for half of the ids.
#[test]
fn some_kib_are_enough_to_split_a_run(rt: HostRuntime) -> Result<(), Fail> {
    let is_enough = is_enough(&rt, 256, 65_536)?;
    assert!(rt; is_enough, "more was needed");
    Ok(())
}

/// A queue of 100 keys that each were replaced ten times uses the room of those that left, and
/// keeps no memory for them: what it gives back is less than 64 KiB.
#[test]
fn a_queue_needs_no_more_memory(rt: HostRuntime) {
    let alloc = rt.alloc();
    let mut store = Store::new(alloc);
    assert!(rt; first_not_put(&mut store, 0, 1100, 100).is_none());
    let hoard = Hoard::take(alloc).expect(&rt, NEEDS_THE_PROVED_BUILD);
    let refused = first_not_put(&mut store, 1100, 10_100, 100);
    drop(store);
    let given_back: Result<Vec<u8>, _> = Vec::with_capacity(alloc, 65_536);
    let is_little = given_back.is_err();
    drop(given_back);
    drop(hoard);
    assert!(rt; refused.is_none(), "{refused:?} refused");
    assert!(rt; is_little, "more was kept");
}

/// At the front, in the middle and at the end: the first number of 20 that are deleted, each two
/// more than the one before it, the first number of those that are put, and their step.
const PLACES: &[(usize, usize, usize)] = &[(400, 300, 1), (480, 401, 2), (560, 600, 1)];

/// Fills a store with the keys of each second number from 400 to 600, and while all memory is held
/// deletes those of a place and puts others there. How many, until one is refused.
fn put_without_memory(
    rt: &impl Abort,
    alloc: Global,
    is_falling: bool,
    &(old, new, step): &(usize, usize, usize),
) -> Result<usize, AllocError> {
    let mut store = Store::new(alloc);
    for turn in 0..100usize {
        let at = if is_falling { 99 - turn } else { turn };
        store.put(name(400 + 2 * at).as_str(), "")?;
    }
    let hoard = Hoard::take(alloc).expect(rt, NEEDS_THE_PROVED_BUILD);
    for turn in 0..20usize {
        store.delete(name(old.saturating_add(2 * turn)).as_str());
    }
    let mut put = 0;
    for turn in 0..100usize {
        let key = name(new.saturating_add(step.saturating_mul(turn)));
        if store.put(key.as_str(), "").is_err() {
            break;
        }
        put = turn + 1;
    }
    drop(hoard);
    Ok(put)
}

/// There is room for 128, since it is doubled.
#[test]
fn without_memory_keys_take_what_room_there_is(rt: HostRuntime) -> Result<(), Fail> {
    for is_falling in [false, true] {
        for place in PLACES {
            let put = put_without_memory(&rt, rt.alloc(), is_falling, place)?;
            assert!(rt; put == 48, "{put} taken, {is_falling} {place:?}");
        }
    }
    Ok(())
}

/// A JSON object of members that are each an empty object.
fn flat(alloc: Global, members: usize) -> Result<Value, Fail> {
    let mut value = Map::new(alloc);
    for i in 0..members {
        let key = format!(in alloc; "key {i}")?;
        drop(value.insert(key, Value::Object(Map::new(alloc)))?);
    }
    Ok(Value::Object(value))
}

#[test]
fn a_flat_object_of_many_is_read_and_written(rt: HostRuntime) -> Result<(), Fail> {
    let (alloc, value) = (rt.alloc(), flat(rt.alloc(), 32_000)?);
    let tree = Tree::from_json(alloc, &value).map_err(|_| "refused")?;
    assert!(rt; tree.to_json(alloc).is_ok_and(|shown| shown == value));
    Ok(())
}
