//! The requests of a map, whose index is that of a symbol table.
use super::Start::{Rising, Two};
use super::{Call, GREATEST, LEAST, SHORT, Start, UNKNOWN, assert_requests};
use crate::names::name;
use MapCall::{
    Delete, DeleteMany, Get, GetMut, GetOrPut, GetOrPutKnown, Iter, Put, PutKnown, Range,
};
use inline_uses::text_map::TextMap;
use std::alloc::{AllocError, Global};
use std::test::Fail;
use test_support::letters::LETTERS_31;

/// What is called.
#[derive(Clone, Copy)]
enum MapCall {
    Put(&'static str),
    PutKnown,
    GetOrPut(&'static str),
    GetOrPutKnown,
    Get,
    GetMut,
    Iter,
    Range,
    Delete,
    /// Of the keys of numbers, from one up to another.
    DeleteMany(&'static [(usize, usize)]),
}

impl Call for MapCall {
    type Subject = TextMap<usize>;

    fn subject(alloc: Global, start: Start) -> Result<TextMap<usize>, AllocError> {
        let mut map = TextMap::new(alloc);
        for turn in 0..start.len() {
            map.put(start.text(turn).as_str(), turn)?;
        }
        Ok(map)
    }

    fn make(self, _: Global, map: &mut TextMap<usize>) -> Result<bool, AllocError> {
        let is_right = match self {
            Put(key) => map.put(key, 5)?.is_none(),
            PutKnown => map.put(SHORT, 5)?.is_some() && map.put(LETTERS_31, 5)?.is_some(),
            GetOrPut(key) => *map.get_or_put(key, 5)? == 5,
            GetOrPutKnown => *map.get_or_put(SHORT, 5)? < 2 && *map.get_or_put(LETTERS_31, 5)? < 2,
            Get => map.get(LETTERS_31).is_some() && map.get(UNKNOWN).is_none(),
            GetMut => map.get_mut(LETTERS_31).is_some() && map.get_mut(UNKNOWN).is_none(),
            Iter => map.iter().len() == 2 && map.iter().count() == 2,
            Range => map.range(LETTERS_31, SHORT).count() == 1,
            Delete => {
                map.delete(UNKNOWN).is_none()
                    && map.delete(LETTERS_31).is_some()
                    && map.delete(SHORT).is_some()
            }
            DeleteMany(ranges) => are_deleted(map, ranges),
        };
        Ok(is_right)
    }
}

/// Deletes the keys of these numbers, and returns whether each was there.
fn are_deleted(map: &mut TextMap<usize>, ranges: &[(usize, usize)]) -> bool {
    let mut numbers = ranges.iter().flat_map(|(from, to)| *from..*to);
    numbers.all(|number| map.delete(name(number).as_str()).is_some())
}

/// The entries, and the marks of the first run.
#[test]
fn the_first_key(rt: HostRuntime) -> Result<(), Fail> {
    assert_requests(&rt, Rising(0), 0, Put(GREATEST), 2)
}

/// There is room for four entries, and for four marks.
#[test]
fn a_later_key(rt: HostRuntime) -> Result<(), Fail> {
    assert_requests(&rt, Rising(3), 2, Put(LEAST), 0)
}

/// The key is on the heap, and there is no room for a fifth entry nor a fifth mark.
#[test]
fn a_long_fifth_key(rt: HostRuntime) -> Result<(), Fail> {
    assert_requests(&rt, Rising(4), 2, Put(LETTERS_31), 3)
}

#[test]
fn a_long_fifth_key_by_get_or_put(rt: HostRuntime) -> Result<(), Fail> {
    assert_requests(&rt, Rising(4), 2, GetOrPut(LETTERS_31), 3)
}

/// Two keys request room for entries, for marks, and for the long key.
#[test]
fn put_of_known_keys(rt: HostRuntime) -> Result<(), Fail> {
    assert_requests(&rt, Two, 3, PutKnown, 0)
}

#[test]
fn get_or_put_of_known_keys(rt: HostRuntime) -> Result<(), Fail> {
    assert_requests(&rt, Two, 3, GetOrPutKnown, 0)
}

#[test]
fn get(rt: HostRuntime) -> Result<(), Fail> {
    assert_requests(&rt, Two, 3, Get, 0)
}

#[test]
fn get_mut(rt: HostRuntime) -> Result<(), Fail> {
    assert_requests(&rt, Two, 3, GetMut, 0)
}

#[test]
fn iter(rt: HostRuntime) -> Result<(), Fail> {
    assert_requests(&rt, Two, 3, Iter, 0)
}

#[test]
fn range(rt: HostRuntime) -> Result<(), Fail> {
    assert_requests(&rt, Two, 3, Range, 0)
}

#[test]
fn delete(rt: HostRuntime) -> Result<(), Fail> {
    assert_requests(&rt, Two, 3, Delete, 0)
}

/// 400 keys make three runs, of 128, 128 and 144. They request eight times room for entries, up to
/// 512, seven times for the marks of the first run, for later runs and for their first ids, and
/// twice for the marks of each later run. The first run keeps its keys, so no other joins it.
#[test]
fn deletions_that_empty_runs(rt: HostRuntime) -> Result<(), Fail> {
    assert_requests(&rt, Rising(400), 21, DeleteMany(&[(128, 400)]), 0)
}

/// The third run joins the second, and both the first. No run joins another to more than 128 keys,
/// and each has room for 128, since it was split once, so this requests none.
#[test]
fn deletions_that_join_runs(rt: HostRuntime) -> Result<(), Fail> {
    let deleted = &[(146, 256), (256, 382), (0, 110), (382, 400)];
    assert_requests(&rt, Rising(400), 21, DeleteMany(deleted), 0)
}
