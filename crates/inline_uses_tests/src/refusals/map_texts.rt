//! The requests of what a map of texts becomes, a store or the bytes of a JSON object, and of what
//! reads one.
use super::Start::{Rising, Two};
use super::{Call, Start, assert_requests};
use TextsCall::{FromJson, StoreFromMap, ToBytes};
use inlinable_string::{InlinableString, StringExt};
use inline_uses::store::Store;
use inline_uses::store::json::ReadError;
use inline_uses::text_map::TextMap;
use serde_json::Value;
use std::alloc::{AllocError, Global};
use std::test::Fail;

/// What is called.
#[derive(Clone, Copy)]
enum TextsCall {
    StoreFromMap,
    FromJson,
    ToBytes,
}

/// A map of texts, each under itself, and a JSON object of strings.
#[derive(Drop)]
struct Texts {
    map: TextMap<InlinableString>,
    value: Value,
}

const OBJECT: &str =
    r#"{"aaaaaaaaaaaaaaaaaaaaaaaaaaaaaaa":"aaaaaaaaaaaaaaaaaaaaaaaaaaaaaaa","short":"short"}"#;

const FIVE: &str = r#"{"a":"a","b":"b","c":"c","d":"d","e":"e"}"#;

impl Call for TextsCall {
    type Subject = Texts;

    fn subject(alloc: Global, start: Start) -> Result<Texts, AllocError> {
        let mut map = TextMap::new(alloc);
        for turn in 0..start.len() {
            let text = start.text(turn);
            map.put(text.as_str(), InlinableString::from(alloc, text.as_str())?)?;
        }
        let object = if start.len() == 5 { FIVE } else { OBJECT };
        let value = Value::from_slice(alloc, object.as_bytes()).map_err(|_| AllocError)?;
        Ok(Texts { map, value })
    }

    fn make(self, alloc: Global, texts: &mut Texts) -> Result<bool, AllocError> {
        match self {
            StoreFromMap => Ok(Store::from_map(alloc, &texts.map)?.len() == texts.map.len()),
            FromJson => match TextMap::from_json(alloc, &texts.value) {
                Ok(map) => Ok(map.len() == texts.map.len()),
                Err(error) if error == ReadError::NoMemory => Err(AllocError),
                Err(_) => Ok(false),
            },
            ToBytes => Ok(!texts.map.to_bytes()?.is_empty()),
        }
    }
}

/// What the JSON value requests, and that of five.
const OF_VALUE: usize = 6;

const OF_FIVE: usize = 12;

/// The row of entries, and the long key and value. Two entries request as much, and marks.
#[test]
fn store_from_map(rt: HostRuntime) -> Result<(), Fail> {
    assert_requests(&rt, Two, 4 + OF_VALUE, StoreFromMap, 3)
}

/// Entries, marks, and the long key and value.
#[test]
fn from_json(rt: HostRuntime) -> Result<(), Fail> {
    assert_requests(&rt, Two, 4 + OF_VALUE, FromJson, 4)
}

/// Entries and marks, each once, where five puts would request each twice.
#[test]
fn from_json_of_five(rt: HostRuntime) -> Result<(), Fail> {
    assert_requests(&rt, Rising(5), 4 + OF_FIVE, FromJson, 2)
}

/// What this requests is JSON's: a node of its map, the texts of the key and of the value, and room
/// for the bytes.
#[test]
fn to_bytes(rt: HostRuntime) -> Result<(), Fail> {
    assert_requests(&rt, Rising(1), 2 + OF_VALUE, ToBytes, 4)
}
