//! A store as the bytes of a JSON object, and back.
ghost use Rattle.std.specs.Prelude.{◌≡◌, ◌↔◌, [], Some, None, Err, IfOk, IfSome, IsUtf8, is_some, option_and_then};
ghost use Rattle.serde_json.specs.Data.{members_depth};
ghost use Rattle.serde_json.specs.Find.{as_object};
ghost use Rattle.serde_json.specs.View.{members_view, view};
ghost use Rattle.inline_uses.specs.Store.{entries_in, with_members};
ghost use Rattle.inline_uses.specs.declared.store.json.ReadError.TheVariants.{NoMemory};

use super::Store;
use inlinable_string::StringExt;
use serde_json::{Map, Value, put};
use std::alloc::{AllocError, Global};
use std::error::Error;
use std::fmt;

/// Why bytes were not read as a store.
#[derive(Clone, Copy, Debug, PartialEq, Eq)]
pub enum ReadError {
    /// They are not the JSON of an object of strings.
    NotAStore,
    /// They may be, and an allocation failed.
    NoMemory,
}

impl Error for ReadError {}

impl fmt::Display for ReadError {
    fn fmt<W: fmt::Write>(&self, f: &mut fmt::Formatter<W>) -> fmt::Result {
        f.write_str(match self {
            ReadError::NotAStore => "the bytes are not a JSON object of strings",
            ReadError::NoMemory => "there is no memory",
        })
    }
}

impl From<AllocError> for ReadError {
    ghost from_gives = { λ _ error. error ≡ NoMemory };

    fn from(_: AllocError) -> Self {
        ReadError::NoMemory
    }
}

impl Store {
    /// The JSON object with the values as strings under their keys.
    pub fn to_bytes(&self) -> Result<Vec<u8>, AllocError>
        ensures entries { IfOk result (λ bytes. entries_in bytes.items ≡ Some self.now) }
        ensures utf8 { IfOk result (λ bytes. IsUtf8 bytes.items) }
    {
        let bytes = Value::Object(self.members()?).to_vec(self.alloc)?;
        Ok(bytes)
    }

    /// The members of that object. They are put in from the last key on, since a map looks for the
    /// place of a key from its first key on.
    fn members(&self) -> Result<Map<String, Value>, AllocError>
        ensures entries { IfOk result (λ members.
            with_members [] (members_view members.entries) ≡ Some self.now) }
        ensures flat { IfOk result (λ members. members_depth (members_view members.entries) ≡ 0) }
    {
        let mut members = Map::new(self.alloc);
        for (key, value) in self.scan().iter().rev() {
            put(&mut members, self.alloc, key.as_str(), value.to_json()?)?;
        }
        Ok(members)
    }

    /// Returns the store of these bytes. Fails with [`ReadError::NotAStore`] only if they are not
    /// the JSON of an object of strings, so never on what [`Store::to_bytes`] gave.
    pub fn from_bytes(alloc: Global, bytes: &[u8]) -> Result<Self, ReadError>
        ensures entries { IfOk result (λ store. entries_in bytes.now ≡ Some store) }
        ensures not_a_store { result ≡ Err ReadError.NotAStore → IsUtf8 bytes.now
            → entries_in bytes.now ≡ None }
    {
        match Value::from_slice(alloc, bytes) {
            Ok(value) => Self::from_json(alloc, &value),
            Err(error) => {
                if error.is_memory() {
                    Err(ReadError::NoMemory)
                } else {
                    Err(ReadError::NotAStore)
                }
            }
        }
    }

    /// Returns the store that a JSON value has. Fails with [`ReadError::NotAStore`] exactly if it
    /// is not an object of strings, and otherwise only if an allocation does.
    pub fn from_json(alloc: Global, value: &Value) -> Result<Self, ReadError>
        ensures entries { IfOk result (λ store.
            option_and_then (with_members []) (as_object (view value.now)) ≡ Some store) }
        ensures not_a_store { (result ≡ Err ReadError.NotAStore)
            ↔ (option_and_then (with_members []) (as_object (view value.now)) ≡ None) }
    {
        match value.as_object() {
            Some(members) if are_strings(members) => Ok(Self::from_members(alloc, members)?),
            _ => Err(ReadError::NotAStore),
        }
    }

    /// The store of the members of an object: of those before the first that is no string.
    fn from_members(alloc: Global, members: &Map<String, Value>) -> Result<Self, AllocError>
        ensures { IfOk result (λ store. IfSome (with_members [] (members_view members.now.entries))
            (λ entries. store ≡ entries)) }
    {
        let mut store = Store::new(alloc);
        for (name, value) in members {
            let Some(text) = value.as_str() else {
                break;
            };
            store.put(name.as_str(), text)?;
        }
        Ok(store)
    }
}

/// Whether each member of an object is a string.
pub(crate) fn are_strings(members: &Map<String, Value>) -> bool
    ensures { result ≡ is_some (with_members [] (members_view members.now.entries)) }
{
    for (_, value) in members {
        let Some(_) = value.as_str() else {
            return false;
        };
    }
    true
}

/// Returns the store of a store's bytes, which is equal to it. Fails only if an allocation does.
pub fn copied(store: &Store) -> Result<Store, ReadError>
    ensures same { IfOk result (λ copy. copy ≡ store.now) }
    ensures granted { ¬ (result ≡ Err ReadError.NotAStore) }
{
    let bytes = store.to_bytes()?;
    Store::from_bytes(store.alloc, &bytes)
}
