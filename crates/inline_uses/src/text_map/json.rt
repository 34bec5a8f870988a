//! A map from texts to texts as the bytes of a JSON object, and back.
ghost use Rattle.std.specs.Prelude.{◌≡◌, ◌↔◌, [], Some, None, Err, IfOk, IfSome, IsUtf8, option_and_then};
ghost use Rattle.serde_json.specs.Data.{members_depth};
ghost use Rattle.serde_json.specs.Find.{as_object};
ghost use Rattle.serde_json.specs.View.{members_view, view};
ghost use Rattle.inline_uses.specs.Store.{entries_in, with_members};
ghost use Rattle.inline_uses.specs.TextMap.{texts_of};

use super::TextMap;
use crate::store::json::{ReadError, are_strings};
use inlinable_string::{InlinableString, StringExt};
use serde_json::{Map, Value, put};
use std::alloc::{AllocError, Global};

impl TextMap<InlinableString> {
    /// Returns the JSON object with the values as strings under their keys. Fails only if an
    /// allocation does.
    pub fn to_bytes(&self) -> Result<Vec<u8>, AllocError>
        ensures entries { IfOk result (λ bytes. entries_in bytes.items
            ≡ Some (texts_of self.now)) }
        ensures utf8 { IfOk result (λ bytes. IsUtf8 bytes.items) }
    {
        let bytes = Value::Object(self.members()?).to_vec(self.alloc)?;
        Ok(bytes)
    }

    /// The members of that object. They are put in from the last key on, since a map looks for the
    /// place of a key from its first key on.
    fn members(&self) -> Result<Map<String, Value>, AllocError>
        ensures entries { IfOk result (λ members.
            with_members [] (members_view members.entries) ≡ Some (texts_of self.now)) }
        ensures flat { IfOk result (λ members. members_depth (members_view members.entries) ≡ 0) }
    {
        let mut members = Map::new(self.alloc);
        for (key, value) in self.iter().rev() {
            put(&mut members, self.alloc, key.as_str(), value.to_json()?)?;
        }
        Ok(members)
    }

    /// Returns the map of these bytes. Fails with [`ReadError::NotAStore`] only if they are not the
    /// JSON of an object of strings, so never on what [`TextMap::to_bytes`] gave, and otherwise
    /// only if an allocation does.
    pub fn from_bytes(alloc: Global, bytes: &[u8]) -> Result<Self, ReadError>
        ensures entries { IfOk result (λ map. entries_in bytes.now ≡ Some (texts_of map)) }
        ensures not_a_store { result ≡ Err ReadError.NotAStore → IsUtf8 bytes.now
            → entries_in bytes.now ≡ None }
    {
        match Value::from_slice(alloc, bytes) {
            Ok(value) => Self::from_json(alloc, &value),
            Err(error) => {
                if error.is_memory() {
                    Err(ReadError::NoMemory)
                } else {
                    Err(ReadError::NotAStore)
                }
            }
        }
    }

    /// Returns the map that a JSON value has. Fails with [`ReadError::NotAStore`] exactly if it is
    /// not an object of strings, and otherwise only if an allocation does.
    pub fn from_json(alloc: Global, value: &Value) -> Result<Self, ReadError>
        ensures entries { IfOk result (λ map.
            option_and_then (with_members []) (as_object (view value.now))
            ≡ Some (texts_of map)) }
        ensures not_a_store { (result ≡ Err ReadError.NotAStore)
            ↔ (option_and_then (with_members []) (as_object (view value.now)) ≡ None) }
    {
        match value.as_object() {
            Some(members) if are_strings(members) => Ok(Self::from_members(alloc, members)?),
            _ => Err(ReadError::NotAStore),
        }
    }

    /// The map of the members of an object: of those before the first that is no string.
    #[tactic(auto, using(crate::proofs::MapTexts::text_put))]
    fn from_members(alloc: Global, members: &Map<String, Value>) -> Result<Self, AllocError>
        ensures { IfOk result (λ map. IfSome (with_members [] (members_view members.now.entries))
            (λ entries. texts_of map ≡ entries)) }
    {
        let mut map = TextMap::new(alloc);
        map.reserve(members.len())?;
        for (name, value) in members {
            let Some(text) = value.as_str() else {
                break;
            };
            map.put_from_end(name.as_str(), InlinableString::from(alloc, text)?)?;
        }
        Ok(map)
    }
}
