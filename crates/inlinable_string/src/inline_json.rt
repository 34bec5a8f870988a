//! Texts as JSON strings, and back.
//!
//! A [`Value`] is made and looked into; it is read and written as JSON by `serde_json` itself.
ghost use Rattle.std.specs.Prelude.{◌≡◌, ◌≤◌, ◌<◌, ◌↔◌, ℕ, List, length, Some, None, Err, IfOk, IsOk, IsSomeAnd, if◌then◌else◌, codes};
ghost use Rattle.serde_json.specs.Data.{string};
ghost use Rattle.serde_json.specs.Find.{as_str};
ghost use Rattle.serde_json.specs.View.{view};
ghost use Rattle.inlinable_string.specs.Text.{bytes_of, size};
ghost use Rattle.inlinable_string.specs.State.{storage_when_made};
ghost use Rattle.inlinable_string.specs.Values.{inlinable_policy, inlinable_state};
ghost use Rattle.inlinable_string.specs.declared.inline_json.JsonError.TheVariants.{NoMemory};

use crate::inlinable_string::InlinableStringN;
use crate::string_ext::StringExt;
use serde_json::Value;
use std::alloc::{AllocError, Global};
use std::error::Error;
use std::fmt;

/// Why a JSON value did not become a text.
#[derive(Clone, Copy, Debug, PartialEq, Eq)]
pub enum JsonError {
    /// It is not a string.
    NotString,
    /// It is a string, and the allocation failed.
    NoMemory,
}

impl Error for JsonError {}

impl From<AllocError> for JsonError {
    ghost from_gives = { λ _ error. error ≡ NoMemory };

    fn from(_: AllocError) -> Self {
        JsonError::NoMemory
    }
}

impl fmt::Display for JsonError {
    ghost output = { λ error. Some (if ⟦<JsonError as PartialEq>⟧.eq error NoMemory
        then codes "there is no memory" else codes "the JSON value is not a string") };

    fn fmt<W: fmt::Write>(&self, f: &mut fmt::Formatter<W>) -> fmt::Result {
        match self {
            JsonError::NotString => f.write_str("the JSON value is not a string"),
            JsonError::NoMemory => f.write_str("there is no memory"),
        }
    }
}

impl<const N: usize> InlinableStringN<N> {
    /// Returns the text as a JSON string. Allocates once, for a copy of it.
    pub fn to_json(&self) -> Result<Value, AllocError>
        ensures { IfOk result
            (λ value. view value ≡ string (bytes_of (inlinable_state N self.now).text)) }
    {
        let alloc = match self {
            InlinableStringN::Heap(_, alloc) => *alloc,
            InlinableStringN::Inline(_, alloc) => *alloc,
        };
        Value::try_from_str(alloc, self.as_str())
    }

    /// Makes a text of a JSON string. It is stored inline if it has at most `N` bytes; then the
    /// call does not allocate and cannot fail. Any other value gives [`JsonError::NotString`].
    pub fn from_json(alloc: Global, value: &Value) -> Result<Self, JsonError>
        ensures text { IfOk result (λ made.
            view value.now ≡ string (bytes_of (inlinable_state N made).text)) }
        ensures storage { IfOk result (λ made. (inlinable_state N made).storage
            ≡ storage_when_made (inlinable_policy N) (size (inlinable_state N made).text)) }
        ensures policy { IfOk result
            (λ made. (inlinable_state N made).policy ≡ inlinable_policy N) }

        // When each error comes.
        ensures not_string { (result ≡ Err JsonError.NotString) ↔ (as_str (view value.now) ≡ None) }
        ensures no_memory { result ≡ Err JsonError.NoMemory
            → IsSomeAnd (as_str (view value.now)) (λ bytes. N < length bytes) }
        ensures granted { (bytes : List ℕ) → view value.now ≡ string bytes → length bytes ≤ N
            → IsOk result }
    {
        let Value::String(string) = value else {
            return Err(JsonError::NotString);
        };
        let made = Self::from(alloc, string.as_str())?;
        Ok(made)
    }
}
