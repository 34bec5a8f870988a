//! Texts as JSON strings, and back; and an error of a caller's own, which `?` makes of those of the
//! library.
ghost use Rattle.std.specs.Prelude.{◌≡◌, ◌≤◌, ◌↔◌, List, ℕ, length, None, Err, IfOk, IfSome, IsOk, IsSome};
ghost use Rattle.serde_json.specs.Data.{string};
ghost use Rattle.serde_json.specs.Find.{as_str};
ghost use Rattle.serde_json.specs.View.{view};
ghost use Rattle.inlinable_string.specs.Text.{bytes_of};
ghost use Rattle.inlinable_string.specs.Values.{inlinable_state};
ghost use Rattle.callers.specs.declared.json.LabelError.TheVariants.{TooLong, Document};

use inlinable_string::laws::json_gives_the_text_back;
use inlinable_string::{
    InlinableString, InlinableStringN, InlineStringN, JsonError, NotEnoughSpaceError, StringExt,
};
use serde_json::Value;
use std::alloc::{AllocError, Global};

/// Converts a text to JSON and back. Fails only if an allocation does.
pub fn there_and_back<const N: usize>(
    alloc: Global,
    text: &InlinableStringN<N>,
) -> Result<InlinableStringN<N>, JsonError>
    ensures text { IfOk result
        (λ back. (inlinable_state N back).text ≡ (inlinable_state N text.now).text) }
    ensures string { ¬ (result ≡ Err JsonError.NotString) }
{
    json_gives_the_text_back();
    let _ = text.len();
    let value = text.to_json()?;
    let back = InlinableStringN::from_json(alloc, &value)?;
    Ok(back)
}

/// A code of at most eight bytes, with what serde's traits would be for it.
#[derive(Clone, Debug, PartialEq, Eq, Drop)]
pub struct Code(pub InlineStringN<8>);

impl Code {
    /// The code as a JSON string.
    pub fn serialize(&self, alloc: Global) -> Result<Value, AllocError>
        ensures { IfOk result (λ value. view value ≡ string (bytes_of self.now.0)) }
    {
        Value::try_from_str(alloc, self.0.as_str())
    }

    /// Makes a code of a JSON string. `None` for one of more than eight bytes and for other values.
    pub fn deserialize(alloc: Global, value: &Value) -> Option<Self>
        ensures some { IfSome result (λ code. view value.now ≡ string (bytes_of code.0)) }
        ensures granted { (bytes : List ℕ) → view value.now ≡ string bytes → length bytes ≤ 8
            → IsSome result }
    {
        let text = InlinableStringN::<8>::from_json(alloc, value).ok()?;
        let code = InlineStringN::try_from(text).ok()?;
        Some(Code(code))
    }
}

/// Why there is no label.
#[derive(Clone, Copy, Debug, PartialEq, Eq)]
pub enum LabelError {
    /// It has more than 16 bytes.
    TooLong(NotEnoughSpaceError),
    /// The value is no string, or an allocation failed.
    Document(JsonError),
}

impl From<NotEnoughSpaceError> for LabelError {
    ghost from_gives = { λ error made. made ≡ TooLong error };

    fn from(error: NotEnoughSpaceError) -> Self {
        LabelError::TooLong(error)
    }
}

impl From<JsonError> for LabelError {
    ghost from_gives = { λ error made. made ≡ Document error };

    fn from(error: JsonError) -> Self {
        LabelError::Document(error)
    }
}

/// A label out of a document. One of at most 16 bytes is always read.
pub fn from_document(alloc: Global, value: &Value) -> Result<InlineStringN<16>, LabelError>
    ensures ok { IfOk result (λ label. view value.now ≡ string (bytes_of label)) }
    ensures granted { (bytes : List ℕ) → view value.now ≡ string bytes → length bytes ≤ 16
        → IsOk result }
    ensures not_string { result ≡ Err (Document JsonError.NotString)
        ↔ (as_str (view value.now) ≡ None) }
{
    let text = InlinableString::from_json(alloc, value)?;
    let label = InlineStringN::try_from(text.as_str())?;
    Ok(label)
}
