//! What a call is given beside its row: values that it takes over, and capacity for its answer.
//! They are made before memory is held, and none of them is dropped while it is.

use crate::answer::Answer;
use crate::call::Call;
use crate::fault::{BAD_CALL, Fault, NO_MEMORY};
use inlinable_string::Storage;
use serde_json::Value;
use std::alloc::{AllocError, Global};
use std::fmt::Write;
use std::mem;

/// What a call is given beside its row.
#[derive(Drop)]
pub struct Given<'a> {
    pub alloc: Global,
    /// The call's text, bytes, characters and strings.
    pub string: String,
    pub vec: Vec<u8>,
    pub chars: Vec<char>,
    pub strs: Vec<&'a str>,
    /// The JSON value that the call's text is.
    pub json: Option<Value>,
    spare: Vec<u8>,
    /// Whether the program has answered, without the call.
    pub is_own: bool,
}

impl<'a> Given<'a> {
    /// What this call is given, with capacity for an answer of this length.
    pub fn new(alloc: Global, call: &'a Call, room: usize) -> Result<Given<'a>, Fault> {
        let mut strs = Vec::new(alloc);
        for string in &call.list {
            strs.push(string.as_str())?;
        }
        let mut json = None;
        if call.word == "from_json" {
            let value = Value::from_str(alloc, call.text.as_str());
            json = Some(value.map_err(|_| BAD_CALL)?);
        }
        Ok(Given {
            alloc,
            string: String::from_str(alloc, call.text.as_str())?,
            vec: Vec::from_slice(alloc, call.bytes.as_slice())?,
            chars: call.text.chars().collect(alloc)?,
            strs,
            json,
            spare: Vec::with_capacity(alloc, room)?,
            is_own: false,
        })
    }

    /// An answer that the program gives by itself, without the call.
    pub fn own(&mut self, answer: Answer) -> Result<Answer, Fault> {
        self.is_own = true;
        Ok(answer)
    }

    /// Takes over the string that was made of the call's text.
    pub fn take_string(&mut self) -> String {
        mem::replace(&mut self.string, String::new(self.alloc))
    }

    /// Takes over the vector that was made of the call's bytes.
    pub fn take_vec(&mut self) -> Vec<u8> {
        mem::replace(&mut self.vec, Vec::new(self.alloc))
    }

    /// A copy of these bytes, which allocates only if they exceed the capacity that was made.
    fn copy(&mut self, bytes: &[u8]) -> Result<Vec<u8>, AllocError> {
        let mut copy = mem::replace(&mut self.spare, Vec::new(self.alloc));
        copy.extend_from_slice(bytes)?;
        Ok(copy)
    }

    /// A copy of a text.
    pub fn copy_text(&mut self, text: &str) -> Result<String, Fault> {
        let copy = String::from_utf8(self.copy(text.as_bytes())?);
        copy.map_err(|_| BAD_CALL)
    }

    /// The answer of this value's JSON text. The value is kept, and not freed.
    pub fn json_text(&mut self, value: Value) -> Result<Answer, Fault> {
        let mut text = self.copy_text("")?;
        let is_written = write!(text, "{value}").is_ok();
        self.json = Some(value);
        if is_written {
            Ok(Answer::Text(text))
        } else {
            Err(NO_MEMORY)
        }
    }

    /// The answer of these bytes.
    pub fn bytes(&mut self, bytes: &[u8]) -> Result<Answer, Fault> {
        Ok(Answer::Bytes(self.copy(bytes)?))
    }

    /// The answer of this text.
    pub fn text(&mut self, text: &str) -> Result<Answer, Fault> {
        Ok(Answer::Text(self.copy_text(text)?))
    }

    /// The answer of two texts, with a bar between them.
    pub fn pair(&mut self, before: &str, after: &str) -> Result<Answer, Fault> {
        let mut both = self.copy_text(before)?;
        both.push('|')?;
        both.push_str(after)?;
        Ok(Answer::Text(both))
    }

    /// The answer of this text, which has this storage.
    pub fn placed(&mut self, text: &str, storage: Storage) -> Result<Answer, Fault> {
        Ok(Answer::Placed(self.copy_text(text)?, storage))
    }
}
