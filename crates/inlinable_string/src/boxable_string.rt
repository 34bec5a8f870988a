//! `InlinableString` in a type that can go into a `Box<dyn StringExt + Drop>`.
ghost use Rattle.inlinable_string.specs.BoxableValues.{boxable_state};

use crate::InlinableString;
use crate::inline_string::ReplaceError;
use crate::string_ext::{Storage, StringExt};
use std::alloc::AllocError;

/// An [`InlinableString`] in a type without a parameter.
///
/// For a type with a const parameter the toolchain has no proof of its own that a
/// `Box<dyn StringExt + Drop>` is made of it, and asks for one by hand in each crate that does so.
/// Inside this struct the text goes into a box without one. Each call is that of the text.
#[derive(Drop)]
pub struct BoxableString(pub InlinableString);

impl StringExt for BoxableString {
    ghost state = { boxable_state };

    fn push(&mut self, ch: char) -> Result<(), AllocError> {
        self.0.push(ch)
    }

    fn push_str(&mut self, string: &str) -> Result<(), AllocError> {
        self.0.push_str(string)
    }

    fn insert(&mut self, idx: usize, ch: char) -> Result<(), AllocError> {
        self.0.insert(idx, ch)
    }

    fn insert_str(&mut self, idx: usize, string: &str) -> Result<(), AllocError> {
        self.0.insert_str(idx, string)
    }

    fn reserve(&mut self, additional: usize) -> Result<(), AllocError> {
        self.0.reserve(additional)
    }

    fn reserve_exact(&mut self, additional: usize) -> Result<(), AllocError> {
        self.0.reserve_exact(additional)
    }

    fn shrink_to_fit(&mut self) -> Result<(), AllocError> {
        self.0.shrink_to_fit()
    }

    fn truncate(&mut self, new_len: usize) {
        self.0.truncate(new_len);
    }

    fn pop(&mut self) -> Option<char> {
        self.0.pop()
    }

    fn remove(&mut self, idx: usize) -> char {
        self.0.remove(idx)
    }

    fn replace_bytes(&mut self, bytes: &[u8]) -> Result<(), ReplaceError> {
        self.0.replace_bytes(bytes)
    }

    fn capacity(&self) -> usize {
        self.0.capacity()
    }

    fn storage(&self) -> Storage {
        self.0.storage()
    }

    fn len(&self) -> usize {
        self.0.len()
    }

    fn as_bytes(&self) -> &[u8] {
        self.0.as_bytes()
    }

    fn as_str(&self) -> &str {
        self.0.as_str()
    }
}
