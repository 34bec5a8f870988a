//! A `String` in a user-defined type.
ghost use Rattle.inlinable_string.specs.StringValues.{heap_policy, string_state};

use inlinable_string::inline_string::ReplaceError;
use inlinable_string::{Storage, StringExt, StringMake};
use std::alloc::{AllocError, Global};
use std::string::FromUtf8Error;

/// A text that is always on the heap, also after it is shrunk.
#[derive(Drop)]
pub struct HeapText(pub String);

impl StringExt for HeapText {
    ghost state = { λ s. string_state s.0 };

    fn push(&mut self, ch: char) -> Result<(), AllocError> {
        StringExt::push(&mut self.0, ch)
    }

    fn push_str(&mut self, string: &str) -> Result<(), AllocError> {
        StringExt::push_str(&mut self.0, string)
    }

    fn insert(&mut self, idx: usize, ch: char) -> Result<(), AllocError> {
        StringExt::insert(&mut self.0, idx, ch)
    }

    fn insert_str(&mut self, idx: usize, string: &str) -> Result<(), AllocError> {
        StringExt::insert_str(&mut self.0, idx, string)
    }

    fn reserve(&mut self, additional: usize) -> Result<(), AllocError> {
        StringExt::reserve(&mut self.0, additional)
    }

    fn reserve_exact(&mut self, additional: usize) -> Result<(), AllocError> {
        StringExt::reserve_exact(&mut self.0, additional)
    }

    fn shrink_to_fit(&mut self) -> Result<(), AllocError> {
        StringExt::shrink_to_fit(&mut self.0)
    }

    fn truncate(&mut self, new_len: usize) {
        StringExt::truncate(&mut self.0, new_len);
    }

    fn pop(&mut self) -> Option<char> {
        StringExt::pop(&mut self.0)
    }

    fn remove(&mut self, idx: usize) -> char {
        StringExt::remove(&mut self.0, idx)
    }

    fn replace_bytes(&mut self, bytes: &[u8]) -> Result<(), ReplaceError> {
        StringExt::replace_bytes(&mut self.0, bytes)
    }

    fn capacity(&self) -> usize {
        StringExt::capacity(&self.0)
    }

    fn storage(&self) -> Storage {
        StringExt::storage(&self.0)
    }

    fn len(&self) -> usize {
        StringExt::len(&self.0)
    }

    fn as_bytes(&self) -> &[u8] {
        StringExt::as_bytes(&self.0)
    }

    fn as_str(&self) -> &str {
        StringExt::as_str(&self.0)
    }
}

impl StringMake for HeapText {
    ghost policy = { heap_policy };

    fn new(alloc: Global) -> Self {
        HeapText(StringMake::new(alloc))
    }

    fn with_capacity(alloc: Global, capacity: usize) -> Result<Self, AllocError> {
        Ok(HeapText(StringMake::with_capacity(alloc, capacity)?))
    }

    fn from_utf8(alloc: Global, vec: Vec<u8>) -> Result<Self, FromUtf8Error> {
        Ok(HeapText(StringMake::from_utf8(alloc, vec)?))
    }

    unsafe fn from_utf8_unchecked(alloc: Global, bytes: Vec<u8>) -> Self {
        HeapText(unsafe { StringMake::from_utf8_unchecked(alloc, bytes) })
    }

    fn into_bytes(self) -> Result<Vec<u8>, Self> {
        StringMake::into_bytes(self.0).map_err(HeapText)
    }
}
