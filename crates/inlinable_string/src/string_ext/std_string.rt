//! std's `String` as a text that can be edited: it is always on the heap, even if it is empty.
//!
//! Growths and moves stay out of line (`#[inline(never)]`), so that a call on a text that may be
//! inline stays small.
ghost use Rattle.inlinable_string.specs.StringValues.{heap_policy, string_state};

use super::{Storage, StringExt, StringMake};
use crate::inline_string::ReplaceError;
use crate::well_formed::{string_from, text_in};
use std::alloc::{AllocError, Global};
use std::string::FromUtf8Error;

impl StringExt for String {
    ghost state = { string_state };

    fn push(&mut self, ch: char) -> Result<(), AllocError> {
        self.push(ch)
    }

    #[inline(never)]
    fn push_str(&mut self, string: &str) -> Result<(), AllocError> {
        self.push_str(string)
    }

    #[inline(never)]
    fn insert(&mut self, idx: usize, ch: char) -> Result<(), AllocError> {
        self.insert(idx, ch)
    }

    #[inline(never)]
    fn insert_str(&mut self, idx: usize, string: &str) -> Result<(), AllocError> {
        self.insert_str(idx, string)
    }

    #[inline(never)]
    #[tactic(auto, using(crate::proofs::Text::sizes))]
    fn reserve(&mut self, additional: usize) -> Result<(), AllocError> {
        self.reserve(additional)
    }

    #[inline(never)]
    #[tactic(auto, using(crate::proofs::Text::sizes))]
    fn reserve_exact(&mut self, additional: usize) -> Result<(), AllocError> {
        self.reserve_exact(additional)
    }

    #[inline(never)]
    fn shrink_to_fit(&mut self) -> Result<(), AllocError> {
        self.shrink_to_fit();
        Ok(())
    }

    fn truncate(&mut self, new_len: usize) {
        self.truncate(new_len);
    }

    fn pop(&mut self) -> Option<char> {
        self.pop()
    }

    #[inline(never)]
    fn remove(&mut self, idx: usize) -> char {
        self.remove(idx)
    }

    // The allocation of the old bytes is kept for the new ones.
    #[inline(never)]
    #[tactic(auto, using(crate::proofs::Text::overwritten))]
    fn replace_bytes(&mut self, bytes: &[u8]) -> Result<(), ReplaceError> {
        if bytes.len() != self.len() {
            return Err(ReplaceError::WrongLength);
        }
        let Some(string) = text_in(bytes) else {
            return Err(ReplaceError::NotUtf8);
        };
        self.clear();
        let _ = self.push_str(string);
        Ok(())
    }

    fn capacity(&self) -> usize {
        self.capacity()
    }

    fn storage(&self) -> Storage {
        Storage::Heap
    }

    fn len(&self) -> usize {
        self.len()
    }

    #[tactic(auto, using(crate::proofs::Makers::made))]
    fn as_bytes(&self) -> &[u8] {
        self.as_bytes()
    }

    fn as_str(&self) -> &str {
        self.as_str()
    }
}

impl StringMake for String {
    ghost policy = { heap_policy };

    #[tactic(auto, using(crate::proofs::Text::no_bytes))]
    fn new(alloc: Global) -> Self {
        String::new(alloc)
    }

    #[tactic(auto, using(crate::proofs::Text::no_bytes))]
    fn with_capacity(alloc: Global, capacity: usize) -> Result<Self, AllocError> {
        String::with_capacity(alloc, capacity)
    }

    fn from_utf8(_alloc: Global, vec: Vec<u8>) -> Result<Self, FromUtf8Error> {
        string_from(vec)
    }

    #[tactic(auto, using(crate::proofs::Makers::made))]
    unsafe fn from_utf8_unchecked(_alloc: Global, bytes: Vec<u8>) -> Self {
        unsafe { String::from_utf8_unchecked(bytes) }
    }

    #[tactic(auto, using(crate::proofs::Makers::made))]
    fn into_bytes(self) -> Result<Vec<u8>, Self> {
        Ok(self.into_bytes())
    }
}
