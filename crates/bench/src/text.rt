//! What the loops call of a text.
use inlinable_string::{InlinableStringN, StringMake};
use std::alloc::{AllocError, Global};
use std::hash::Hash;

/// A text that is made of a `str`, copied, compared and hashed.
pub trait Text: StringMake + Ord + Hash + Clone + Drop {
    fn made(alloc: Global, word: &str) -> Result<Self, AllocError>;
}

impl<const N: usize> Text for InlinableStringN<N> {
    fn made(alloc: Global, word: &str) -> Result<Self, AllocError> {
        InlinableStringN::from(alloc, word)
    }
}

impl Text for String {
    fn made(alloc: Global, word: &str) -> Result<Self, AllocError> {
        String::from_str(alloc, word)
    }
}
