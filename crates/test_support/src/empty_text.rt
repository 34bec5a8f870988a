//! Texts that tests make empty, of every kind.
ghost use Rattle.std.specs.Prelude.{◌≡◌, [], IfOk};

use inlinable_string::{StringExt, StringMake};
use std::alloc::{AllocError, Global};

/// A text that can be made empty.
pub trait EmptyText: StringExt {
    /// The empty text, with this capacity where one is given.
    fn empty(alloc: Global, room: Option<usize>) -> Result<Self, AllocError>
        ensures { IfOk result (λ made. (Self.state made).text ≡ []) };
}

impl<S: StringMake> EmptyText for S {
    fn empty(alloc: Global, room: Option<usize>) -> Result<Self, AllocError> {
        match room {
            Some(room) => StringMake::with_capacity(alloc, room),
            None => Ok(StringMake::new(alloc)),
        }
    }
}
