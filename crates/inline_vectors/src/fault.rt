//! Why rows are not read, or not played.

use inlinable_string::NotEnoughSpaceError;
use std::alloc::{AllocError, AllocFailed, Global};
use std::fmt;

/// Why a row is not read or not played, in words.
#[derive(Clone, Copy, PartialEq, Eq)]
pub struct Fault(pub &'static str);

/// The type lacks a call of the row.
pub const NOT_THERE: Fault = Fault("the type lacks a call");

/// An allocation of the program failed.
pub const NO_MEMORY: Fault = Fault("an allocation failed");

/// A character, a text, bytes or JSON that the row gives a call.
pub const BAD_CALL: Fault = Fault("a call cannot take what it is given");

/// There is no such type, or it has no such capacity.
pub const NO_TYPE: Fault = Fault("there is no such type");

impl fmt::Display for Fault {
    fn fmt<W: fmt::Write>(&self, f: &mut fmt::Formatter<W>) -> fmt::Result {
        f.write_str(self.0)
    }
}

impl From<AllocError> for Fault {
    fn from(_: AllocError) -> Fault {
        NO_MEMORY
    }
}

impl<T: Drop> From<AllocFailed<T>> for Fault {
    fn from(_: AllocFailed<T>) -> Fault {
        NO_MEMORY
    }
}

impl From<NotEnoughSpaceError> for Fault {
    fn from(_: NotEnoughSpaceError) -> Fault {
        BAD_CALL
    }
}

/// Why a file or a line is not read.
#[derive(Drop)]
pub struct RowFault {
    /// The number of the first line of the row, from 1 on.
    pub line: usize,
    pub fault: Fault,
    /// What was left of the row, at which it was found.
    pub rest: String,
}

impl RowFault {
    /// The rest is left out where memory does not suffice for it.
    pub fn of(alloc: Global, line: usize, fault: Fault, rest: &str) -> RowFault {
        let rest = String::from_str(alloc, rest).unwrap_or(String::new(alloc));
        RowFault { line, fault, rest }
    }
}

impl fmt::Display for RowFault {
    fn fmt<W: fmt::Write>(&self, f: &mut fmt::Formatter<W>) -> fmt::Result {
        let RowFault { line, fault, rest } = self;
        write!(f, "line {line}: {fault}, at `{rest}`")
    }
}
