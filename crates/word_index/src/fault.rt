//! Why no index was printed, or not to its end.
ghost use Rattle.std.specs.Prelude.{◌≡◌, ◌≢◌, ◌↔◌};
ghost use Rattle.std.specs.IoError.{error_kind};
ghost use Rattle.word_index.specs.declared.fault.Fault.TheVariants.{NoMemory};

use std::alloc::AllocError;
use std::fmt;
use std::io::{self, ErrorKind};

/// Why no index was printed, or not to its end.
#[derive(Clone, Copy, Debug, PartialEq, Eq)]
pub enum Fault {
    /// The arguments are neither none nor `--top N`.
    BadArgument,
    /// The input is not UTF-8.
    NotUtf8,
    /// An allocation failed.
    NoMemory,
    /// The input could not be read.
    Read,
    /// The output could not be written.
    Write,
}

impl Fault {
    /// What an error in reading means.
    pub fn of_reading(error: io::Error) -> Fault
        ensures not_utf8 { (result ≡ Fault.NotUtf8) ↔ (error_kind error ≡ ErrorKind.InvalidData) }
        ensures no_memory { (result ≡ Fault.NoMemory) ↔ (error_kind error ≡ ErrorKind.OutOfMemory) }
        ensures read { (result ≡ Fault.Read) ↔ (error_kind error ≢ ErrorKind.InvalidData
            × error_kind error ≢ ErrorKind.OutOfMemory) }
    {
        match error.kind() {
            ErrorKind::InvalidData => Fault::NotUtf8,
            ErrorKind::OutOfMemory => Fault::NoMemory,
            _ => Fault::Read,
        }
    }

    /// What an error in writing means.
    pub fn of_writing(error: io::Error) -> Fault
        ensures no_memory { (result ≡ Fault.NoMemory) ↔ (error_kind error ≡ ErrorKind.OutOfMemory) }
        ensures write { (result ≡ Fault.Write) ↔ (error_kind error ≢ ErrorKind.OutOfMemory) }
    {
        match error.kind() {
            ErrorKind::OutOfMemory => Fault::NoMemory,
            _ => Fault::Write,
        }
    }
}

impl From<AllocError> for Fault {
    ghost from_gives = { λ _ fault. fault ≡ NoMemory };

    fn from(_: AllocError) -> Self {
        Fault::NoMemory
    }
}

impl fmt::Display for Fault {
    fn fmt<W: fmt::Write>(&self, f: &mut fmt::Formatter<W>) -> fmt::Result {
        f.write_str(match self {
            Fault::BadArgument => "usage: word_index [--top N] < TEXT",
            Fault::NotUtf8 => "the input is not UTF-8",
            Fault::NoMemory => "out of memory",
            Fault::Read => "the input cannot be read",
            Fault::Write => "the output cannot be written",
        })
    }
}
