//! Why a script was not run, or not printed to its end.
ghost use Rattle.std.specs.Prelude.{◌≡◌, Some};
ghost use Rattle.script_language.specs.Fault.{status_of, line_of};
ghost use Rattle.script_language.specs.declared.fault.ScriptFault.TheVariants.{NoMemory};

use std::alloc::{AllocError, AllocFailed};
use std::fmt;

/// Why a script was not run, or not printed to its end.
#[derive(Clone, Copy, Debug, PartialEq, Eq)]
pub enum ScriptFault {
    /// The arguments are not one word that names a text.
    BadArgument,
    /// The input has more bytes than a script may have.
    TooLong,
    /// The input is not UTF-8.
    NotUtf8,
    /// The line of this number, counted from 1, is no command.
    BadLine(usize),
    /// Memory was refused outside the run.
    NoMemory,
    /// The input could not be read.
    Read,
    /// The output could not be written.
    Write,
}

impl ScriptFault {
    /// The program's exit status: 2 where the script is at fault, 1 where its surroundings are.
    pub fn status(self) -> u8
        ensures { result ≡ status_of self }
    {
        match self {
            ScriptFault::BadArgument
            | ScriptFault::TooLong
            | ScriptFault::NotUtf8
            | ScriptFault::BadLine(_) => 2,
            ScriptFault::NoMemory | ScriptFault::Read | ScriptFault::Write => 1,
        }
    }
}

impl fmt::Display for ScriptFault {
    ghost output = { λ fault. Some (line_of fault) };

    fn fmt<W: fmt::Write>(&self, f: &mut fmt::Formatter<W>) -> fmt::Result {
        let line = match self {
            ScriptFault::BadArgument => "bad argument",
            ScriptFault::TooLong => "input too long",
            ScriptFault::NotUtf8 => "input is not utf-8",
            ScriptFault::BadLine(number) => return write!(f, "line {number}: bad command"),
            ScriptFault::NoMemory => "no memory",
            ScriptFault::Read => "read fault",
            ScriptFault::Write => "write fault",
        };
        f.write_str(line)
    }
}

impl From<AllocError> for ScriptFault {
    ghost from_gives = { λ _ fault. fault ≡ NoMemory };

    fn from(_error: AllocError) -> ScriptFault {
        ScriptFault::NoMemory
    }
}

impl<T: Drop> From<AllocFailed<T>> for ScriptFault {
    ghost from_gives = { λ _ fault. fault ≡ NoMemory };

    fn from(_error: AllocFailed<T>) -> ScriptFault {
        ScriptFault::NoMemory
    }
}
