//! The words of a program's arguments.
use crate::fault::ScriptFault;
use std::env::{self, Env};
use std::io;

/// Returns the arguments, without the program's own name.
pub fn words_of<R: Env + AllocGlobal>(rt: &R) -> Result<Vec<String>, ScriptFault> {
    match env::args(rt) {
        Ok(words) => Ok(words.skip(1).collect(rt.alloc())?),
        Err(error) if error.kind() == io::ErrorKind::OutOfMemory => Err(ScriptFault::NoMemory),
        Err(_) => Err(ScriptFault::BadArgument),
    }
}
