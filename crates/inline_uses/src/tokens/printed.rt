//! What is printed of a fault.
use super::Fault;
use std::error::Error;
use std::fmt;

impl Error for Fault {}

impl fmt::Display for Fault {
    fn fmt<W: fmt::Write>(&self, f: &mut fmt::Formatter<W>) -> fmt::Result {
        f.write_str(match self {
            Fault::TooLong => "the token is too long",
            Fault::Unterminated => "the source ends in a comment or a text",
            Fault::BadEscape(_) => "there is no such escape",
        })
    }
}
