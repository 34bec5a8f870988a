//! Plays rows on texts, and compares what is found with what they want.

use crate::answer::Answer;
use crate::begin::Kind;
use inlinable_string::Storage;

mod commands;
pub mod each;
pub mod memory;
pub mod playing;
pub mod plays;
pub mod refused;
mod run_of_all;
mod start;
mod wrong;

/// How a text is made that a row is played on, and how its calls are made.
#[derive(Clone, Copy)]
pub struct Made {
    pub kind: Kind,
    pub room: Option<usize>,
    pub way: Way,
}

/// How the calls of a row are made.
#[derive(Clone, Copy, PartialEq, Eq)]
pub enum Way {
    Calls,
    /// The same, after a byte was put before the text that the row does not name, and removed.
    Moved,
    /// Each by a `run` of its own.
    Run,
    /// Each by a `run_dyn` of its own.
    Dyn,
}

/// What a step answered, each time, and what is seen of the text then.
#[derive(Drop)]
pub struct Found {
    pub answers: Vec<Answer>,
    pub text: String,
    /// `None` in an array, which never moves.
    pub storage: Option<Storage>,
    pub capacity: usize,
    /// The capacity inline, of a type that has one.
    pub limit: Option<usize>,
    /// Whether all calls that look at the text agree.
    pub is_one: bool,
}
