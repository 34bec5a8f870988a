//! A language for scripts of edits: a script is read, run on a text, and each answer is printed.
//!
//! [`script::script`] does all of it; a [`ScriptFault`] says why it was not done, or not to its
//! end.
#![tactic(auto)]

pub mod arguments;
mod buffer;
mod cut;
mod fault;
mod input;
pub mod laws;
mod line;
mod output;
pub mod script;
mod start;
pub mod worked;

pub use fault::ScriptFault;
pub use input::MOST_BYTES;
