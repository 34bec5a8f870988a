//! Strings that keep a short text in the value itself, and move to the heap when it outgrows that.
//!
//! - [`InlineStringN`] has at most `N` bytes and never allocates.
//! - [`InlinableStringN`] moves to the heap when it outgrows `N` bytes.
//! - [`StringExt`] and [`StringMake`] are implemented by it and by std's `String`, so that code can
//!   be written once for both.
//! - [`run`] executes lists of commands on any text.
#![tactic(auto)]

mod boxable_string;
mod cells;
mod conversions;
mod inlinable_string;
pub mod inline_json;
pub mod inline_string;
pub mod laws;
pub mod run;
pub mod string_ext;
mod well_formed;

pub use boxable_string::BoxableString;
pub use inlinable_string::{InlinableString, InlinableStringN};
pub use inline_json::JsonError;
pub use inline_string::{
    INLINE_STRING_CAPACITY, InlineString, InlineStringN, NotEnoughSpaceError, ReplaceError,
};
pub use string_ext::{Storage, StringExt, StringMake, Utf16Error};
