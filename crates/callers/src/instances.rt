//! Bounds that are met: generic callers at std's `String`, at `InlinableStringN` of any limit, and
//! at a `dyn`.
use crate::{by_law, cuts, finds, makes, room, views};
use inlinable_string::run::Command;
use inlinable_string::{InlinableString, InlinableStringN, StringMake};
use std::alloc::{AllocError, Global};

/// Callers of every kind of bound.
pub fn each<S: StringMake + Drop>(alloc: Global, text: &mut S) -> Result<S, AllocError> {
    room::add_pair(text, "key", "value")?;
    cuts::remove_at(text, 0);
    finds::shorten(text, 9);
    by_law::obeyed(text, Command::Pop);
    makes::with_room(alloc, views::spare(text))
}

/// These at `String`.
pub fn each_string(alloc: Global, text: &mut String) -> Result<String, AllocError> {
    each(alloc, text)
}

/// These at any limit.
pub fn each_limit<const N: usize>(
    alloc: Global,
    text: &mut InlinableStringN<N>,
) -> Result<InlinableStringN<N>, AllocError> {
    each(alloc, text)
}

/// Callers of a `dyn StringExt`.
pub fn behind_dyn(alloc: Global, text: &mut InlinableString) -> Result<String, AllocError> {
    finds::strip_extension(text);
    makes::string_of(alloc, text)
}
