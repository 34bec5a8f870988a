//! Texts by their numbers, in the order of these.
use inlinable_string::InlineStringN;
use std::fmt::Write;

/// The text of a number below a million.
pub fn name(number: usize) -> InlineStringN<8> {
    let mut name = InlineStringN::new();
    let _ = write!(name, "{number:06}");
    name
}
