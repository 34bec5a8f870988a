//! A value that holds a text, printed into others.
use inlinable_string::{InlinableString, InlineString, Storage, StringExt, StringMake};
use std::fmt::{self, Display, Write};
use test_support::{Hoard, NEEDS_THE_PROVED_BUILD};

/// An entry of a list, with its text in it.
#[derive(Drop)]
struct Entry {
    name: InlinableString,
    count: u32,
}

impl Display for Entry {
    fn fmt<W: fmt::Write>(&self, f: &mut fmt::Formatter<W>) -> fmt::Result {
        write!(f, "{:<6}|{:>3}", self.name, self.count)
    }
}

/// What is written piece by piece fails at the piece that does not fit.
#[test]
fn a_value_that_holds_a_text_is_written_into_others(rt: HostRuntime) {
    let alloc = rt.alloc();
    let entry = Entry {
        name: InlinableString::from(alloc, "é").expect(&rt, "memory"),
        count: 12,
    };
    let (mut array, mut text) = (InlineString::new(), InlinableString::new(alloc));
    assert!(&rt; write!(array, "{entry}; {entry}; {entry}").is_err());
    assert!(&rt; array.as_str() == "é     | 12; é     | 12; é");
    assert!(&rt; write!(text, "{entry}; {entry}; {entry}").is_ok());
    assert!(&rt; text.as_str() == "é     | 12; é     | 12; é     | 12");
}

#[test]
fn an_inline_text_is_centred_between_stars(rt: HostRuntime) {
    let text = InlinableString::from(rt.alloc(), "he").expect(&rt, "memory");
    let printed = format!(in rt.alloc(); "{text:*^6}").expect(&rt, "memory");
    assert!(&rt; text.storage() == Storage::Inline && printed.as_str() == "**he**");
}

/// What was written before stays.
#[test]
fn a_write_without_memory_fails_at_the_piece_that_is_not_inline(rt: HostRuntime) {
    let mut text = InlinableString::new(rt.alloc());
    let hoard = Hoard::take(rt.alloc()).expect(&rt, NEEDS_THE_PROVED_BUILD);
    let is_written = write!(text, "{:>29}{}{}", "a", "b", "c").is_ok();
    drop(hoard);
    assert!(&rt; !is_written && text.storage() == Storage::Inline);
    assert!(&rt; text.as_str() == "                            ab");
}
