//! Texts as a `str`, and as a slice of bytes.
use inlinable_string::{InlinableString, InlineString, StringExt, StringMake};
use std::convert::{AsSlice, AsStr};
use std::process::Abort;

/// A text, how many words it has, its last character, and the sum of its bytes.
type Row<'a> = (&'a str, usize, Option<char>, usize);

const ROWS: &[Row] = &[
    ("", 1, None, 0),
    ("he", 1, Some('e'), 0x68 + 0x65),
    (
        "a é €",
        3,
        Some('€'),
        0x61 + 0x20 + 0xC3 + 0xA9 + 0x20 + 0xE2 + 0x82 + 0xAC,
    ),
];

/// A function over `&str`.
fn words_in(string: &str) -> usize {
    string.split(' ').count()
}

/// The sum of the bytes of any value that lends some.
fn sum_of<T: AsSlice<u8>>(value: &T) -> usize {
    let bytes = value.as_slice().iter();
    bytes.fold(0usize, |sum, byte| sum.saturating_add(usize::from(*byte)))
}

/// Whether any value that lends a string lends this one.
fn is_lent<T: AsStr>(value: &T, content: &str) -> bool {
    value.as_str() == content
}

/// The last of the characters of a text, over which a `for` goes.
fn last_of(text: &InlineString) -> Option<char> {
    let mut last = None;
    for ch in text {
        last = Some(ch);
    }
    last
}

/// Whether a text is seen so by what takes a `str`, and its bytes by what takes a slice.
fn is_seen(string: &str, sum_of_bytes: usize, &(content, words, last, sum): &Row) -> bool {
    let is_same = string == content && string.ends_with(content) && sum_of_bytes == sum;
    is_same && words_in(string) == words && string.chars().last() == last
}

/// Inline, and on the heap.
#[test]
fn a_text_is_used_as_a_str(rt: HostRuntime) {
    for row in ROWS {
        for room in [0, 31] {
            let made = InlinableString::with_capacity(rt.alloc(), room);
            let mut text = made.expect(&rt, "memory");
            text.push_str(row.0).expect(&rt, "memory");
            assert!(&rt; is_seen(&text, sum_of(&text), row));
        }
    }
}

/// The text with this content after a byte that was removed.
fn moved(rt: &impl Abort, content: &str) -> InlineString {
    let mut text = InlineString::from("x");
    text.push_str(content).expect(rt, "at most 30 bytes");
    assert!(rt; text.is_char_boundary(0) && 0 < text.len());
    text.remove(0);
    text
}

#[test]
fn a_text_in_an_array_is_used_as_a_str(rt: HostRuntime) {
    for row in ROWS {
        let made = InlineString::try_from(row.0);
        for text in [made.expect(&rt, "at most 30 bytes"), moved(&rt, row.0)] {
            assert!(&rt; is_seen(&text, sum_of(&text), row));
            assert!(&rt; is_lent(&text, row.0) && last_of(&text) == row.2);
        }
    }
}
