//! Tokens with two faults, and places past the largest counts.
use inlinable_string::InlineStringN;
use inline_uses::tokens::{Fault, Position, count_tokens};

/// Texts that are too long for a word of eight bytes, and then have a second fault.
const TOO_LONG: [&str; 4] = [
    "\"abcdefgh\\n\\q",
    "\"abcdefghi\\q",
    "\"abcdefghi",
    "\"abcd\\nefgh",
];

#[test]
fn what_comes_first_is_found_first_and_the_buffer_is_empty(rt: HostRuntime) {
    let start = Position { line: 1, column: 1 };
    for source in TOO_LONG {
        let mut word: InlineStringN<8> = InlineStringN::new();
        let is_first = count_tokens(&mut word, source) == Err((Fault::TooLong, start));
        assert!(rt; is_first && word.is_empty(), "{source}");
    }
}

#[test]
fn places_stop_at_the_largest_counts(rt: HostRuntime) {
    let largest = usize::MAX;
    let at = Position {
        line: largest - 1,
        column: largest - 2,
    };
    for (text, line, column) in [
        ("€xyz", largest - 1, largest),
        ("😀\n", largest, 1),
        ("x\n\n\né€😀x", largest, 5),
    ] {
        assert_eq!(rt; (at.after(text), text), (Position { line, column }, text));
    }
}
