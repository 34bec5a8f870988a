//! What a call answers.
use inlinable_string::Storage;

/// What a call answers.
#[derive(Drop, PartialEq)]
pub enum Answer {
    /// How it came out: one of [`WORDS`].
    Word(&'static str),
    Number(u64),
    Char(char),
    Text(String),
    /// A text, and where it is stored.
    Placed(String, Storage),
    Bytes(Vec<u8>),
    /// A word of [`WITH_TEXT`], and a text.
    WordAndText(&'static str, String),
    /// `not UTF-8`, and the bytes that come back.
    NotUtf8(Vec<u8>),
}

/// The words that are answers.
pub const WORDS: &[&str] = &[
    "done",
    "no memory",
    "full",
    "bad place",
    "write fault",
    "none",
    "wrong length",
    "not UTF-8",
    "no room",
    "room",
    "too long",
    "unpaired",
    "no string",
    "true",
    "false",
    "less",
    "equal",
    "greater",
];

/// The words that come before a text.
pub const WITH_TEXT: &[&str] = &["borrowed", "owned"];
