//! Values, types and what is found, as rows have them: each text in one piece, and numbers in
//! decimal.

use crate::answer::Answer;
use crate::begin::Kind;
use crate::play::Found;
use inlinable_string::{INLINE_STRING_CAPACITY, Storage};
use std::fmt::{self, Formatter, Write};

/// A text in quotes.
#[derive(Clone, Copy)]
pub struct Quoted<'a>(pub &'a str);

/// Bytes in quotes.
#[derive(Clone, Copy)]
pub struct QuotedBytes<'a>(pub &'a [u8]);

/// Prints a character as it is in these quotes.
fn print_char<W: Write>(f: &mut Formatter<W>, ch: char, quote: char) -> fmt::Result {
    match ch {
        '\n' => f.write_str("\\n"),
        '\r' => f.write_str("\\r"),
        '\t' => f.write_str("\\t"),
        '\0' => f.write_str("\\0"),
        '\\' => f.write_str("\\\\"),
        _ if ch == quote => write!(f, "\\{quote}"),
        _ if ch.is_control() => {
            let code = ch as u32;
            write!(f, "\\u{{{code:x}}}")
        }
        _ => f.write_char(ch),
    }
}

impl fmt::Display for Quoted<'_> {
    fn fmt<W: Write>(&self, f: &mut Formatter<W>) -> fmt::Result {
        f.write_char('"')?;
        for ch in self.0.chars() {
            print_char(f, ch, '"')?;
        }
        f.write_char('"')
    }
}

impl fmt::Display for QuotedBytes<'_> {
    fn fmt<W: Write>(&self, f: &mut Formatter<W>) -> fmt::Result {
        f.write_str("b\"")?;
        for &byte in self.0 {
            match byte {
                b'\n' | b'\r' | b'\t' | b'\0' | b' '..=b'~' => {
                    print_char(f, char::from(byte), '"')?
                }
                _ => write!(f, "\\x{byte:02x}")?,
            }
        }
        f.write_char('"')
    }
}

/// Prints a character in quotes.
fn print_quoted_char<W: Write>(f: &mut Formatter<W>, ch: char) -> fmt::Result {
    f.write_char('\'')?;
    print_char(f, ch, '\'')?;
    f.write_char('\'')
}

/// The word of a storage.
pub fn storage_word(storage: Storage) -> &'static str {
    match storage {
        Storage::Inline => "inline",
        Storage::Heap => "heap",
    }
}

impl fmt::Display for Kind {
    fn fmt<W: Write>(&self, f: &mut Formatter<W>) -> fmt::Result {
        match *self {
            Kind::Array(INLINE_STRING_CAPACITY) => f.write_str("InlineString"),
            Kind::Array(capacity) => write!(f, "InlineStringN<{capacity}>"),
            Kind::Inlinable(INLINE_STRING_CAPACITY) => f.write_str("InlinableString"),
            Kind::Inlinable(capacity) => write!(f, "InlinableStringN<{capacity}>"),
            Kind::Boxable => f.write_str("BoxableString"),
            Kind::String => f.write_str("String"),
            Kind::User => f.write_str("HeapText"),
        }
    }
}

impl fmt::Display for Answer {
    fn fmt<W: Write>(&self, f: &mut Formatter<W>) -> fmt::Result {
        match self {
            Answer::Word(word) => f.write_str(word),
            Answer::Number(number) => write!(f, "{number}"),
            Answer::Char(ch) => print_quoted_char(f, *ch),
            Answer::Text(text) => Quoted(text.as_str()).fmt(f),
            Answer::Placed(text, storage) => {
                write!(f, "{} {}", Quoted(text.as_str()), storage_word(*storage))
            }
            Answer::Bytes(bytes) => QuotedBytes(bytes.as_slice()).fmt(f),
            Answer::WordAndText(word, text) => write!(f, "{word} {}", Quoted(text.as_str())),
            Answer::NotUtf8(bytes) => write!(f, "not UTF-8 {}", QuotedBytes(bytes.as_slice())),
        }
    }
}

/// What was found after a step. An answer that is given several times is printed once.
impl fmt::Display for Found {
    fn fmt<W: Write>(&self, f: &mut Formatter<W>) -> fmt::Result {
        let mut last = None;
        for answer in &self.answers {
            if last != Some(answer) {
                let mark = if last.is_some() { " or " } else { "" };
                write!(f, "{mark}{answer}")?;
            }
            last = Some(answer);
        }
        let mark = if last.is_some() { ", " } else { "" };
        write!(f, "{mark}{}", Quoted(self.text.as_str()))?;
        match self.storage {
            Some(storage) => write!(f, " {}", storage_word(storage)),
            None => Ok(()),
        }
    }
}
