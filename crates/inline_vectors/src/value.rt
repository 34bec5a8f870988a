//! Texts, bytes, units, lists and characters of a row.

use crate::fault::Fault;
use crate::lex::RowReader;

/// The most characters, bytes or units that a repeated piece has.
const MOST: usize = 1 << 20;

/// What a piece consists of: characters, bytes or units.
pub trait Element: Copy + Drop {
    const OPEN: &'static str;

    const CLOSE: &'static str;
    /// What the value is not.
    const FAULT: Fault;

    /// Reads one, and what separates it from the next.
    fn read(reader: &mut RowReader) -> Option<Self>;
}

impl Element for char {
    const OPEN: &'static str = "\"";

    const CLOSE: &'static str = "\"";

    const FAULT: Fault = Fault("not a text");

    fn read(reader: &mut RowReader) -> Option<char> {
        match reader.next_char()? {
            '\\' => match reader.next_char()? {
                'u' => unicode(reader),
                letter => escaped(letter),
            },
            ch if ch.is_control() => None,
            ch => Some(ch),
        }
    }
}

impl Element for u8 {
    const OPEN: &'static str = "b\"";

    const CLOSE: &'static str = "\"";

    const FAULT: Fault = Fault("not bytes");

    fn read(reader: &mut RowReader) -> Option<u8> {
        let ch = match reader.next_char()? {
            '\\' => match reader.next_char()? {
                'x' => return hexadecimal(reader),
                letter => escaped(letter)?,
            },
            ch if ch.is_control() => return None,
            ch => ch,
        };
        u8::try_from(ch).ok().filter(u8::is_ascii)
    }
}

impl Element for u16 {
    const OPEN: &'static str = "[";

    const CLOSE: &'static str = "]";

    const FAULT: Fault = Fault("not units");

    /// In decimal, or with `0x` in hexadecimal.
    fn read(reader: &mut RowReader) -> Option<u16> {
        let word = reader.word();
        if !reader.takes(",") && !reader.is_at("]") {
            return None;
        }
        match word.strip_prefix("0x") {
            Some(digits) => u16::try_from(from_hexadecimal(digits)?).ok(),
            None => word.parse().ok(),
        }
    }
}

/// Reads one piece, which is not repeated.
fn piece<T: Element>(reader: &mut RowReader) -> Result<Vec<T>, Fault> {
    if !reader.takes(T::OPEN) {
        return Err(T::FAULT);
    }
    let mut items = Vec::new(reader.alloc);
    for _ in 0..=reader.rest.len() {
        if let Some(rest) = reader.rest.strip_prefix(T::CLOSE) {
            reader.rest = rest;
            return Ok(items);
        }
        items.push(T::read(reader).ok_or(T::FAULT)?)?;
    }
    Err(T::FAULT)
}

/// Reads pieces with `*` and `+`.
pub fn pieces<T: Element>(reader: &mut RowReader) -> Result<Vec<T>, Fault> {
    let mut all = Vec::new(reader.alloc);
    for _ in 0..=reader.rest.len() {
        let items = piece(reader)?;
        let times = if reader.takes("*") {
            reader.number()?
        } else {
            1
        };
        if items.len().max(1).saturating_mul(times) > MOST {
            return Err(Fault("a piece is repeated past a mebibyte"));
        }
        for _ in 0..times {
            all.extend_from_slice(items.as_slice())?;
        }
        if !reader.takes("+") {
            return Ok(all);
        }
    }
    Err(T::FAULT)
}

/// Reads a text.
pub fn text(reader: &mut RowReader) -> Result<String, Fault> {
    let mut text = String::new(reader.alloc);
    for ch in pieces(reader)?.iter() {
        text.push(*ch)?;
    }
    Ok(text)
}

/// Reads a list of texts.
pub fn list(reader: &mut RowReader) -> Result<Vec<String>, Fault> {
    if !reader.takes("[") {
        return Err(Fault("not a list of texts"));
    }
    let mut texts = Vec::new(reader.alloc);
    if reader.takes("]") {
        return Ok(texts);
    }
    for _ in 0..reader.rest.len() {
        texts.push(text(reader)?)?;
        if reader.takes("]") {
            return Ok(texts);
        }
        if !reader.takes(",") {
            break;
        }
    }
    Err(Fault("not a list of texts"))
}

/// Reads a character in quotes.
pub fn character(reader: &mut RowReader) -> Result<char, Fault> {
    if !reader.takes("'") || reader.rest.starts_with('\'') {
        return Err(Fault("not a character"));
    }
    let ch = char::read(reader).ok_or(Fault("not a character"))?;
    match reader.next_char() {
        Some('\'') => Ok(ch),
        _ => Err(Fault("not a character")),
    }
}

/// The number of these digits. Without a digit, or with too many, there is none.
fn from_hexadecimal(digits: &str) -> Option<u32> {
    if digits.chars().all(|ch| ch.is_ascii_hexdigit()) {
        u32::from_str_radix(digits, 16).ok()
    } else {
        None
    }
}

/// The character that an escape of one letter stands for.
fn escaped(letter: char) -> Option<char> {
    match letter {
        'n' => Some('\n'),
        'r' => Some('\r'),
        't' => Some('\t'),
        '0' => Some('\0'),
        '\\' | '"' | '\'' => Some(letter),
        _ => None,
    }
}

/// The character whose number is in braces.
fn unicode(reader: &mut RowReader) -> Option<char> {
    let (digits, rest) = reader.rest.strip_prefix('{')?.split_once('}')?;
    reader.rest = rest;
    char::from_u32(from_hexadecimal(digits)?)
}

/// The byte of the two digits that come next.
fn hexadecimal(reader: &mut RowReader) -> Option<u8> {
    let (digits, rest) = reader.rest.split_at_checked(2)?;
    reader.rest = rest;
    u8::try_from(from_hexadecimal(digits)?).ok()
}
