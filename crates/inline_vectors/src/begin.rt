//! How a row begins: the type of its text, and how the text is made.

use crate::fault::Fault;
use crate::lex::RowReader;
use crate::value::text;
use inlinable_string::INLINE_STRING_CAPACITY;

const NOT_TYPE: Fault = Fault("not a type of text");

const NOT_START: Fault = Fault("a word of the start comes twice, or lacks its number or text");

/// A type of text. The number is the capacity inline.
#[derive(Clone, Copy, PartialEq, Eq)]
pub enum Kind {
    /// `InlineStringN`.
    Array(usize),
    /// `InlinableStringN`.
    Inlinable(usize),
    Boxable,
    String,
    /// `HeapText`, a user-defined type.
    User,
}

/// How a text is made: empty or with room, with more before it and after it at first.
#[derive(Drop, PartialEq)]
pub struct Start {
    pub text: String,
    pub room: Option<usize>,
    /// The capacity that the text is made with, if it is another.
    pub asked: Option<usize>,
    /// What stood before it and is removed.
    pub front: String,
    /// What stood after it and is cut off.
    pub back: String,
}

/// Reads the types of a row, which has one at least.
pub fn kinds_of(reader: &mut RowReader) -> Result<Vec<Option<Kind>>, Fault> {
    let mut kinds = Vec::new(reader.alloc);
    for _ in 0..reader.rest.len() {
        kinds.push(kind_of(reader)?)?;
        if !reader.takes(",") {
            return Ok(kinds);
        }
    }
    Err(NOT_TYPE)
}

/// Reads a type; `None` is that of `every`.
pub fn kind_of(reader: &mut RowReader) -> Result<Option<Kind>, Fault> {
    let kind = match reader.word() {
        "every" => return Ok(None),
        "InlineString" => Kind::Array(INLINE_STRING_CAPACITY),
        "InlineStringN" => Kind::Array(capacity_of(reader)?),
        "InlinableString" => Kind::Inlinable(INLINE_STRING_CAPACITY),
        "InlinableStringN" => Kind::Inlinable(capacity_of(reader)?),
        "BoxableString" => Kind::Boxable,
        "String" => Kind::String,
        "HeapText" => Kind::User,
        _ => return Err(NOT_TYPE),
    };
    Ok(Some(kind))
}

/// Reads a number in angle brackets.
fn capacity_of(reader: &mut RowReader) -> Result<usize, Fault> {
    if !reader.takes("<") {
        return Err(NOT_TYPE);
    }
    let capacity = reader.number()?;
    if !reader.takes(">") {
        return Err(NOT_TYPE);
    }
    Ok(capacity)
}

/// Reads a text, and how it is made.
pub fn start_of(reader: &mut RowReader) -> Result<Start, Fault> {
    let text = text(reader)?;
    making_of(reader, text)
}

/// Reads how this text is made.
pub fn making_of(reader: &mut RowReader, text: String) -> Result<Start, Fault> {
    let mut start = Start {
        text,
        room: None,
        asked: None,
        front: String::new(reader.alloc),
        back: String::new(reader.alloc),
    };
    for _ in 0..reader.rest.len() {
        if reader.takes_word("room") {
            let room = reader.number()?;
            if start.room.replace(room).is_some() {
                return Err(NOT_START);
            }
        } else if reader.takes_word("asking") {
            let asked = reader.number()?;
            if start.asked.replace(asked).is_some() {
                return Err(NOT_START);
            }
        } else if reader.takes_word("after") {
            put(reader, &mut start.front)?;
        } else if reader.takes_word("before") {
            put(reader, &mut start.back)?;
        } else {
            break;
        }
    }
    Ok(start)
}

/// Reads a text that is not empty, into a place that has none yet.
fn put(reader: &mut RowReader, place: &mut String) -> Result<(), Fault> {
    let text = text(reader)?;
    if text.is_empty() || !place.is_empty() {
        return Err(NOT_START);
    }
    *place = text;
    Ok(())
}
