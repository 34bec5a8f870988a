//! The steps of a row.

use crate::answer::{Answer, WITH_TEXT, WORDS};
use crate::begin::{Kind, Start, making_of, start_of};
use crate::call::{Argument, Call};
use crate::fault::Fault;
use crate::lex::RowReader;
use crate::row::{Memory, Seen, Step, Wanted};
use crate::value::{character, list, pieces, text};
use inlinable_string::Storage;

/// Reads a step, without what is wanted of it.
pub fn step_of(reader: &mut RowReader) -> Result<Step, Fault> {
    let times = times_of(reader)?;
    let memory = if reader.takes_word("held") {
        Memory::Held
    } else if reader.takes_word("block") {
        Memory::Block(reader.number()?)
    } else {
        Memory::Ample
    };
    let requests = match memory {
        Memory::Ample if reader.takes_word("requests") => Some(reader.number()?),
        _ => None,
    };
    let call = call_of(reader)?;
    Ok(Step {
        times,
        memory,
        requests,
        call,
        left: reader.rest.len(),
        wanted: None,
    })
}

/// Reads how often a call is given.
fn times_of(reader: &mut RowReader) -> Result<usize, Fault> {
    if !reader.is_at_digit() {
        return Ok(1);
    }
    let times = reader.number()?;
    if times == 0 || !reader.takes_word("times") {
        return Err(Fault("not a number above zero and `times`"));
    }
    Ok(times)
}

/// Reads a call.
fn call_of(reader: &mut RowReader) -> Result<Call, Fault> {
    let from = reader.rest;
    let name = reader.word();
    let Some(mut call) = Call::named(reader.alloc, name) else {
        reader.rest = from;
        return Err(Fault("no call has this name"));
    };
    give(reader, &mut call)?;
    Ok(call)
}

/// Reads what a call is given.
fn give(reader: &mut RowReader, call: &mut Call) -> Result<(), Fault> {
    for &argument in call.arguments {
        match argument {
            Argument::Number => call.number = reader.number()?,
            Argument::Room => {
                call.number = reader.number()?;
                call.asked = call.number;
                if reader.takes_word("asking") {
                    call.asked = reader.number()?;
                }
            }
            Argument::Range => give_range(reader, call)?,
            Argument::Char => call.text.push(character(reader)?)?,
            Argument::TextOrList if reader.is_at("[") => {
                call.list = list(reader)?;
                if call.list.is_empty() {
                    return Err(Fault("not a list of one text at least"));
                }
            }
            Argument::Text | Argument::TextOrList => call.text = text(reader)?,
            Argument::List => call.list = list(reader)?,
            Argument::Bytes => call.bytes = pieces(reader)?,
            Argument::Units => call.units = pieces(reader)?,
            Argument::Other => {
                call.text = text(reader)?;
                call.other = other_of(reader, call.text.as_str())?;
            }
        }
    }
    Ok(())
}

/// Reads the range that a call is given.
fn give_range(reader: &mut RowReader, call: &mut Call) -> Result<(), Fault> {
    call.number = reader.number()?;
    if !reader.takes("..") {
        return Err(Fault("not a range"));
    }
    call.end = reader.number()?;
    Ok(())
}

/// Reads how the text is made that the call is given. It may be written again.
fn other_of(reader: &mut RowReader, text: &str) -> Result<Option<Start>, Fault> {
    if !reader.takes_word("other") {
        return Ok(None);
    }
    let start = if reader.is_at("\"") {
        start_of(reader)?
    } else {
        let text = String::from_str(reader.alloc, text)?;
        making_of(reader, text)?
    };
    let is_plain = start.room.is_none() && start.front.is_empty() && start.back.is_empty();
    if is_plain || start.text.as_str() != text {
        return Err(Fault("`other` must be followed by how the text of the call is made"));
    }
    Ok(Some(start))
}

/// Reads what is wanted of a step on a text of this type.
pub fn wanted_of(
    reader: &mut RowReader,
    kind: Option<Kind>,
    call: &Call,
) -> Result<(Wanted, Option<Kind>), Fault> {
    if !reader.takes("=") {
        return Err(Fault("no `=` and answer come after the call"));
    }
    let answer = answer_of(reader, kind, call)?;
    let kind = kind_after(kind, call, &answer);
    if !reader.takes(",") {
        return Err(Fault("no comma and what is seen come after the answer"));
    }
    let seen = if reader.takes_word("unchanged") {
        Seen::Unchanged
    } else {
        let text = text(reader)?;
        Seen::Text(text, storage_of(reader, kind)?)
    };
    Ok((Wanted { answer, seen }, kind))
}

/// The type of the text from a call on.
fn kind_after(kind: Option<Kind>, call: &Call, answer: &Answer) -> Option<Kind> {
    match (answer, call.word, kind) {
        (Answer::Word("done"), "with_limit", Some(Kind::Inlinable(_))) => {
            Some(Kind::Inlinable(call.number))
        }
        (Answer::Word("done"), "into_array", Some(Kind::Inlinable(capacity))) => {
            Some(Kind::Array(capacity))
        }
        (Answer::Word("done"), "boxed", Some(_)) => Some(Kind::Boxable),
        _ => kind,
    }
}

/// Reads where a text of this type is stored, which a row says of some types and not of others.
fn storage_of(reader: &mut RowReader, kind: Option<Kind>) -> Result<Option<Storage>, Fault> {
    let storage = if reader.takes_word("inline") {
        Some(Storage::Inline)
    } else if reader.takes_word("heap") {
        Some(Storage::Heap)
    } else {
        None
    };
    match (kind, storage) {
        (Some(Kind::Inlinable(_) | Kind::Boxable), None) => Err(Fault(
            "where the text is stored is not stated",
        )),
        (None | Some(Kind::Array(_)), Some(_)) => Err(Fault(
            "where the text is stored is stated, and must not be",
        )),
        _ => Ok(storage),
    }
}

/// Reads what a call answers.
fn answer_of(reader: &mut RowReader, kind: Option<Kind>, call: &Call) -> Result<Answer, Fault> {
    if reader.is_at("'") {
        return Ok(Answer::Char(character(reader)?));
    }
    if reader.is_at("b\"") {
        return Ok(Answer::Bytes(pieces(reader)?));
    }
    if reader.is_at("\"") {
        let text = text(reader)?;
        if call.word != "split_off" && call.word != "drain" {
            return Ok(Answer::Text(text));
        }
        return Ok(match storage_of(reader, kind)? {
            Some(storage) => Answer::Placed(text, storage),
            None => Answer::Text(text),
        });
    }
    if reader.is_at_digit() || reader.is_at("max") {
        return Ok(Answer::Number(reader.number()? as u64));
    }
    word_answer_of(reader)
}

/// Reads an answer that begins with a word.
fn word_answer_of(reader: &mut RowReader) -> Result<Answer, Fault> {
    for &word in WITH_TEXT {
        if reader.takes_word(word) {
            return Ok(Answer::WordAndText(word, text(reader)?));
        }
    }
    for &word in WORDS {
        if reader.takes_word(word) {
            return if word == "not UTF-8" && reader.is_at("b\"") {
                Ok(Answer::NotUtf8(pieces(reader)?))
            } else {
                Ok(Answer::Word(word))
            };
        }
    }
    Err(Fault("not an answer"))
}
