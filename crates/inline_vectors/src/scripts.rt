//! A line of a script: the word of its text, and the script, as a text or else as bytes. The answer
//! is the status that the program `inline_script` ends with, and what it prints.

use crate::lex::RowReader;
use crate::play::refused::{Ending, refused_before};
use crate::print::{Quoted, QuotedBytes};
use crate::value::{pieces, text};
use script_language::ScriptFault;
use script_language::arguments::words_of;
use script_language::script::script;
use std::alloc::{AllocError, Global};
use std::env::Env;

/// How many bytes a script prints at most while its requests are counted.
const PRINTED: usize = 1_000;

/// The line with its answer; `None` where it is no script.
pub fn script_line(alloc: Global, line: &str) -> Result<Option<String>, AllocError> {
    Ok(script_after(alloc, line, 0)?.map(|(line, _)| line))
}

/// The same with this number of other requests before those of the script.
pub fn script_after(
    alloc: Global,
    line: &str,
    before: usize,
) -> Result<Option<Ending>, AllocError> {
    let Some((word, rest)) = line.split_once(' ') else {
        return Ok(None);
    };
    let mut reader = RowReader { alloc, rest };
    let Some(input) = input_of(&mut reader) else {
        return Ok(None);
    };
    if !reader.rest.is_empty() {
        return Ok(None);
    }
    let words = [String::from_str(alloc, word)?];
    let mut out = Vec::with_capacity(alloc, PRINTED)?;
    let mut lines = input.as_slice();
    let refused = refused_before(alloc, before)?;
    if refused.is_some() {
        return Ok(refused);
    }
    let answer = script(alloc, &words, &mut lines, &mut out);
    let is_granted = Box::new(alloc, 0u8).is_ok();
    let status = printed_fault(alloc, answer, &mut out)?;
    let input = quoted(alloc, input.as_slice())?;
    let printed = quoted(alloc, out.as_slice())?;
    let line = format!(in alloc; "script {word} {input} = {status}, {printed}")?;
    Ok(Some((line, is_granted)))
}

/// How many words the program is given, read after this number of other requests.
pub fn words_after<R: Env + AllocGlobal>(rt: &R, before: usize) -> Result<Ending, AllocError> {
    let alloc = rt.alloc();
    if let Some(ending) = refused_before(alloc, before)? {
        return Ok(ending);
    }
    let words = words_of(rt);
    let is_granted = Box::new(alloc, 0u8).is_ok();
    let line = match words {
        Ok(words) => format!(in alloc; "{} words", words.len())?,
        Err(fault) => format!(in alloc; "{fault}")?,
    };
    Ok((line, is_granted))
}

/// The bytes of a script; `None` where it is neither a text nor bytes.
fn input_of(reader: &mut RowReader) -> Option<Vec<u8>> {
    if reader.is_at("b") {
        return pieces::<u8>(reader).ok();
    }
    Some(text(reader).ok()?.into_bytes())
}

/// Bytes as a row has them: as a text, if they are one.
fn quoted(alloc: Global, bytes: &[u8]) -> Result<String, AllocError> {
    Ok(match str::from_utf8(bytes) {
        Ok(string) => format!(in alloc; "{}", Quoted(string))?,
        Err(_) => format!(in alloc; "{}", QuotedBytes(bytes))?,
    })
}

/// The status of a script, of which a fault is printed.
fn printed_fault(
    alloc: Global,
    answer: Result<(), ScriptFault>,
    out: &mut Vec<u8>,
) -> Result<u8, AllocError> {
    let Err(fault) = answer else {
        return Ok(0);
    };
    let line = format!(in alloc; "{fault}\n")?;
    out.extend_from_slice(line.as_bytes())?;
    Ok(fault.status())
}
