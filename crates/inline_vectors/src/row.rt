//! A row: a type, how its text is made, and steps on it.
use crate::answer::Answer;
use crate::begin::{Kind, Start, kind_of, kinds_of, start_of};
use crate::call::Call;
use crate::fault::{Fault, NO_MEMORY, RowFault};
use crate::lex::RowReader;
use crate::step::{step_of, wanted_of};
use inlinable_string::Storage;
use std::alloc::{AllocError, Global};

/// A row of a file.
#[derive(Drop)]
pub struct Row {
    /// The number of its first line, from 1 on.
    pub line: usize,
    /// `None` for `every`.
    pub kind: Option<Kind>,
    pub start: Start,
    pub steps: Vec<Step>,
}

/// A call, how often and with what memory it is made, and what must be seen then.
#[derive(Drop)]
pub struct Step {
    pub times: usize,
    pub memory: Memory,
    /// How many requests for memory it makes, if the row says so.
    pub requests: Option<usize>,
    pub call: Call,
    /// How many bytes of the row come after its call.
    pub left: usize,
    /// `None` in a question.
    pub wanted: Option<Wanted>,
}

/// What memory a call has.
#[derive(Clone, Copy, PartialEq, Eq)]
pub enum Memory {
    Ample,
    /// None: each request is refused.
    Held,
    /// One block, which serves one request of this many bytes.
    Block(usize),
}

/// What a call must answer, and what must be seen after it.
#[derive(Drop, PartialEq)]
pub struct Wanted {
    pub answer: Answer,
    pub seen: Seen,
}

/// What is seen of a text after a call.
#[derive(Drop, PartialEq)]
pub enum Seen {
    /// Text, storage and capacity are as before the call.
    Unchanged,
    /// The text, and where it is stored if the row says so.
    Text(String, Option<Storage>),
}

/// Whether the calls of a row have answers.
#[derive(Clone, Copy, PartialEq, Eq)]
enum Form {
    /// Each has one, and what is seen after it.
    Answered,
    /// None has one.
    Question,
}

/// Reads all rows of a file, of which there must be one.
pub fn rows_of(alloc: Global, file: &str) -> Result<Vec<Row>, RowFault> {
    let mut rows = Vec::new(alloc);
    let mut text = String::new(alloc);
    let mut first = 0;
    let mut number = 0usize;
    for line in file.lines() {
        number = number.saturating_add(1);
        if line.is_empty() || line.starts_with('#') {
            continue;
        }
        if !line.starts_with(' ') {
            add_row(alloc, &mut rows, first, text.as_str())?;
            text.clear();
            first = number;
        } else if text.is_empty() {
            return Err(RowFault::of(
                alloc,
                number,
                Fault("no row comes before this line, which begins with a space"),
                line,
            ));
        }
        add_line(&mut text, line).map_err(|_| RowFault::of(alloc, number, NO_MEMORY, ""))?;
    }
    add_row(alloc, &mut rows, first, text.as_str())?;
    if rows.is_empty() {
        return Err(RowFault::of(alloc, number, Fault("no row is in the file"), ""));
    }
    Ok(rows)
}

/// Reads one row without answers, of one type.
pub fn question_of(alloc: Global, line: &str) -> Result<Row, RowFault> {
    let mut reader = RowReader { alloc, rest: line };
    read_question(&mut reader).map_err(|fault| RowFault::of(alloc, 1, fault, reader.rest))
}

fn read_question(reader: &mut RowReader) -> Result<Row, Fault> {
    let kind = kind_of(reader)?;
    read_row(reader, 1, kind, Form::Question)
}

/// Adds a line to those of a row, and a line feed before it, which no text of the row can have.
fn add_line(text: &mut String, line: &str) -> Result<(), AllocError> {
    text.push('\n')?;
    text.push_str(line)
}

/// Adds the rows of these lines: one of each type that they name, if there are lines.
fn add_row(alloc: Global, rows: &mut Vec<Row>, first: usize, text: &str) -> Result<(), RowFault> {
    if text.is_empty() {
        return Ok(());
    }
    let mut reader = RowReader { alloc, rest: text };
    match read_rows(&mut reader, first, rows) {
        Ok(()) => Ok(()),
        Err(fault) => Err(RowFault::of(alloc, first, fault, reader.rest)),
    }
}

fn read_rows(reader: &mut RowReader, line: usize, rows: &mut Vec<Row>) -> Result<(), Fault> {
    let kinds = kinds_of(reader)?;
    let rest = reader.rest;
    for &kind in &kinds {
        reader.rest = rest;
        rows.push(read_row(reader, line, kind, Form::Answered)?)?;
    }
    Ok(())
}

/// Reads what comes after the type of a row whose first line has this number.
fn read_row(
    reader: &mut RowReader,
    line: usize,
    kind: Option<Kind>,
    form: Form,
) -> Result<Row, Fault> {
    let start = start_of(reader)?;
    if !reader.takes(":") {
        return Err(Fault("no colon comes after the start of the text"));
    }
    let steps = steps_of(reader, kind, form)?;
    if !reader.rest.is_empty() {
        return Err(Fault("neither a semicolon nor the end of the row"));
    }
    Ok(Row {
        line,
        kind,
        start,
        steps,
    })
}

/// Reads the steps on a text of this type, of which there must be one.
fn steps_of(reader: &mut RowReader, kind: Option<Kind>, form: Form) -> Result<Vec<Step>, Fault> {
    let mut steps = Vec::new(reader.alloc);
    let mut kind = kind;
    for _ in 0..reader.rest.len() {
        let mut step = step_of(reader)?;
        if form == Form::Answered {
            let (wanted, after) = wanted_of(reader, kind, &step.call)?;
            step.wanted = Some(wanted);
            kind = after;
        } else if reader.is_at("=") {
            return Err(Fault("a question has an answer"));
        }
        steps.push(step)?;
        if !reader.takes(";") {
            return Ok(steps);
        }
    }
    Err(Fault("no call"))
}
