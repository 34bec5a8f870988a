//! Questions of standard input: rows without answers, and scripts.

use crate::fault::{Fault, NO_MEMORY};
use crate::files::Outcome;
use crate::play::memory::play_all;
use crate::play::playing::Playing;
use crate::play::{Made, Way};
use crate::row::{Row, question_of};
use crate::scripts::script_line;
use std::alloc::Global;
use std::fmt::Write;
use std::io::{self, BufRead, BufReader};

/// Answers each line. The first that is no question, or that can't be played, ends it.
pub fn answer_questions<R: Input + Print + AllocGlobal>(rt: &R) -> io::Result<Outcome> {
    let alloc = rt.alloc();
    for line in BufReader::new(alloc, rt.reader())?.lines(alloc) {
        let line = line?;
        let (outcome, answer) = answer_line(alloc, line.as_str())?;
        println!(rt; "{answer}")?;
        if outcome != Outcome::Right {
            return Ok(outcome);
        }
    }
    Ok(Outcome::Right)
}

/// The line with its answers, or why there are none.
fn answer_line(alloc: Global, line: &str) -> io::Result<(Outcome, String)> {
    if let Some(rest) = line.strip_prefix("script ") {
        return Ok(match script_line(alloc, rest)? {
            Some(answer) => (Outcome::Right, answer),
            None => (Outcome::Faulty, format!(in alloc; "not a script: {line}")?),
        });
    }
    let row = match question_of(alloc, line) {
        Ok(row) => row,
        Err(fault) => return Ok((Outcome::Faulty, format!(in alloc; "{fault}")?)),
    };
    match answered(alloc, line, &row) {
        Ok(answered) => Ok((Outcome::Right, answered)),
        Err(fault) => Ok((Outcome::Faulty, format!(in alloc; "{line}: {fault}")?)),
    }
}

/// The line of a row, with what is found after each call.
fn answered<'a>(alloc: Global, line: &str, row: &'a Row) -> Result<String, Fault> {
    let made = Made {
        kind: row.kind.ok_or(Fault("a question has one type"))?,
        room: row.start.room,
        way: Way::Calls,
    };
    let mut playing: Vec<Playing<'a>> = Vec::new(alloc);
    playing.push(Playing::new(alloc, row, made)?)?;
    play_all(alloc, &mut playing)?;
    let mut answered = String::new(alloc);
    let mut start = 0;
    for one in &playing {
        if let Some(fault) = one.fault {
            return Err(fault);
        }
        for (step, prepared) in row.steps.iter().zip(&one.steps) {
            let end = line.len().saturating_sub(step.left);
            let part = part_of(line, start, end);
            write!(answered, "{part} = {}", prepared.found).map_err(|_| NO_MEMORY)?;
            start = end;
        }
    }
    answered.push_str(part_of(line, start, line.len()))?;
    Ok(answered)
}

/// What a line has from one place to another.
fn part_of(line: &str, start: usize, end: usize) -> &str {
    let (front, _) = line.split_at_checked(end).unwrap_or((line, ""));
    let (_, part) = front.split_at_checked(start).unwrap_or((front, ""));
    part
}
