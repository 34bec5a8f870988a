//! Files of rows.

use crate::play::each::{Wronged, wrong_rows};
use crate::play::plays::Plays;
use crate::play::refused::rows_after;
use crate::row::rows_of;
use crate::scripts::{script_after, words_after};
use std::env::Env;
use std::fmt::Display;
use std::rt::Files;
use std::{fs, io};

/// How a file ended, or the program: the exit status. The worse comes later.
#[derive(Clone, Copy, PartialEq, Eq, PartialOrd, Ord)]
pub enum Outcome {
    Right,
    /// A row is wrong.
    Wrong,
    /// A row or a file was not played.
    Faulty,
}

/// Plays each file, of which there must be one.
pub fn play_files<R: Files + Print + AllocGlobal>(rt: &R, files: &[String]) -> io::Result<Outcome> {
    if files.is_empty() {
        println!(rt; "usage: inline_vectors FILE.. | inline_vectors - < QUESTIONS")?;
        return Ok(Outcome::Faulty);
    }
    let mut outcome = Outcome::Right;
    for file in files {
        outcome = outcome.max(play_file(rt, file.as_str())?);
    }
    Ok(outcome)
}

/// Plays the rows or the script of a file, or reads the program's words, after this number of other
/// requests for memory, and prints what came of it. Whatever runs the program refuses one request.
pub fn play_refused<R: Env + Files + Print + AllocGlobal>(
    rt: &R,
    file: &str,
    way: &str,
    before: &str,
) -> io::Result<Outcome> {
    let alloc = rt.alloc();
    let before: usize = before.parse().ok().ok_or(io::ErrorKind::InvalidInput)?;
    let content = fs::read_to_string(rt, file)?;
    let (line, is_granted) = match (way, content.strip_prefix("script ")) {
        ("words", _) => words_after(rt, before)?,
        (_, Some(script)) => {
            let ending = script_after(alloc, script.trim_end(), before)?;
            ending.ok_or(io::ErrorKind::InvalidData)?
        }
        _ => match rows_after(alloc, content.as_str(), way, before) {
            Ok(ending) => ending,
            Err(fault) => (format!(in alloc; "{fault}")?, false),
        },
    };
    let next = if is_granted { "granted" } else { "refused" };
    println!(rt; "{line}, and the next request {next}")?;
    Ok(Outcome::Right)
}

/// Plays each row of a file, and prints those that are wrong, how many there are, and their plays.
fn play_file<R: Files + Print + AllocGlobal>(rt: &R, file: &str) -> io::Result<Outcome> {
    let alloc = rt.alloc();
    let content = match fs::read_to_string(rt, file) {
        Ok(content) => content,
        Err(error) => return print_fault(rt, file, &error),
    };
    let rows = match rows_of(alloc, content.as_str()) {
        Ok(rows) => rows,
        Err(fault) => return print_fault(rt, file, &fault),
    };
    let mut plays = Plays::default();
    let wrong = match wrong_rows(alloc, &rows, &mut plays) {
        Ok(wrong) => wrong,
        Err(fault) => return print_fault(rt, file, &fault),
    };
    let outcome = print_wrong(rt, file, &wrong)?;
    let (count, wrong) = (rows.len(), wrong.len());
    println!(rt; "{file}: {count} rows, {wrong} wrong; plays: {plays}")?;
    Ok(outcome)
}

/// Prints why a file is not played.
fn print_fault<R: Print, F: Display>(rt: &R, file: &str, fault: &F) -> io::Result<Outcome> {
    println!(rt; "{file}: {fault}")?;
    Ok(Outcome::Faulty)
}

/// Prints each row that is wrong, or that was not played.
fn print_wrong<R: Print>(rt: &R, file: &str, wrong: &[(usize, Wronged)]) -> io::Result<Outcome> {
    let mut outcome = Outcome::Right;
    for (line, wronged) in wrong {
        match wronged {
            Ok(wrong) => {
                println!(rt; "{file}:{line}: {wrong}")?;
                outcome = outcome.max(Outcome::Wrong);
            }
            Err(fault) => {
                println!(rt; "{file}:{line}: {fault}")?;
                outcome = Outcome::Faulty;
            }
        }
    }
    Ok(outcome)
}
