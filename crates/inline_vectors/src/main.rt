//! Plays the files of rows that its arguments name, and prints each row that is wrong. With the
//! argument `-` it answers the questions of standard input, a line each. With `refuse` it plays one
//! row, in which an allocation may fail.
//!
//! The exit status is 0 if all rows were right, 1 if one was wrong, and 2 after a fault.
#![tactic(auto)]

mod answer;
mod begin;
mod call;
mod fault;
mod files;
mod lex;
mod play;
mod print;
mod questions;
mod row;
mod scripts;
mod step;
mod text;
mod value;

use files::{Outcome, play_files, play_refused};
use questions::answer_questions;
use std::env::{self, Env};
use std::io;
use std::process::ExitCode;
use std::rt::Files;

fn main(rt: HostRuntime) -> ExitCode {
    match run_program(&rt) {
        Ok(outcome) => ExitCode::from(outcome as u8),
        Err(error) => {
            // The status reports a fault that can't be written.
            let _ = println!(rt; "{error}");
            ExitCode::from(2)
        }
    }
}

/// Does what the arguments say.
fn run_program<R: Env + Files + Input + Print + AllocGlobal>(rt: &R) -> io::Result<Outcome> {
    let words: Vec<String> = env::args(rt)?.skip(1).collect(rt.alloc())?;
    match words.as_slice() {
        [word] if word.as_str() == "-" => answer_questions(rt),
        [word, file, way, before] if word.as_str() == "refuse" => {
            play_refused(rt, file.as_str(), way.as_str(), before.as_str())
        }
        files => play_files(rt, files),
    }
}
