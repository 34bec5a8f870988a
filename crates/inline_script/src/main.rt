//! Runs a script of edits on a text, and prints what each edit answers.
//!
//! The argument says which text the script begins with; the script comes from standard input.
#![tactic(auto)]

use script_language::ScriptFault;
use script_language::arguments::words_of;
use script_language::script::script;
use std::env::Env;
use std::io;
use std::process::ExitCode;

fn main(rt: HostRuntime) -> ExitCode {
    match run_program(&rt) {
        Ok(()) => ExitCode::SUCCESS,
        Err(fault) => {
            // A line that cannot be written leaves the status as it is.
            let _ = println!(rt; "{fault}");
            ExitCode::from(fault.status())
        }
    }
}

/// Runs the script of standard input, and prints to standard output.
fn run_program<R: Env + Input + Print + AllocGlobal>(rt: &R) -> Result<(), ScriptFault> {
    let words = words_of(rt)?;
    script(
        rt.alloc(),
        words.as_slice(),
        &mut rt.reader(),
        &mut io::writer(rt),
    )
}
