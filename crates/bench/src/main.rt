//! Runs one workload on one type of text, round after round, and prints a checksum.
//!
//! The arguments are the type of the text, the workload, how many bytes of standard input a piece
//! of it has (0: pieces end at spaces), and how many rounds. The workloads are those of
//! `bench/workloads.py`; programs in Rust and C++ take the same words and print the same sums.
#![tactic(auto)]

mod joins;
mod keys;
mod lists;
mod loops;
mod pieces;
mod readers;
mod task;
mod text;

use std::env;
use std::env::Env;
use std::io::Read;
use std::process::ExitCode;
use task::Task;

fn main(rt: HostRuntime) -> ExitCode {
    let Some(sum) = checksum(&rt) else {
        return ExitCode::FAILURE;
    };
    match println!(rt; "{sum}") {
        Ok(()) => ExitCode::SUCCESS,
        Err(_) => ExitCode::FAILURE,
    }
}

/// The checksum of a task; none if nothing has such a name, or an allocation or a read fails.
fn checksum<R: Env + Input + AllocGlobal>(rt: &R) -> Option<u64> {
    let alloc = rt.alloc();
    let words: Vec<String> = env::args(rt).ok()?.skip(1).collect(alloc).ok()?;
    let mut input = Vec::new(alloc);
    rt.reader().read_to_end(&mut input).ok()?;
    let task = Task {
        alloc,
        workload: words.get(1)?.as_str(),
        input: input.as_slice(),
        width: words.get(2)?.parse().ok()?,
        rounds: words.get(3)?.parse().ok()?,
    };
    sum_on(words.first()?.as_str(), &task)
}

/// The checksum of a workload on the text of this name.
fn sum_on(text: &str, task: &Task) -> Option<u64> {
    match text {
        "InlinableString" => joins::sum_of(task),
        "String" => loops::sum_of::<String>(task),
        "InlinableStringN<0>" => loops::sum_at::<0>(task),
        "InlinableStringN<8>" => loops::sum_at::<8>(task),
        "InlinableStringN<22>" => loops::sum_at::<22>(task),
        "InlinableStringN<30>" => loops::sum_at::<30>(task),
        "InlinableStringN<62>" => loops::sum_at::<62>(task),
        _ => None,
    }
}
