//! Does a job that a user of the libraries waits for, on inputs of its own, and prints a digest of
//! all results. `bench/workloads.txt` lists workloads, and `bench/run OLD NEW` times them.
//!
//! The arguments are a job, a seed, the size of an input and the number of inputs. The job `each`
//! does those of the workloads and `map`, one after the other, and prints a line for each.
//! `bench/growth` times others.
#![tactic(auto)]

mod digest;
mod input;
mod job;

use job::Job;
use job::task::Task;
use std::alloc::Global;
use std::env::{self, Env};
use std::process::ExitCode;

fn main(rt: HostRuntime) -> ExitCode {
    match print_digests(&rt) {
        Some(()) => ExitCode::SUCCESS,
        None => ExitCode::FAILURE,
    }
}

/// Does the jobs that the arguments name. `None` if they name none, or if an allocation or a write
/// fails.
fn print_digests<R: Env + Print + AllocGlobal>(rt: &R) -> Option<()> {
    let alloc = rt.alloc();
    let words: Vec<String> = env::args(rt).ok()?.skip(1).collect(alloc).ok()?;
    let task = task_of(alloc, &words)?;
    match words.first()?.as_str() {
        "each" => {
            for job in Job::EACH {
                println!(rt; "{} {:016x}", job.name(), job.digest(&task)?).ok()?;
            }
        }
        name => {
            let job = Job::of_name(name)?;
            println!(rt; "{:016x}", job.digest(&task)?).ok()?;
        }
    }
    Some(())
}

/// The task that the arguments after the first describe.
fn task_of(alloc: Global, words: &[String]) -> Option<Task> {
    Some(Task {
        alloc,
        seed: words.get(1)?.as_str().parse().ok()?,
        size: words.get(2)?.as_str().parse().ok()?,
        inputs: words.get(3)?.as_str().parse().ok()?,
    })
}
