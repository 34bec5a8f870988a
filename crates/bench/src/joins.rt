//! Workloads on the calls that `InlinableString` alone has.
use crate::pieces::{sink, summed, texts_of, words_of};
use crate::task::Task;
use crate::{lists, loops};
use inlinable_string::inline_json::JsonError;
use inlinable_string::{InlinableString, InlinableStringN, StringExt, StringMake};
use std::alloc::AllocError;

/// The checksum of a workload; none if there is no such workload, or an allocation fails.
pub fn sum_of(task: &Task) -> Option<u64> {
    let sum = match task.workload {
        "add" => add(task),
        "extend_chars" => extend_chars(task),
        "from_chars" => from_chars(task),
        "from_strs" => from_strs(task),
        "json" => json(task),
        "run_dyn" => lists::run_on_dyn(task),
        _ => return loops::sum_at::<30>(task),
    };
    sum.ok()
}

#[inline(never)]
fn add(task: &Task) -> Result<u64, AllocError> {
    let words = words_of(task)?;
    summed!(words, task.rounds, |word, round| {
        let text = InlinableString::from(task.alloc, word)?;
        match text.add(word) {
            Ok(joined) => sink(&joined, round),
            Err(_) => 1,
        }
    })
}

#[inline(never)]
fn extend_chars(task: &Task) -> Result<u64, AllocError> {
    let words = words_of(task)?;
    summed!(words, task.rounds, |word, round| {
        let mut text: InlinableString = StringMake::new(task.alloc);
        text.extend_chars(word.chars())?;
        sink(&text, round)
    })
}

#[inline(never)]
fn from_chars(task: &Task) -> Result<u64, AllocError> {
    let words = words_of(task)?;
    summed!(words, task.rounds, |word, round| {
        let text = InlinableString::from_chars(task.alloc, word.chars())?;
        sink(&text, round)
    })
}

/// Each word and the six letters after it.
#[inline(never)]
fn from_strs(task: &Task) -> Result<u64, AllocError> {
    let words = words_of(task)?;
    summed!(words, task.rounds, |word, round| {
        let parts = [*word, "foobar", *word];
        let text = InlinableString::from_strs(task.alloc, parts.iter().copied())?;
        sink(&text, round)
    })
}

/// A text becomes a JSON string, and that a text.
#[inline(never)]
fn json(task: &Task) -> Result<u64, AllocError> {
    let texts: Vec<InlinableString> = texts_of(task)?;
    summed!(texts, task.rounds, |text, round| {
        let value = text.to_json()?;
        match InlinableString::from_json(task.alloc, &value) {
            Ok(back) => sink(&back, round),
            Err(JsonError::NotString) => 1,
            Err(JsonError::NoMemory) => return Err(AllocError),
        }
    })
}
