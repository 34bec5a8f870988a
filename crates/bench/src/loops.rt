//! Workloads on texts that are made, edited and read.
ghost use Rattle.std.specs.Prelude.{◌≤◌};

use crate::pieces::{sink, summed, summed_rounds, texts_of, words_of};
use crate::task::Task;
use crate::text::Text;
use crate::{keys, lists, readers};
use inlinable_string::InlinableStringN;
use std::alloc::AllocError;

/// The checksum of a workload; none if there is no such workload, or an allocation fails.
pub fn sum_of<T: Text>(task: &Task) -> Option<u64> {
    let sum = match task.workload {
        "read" => read::<T>(task),
        "from" => from::<T>(task),
        "from_literal" => from_literal::<T>(task),
        "push_str" => push_str::<T>(task),
        "from_push_str" => from_push_str::<T>(task),
        "push_literal" => push_literal::<T>(task),
        "push" => push::<T>(task),
        "insert" => insert::<T>(task),
        "remove" => remove::<T>(task),
        "pop" => pop::<T>(task),
        "clone" => cloned::<T>(task),
        "eq" => keys::equal::<T>(task),
        "cmp" => keys::ordered::<T>(task),
        "hash" => keys::hashed::<T>(task),
        "sort" => keys::sorted::<T>(task),
        "set" => keys::set::<T>(task),
        "intern" => keys::interned::<T>(task),
        "look_up" => keys::looked_up::<T>(task),
        "from_utf8" => readers::from_utf8::<T>(task),
        "from_utf8_lossy" => readers::from_utf8_lossy::<T>(task),
        "from_utf16" => readers::from_utf16::<T>(task),
        "from_utf16_lossy" => readers::from_utf16_lossy::<T>(task),
        "run" => lists::run_on::<T>(task),
        "grow" => lists::grow::<T>(task),
        "fronts" => lists::fronts::<T>(task),
        _ => return None,
    };
    sum.ok()
}

/// The same on a text of this capacity: one proof for all. A text of at most 62 bytes has a size
/// that memory can hold, which is to be known of any `T`.
pub fn sum_at<const N: usize>(task: &Task) -> Option<u64>
    requires { N ≤ 62 }
{
    sum_of::<InlinableStringN<N>>(task)
}

#[inline(never)]
fn read<T: Text>(task: &Task) -> Result<u64, AllocError> {
    let texts: Vec<T> = texts_of(task)?;
    summed!(texts, task.rounds, |text, round| sink(text, round))
}

#[inline(never)]
fn from<T: Text>(task: &Task) -> Result<u64, AllocError> {
    let words = words_of(task)?;
    summed!(words, task.rounds, |word, round| {
        let text = T::made(task.alloc, word)?;
        sink(&text, round)
    })
}

#[inline(never)]
fn from_literal<T: Text>(task: &Task) -> Result<u64, AllocError> {
    summed_rounds!(task.rounds, |round| {
        let text = T::made(task.alloc, "foobar")?;
        sink(&text, round)
    })
}

#[inline(never)]
fn push_str<T: Text>(task: &Task) -> Result<u64, AllocError> {
    let words = words_of(task)?;
    summed!(words, task.rounds, |word, round| {
        let mut text = T::new(task.alloc);
        text.push_str(word)?;
        sink(&text, round)
    })
}

#[inline(never)]
fn from_push_str<T: Text>(task: &Task) -> Result<u64, AllocError> {
    let words = words_of(task)?;
    summed!(words, task.rounds, |word, round| {
        let mut text = T::made(task.alloc, word)?;
        text.push_str(word)?;
        sink(&text, round)
    })
}

#[inline(never)]
fn push_literal<T: Text>(task: &Task) -> Result<u64, AllocError> {
    summed_rounds!(task.rounds, |round| {
        let mut text = T::made(task.alloc, "foobar")?;
        text.push_str("foobar")?;
        sink(&text, round)
    })
}

#[inline(never)]
fn push<T: Text>(task: &Task) -> Result<u64, AllocError> {
    let words = words_of(task)?;
    summed!(words, task.rounds, |word, round| {
        let mut text = T::new(task.alloc);
        for ch in word.chars() {
            text.push(ch)?;
        }
        sink(&text, round)
    })
}

#[inline(never)]
fn insert<T: Text>(task: &Task) -> Result<u64, AllocError> {
    let words = words_of(task)?;
    summed!(words, task.rounds, |word, round| {
        let mut text = T::made(task.alloc, word)?;
        text.insert(0, 'x')?;
        sink(&text, round)
    })
}

#[inline(never)]
fn remove<T: Text>(task: &Task) -> Result<u64, AllocError> {
    let words = words_of(task)?;
    summed!(words, task.rounds, |word, round| {
        let mut text = T::made(task.alloc, word)?;
        let removed = if text.is_empty() {
            0
        } else {
            u64::from(text.remove(0))
        };
        removed.wrapping_add(sink(&text, round))
    })
}

#[inline(never)]
fn pop<T: Text>(task: &Task) -> Result<u64, AllocError> {
    let words = words_of(task)?;
    summed!(words, task.rounds, |word, round| {
        let mut text = T::made(task.alloc, word)?;
        let mut popped = 0u64;
        for _ in 0..word.len() {
            let Some(last) = text.pop() else {
                break;
            };
            popped = popped.wrapping_add(u64::from(last));
        }
        popped.wrapping_add(sink(&text, round))
    })
}

#[inline(never)]
fn cloned<T: Text>(task: &Task) -> Result<u64, AllocError> {
    let texts: Vec<T> = texts_of(task)?;
    summed!(texts, task.rounds, |text, round| {
        let copy = text.clone()?;
        sink(&copy, round)
    })
}
