//! Workloads on texts that are compared, hashed, sorted and looked up.
use crate::pieces::{sink, summed, texts_of, words_of};
use crate::task::Task;
use crate::text::Text;
use std::alloc::AllocError;
use std::cmp::Ordering;
use std::collections::{HashMap, HashSet};
use std::hash::{FoldHasher, Hasher};

#[inline(never)]
pub fn equal<T: Text>(task: &Task) -> Result<u64, AllocError> {
    let left: Vec<T> = texts_of(task)?;
    let right: Vec<T> = texts_of(task)?;
    let mut sum = 0u64;
    for _ in 0..task.rounds {
        for (a, b) in left.iter().zip(right.iter()) {
            sum = sum.wrapping_add(equality_of(a, b));
        }
    }
    Ok(sum)
}

#[inline(never)]
fn equality_of<T: Text>(a: &T, b: &T) -> u64 {
    if a == b { 3 } else { 1 }
}

#[inline(never)]
pub fn ordered<T: Text>(task: &Task) -> Result<u64, AllocError> {
    let texts: Vec<T> = texts_of(task)?;
    let mut sum = 0u64;
    for _ in 0..task.rounds {
        for (a, b) in texts.iter().zip(texts.iter().skip(1)) {
            sum = sum.wrapping_add(order_of(a, b));
        }
    }
    Ok(sum)
}

#[inline(never)]
fn order_of<T: Text>(a: &T, b: &T) -> u64 {
    match a.cmp(b) {
        Ordering::Less => 3,
        Ordering::Equal => 2,
        Ordering::Greater => 1,
    }
}

#[inline(never)]
pub fn hashed<T: Text>(task: &Task) -> Result<u64, AllocError> {
    let texts: Vec<T> = texts_of(task)?;
    summed!(texts, task.rounds, |text, _round| hash_of(text))
}

#[inline(never)]
fn hash_of<T: Text>(text: &T) -> u64 {
    let mut hasher = FoldHasher::default();
    text.hash(&mut hasher);
    hasher.finish()
}

/// The texts are made and sorted; the sum goes by their order.
#[inline(never)]
pub fn sorted<T: Text>(task: &Task) -> Result<u64, AllocError> {
    let mut sum = 0u64;
    for round in 0..task.rounds {
        let mut texts: Vec<T> = texts_of(task)?;
        texts.sort_unstable();
        for text in texts.iter() {
            sum = sum.wrapping_mul(3).wrapping_add(sink(text, round));
        }
    }
    Ok(sum)
}

/// How many different texts there are.
#[inline(never)]
pub fn set<T: Text>(task: &Task) -> Result<u64, AllocError> {
    let words = words_of(task)?;
    let mut sum = 0u64;
    for _ in 0..task.rounds {
        let mut texts = HashSet::new(task.alloc);
        for word in words.iter() {
            if texts.insert(T::made(task.alloc, word)?)? {
                sum = sum.wrapping_add(1);
            }
        }
    }
    Ok(sum)
}

/// Each word has the number of the different words before its first occurrence.
#[inline(never)]
pub fn interned<T: Text>(task: &Task) -> Result<u64, AllocError> {
    let words = words_of(task)?;
    let mut sum = 0u64;
    for _ in 0..task.rounds {
        let mut numbers = HashMap::new(task.alloc);
        for word in words.iter() {
            let next = numbers.len();
            let number = *numbers.entry(T::made(task.alloc, word)?)?.or_insert(next);
            sum = sum.wrapping_mul(3).wrapping_add(number as u64);
        }
    }
    Ok(sum)
}

/// Each word is there, and its text was made before.
#[inline(never)]
pub fn looked_up<T: Text>(task: &Task) -> Result<u64, AllocError> {
    let mut numbers = HashMap::new(task.alloc);
    for text in texts_of::<T>(task)? {
        let next = numbers.len();
        numbers.entry(text)?.or_insert(next);
    }
    let texts: Vec<T> = texts_of(task)?;
    summed!(texts, task.rounds, |text, _round| number_of(&numbers, text))
}

#[inline(never)]
fn number_of<T: Text>(numbers: &HashMap<T, usize>, text: &T) -> u64 {
    match numbers.get(text) {
        Some(number) => *number as u64,
        None => 7,
    }
}
