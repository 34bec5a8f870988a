//! The input in pieces, and sums over them.
use crate::task::Task;
use crate::text::Text;
use inlinable_string::StringExt;
use std::alloc::AllocError;

/// The sum of what the body gives of each piece, round after round.
macro_rules! summed {
    ($pieces:expr, $rounds:expr, |$piece:ident, $round:ident| $body:expr) => {{
        let mut sum = 0u64;
        for $round in 0..$rounds {
            for $piece in $pieces.iter() {
                sum = sum.wrapping_add($body);
            }
        }
        Ok(sum)
    }};
}

/// The sum of what the body gives, round after round.
macro_rules! summed_rounds {
    ($rounds:expr, |$round:ident| $body:expr) => {{
        let mut sum = 0u64;
        for $round in 0..$rounds {
            sum = sum.wrapping_add($body);
        }
        Ok(sum)
    }};
}

pub(crate) use summed;
pub(crate) use summed_rounds;

/// The input cut into pieces of the task's width, or at spaces.
pub fn pieces_of<'a>(task: &Task<'a>) -> Result<Vec<&'a [u8]>, AllocError> {
    let mut pieces = Vec::new(task.alloc);
    if task.width > 0 {
        for piece in task.input.chunks_exact(task.width) {
            pieces.push(piece)?;
        }
    } else {
        for piece in task.input.split(is_space) {
            pieces.push(piece)?;
        }
    }
    Ok(pieces)
}

fn is_space(byte: &u8) -> bool {
    *byte == b' '
}

/// The pieces that are text.
pub fn words_of<'a>(task: &Task<'a>) -> Result<Vec<&'a str>, AllocError> {
    let mut words = Vec::new(task.alloc);
    for piece in pieces_of(task)?.iter() {
        if let Ok(word) = std::str::from_utf8(piece) {
            words.push(word)?;
        }
    }
    Ok(words)
}

/// A text for each word.
pub fn texts_of<T: Text>(task: &Task) -> Result<Vec<T>, AllocError> {
    let mut texts = Vec::new(task.alloc);
    for word in words_of(task)?.iter() {
        texts.push(T::made(task.alloc, word)?)?;
    }
    Ok(texts)
}

/// A byte at a place that the compiler cannot foresee, so that the text has to be there.
#[inline(never)]
pub fn sink<S: StringExt>(text: &S, round: usize) -> u64 {
    byte_at(text.as_bytes(), round & 31)
}

/// The byte at a place, or 7 after the last one.
pub fn byte_at(bytes: &[u8], at: usize) -> u64 {
    match bytes.get(at) {
        Some(byte) => u64::from(*byte),
        None => 7,
    }
}
