//! Workloads on texts that are read from bytes and from UTF-16.
use crate::pieces::{byte_at, pieces_of, sink, summed};
use crate::task::Task;
use crate::text::Text;
use std::alloc::{AllocError, Global};
use std::borrow::CowStr;

/// A vector of the piece is part of the work; 1 for a piece that is no text.
#[inline(never)]
pub fn from_utf8<T: Text>(task: &Task) -> Result<u64, AllocError> {
    let pieces = pieces_of(task)?;
    summed!(pieces, task.rounds, |piece, round| {
        let bytes = Vec::from_slice(task.alloc, piece)?;
        match T::from_utf8(task.alloc, bytes) {
            Ok(text) => sink(&text, round),
            Err(_) => 1,
        }
    })
}

#[inline(never)]
pub fn from_utf8_lossy<T: Text>(task: &Task) -> Result<u64, AllocError> {
    let pieces = pieces_of(task)?;
    summed!(pieces, task.rounds, |piece, round| {
        sink_of_read(&T::from_utf8_lossy(task.alloc, piece)?, round)
    })
}

#[inline(never)]
fn sink_of_read(read: &CowStr, round: usize) -> u64 {
    match read {
        CowStr::Borrowed(text) => byte_at(text.as_bytes(), round & 31),
        CowStr::Owned(text) => byte_at(text.as_bytes(), round & 31),
    }
}

/// 1 for a piece that is no text.
#[inline(never)]
pub fn from_utf16<T: Text>(task: &Task) -> Result<u64, AllocError> {
    let units = units_of(task)?;
    summed!(units, task.rounds, |piece, round| {
        match T::from_utf16(task.alloc, piece.as_slice()) {
            Ok(text) => sink(&text, round),
            Err(_) => 1,
        }
    })
}

#[inline(never)]
pub fn from_utf16_lossy<T: Text>(task: &Task) -> Result<u64, AllocError> {
    let units = units_of(task)?;
    summed!(units, task.rounds, |piece, round| {
        let text = T::from_utf16_lossy(task.alloc, piece.as_slice())?;
        sink(&text, round)
    })
}

/// The units of each piece.
fn units_of(task: &Task) -> Result<Vec<Vec<u16>>, AllocError> {
    let mut units = Vec::new(task.alloc);
    for piece in pieces_of(task)?.iter() {
        units.push(units_in(task.alloc, piece)?)?;
    }
    Ok(units)
}

/// The units of a piece, which has the lower byte of each first.
fn units_in(alloc: Global, piece: &[u8]) -> Result<Vec<u16>, AllocError> {
    let mut units = Vec::new(alloc);
    for pair in piece.chunks_exact(2) {
        units.push(u16::from_le_bytes([pair[0], pair[1]]))?;
    }
    Ok(units)
}
