//! Plays rows with the memory that their steps are to have.

use super::playing::Playing;
use crate::call::Effect;
use crate::fault::Fault;
use crate::row::{Memory, Step};
use std::alloc::Global;
use test_support::Hoard;

/// How many blocks are taken at most that a step freed while memory is held.
const MOST_FREED: usize = 64;

/// No step frees a block of more than 2 to this power.
const LARGEST_SHIFT: u32 = 20;

/// The C library keeps freed blocks of up to this size for requests of about their own size.
const MOST_KEPT: usize = 1040;

const NOT_HELD: Fault = Fault("memory cannot be held here: this needs the proved build");

/// Plays each to its end. To hold all memory takes long, so it is held for all of them at once.
pub fn play_all(alloc: Global, playing: &mut Vec<Playing>) -> Result<(), Fault> {
    let rounds = playing.iter().map(|one| one.row.steps.len()).max();
    for _ in 0..=rounds.unwrap_or(0) {
        for one in playing.iter_mut() {
            one.advance(Memory::Ample, usize::MAX);
        }
        play_held(alloc, playing)?;
        for one in playing.iter_mut() {
            play_with_a_block(alloc, one)?;
        }
    }
    Ok(())
}

/// Plays the steps that are to have no memory, of all that have come to one.
fn play_held(alloc: Global, playing: &mut Vec<Playing>) -> Result<(), Fault> {
    if !playing
        .iter()
        .any(|one| one.next_memory() == Some(Memory::Held))
    {
        return Ok(());
    }
    let mut freed = Vec::new(alloc);
    freed.reserve(MOST_FREED.saturating_mul(playing.len()))?;
    let Some(hoard) = Hoard::take(alloc) else {
        return Err(NOT_HELD);
    };
    for one in playing.iter_mut() {
        play_without(alloc, one, &mut freed);
    }
    drop(hoard);
    Ok(())
}

/// Plays the next steps that are to have no memory, and after each takes what it freed.
fn play_without(alloc: Global, one: &mut Playing, freed: &mut Vec<Vec<u8>>) {
    let row = one.row;
    for _ in &row.steps {
        if one.next_memory() != Some(Memory::Held) {
            break;
        }
        one.advance(Memory::Held, 1);
        if row.steps.iter().any(frees_while_held) {
            take_freed(alloc, freed);
        }
    }
}

/// Whether a step may free memory while it is held.
fn frees_while_held(step: &Step) -> bool {
    step.memory == Memory::Held && step.call.effect != Effect::Keeps
}

/// Takes what a step freed, so that the next one has none of it: the longest blocks first.
fn take_freed(alloc: Global, freed: &mut Vec<Vec<u8>>) {
    for shift in 0..=LARGEST_SHIFT {
        take_some(alloc, freed, 1usize << (LARGEST_SHIFT - shift));
    }
    for size in 1..=MOST_KEPT {
        take_some(alloc, freed, size);
    }
}

/// Takes blocks of this size, as far as there are places for them.
fn take_some(alloc: Global, freed: &mut Vec<Vec<u8>>, size: usize) {
    for _ in 0..MOST_FREED {
        let Ok(block) = Vec::with_capacity(alloc, size) else {
            break;
        };
        if freed.len() >= freed.capacity() || freed.push(block).is_err() {
            break;
        }
    }
}

/// Plays the steps that are to have one block, if it has come to some.
fn play_with_a_block(alloc: Global, one: &mut Playing) -> Result<(), Fault> {
    let Some(Memory::Block(size)) = one.next_memory() else {
        return Ok(());
    };
    let Some(hoard) = Hoard::take_but_one(alloc, size) else {
        return Err(NOT_HELD);
    };
    one.advance(Memory::Block(size), usize::MAX);
    drop(hoard);
    Ok(())
}
