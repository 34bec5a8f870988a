//! Rows with one request for memory refused, by whatever runs the program.

use super::playing::Playing;
use super::wrong::{first_wrong, line_of};
use super::{Made, Way};
use crate::fault::{Fault, NO_TYPE};
use crate::row::{Memory, Row, rows_of};
use std::alloc::{AllocError, Global};

/// What came of calls, in words, and whether the request after them was granted.
pub type Ending = (String, bool);

/// Plays the rows of a file by calls, by `run` or by `run_dyn`, with this number of other requests
/// before the first calls that state theirs, and one request more after all of them.
pub fn rows_after(alloc: Global, file: &str, way: &str, before: usize) -> Result<Ending, Fault> {
    let rows = rows_of(alloc, file).map_err(|error| error.fault)?;
    let way = match way {
        "run" => Way::Run,
        "run_dyn" => Way::Dyn,
        _ => Way::Calls,
    };
    play(alloc, rows.as_slice(), way, before)
}

fn play<'a>(alloc: Global, rows: &'a [Row], way: Way, before: usize) -> Result<Ending, Fault> {
    let mut playing: Vec<Playing<'a>> = Vec::new(alloc);
    for row in rows {
        playing.push(begin(alloc, row, way)?)?;
    }
    play_to_end(alloc, &mut playing, before)
}

/// Plays the calls of a row that come before those that state their requests.
fn begin<'a>(alloc: Global, row: &'a Row, way: Way) -> Result<Playing<'a>, Fault> {
    let kind = row.kind.ok_or(NO_TYPE)?;
    let room = row.start.room;
    let mut one = Playing::new(alloc, row, Made { kind, room, way })?;
    let stated = row.steps.iter().position(|step| step.requests.is_some());
    one.advance(Memory::Ample, stated.unwrap_or(0));
    Ok(one)
}

/// Plays the other calls. The caller drops the texts, at one place.
fn play_to_end(alloc: Global, playing: &mut [Playing], before: usize) -> Result<Ending, Fault> {
    if let Some(ending) = refused_before(alloc, before)? {
        return Ok(ending);
    }
    for one in playing.iter_mut() {
        one.advance(Memory::Ample, usize::MAX);
    }
    let is_granted = Box::new(alloc, 0u8).is_ok();
    for one in playing.iter() {
        if let Some(fault) = one.fault {
            return Err(fault);
        }
        if let Some(wrong) = first_wrong(one) {
            return Ok((line_of(alloc, one, wrong)?, is_granted));
        }
    }
    Ok((String::from_str(alloc, "right")?, is_granted))
}

/// Makes this number of requests, up to one that is refused: then it says how many were granted.
pub fn refused_before(alloc: Global, count: usize) -> Result<Option<Ending>, AllocError> {
    for granted in 0..count {
        if Box::new(alloc, 0u8).is_err() {
            return Ok(Some((format!(in alloc; "{granted} granted")?, false)));
        }
    }
    Ok(None)
}
