//! Plays rows on each text that they name, in each way.

use super::commands::command_of;
use super::memory::play_all;
use super::playing::Playing;
use super::plays::Plays;
use super::run_of_all::other_by_run;
use super::wrong::{Wrong, first_wrong, line_of};
use super::{Made, Way};
use crate::begin::Kind;
use crate::fault::{Fault, NOT_THERE};
use crate::row::{Memory, Row, Seen, Step};
use std::alloc::Global;

/// The types that `every` stands for.
const EVERY: &[Kind] = &[
    Kind::Array(30),
    Kind::Inlinable(30),
    Kind::Boxable,
    Kind::String,
    Kind::User,
];

/// The capacities that `every` text is made with that can be on the heap.
const ROOMS: &[Option<usize>] = &[None, Some(0), Some(10), Some(30), Some(31), Some(100)];

const WAYS: &[Way] = &[Way::Calls, Way::Moved, Way::Run, Way::Dyn];

/// What is wrong with a row: a line on the first difference, or a fault.
pub type Wronged = Result<String, Fault>;

/// Plays rows, counts their plays, and returns a line for each that is wrong, with the line of the
/// file that it is on.
pub fn wrong_rows<'a>(
    alloc: Global,
    rows: &'a [Row],
    plays: &mut Plays,
) -> Result<Vec<(usize, Wronged)>, Fault> {
    let mut playing: Vec<Playing<'a>> = Vec::new(alloc);
    let mut ends = Vec::new(alloc);
    for row in rows {
        let fault = begin(alloc, row, &mut playing).err();
        ends.push((fault, playing.len()))?;
    }
    play_all(alloc, &mut playing)?;
    let mut wrong = Vec::new(alloc);
    let mut first = 0;
    for (row, &(fault, end)) in rows.iter().zip(ends.iter()) {
        let played = playing.get(first..end).unwrap_or(&[]);
        let found = match fault {
            Some(fault) => Err(fault),
            None => wrong_in(alloc, row, played, plays),
        };
        if let Some(found) = found.transpose() {
            wrong.push((row.line, found))?;
        }
        first = end;
    }
    Ok(wrong)
}

/// Makes the texts that a row is played on.
fn begin<'a>(alloc: Global, row: &'a Row, playing: &mut Vec<Playing<'a>>) -> Result<(), Fault> {
    if let Some(kind) = row.kind {
        return begin_on(alloc, row, kind, row.start.room, playing);
    }
    for &kind in EVERY {
        for &room in ROOMS {
            let is_array = matches!(kind, Kind::Array(_));
            if !is_array || room.is_none() && !has_long_text(row) {
                begin_on(alloc, row, kind, room, playing)?;
            }
        }
    }
    Ok(())
}

/// Whether a text of a row has more than 30 bytes.
fn has_long_text(row: &Row) -> bool {
    let start = &row.start;
    let len = start.front.len().saturating_add(start.text.len());
    len.saturating_add(start.back.len()) > 30 || row.steps.iter().any(wants_long_text)
}

fn wants_long_text(step: &Step) -> bool {
    match &step.wanted {
        Some(wanted) => matches!(&wanted.seen, Seen::Text(text, _) if text.len() > 30),
        None => false,
    }
}

/// Makes the texts of this type that a row is played on.
fn begin_on<'a>(
    alloc: Global,
    row: &'a Row,
    kind: Kind,
    room: Option<usize>,
    playing: &mut Vec<Playing<'a>>,
) -> Result<(), Fault> {
    for &way in WAYS {
        if is_played(row, kind, way) {
            playing.push(Playing::new(alloc, row, Made { kind, room, way })?)?;
        }
    }
    Ok(())
}

/// Whether a row is played on this type in this way. A `dyn` of a type with a capacity costs a
/// proof of its own, so `run_dyn` is played at the capacities 0 and 30.
fn is_played(row: &Row, kind: Kind, way: Way) -> bool {
    let start = &row.start;
    let are_commands = row
        .steps
        .iter()
        .all(|step| command_of(&step.call).is_some());
    match (way, kind) {
        (Way::Calls, _) => true,
        (Way::Moved, Kind::Array(limit)) => {
            start.front.is_empty() && start.text.len().saturating_add(start.back.len()) < limit
        }
        (Way::Moved, _) | (_, Kind::Array(_)) => false,
        (Way::Dyn, Kind::Inlinable(limit)) => are_commands && (limit == 0 || limit == 30),
        _ => are_commands,
    }
}

/// What is wrong first with a row on its texts, of which one must have its calls. A row of all
/// types is not played on those that lack them.
fn wrong_in(
    alloc: Global,
    row: &Row,
    played: &[Playing],
    plays: &mut Plays,
) -> Result<Option<String>, Fault> {
    let mut is_played = false;
    for one in played {
        match one.fault {
            Some(fault) if fault == NOT_THERE && row.kind.is_none() => continue,
            Some(fault) => return Err(fault),
            None => is_played = true,
        }
        plays.add(one);
        if let Some(wrong) = wrong_at(alloc, one, plays)? {
            return Ok(Some(line_of(alloc, one, wrong)?));
        }
    }
    if is_played {
        Ok(None)
    } else {
        Err(Fault("no type has all calls"))
    }
}

/// What is wrong first with a row on one text.
fn wrong_at(alloc: Global, one: &Playing, plays: &mut Plays) -> Result<Option<Wrong>, Fault> {
    let wrong = first_wrong(one);
    let is_ample = one
        .row
        .steps
        .iter()
        .all(|step| step.memory == Memory::Ample);
    if wrong.is_none() && one.made.way == Way::Run && is_ample {
        plays.whole_runs = plays.whole_runs.saturating_add(1);
        return other_by_run(alloc, one);
    }
    Ok(wrong)
}
