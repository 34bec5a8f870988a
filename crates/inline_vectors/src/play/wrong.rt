//! What is wrong with a row: the first step that was found otherwise than the row wants it.

use super::playing::Playing;
use super::{Found, Way};
use crate::answer::Answer;
use crate::call::Effect;
use crate::fault::Fault;
use crate::play::commands::command_of;
use crate::row::{Seen, Step};
use inlinable_string::Storage;
use std::alloc::Global;

/// The number of a step, from 1 on, and what is wrong with it. The number is 0 if the text was not
/// made as it must be.
pub type Wrong = (usize, &'static str);

/// A line on what is wrong, and on what was found there.
pub fn line_of(alloc: Global, one: &Playing, (number, what): Wrong) -> Result<String, Fault> {
    let found = match number.checked_sub(1).and_then(|at| one.steps.get(at)) {
        Some(prepared) => &prepared.found,
        None => &one.start,
    };
    let (kind, capacity) = (one.made.kind, found.capacity);
    let mut line = format!(in alloc;
        "step {number}: {what}: {found}, capacity {capacity}, on {kind}"
    )?;
    if let Some(room) = one.made.room {
        let room = format!(in alloc; " room {room}")?;
        line.push_str(room.as_str())?;
    }
    line.push_str(match one.made.way {
        Way::Calls => "",
        Way::Moved => ", moved by a byte",
        Way::Run => ", by `run`",
        Way::Dyn => ", by `run_dyn`",
    })?;
    Ok(line)
}

/// What is wrong first with a row that was played to its end.
pub fn first_wrong(one: &Playing) -> Option<Wrong> {
    if let Some(what) = wrong_start(one) {
        return Some((0, what));
    }
    let mut before = &one.start;
    let mut number = 0usize;
    for (step, prepared) in one.row.steps.iter().zip(&one.steps) {
        let found = &prepared.found;
        number = number.saturating_add(1);
        if let Some(what) = wrong_step(step, before, found) {
            return Some((number, what));
        }
        before = found;
    }
    None
}

/// What is wrong with a text as it is made.
fn wrong_start(one: &Playing) -> Option<&'static str> {
    let (wanted, found) = (&one.row.start, &one.start);
    let room = one.made.room.unwrap_or(0);
    if found.text.as_str() != wanted.text.as_str() {
        return Some("the text is wrong");
    }
    let len = wanted.front.len().saturating_add(wanted.text.len());
    let most = len.saturating_add(wanted.back.len()).max(room);
    let wrong = wrong_value(found, is_past_limit(found, most));
    if wrong.is_none() && found.capacity < room {
        Some("the capacity is wrong")
    } else {
        wrong
    }
}

/// What is wrong with a text whatever a row wants, where it must be on the heap or inline.
fn wrong_value(found: &Found, is_on_heap: bool) -> Option<&'static str> {
    match found.storage {
        _ if !found.is_one => Some("calls differ on the text"),
        Some(storage) if is_on_heap != (storage == Storage::Heap) => Some("the storage is wrong"),
        Some(Storage::Inline) if found.limit != Some(found.capacity) => {
            Some("the capacity is wrong")
        }
        _ => None,
    }
}

/// What is wrong with a step.
fn wrong_step(step: &Step, before: &Found, found: &Found) -> Option<&'static str> {
    let Some(wanted) = &step.wanted else {
        return Some("no answer is wanted");
    };
    if found.answers.is_empty() {
        return Some("there is no answer");
    }
    for answer in &found.answers {
        if !is_wanted(answer, &wanted.answer, found) {
            return Some("the answer is wrong");
        }
    }
    let (text, storage) = match &wanted.seen {
        Seen::Unchanged => (&before.text, before.storage),
        Seen::Text(text, storage) => (text, *storage),
    };
    if found.text.as_str() != text.as_str() {
        Some("the text is wrong")
    } else if !is_capacity_right(step, before, found) {
        Some("the capacity is wrong")
    } else if storage.is_some() && found.storage != storage {
        Some("the storage is wrong")
    } else {
        wrong_value(found, is_on_heap_after(step, before, found))
    }
}

/// Whether an answer is the one that is wanted. That does not state where a text is stored if the
/// row is one of all types; then it is inline where it fits.
fn is_wanted(answer: &Answer, wanted: &Answer, found: &Found) -> bool {
    match (answer, wanted) {
        (Answer::Placed(text, storage), Answer::Text(wanted)) => {
            let is_long = found.limit.unwrap_or(0) < text.len();
            text == wanted && is_long == (*storage == Storage::Heap)
        }
        _ => answer == wanted,
    }
}

/// Whether each answer of a step is that it was done.
fn is_done(found: &Found) -> bool {
    found
        .answers
        .iter()
        .all(|answer| matches!(answer, Answer::Word("done")))
}

/// Whether a text has the capacity that it must have after a step. None is lost except by
/// shrinking and by what makes another text, and a command that fails changes nothing.
fn is_capacity_right(step: &Step, before: &Found, found: &Found) -> bool {
    let (old, new) = (before.capacity, found.capacity);
    if matches!(&step.wanted, Some(wanted) if wanted.seen == Seen::Unchanged) {
        return old == new;
    }
    let is_command = command_of(&step.call).is_some();
    let heap = Some(Storage::Heap);
    match step.call.effect {
        Effect::Keeps if is_command && !is_done(found) => old == new,
        Effect::Keeps => old <= new,
        Effect::Shrinks if !is_done(found) => old == new,
        Effect::Shrinks => found.storage != heap || new == found.text.len() || new < old,
        Effect::Remakes if before.storage == heap && found.storage == heap => {
            old == new || !matches!(step.call.word, "with_limit" | "boxed")
        }
        Effect::Remakes | Effect::RemakesOnHeap => true,
    }
}

/// Whether this many bytes are more than a text has inline.
fn is_past_limit(found: &Found, len: usize) -> bool {
    match found.limit {
        Some(limit) => limit < len,
        None => true,
    }
}

/// Whether a text is on the heap after a step: it was grown or reserved past its capacity inline,
/// or made so, and not moved back since, by shrinking or by what makes another text.
fn is_on_heap_after(step: &Step, before: &Found, found: &Found) -> bool {
    let was = before.storage == Some(Storage::Heap);
    let (word, number) = (step.call.word, step.call.number);
    let is_long = is_past_limit(found, found.text.len());
    match step.call.effect {
        // Nothing is left of a text that is handed out, and all of one that comes back.
        _ if matches!(word, "into_bytes" | "into_string") => {
            is_long || was && matches!(found.answers.last(), Some(Answer::Word(_)))
        }
        _ if !is_done(found) || matches!(word, "clone" | "boxed") => was || is_long,
        _ if word == "with_capacity" => is_past_limit(found, number),
        Effect::RemakesOnHeap => true,
        Effect::Remakes | Effect::Shrinks => is_long,
        Effect::Keeps if matches!(word, "reserve" | "reserve_exact") => {
            was || is_past_limit(found, before.text.len().saturating_add(number))
        }
        Effect::Keeps => was || is_long,
    }
}
