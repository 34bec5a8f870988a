//! All commands of a row by one `run`.

use super::commands::{answer_of, command_of};
use super::playing::Playing;
use super::start::text_of;
use super::wrong::Wrong;
use crate::fault::{Fault, NOT_THERE};
use crate::text::Text;
use inlinable_string::run::{Command, Reply};
use std::alloc::Global;

/// The first step that one `run` of all commands answers otherwise than they were answered one by
/// one, or the last one if it leaves another text.
pub fn other_by_run(alloc: Global, one: &Playing) -> Result<Option<Wrong>, Fault> {
    let mut text = text_of(alloc, &one.row.start, one.made)?;
    other_on(alloc, &mut text, one)
}

/// The same on the text that the row begins with. The caller drops it, at one place: at each `?` a
/// drop of a text of any type would cost a proof.
fn other_on(alloc: Global, text: &mut Text, one: &Playing) -> Result<Option<Wrong>, Fault> {
    let mut commands: Vec<Command> = Vec::new(alloc);
    let mut replies = Vec::new(alloc);
    for step in &one.row.steps {
        for _ in 0..step.times {
            commands.push(command_of(&step.call).ok_or(NOT_THERE)?)?;
            replies.push(Reply::BadPlace)?;
        }
    }
    if !text.run(commands.as_slice(), replies.as_mut_slice()) {
        return Err(NOT_THERE);
    }
    let mut given = replies.iter();
    let mut number = 0usize;
    let mut last = &one.start;
    for step in &one.steps {
        number = number.saturating_add(1);
        last = &step.found;
        for answer in &last.answers {
            match given.next() {
                Some(reply) if answer_of(*reply) == *answer => {}
                _ => return Ok(Some((number, "one `run` of all answers otherwise"))),
            }
        }
    }
    let view = text.view();
    if view.is_one && view.string == last.text.as_str() && view.storage == last.storage {
        Ok(None)
    } else {
        Ok(Some((number, "one `run` of all leaves another text")))
    }
}
