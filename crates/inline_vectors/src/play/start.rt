//! The text that a row begins with.

use super::{Made, Way};
use crate::answer::Answer;
use crate::begin::Start;
use crate::call::Call;
use crate::fault::{Fault, NOT_THERE};
use crate::text::Text;
use crate::text::given::Given;
use std::alloc::Global;

/// The text that a row begins with.
pub fn text_of(alloc: Global, start: &Start, made: Made) -> Result<Text, Fault> {
    let mut text = Text::empty(alloc, made.kind, start.asked.or(made.room))?;
    fill(alloc, &mut text, start, made.way)?;
    Ok(text)
}

/// Gives an empty text what a row begins with.
fn fill(alloc: Global, text: &mut Text, start: &Start, way: Way) -> Result<(), Fault> {
    let front = match way {
        Way::Moved => "z",
        _ => start.front.as_str(),
    };
    for string in [front, start.text.as_str(), start.back.as_str()] {
        edit(alloc, text, "push_str", 0, string)?;
    }
    for _ in front.chars() {
        edit(alloc, text, "remove", 0, "")?;
    }
    if !start.back.is_empty() {
        edit(alloc, text, "truncate", start.text.len(), "")?;
    }
    Ok(())
}

/// Makes a call that must succeed.
fn edit(
    alloc: Global,
    text: &mut Text,
    word: &str,
    number: usize,
    string: &str,
) -> Result<(), Fault> {
    let mut call = Call::named(alloc, word).ok_or(NOT_THERE)?;
    call.number = number;
    call.text.push_str(string)?;
    match text.play(&call, &mut Given::new(alloc, &call, 0)?)? {
        Answer::Word("done") | Answer::Char(_) => Ok(()),
        _ => Err(Fault("the text that it begins with was not made")),
    }
}
