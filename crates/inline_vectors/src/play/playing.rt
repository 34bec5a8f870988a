//! A row that is being played on one text, and what was found so far.

use super::commands::{answer_of, command_of};
use super::start::text_of;
use super::{Found, Made, Way};
use crate::answer::Answer;
use crate::call::Call;
use crate::fault::{Fault, NOT_THERE};
use crate::row::{Memory, Row, Step};
use crate::text::Text;
use crate::text::given::Given;
use inlinable_string::run::Reply;
use std::alloc::Global;

/// A row that is being played on a text.
#[derive(Drop)]
pub struct Playing<'a> {
    pub row: &'a Row,
    pub made: Made,
    /// What was seen of the text before the first step.
    pub start: Found,
    /// What each step needs and what it found. The first `played` were played.
    pub steps: Vec<Prepared<'a>>,
    played: usize,
    text: Text,
    /// Why it was not played to its end.
    pub fault: Option<Fault>,
}

/// What a step needs, which is made before memory is held, and freed after it.
#[derive(Drop)]
pub struct Prepared<'a> {
    pub given: Vec<Given<'a>>,
    pub found: Found,
}

impl<'a> Playing<'a> {
    /// A text made so, before the first step of a row.
    pub fn new(alloc: Global, row: &'a Row, made: Made) -> Result<Playing<'a>, Fault> {
        let room = room_of(row);
        let start = nothing(alloc, 0, 0)?;
        let mut steps = Vec::new(alloc);
        for step in &row.steps {
            steps.push(prepare(alloc, step, room)?)?;
        }
        let mut playing = Playing {
            row,
            made,
            start,
            steps,
            played: 0,
            text: text_of(alloc, &row.start, made)?,
            fault: None,
        };
        let Playing { text, start, .. } = &mut playing;
        look_at(text, start)?;
        Ok(playing)
    }

    /// The memory that the next step is to have; `None` at the end, or after a fault.
    pub fn next_memory(&self) -> Option<Memory> {
        if self.fault.is_some() {
            return None;
        }
        Some(self.row.steps.get(self.played)?.memory)
    }

    /// Plays the next steps, `most` at most, as far as they are to have this memory.
    pub fn advance(&mut self, memory: Memory, most: usize) {
        let next = self
            .row
            .steps
            .iter()
            .zip(self.steps.iter_mut())
            .skip(self.played);
        for (step, prepared) in next.take(most) {
            if step.memory != memory {
                break;
            }
            self.played = self.played.saturating_add(1);
            if let Err(fault) = play_step(&mut self.text, step, self.made.way, prepared) {
                self.fault = Some(fault);
                break;
            }
        }
    }
}

/// How long a text of this row can be at most, or its JSON text, if memory is held for a step or
/// its requests are counted.
fn room_of(row: &Row) -> usize {
    if row.steps.iter().all(|step| step.memory == Memory::Ample && step.requests.is_none()) {
        return 0;
    }
    let mut room = row.start.text.len();
    for step in &row.steps {
        room = room.saturating_add(length_of(&step.call).saturating_mul(step.times));
    }
    room.saturating_mul(6).saturating_add(300)
}

/// How many bytes a call can add.
fn length_of(call: &Call) -> usize {
    let mut units = call.bytes.len().saturating_add(call.units.len());
    units = units.saturating_mul(3).saturating_add(call.text.len());
    for string in &call.list {
        units = units.saturating_add(string.len());
    }
    units
}

fn nothing(alloc: Global, times: usize, room: usize) -> Result<Found, Fault> {
    Ok(Found {
        answers: Vec::with_capacity(alloc, times)?,
        text: String::with_capacity(alloc, room)?,
        storage: None,
        capacity: 0,
        limit: None,
        is_one: false,
    })
}

/// What a step needs to be played, with texts of at most this length.
fn prepare<'a>(alloc: Global, step: &'a Step, room: usize) -> Result<Prepared<'a>, Fault> {
    let mut given = Vec::new(alloc);
    for _ in 0..step.times {
        given.push(Given::new(alloc, &step.call, room)?)?;
    }
    Ok(Prepared {
        given,
        found: nothing(alloc, step.times, room)?,
    })
}

/// Makes a step's call, and keeps what it answers and what is seen then.
fn play_step(text: &mut Text, step: &Step, way: Way, prepared: &mut Prepared) -> Result<(), Fault> {
    let Prepared { given, found } = prepared;
    for given in given.iter_mut() {
        let answer = match way {
            Way::Calls | Way::Moved => text.play(&step.call, given)?,
            Way::Run | Way::Dyn => play_command(text, &step.call, way)?,
        };
        found.answers.push(with_room(text, &step.call, answer))?;
    }
    look_at(text, found)
}

/// What is seen of a text.
fn look_at(text: &Text, found: &mut Found) -> Result<(), Fault> {
    let view = text.view();
    found.text.push_str(view.string)?;
    found.storage = view.storage;
    found.capacity = view.capacity;
    found.limit = view.limit;
    found.is_one = view.is_one;
    Ok(())
}

/// What a call answers that is a command.
fn play_command(text: &mut Text, call: &Call, way: Way) -> Result<Answer, Fault> {
    let Some(command) = command_of(call) else {
        return Err(NOT_THERE);
    };
    let mut replies = [Reply::BadPlace];
    let is_there = match way {
        Way::Dyn => text.run_dyn(&[command], &mut replies),
        _ => text.run(&[command], &mut replies),
    };
    if is_there {
        Ok(answer_of(replies[0]))
    } else {
        Err(NOT_THERE)
    }
}

/// The answer, or `no room` where the text has not the capacity that a call must have made.
fn with_room(text: &Text, call: &Call, answer: Answer) -> Answer {
    let view = text.view();
    let len = match call.word {
        "reserve" | "reserve_exact" => view.string.len(),
        "with_capacity" => 0,
        _ => return answer,
    };
    match answer {
        Answer::Word("done") if view.capacity.saturating_sub(len) < call.number => {
            Answer::Word("no room")
        }
        answer => answer,
    }
}
