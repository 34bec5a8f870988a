//! Workloads on lists of commands, on growth, and on edits at the front of long texts.
use crate::pieces::{pieces_of, sink, words_of};
use crate::task::Task;
use inlinable_string::run::{Command, Reply, run, run_dyn};
use inlinable_string::{InlinableString, StringExt, StringMake};
use std::alloc::AllocError;

/// The command of a record: a byte that says which, a place, the size of a text, and that text.
fn command_of(record: &[u8]) -> Option<Command> {
    let size = usize::from(*record.get(2)?);
    let bytes = record.get(3..3 + size)?;
    command(*record.first()?, usize::from(*record.get(1)?), bytes)
}

fn command(which: u8, place: usize, bytes: &[u8]) -> Option<Command> {
    let text = std::str::from_utf8(bytes).ok()?;
    let first = text.chars().next().unwrap_or('x');
    match which {
        0 => Some(Command::Push(first)),
        1 => Some(Command::PushStr(text)),
        2 => Some(Command::Insert(place, first)),
        3 => Some(Command::InsertStr(place, text)),
        4 => Some(Command::Truncate(place)),
        5 => Some(Command::Pop),
        6 => Some(Command::Remove(place)),
        7 => Some(Command::Clear),
        8 => Some(Command::ReplaceBytes(bytes)),
        9 => Some(Command::Reserve(place)),
        10 => Some(Command::ReserveExact(place)),
        11 => Some(Command::ShrinkToFit),
        _ => None,
    }
}

fn commands_of<'a>(task: &Task<'a>) -> Result<Vec<Command<'a>>, AllocError> {
    let mut commands = Vec::new(task.alloc);
    for record in pieces_of(task)?.iter() {
        if let Some(command) = command_of(record) {
            commands.push(command)?;
        }
    }
    Ok(commands)
}

fn number_of(reply: Reply) -> u64 {
    match reply {
        Reply::Done => 1,
        Reply::Char(ch) => 100 + u64::from(ch),
        Reply::NoChar => 2,
        Reply::BadPlace => 3,
        Reply::NotUtf8 => 4,
        Reply::WrongLength => 5,
        Reply::NoMemory => 6,
    }
}

fn sum_of(replies: &[Reply]) -> u64 {
    let mut sum = 0u64;
    for reply in replies.iter() {
        sum = sum.wrapping_mul(7).wrapping_add(number_of(*reply));
    }
    sum
}

/// The list on a new text, round after round.
#[inline(never)]
pub fn run_on<S: StringMake + Drop>(task: &Task) -> Result<u64, AllocError> {
    let commands = commands_of(task)?;
    let mut replies = vec![in task.alloc; Reply::Done; commands.len()]?;
    let mut sum = 0u64;
    for round in 0..task.rounds {
        let mut text = S::new(task.alloc);
        run(&mut text, commands.as_slice(), replies.as_mut_slice());
        sum = sum.wrapping_add(sink(&text, round));
    }
    Ok(sum.wrapping_add(sum_of(replies.as_slice())))
}

/// The same on a `dyn`.
#[inline(never)]
pub fn run_on_dyn(task: &Task) -> Result<u64, AllocError> {
    let commands = commands_of(task)?;
    let mut replies = vec![in task.alloc; Reply::Done; commands.len()]?;
    let mut sum = 0u64;
    for round in 0..task.rounds {
        let mut text: InlinableString = StringMake::new(task.alloc);
        run_dyn(&mut text, commands.as_slice(), replies.as_mut_slice());
        sum = sum.wrapping_add(sink(&text, round));
    }
    Ok(sum.wrapping_add(sum_of(replies.as_slice())))
}

/// A letter is pushed in each round, on one text.
#[inline(never)]
pub fn grow<S: StringMake + Drop>(task: &Task) -> Result<u64, AllocError> {
    let mut text = S::new(task.alloc);
    for _ in 0..task.rounds {
        text.push('a')?;
    }
    Ok((text.len() as u64).wrapping_add(sink(&text, 0)))
}

/// A letter is put in at the front of each word, and taken out again.
#[inline(never)]
pub fn fronts<S: StringMake + Drop>(task: &Task) -> Result<u64, AllocError> {
    let mut sum = 0u64;
    for word in words_of(task)?.iter() {
        let mut text = S::new(task.alloc);
        text.push_str(word)?;
        for round in 0..task.rounds {
            text.insert(0, 'x')?;
            sum = sum.wrapping_add(sink(&text, round));
            if !text.is_empty() {
                sum = sum.wrapping_add(u64::from(text.remove(0)));
            }
        }
        sum = sum.wrapping_add(sink(&text, 0));
    }
    Ok(sum)
}
