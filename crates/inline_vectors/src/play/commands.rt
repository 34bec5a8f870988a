//! Calls as commands, and replies as answers.

use crate::answer::Answer;
use crate::call::Call;
use inlinable_string::run::{Command, Reply};

/// The command that is this call, if one is.
pub fn command_of(call: &Call) -> Option<Command<'_>> {
    let string = call.text.as_str();
    Some(match call.word {
        "push" => Command::Push(string.chars().next()?),
        "push_str" => Command::PushStr(string),
        "insert" => Command::Insert(call.number, string.chars().next()?),
        "insert_str" => Command::InsertStr(call.number, string),
        "truncate" => Command::Truncate(call.number),
        "pop" => Command::Pop,
        "remove" => Command::Remove(call.number),
        "clear" => Command::Clear,
        "replace_bytes" => Command::ReplaceBytes(call.bytes.as_slice()),
        "reserve" => Command::Reserve(call.asked),
        "reserve_exact" => Command::ReserveExact(call.asked),
        "shrink_to_fit" => Command::ShrinkToFit,
        _ => return None,
    })
}

/// The answer that is this reply.
pub fn answer_of(reply: Reply) -> Answer {
    Answer::Word(match reply {
        Reply::Char(ch) => return Answer::Char(ch),
        Reply::Done => "done",
        Reply::NoChar => "none",
        Reply::BadPlace => "bad place",
        Reply::NotUtf8 => "not UTF-8",
        Reply::WrongLength => "wrong length",
        Reply::NoMemory => "no memory",
    })
}
