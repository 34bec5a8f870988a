//! Lists of commands, each with its reply.
//!
//! What they do to a text is a function of a list of characters, of a table that gives its storage,
//! and of the commands whose allocation failed, whatever the text's type.
ghost use Rattle.std.specs.Prelude.{◌≡◌, ◌+◌, ◌≤◌, length};
ghost use Rattle.inlinable_string.specs.Text.{size};
ghost use Rattle.inlinable_string.specs.State.{IsLawful};
ghost use Rattle.inlinable_string.specs.Edit.{text_after};
ghost use Rattle.inlinable_string.specs.Run.{LegalReplies, storage_after, credit_after};
ghost use Rattle.inlinable_string.specs.Step.{IsStep};

use crate::inline_string::ReplaceError;
use crate::string_ext::StringExt;

mod dynamic;
mod each;

pub use crate::laws::{reserved_pushes_never_fail, runs_join, short_runs_never_ask};
pub use dynamic::run_dyn;
pub use each::run_each;

/// An edit of a text. A place is a byte offset; the reply to one that is no character boundary is
/// `BadPlace`.
#[derive(Clone, Copy)]
pub enum Command<'a> {
    /// Appends a character.
    Push(char),
    /// Appends a text.
    PushStr(&'a str),
    /// Inserts a character at a place.
    Insert(usize, char),
    /// Inserts a text at a place.
    InsertStr(usize, &'a str),
    /// Keeps the text before a place.
    Truncate(usize),
    /// Removes the last character.
    Pop,
    /// Removes the character that begins at a place.
    Remove(usize),
    /// Empties the text.
    Clear,
    /// Overwrites the text with bytes, which must have its length and be UTF-8.
    ReplaceBytes(&'a [u8]),
    /// Reserves capacity for at least `n` more bytes.
    Reserve(usize),
    /// Reserves the minimum capacity for `n` more bytes.
    ReserveExact(usize),
    /// Shrinks the capacity.
    ShrinkToFit,
}

/// The reply to a command. With every reply except `Done` and `Char`, the text and its storage are
/// unchanged.
#[derive(Clone, Copy, Debug, PartialEq, Eq)]
pub enum Reply {
    /// The command was carried out.
    Done,
    /// This character was removed.
    Char(char),
    /// The text was empty, so no character was removed.
    NoChar,
    /// The place is inside a character or past the end, or no character begins there.
    BadPlace,
    /// The bytes have the text's length, but are not UTF-8.
    NotUtf8,
    /// The lengths differ.
    WrongLength,
    /// The allocation failed.
    NoMemory,
}

// The bodies of both runs, of a type parameter and of a `dyn`: the first must have a size, so no
// function is both. A macro writes no contract, so each run has its own.

/// Executes each command in turn.
macro_rules! run_body {
    ($text:ident, $commands:ident, $replies:ident, $step:ident) => {{
        let _ = $text.len();
        for (i, command) in $commands.iter().enumerate() {
            $replies[i] = $step($text, *command);
        }
    }};
}

/// Executes a command, and reads the laws of the text as it is then.
macro_rules! step_body {
    ($text:ident, $command:ident, $execute:ident) => {{
        let reply = $execute($text, $command);
        let _ = $text.len();
        reply
    }};
}

/// Executes a command. A place is tested before anything that can allocate. The `&str` arms call
/// functions: the prover knows a `&str` to be UTF-8 only as a parameter.
macro_rules! execute_body {
    ($text:ident, $command:ident, $push_str:ident, $insert_str:ident) => {
        match $command {
            Command::Push(ch) => match $text.push(ch) {
                Ok(()) => Reply::Done,
                Err(_) => Reply::NoMemory,
            },
            Command::PushStr(string) => $push_str($text, string),
            Command::Insert(idx, ch) => {
                if $text.is_char_boundary(idx) {
                    match $text.insert(idx, ch) {
                        Ok(()) => Reply::Done,
                        Err(_) => Reply::NoMemory,
                    }
                } else {
                    Reply::BadPlace
                }
            }
            Command::InsertStr(idx, string) => $insert_str($text, idx, string),
            Command::Truncate(new_len) => {
                if $text.is_char_boundary(new_len) {
                    $text.truncate(new_len);
                    Reply::Done
                } else {
                    Reply::BadPlace
                }
            }
            Command::Pop => match $text.pop() {
                Some(last) => Reply::Char(last),
                None => Reply::NoChar,
            },
            Command::Remove(idx) => {
                if !$text.is_char_boundary(idx) {
                    Reply::BadPlace
                } else if idx < $text.len() {
                    Reply::Char($text.remove(idx))
                } else {
                    Reply::BadPlace
                }
            }
            Command::Clear => {
                $text.clear();
                Reply::Done
            }
            Command::ReplaceBytes(bytes) => match $text.replace_bytes(bytes) {
                Ok(()) => Reply::Done,
                Err(ReplaceError::WrongLength) => Reply::WrongLength,
                Err(ReplaceError::NotUtf8) => Reply::NotUtf8,
            },
            Command::Reserve(additional) => match $text.reserve(additional) {
                Ok(()) => Reply::Done,
                Err(_) => Reply::NoMemory,
            },
            Command::ReserveExact(additional) => match $text.reserve_exact(additional) {
                Ok(()) => Reply::Done,
                Err(_) => Reply::NoMemory,
            },
            Command::ShrinkToFit => match $text.shrink_to_fit() {
                Ok(()) => Reply::Done,
                Err(_) => Reply::NoMemory,
            },
        }
    };
}

macro_rules! push_str_body {
    ($text:ident, $string:ident) => {
        match $text.push_str($string) {
            Ok(()) => Reply::Done,
            Err(_) => Reply::NoMemory,
        }
    };
}

macro_rules! insert_str_body {
    ($text:ident, $idx:ident, $string:ident) => {
        if $text.is_char_boundary($idx) {
            match $text.insert_str($idx, $string) {
                Ok(()) => Reply::Done,
                Err(_) => Reply::NoMemory,
            }
        } else {
            Reply::BadPlace
        }
    };
}

pub(super) use execute_body;
pub(super) use insert_str_body;
pub(super) use push_str_body;
pub(super) use run_body;
pub(super) use step_body;

/// Executes each command in turn, and writes the reply to each, in the same order.
///
/// A refused command changes nothing, and the run continues. `run` itself never allocates. The
/// slices must have the same length.
pub fn run<S: StringExt>(text: &mut S, commands: &[Command], replies: &mut [Reply])
    requires { length replies.old ≡ length commands.now }

    // The text is that of one list of characters, stored where the placement table says.
    ensures text { (S.state text.new).text
        ≡ text_after (S.state text.old).text commands.now replies.new }
    ensures storage { (S.state text.new).storage
        ≡ storage_after (S.state text.old) commands.now replies.new }

    // Each reply is that of `edit`, or `NoMemory`, to a command that may allocate.
    ensures replies { LegalReplies (S.state text.old) commands.now replies.new }

    // A next run starts with no less credit than this one ended with.
    ensures credit { size (S.state text.new).text
        + credit_after (S.state text.old) commands.now replies.new
        ≤ (S.state text.new).capacity }
    ensures policy { (S.state text.new).policy ≡ (S.state text.old).policy }
{
    run_body!(text, commands, replies, step)
}

/// Executes one command.
fn step<S: StringExt>(text: &mut S, command: Command) -> Reply
    ensures { IsStep (S.state text.old) command.entry result (S.state text.new) }
{
    step_body!(text, command, execute)
}

/// Executes one command. The caller shows that the new state is lawful.
#[tactic(auto, using(crate::proofs::Steps::outcomes))]
fn execute<S: StringExt>(text: &mut S, command: Command) -> Reply
    ensures { IsLawful (S.state text.new)
        → IsStep (S.state text.old) command.entry result (S.state text.new) }
{
    execute_body!(text, command, push_str, insert_str)
}

#[tactic(auto, using(crate::proofs::Steps::push_str_done))]
fn push_str<S: StringExt>(text: &mut S, string: &str) -> Reply
    ensures { IsLawful (S.state text.new)
        → IsStep (S.state text.old) (Command.PushStr string.entry) result (S.state text.new) }
{
    push_str_body!(text, string)
}

#[tactic(auto, using(crate::proofs::Steps::insert_str_done))]
fn insert_str<S: StringExt>(text: &mut S, idx: usize, string: &str) -> Reply
    ensures { IsLawful (S.state text.new)
        → IsStep (S.state text.old) (Command.InsertStr idx string.entry) result
        (S.state text.new) }
{
    insert_str_body!(text, idx, string)
}
