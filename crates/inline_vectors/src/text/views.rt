//! Answers that texts of any type give, by the same calls.

use crate::answer::Answer;
use crate::call::Call;
use crate::fault::{BAD_CALL, Fault, NOT_THERE};
use crate::text::given::Given;
use inlinable_string::ReplaceError;
use std::cmp::Ordering::{Equal, Greater, Less};
use std::fmt::{Debug, Display, Write};
use std::hash::{DefaultHasher, Hash, Hasher};

/// What a call answers that each type has, where memory or capacity that is missing gives `fault`;
/// else what `others` do.
macro_rules! edited {
    ($text:ident, $call:ident, $given:ident, $fault:literal, $others:expr) => {
        match $call.word {
            "push" => done_or($text.push(first($call)?), $fault),
            "push_str" => done_or($text.push_str($call.text.as_str()), $fault),
            "insert" | "insert_str" | "truncate" if !$text.is_char_boundary($call.number) => {
                $given.own(Answer::Word("bad place"))
            }
            "insert" => done_or($text.insert($call.number, first($call)?), $fault),
            "insert_str" => {
                done_or($text.insert_str($call.number, $call.text.as_str()), $fault)
            }
            "truncate" => {
                $text.truncate($call.number);
                Ok(Answer::Word("done"))
            }
            "remove" if $call.number >= $text.len() || !$text.is_char_boundary($call.number) => {
                $given.own(Answer::Word("bad place"))
            }
            "remove" => Ok(Answer::Char($text.remove($call.number))),
            "pop" => Ok(match $text.pop() {
                Some(ch) => Answer::Char(ch),
                None => Answer::Word("none"),
            }),
            "clear" => {
                $text.clear();
                Ok(Answer::Word("done"))
            }
            "replace_bytes" => Ok(replaced($text.replace_bytes($call.bytes.as_slice()))),
            "len" => Ok(number($text.len())),
            "is_empty" => Ok(truth($text.is_empty())),
            "as_bytes" => $given.bytes($text.as_bytes()),
            "as_str" => $given.text($text.as_str()),
            "eq_str" => Ok(truth($text.eq_str($call.text.as_str()))),
            _ => $others,
        }
    };
}

pub(crate) use edited;

/// What a call answers that `String` has and the traits lack; else what `others` do.
macro_rules! changed {
    ($text:ident, $call:ident, $given:ident, $fault:literal, $others:expr) => {{
        match $call.word {
            "retain" => $text.retain(|ch| $call.text.contains(ch)),
            "retain_odd" => {
                let mut is_odd = false;
                $text.retain(|_| {
                    is_odd = !is_odd;
                    is_odd
                });
            }
            "make_ascii_uppercase" => $text.make_ascii_uppercase(),
            "make_ascii_lowercase" => $text.make_ascii_lowercase(),
            "trim_in_place" => $text.trim_in_place(),
            "trim_start_in_place" => $text.trim_start_in_place(),
            "trim_end_in_place" => $text.trim_end_in_place(),
            "replace_range" => {
                let (from, to) = ($call.number, $call.end);
                if to < from || !$text.is_char_boundary(from) || !$text.is_char_boundary(to) {
                    return $given.own(Answer::Word("bad place"));
                }
                return done_or($text.replace_range(from..to, $call.text.as_str()), $fault);
            }
            "split_off" if !$text.is_char_boundary($call.number) => {
                return $given.own(Answer::Word("bad place"));
            }
            _ => return $others,
        }
        Ok(Answer::Word("done"))
    }};
}

pub(crate) use changed;

/// Fills the empty text with the call's text, after other text that is removed and before other
/// text that is cut off.
macro_rules! filled {
    ($text:ident, $call:ident) => {{
        let string = $call.text.as_str();
        if let Some(other) = &$call.other {
            $text.push_str(other.front.as_str())?;
            $text.push_str(string)?;
            $text.push_str(other.back.as_str())?;
            for _ in other.front.chars() {
                if 0 < $text.len() && $text.is_char_boundary(0) {
                    $text.remove(0);
                }
            }
            if $text.is_char_boundary(string.len()) {
                $text.truncate(string.len());
            }
        } else {
            $text.push_str(string)?;
        }
    }};
}

pub(crate) use filled;

/// The character that a call is given.
pub fn first(call: &Call) -> Result<char, Fault> {
    call.text.chars().next().ok_or(BAD_CALL)
}

pub fn number(number: usize) -> Answer {
    Answer::Number(number as u64)
}

pub fn truth(is_so: bool) -> Answer {
    Answer::Word(if is_so { "true" } else { "false" })
}

/// That it was done, or else why not.
pub fn done_or<E: Drop>(done: Result<(), E>, fault: &'static str) -> Result<Answer, Fault> {
    Ok(Answer::Word(match done {
        Ok(()) => "done",
        Err(_) => fault,
    }))
}

/// Replaces the text that is there, if one was made.
pub fn put<S: Drop, E: Drop>(
    text: &mut S,
    made: Result<S, E>,
    fault: &'static str,
) -> Result<Answer, Fault> {
    match made {
        Ok(made) => {
            *text = made;
            Ok(Answer::Word("done"))
        }
        Err(_) => Ok(Answer::Word(fault)),
    }
}

pub fn replaced(answer: Result<(), ReplaceError>) -> Answer {
    Answer::Word(match answer {
        Ok(()) => "done",
        Err(ReplaceError::WrongLength) => "wrong length",
        Err(ReplaceError::NotUtf8) => "not UTF-8",
    })
}

/// How a text compares with another. `none` if a call, an operator or the other side disagrees.
pub fn compare<T: Ord>(text: &T, other: &T, word: &str) -> Answer {
    let order = text.cmp(other);
    let is_ordered = text.partial_cmp(other) == Some(order)
        && other.cmp(text) == order.reverse()
        && other.partial_cmp(text) == Some(order.reverse())
        && (text == other) == (order == Equal)
        && (other == text) == (order == Equal)
        && (text != other) == (order != Equal)
        && (text < other) == (order == Less)
        && (text <= other) == (order != Greater)
        && (text > other) == (order == Greater)
        && (text >= other) == (order != Less);
    Answer::Word(match (word, order) {
        _ if !is_ordered => "none",
        ("eq", Equal) => "true",
        ("eq", _) => "false",
        (_, Less) => "less",
        (_, Equal) => "equal",
        (_, Greater) => "greater",
    })
}

/// How a text hashes or prints, by the call's word, or what it answers to `fmt::Write`.
pub fn view<T: Hash + Display + Debug + Write>(
    text: &mut T,
    call: &Call,
    given: &mut Given,
) -> Result<Answer, Fault> {
    match call.word {
        "hash" => {
            let mut state = DefaultHasher::new();
            text.hash(&mut state);
            Ok(Answer::Number(state.finish()))
        }
        "write_char" => done_or(text.write_char(first(call)?), "write fault"),
        "write_str" => done_or(text.write_str(call.text.as_str()), "write fault"),
        "write" => done_or(write!(text, "{}", call.text), "write fault"),
        _ => print(text, call, given),
    }
}

/// How a text prints, in several formats of the call's number.
fn print<T: Display + Debug>(text: &T, call: &Call, given: &mut Given) -> Result<Answer, Fault> {
    let (alloc, number) = (given.alloc, call.number);
    Ok(Answer::Text(match call.word {
        "display" => format!(in alloc; "{text}")?,
        "debug" => format!(in alloc; "{text:?}")?,
        "padded" => format!(in alloc;
            "{text:number$}|{text:*<number$}|{text:>number$}|{text:é^number$}"
        )?,
        "cut" => format!(in alloc;
            "{text:.number$}|{text:<9.number$}|{text:0>12.number$}|{text:😀^12.number$}"
        )?,
        _ => return Err(NOT_THERE),
    }))
}
