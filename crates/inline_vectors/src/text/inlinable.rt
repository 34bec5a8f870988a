//! The calls that `InlinableStringN` and `String` have by themselves, beside those of the traits.
ghost use Rattle.std.specs.Prelude.{◌≤◌};

use crate::answer::Answer;
use crate::call::Call;
use crate::fault::{Fault, NO_MEMORY};
use crate::text::given::Given;
use crate::text::traits::make;
use crate::text::views::{changed, compare, done_or, filled, put, view};
use inlinable_string::{InlinableStringN, JsonError, Storage, StringExt, StringMake};
use std::alloc::{AllocError, Global};
use std::fmt::{Debug, Display, Write};
use std::hash::Hash;
use std::mem;

/// What a call answers, which may change the text: first those that make another.
pub fn play_inlinable<const N: usize>(
    text: &mut InlinableStringN<N>,
    call: &Call,
    given: &mut Given,
) -> Result<Answer, Fault>
    requires { N ≤ 300 }
{
    let (alloc, string) = (given.alloc, call.text.as_str());
    let made = match call.word {
        "default" => Ok(InlinableStringN::default(alloc)),
        "from" => InlinableStringN::from(alloc, string),
        "from_str" => InlinableStringN::from_str(alloc, string),
        "from_string" => {
            let made: InlinableStringN<N> = given.take_string().into();
            Ok(made)
        }
        "repeat" => InlinableStringN::repeat(alloc, string, call.number),
        "from_chars" => InlinableStringN::from_chars(alloc, string.chars()),
        "from_strs" => InlinableStringN::from_strs(alloc, given.strs.iter().copied()),
        "from_strs_with" => {
            InlinableStringN::from_strs_with(alloc, string, given.strs.iter().copied())
        }
        "collect" if given.strs.is_empty() => string.chars().collect(alloc),
        "collect" => given.strs.iter().copied().collect(alloc),
        "from_json" => {
            let Some(value) = &given.json else {
                return Ok(Answer::Word("no string"));
            };
            match InlinableStringN::from_json(alloc, value) {
                Err(JsonError::NotString) => return Ok(Answer::Word("no string")),
                made => made.map_err(|_| AllocError),
            }
        }
        "add" | "extend" | "extend_chars" | "extend_char_refs" | "extend_strs" => {
            return done_or(join(text, call, given), "no memory");
        }
        _ => return change(text, call, given),
    };
    put(text, made, "no memory")
}

/// The calls that add several pieces.
fn join<const N: usize>(
    text: &mut InlinableStringN<N>,
    call: &Call,
    given: &mut Given,
) -> Result<(), AllocError>
    requires { N ≤ 300 }
{
    let string = call.text.as_str();
    match call.word {
        "extend" if given.strs.is_empty() => text.extend(string.chars()),
        "extend" => text.extend(given.strs.iter().copied()),
        "extend_chars" => text.extend_chars(string.chars()),
        "extend_char_refs" => text.extend_char_refs(given.chars.iter()),
        "extend_strs" => text.extend_strs(given.strs.iter().copied()),
        _ => match mem::replace(text, InlinableStringN::new(given.alloc)).add(string) {
            Ok(joined) => {
                *text = joined;
                Ok(())
            }
            Err(same) => {
                *text = same;
                Err(AllocError)
            }
        },
    }
}

/// The calls of `String` that the traits lack.
fn change<const N: usize>(
    text: &mut InlinableStringN<N>,
    call: &Call,
    given: &mut Given,
) -> Result<Answer, Fault>
    requires { N ≤ 300 }
{
    changed!(
        text,
        call,
        given,
        "no memory",
        match call.word {
            "split_off" => placed(text.split_off(call.number), given),
            "drain" => {
                let (from, to) = (call.number, call.end);
                if to < from || !text.is_char_boundary(from) || !text.is_char_boundary(to) {
                    return given.own(Answer::Word("bad place"));
                }
                placed(text.drain(from..to), given)
            }
            "into_string" => {
                match mem::replace(text, InlinableStringN::new(given.alloc)).into_string() {
                    Ok(string) => Ok(Answer::Text(string)),
                    Err(same) => {
                        *text = same;
                        Ok(Answer::Word("no memory"))
                    }
                }
            }
            "to_json" => match text.to_json() {
                Ok(value) => given.json_text(value),
                Err(_) => Ok(Answer::Word("no memory")),
            },
            _ => play_value(text, call, given),
        }
    )
}

/// The answer of a text that was split off or drained. Its allocation is handed over, not freed.
fn placed<const N: usize>(
    part: Result<InlinableStringN<N>, AllocError>,
    given: &mut Given,
) -> Result<Answer, Fault> {
    let Ok(part) = part else {
        return Ok(Answer::Word("no memory"));
    };
    match part.storage() {
        Storage::Inline => given.placed(part.as_str(), Storage::Inline),
        Storage::Heap => match part.into_string() {
            Ok(string) => Ok(Answer::Placed(string, Storage::Heap)),
            Err(_) => Err(NO_MEMORY),
        },
    }
}

/// What a call of `String` answers.
pub fn play_string(text: &mut String, call: &Call, given: &mut Given) -> Result<Answer, Fault> {
    let (alloc, string) = (given.alloc, call.text.as_str());
    match call.word {
        "from" | "from_str" => put(text, String::from_str(alloc, string), "no memory"),
        "collect" if given.strs.is_empty() => put(text, string.chars().collect(alloc), "no memory"),
        "extend" if given.strs.is_empty() => done_or(text.extend(string.chars()), "no memory"),
        _ => play_value(text, call, given),
    }
}

/// The calls of std's traits: copies, comparisons, hashes, prints and writes. Else those of the
/// traits of the library.
fn play_value<S: StringMake + Clone + Debug + Display + Drop + Hash + Ord + Write>(
    text: &mut S,
    call: &Call,
    given: &mut Given,
) -> Result<Answer, Fault> {
    match call.word {
        "clone" => put(text, text.clone(), "no memory"),
        "eq" | "cmp" | "partial_cmp" => {
            let room = call.other.as_ref().and_then(|other| other.room);
            let mut other = S::with_capacity(given.alloc, room.unwrap_or(0))?;
            filled!(other, call);
            Ok(compare(text, &other, call.word))
        }
        "hash" | "write_char" | "write_str" | "write" | "display" | "debug" | "padded" | "cut" => {
            view(text, call, given)
        }
        _ => make(text, call, given),
    }
}
