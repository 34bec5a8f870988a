//! The calls of the traits, which `InlinableStringN`, `String` and the types of users have.

use crate::answer::Answer;
use crate::call::Call;
use crate::fault::{Fault, NOT_THERE};
use crate::text::given::Given;
use crate::text::views::{done_or, edited, first, number, put, replaced, truth};
use inlinable_string::string_ext::{extend_chars, extend_strs, split_once};
use inlinable_string::{Storage, StringExt, StringMake, Utf16Error};
use std::alloc::AllocError;
use std::borrow::CowStr;
use std::mem;

/// What a call of `StringMake` answers; else one of `StringExt`.
pub fn make<S: StringMake + Drop>(
    text: &mut S,
    call: &Call,
    given: &mut Given,
) -> Result<Answer, Fault> {
    let alloc = given.alloc;
    let units = call.units.as_slice();
    match call.word {
        "new" => put(text, Ok::<S, AllocError>(S::new(alloc)), "no memory"),
        "with_capacity" => put(text, S::with_capacity(alloc, call.asked), "no memory"),
        "from_utf8" => match S::from_utf8(alloc, given.take_vec()) {
            Ok(made) => put(text, Ok::<S, AllocError>(made), "no memory"),
            Err(error) => Ok(Answer::NotUtf8(error.into_bytes())),
        },
        "from_utf8_unchecked" => {
            let vec = given.take_vec();
            let Ok(_) = str::from_utf8(vec.as_slice()) else {
                return given.own(Answer::NotUtf8(vec));
            };
            let made = unsafe { S::from_utf8_unchecked(alloc, vec) };
            put(text, Ok::<S, AllocError>(made), "no memory")
        }
        "from_utf8_lossy" => match S::from_utf8_lossy(alloc, call.bytes.as_slice()) {
            Ok(CowStr::Borrowed(string)) => {
                Ok(Answer::WordAndText("borrowed", given.copy_text(string)?))
            }
            Ok(CowStr::Owned(string)) => Ok(Answer::WordAndText("owned", string)),
            Err(_) => Ok(Answer::Word("no memory")),
        },
        "from_utf16" => match S::from_utf16(alloc, units) {
            Ok(made) => put(text, Ok::<S, AllocError>(made), "no memory"),
            Err(Utf16Error::Unpaired) => Ok(Answer::Word("unpaired")),
            Err(Utf16Error::NoMemory) => Ok(Answer::Word("no memory")),
        },
        "from_utf16_lossy" => put(text, S::from_utf16_lossy(alloc, units), "no memory"),
        "into_bytes" => match mem::replace(text, S::new(alloc)).into_bytes() {
            Ok(bytes) => Ok(Answer::Bytes(bytes)),
            Err(same) => {
                *text = same;
                Ok(Answer::Word("no memory"))
            }
        },
        _ => edit(text, call, given),
    }
}

/// What a call of `StringExt` answers.
pub fn edit<S: StringExt>(text: &mut S, call: &Call, given: &mut Given) -> Result<Answer, Fault> {
    edited!(
        text,
        call,
        given,
        "no memory",
        match call.word {
            "split_once" => match split_once(text, first(call)?) {
                Some((before, after)) => given.pair(before, after),
                None => Ok(Answer::Word("none")),
            },
            "reserve" => done_or(text.reserve(call.asked), "no memory"),
            "reserve_exact" => done_or(text.reserve_exact(call.asked), "no memory"),
            "shrink_to_fit" => done_or(text.shrink_to_fit(), "no memory"),
            "extend_chars" => done_or(extend_chars(text, call.text.chars()), "no memory"),
            "extend_strs" => done_or(extend_strs(text, given.strs.iter().copied()), "no memory"),
            "capacity" => Ok(match text.storage() {
                Storage::Inline => number(text.capacity()),
                Storage::Heap if text.capacity() < text.len() => Answer::Word("no room"),
                Storage::Heap => Answer::Word("room"),
            }),
            _ => Err(NOT_THERE),
        }
    )
}
