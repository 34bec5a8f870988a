//! The calls of rows: the word of each, what it is given, and what it does to the capacity.

use crate::begin::Start;
use std::alloc::Global;

/// A call. What it has no use for is empty, or zero.
#[derive(Drop)]
pub struct Call {
    /// Its name in the library.
    pub word: &'static str,
    pub arguments: &'static [Argument],
    pub effect: Effect,
    /// A place, an amount, a width or a capacity, and the start of a range.
    pub number: usize,
    /// The end of a range.
    pub end: usize,
    /// The amount or the capacity that the library is given.
    pub asked: usize,
    /// A text, or a character as one.
    pub text: String,
    pub bytes: Vec<u8>,
    pub units: Vec<u16>,
    pub list: Vec<String>,
    /// How the text is made that the call is given, beside its content.
    pub other: Option<Start>,
}

/// One thing that a call is given.
#[derive(Clone, Copy)]
pub enum Argument {
    /// A place, an amount, a width or a capacity.
    Number,
    /// An amount or a capacity, and perhaps another that the library is given.
    Room,
    /// A range of places.
    Range,
    Char,
    Text,
    List,
    /// A text, or a list of one text at least.
    TextOrList,
    Bytes,
    Units,
    /// A text, and perhaps how it is made.
    Other,
}

/// What a call does to the capacity.
#[derive(Clone, Copy, PartialEq, Eq)]
pub enum Effect {
    /// It does not become less.
    Keeps,
    Shrinks,
    /// Another text is there then, or none.
    Remakes,
    /// Another text is there then, on the heap however short it is.
    RemakesOnHeap,
}

use Argument::{Bytes, Char, List, Number, Other, Range, Room, Text, TextOrList, Units};
use Effect::{Keeps, Remakes, RemakesOnHeap, Shrinks};

/// The words of the calls.
const CALLS: &[(&[Argument], Effect, &[&str])] = &[
    (&[Char], Keeps, &["push", "write_char", "split_once"]),
    (&[Text], Keeps, &["push_str", "add", "write", "write_str"]),
    (&[Text], Keeps, &["extend_chars", "extend_char_refs"]),
    (&[Text], Keeps, &["retain", "eq_str"]),
    (&[Number, Char], Keeps, &["insert"]),
    (&[Number, Text], Keeps, &["insert_str"]),
    (&[Range, Text], Keeps, &["replace_range"]),
    (&[Range], Keeps, &["drain"]),
    (&[List], Keeps, &["extend_strs"]),
    (&[TextOrList], Keeps, &["extend"]),
    (&[Bytes], Keeps, &["replace_bytes", "from_utf8_lossy"]),
    (&[Other], Keeps, &["eq", "cmp", "partial_cmp"]),
    (&[Number], Keeps, &["truncate", "remove", "split_off"]),
    (&[Room], Keeps, &["reserve", "reserve_exact"]),
    (&[Number], Keeps, &["padded", "cut"]),
    (&[], Keeps, &["pop", "clear", "retain_odd"]),
    (&[], Keeps, &["make_ascii_uppercase"]),
    (&[], Keeps, &["make_ascii_lowercase", "trim_in_place"]),
    (&[], Keeps, &["trim_start_in_place", "trim_end_in_place"]),
    (&[], Keeps, &["len", "capacity", "is_empty", "hash"]),
    (&[], Keeps, &["as_str", "as_bytes", "to_json"]),
    (&[], Keeps, &["display", "debug"]),
    (&[], Keeps, &["remaining_capacity", "is_full"]),
    (&[], Shrinks, &["shrink_to_fit"]),
    (&[], Remakes, &["new", "default", "clone", "copy"]),
    (&[], Remakes, &["into_bytes", "into_string"]),
    (&[], Remakes, &["into_array", "boxed"]),
    (&[Room], Remakes, &["with_capacity"]),
    (&[Number], Remakes, &["with_limit"]),
    (&[Char], Remakes, &["try_from_char"]),
    (&[Text], Remakes, &["from", "from_str", "from_string"]),
    (&[Text], Remakes, &["from_chars", "from_json", "try_from"]),
    (&[Text], Remakes, &["parse"]),
    (&[Text, Number], Remakes, &["repeat"]),
    (&[List], Remakes, &["from_strs"]),
    (&[Text, List], Remakes, &["from_strs_with"]),
    (&[TextOrList], Remakes, &["collect"]),
    (
        &[Bytes],
        RemakesOnHeap,
        &["from_utf8", "from_utf8_unchecked"],
    ),
    (&[Units], RemakesOnHeap, &["from_utf16", "from_utf16_lossy"]),
];

impl Call {
    /// The call of this name, before it is given anything.
    pub fn named(alloc: Global, name: &str) -> Option<Call> {
        for &(arguments, effect, words) in CALLS {
            for &word in words {
                if word == name {
                    return Some(Call {
                        word,
                        arguments,
                        effect,
                        number: 0,
                        end: 0,
                        asked: 0,
                        text: String::new(alloc),
                        bytes: Vec::new(alloc),
                        units: Vec::new(alloc),
                        list: Vec::new(alloc),
                        other: None,
                    });
                }
            }
        }
        None
    }
}
