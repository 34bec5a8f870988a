//! The calls of `InlineStringN`.
ghost use Rattle.std.specs.Prelude.{◌≤◌};

use crate::answer::Answer;
use crate::call::Call;
use crate::fault::Fault;
use crate::text::given::Given;
use crate::text::views::{
    changed, compare, done_or, edited, filled, first, number, put, replaced, truth, view,
};
use inlinable_string::InlineStringN;

/// What a call answers, which may change the text: first those that make another, or compare.
pub fn play_array<const N: usize>(
    text: &mut InlineStringN<N>,
    call: &Call,
    given: &mut Given,
) -> Result<Answer, Fault>
    requires { N ≤ 300 }
{
    let string = call.text.as_str();
    match call.word {
        "from" | "eq" | "cmp" | "partial_cmp" if N < string.len() => {
            given.own(Answer::Word("too long"))
        }
        "from" => put_made(text, InlineStringN::from(string)),
        "eq" | "cmp" | "partial_cmp" => {
            let mut other = InlineStringN::new();
            filled!(other, call);
            Ok(compare(text, &other, call.word))
        }
        "new" => put_made(text, InlineStringN::new()),
        "default" => put_made(text, InlineStringN::default()),
        "copy" => put_made(text, text.copy()),
        "clone" => put(text, text.clone(), "no memory"),
        "from_str" | "parse" => put(text, string.parse(), "full"),
        "try_from" => put(text, InlineStringN::try_from(string), "full"),
        "try_from_char" => put(text, InlineStringN::try_from(first(call)?), "full"),
        "from_string" => put(text, InlineStringN::try_from(given.take_string()), "full"),
        "from_utf8" if N < call.bytes.len() => given.own(Answer::Word("too long")),
        "from_utf8" => put(
            text,
            InlineStringN::from_utf8(call.bytes.as_slice()),
            "not UTF-8",
        ),
        "repeat" => put(text, InlineStringN::repeat(string, call.number), "full"),
        "from_chars" => put(text, InlineStringN::from_chars(string.chars()), "full"),
        "from_strs" => {
            let items = given.strs.iter().copied();
            put(text, InlineStringN::from_strs(items), "full")
        }
        "from_strs_with" => {
            let items = given.strs.iter().copied();
            put(text, InlineStringN::from_strs_with(string, items), "full")
        }
        _ => edit(text, call, given),
    }
}

fn put_made<const N: usize>(
    text: &mut InlineStringN<N>,
    made: InlineStringN<N>,
) -> Result<Answer, Fault> {
    *text = made;
    Ok(Answer::Word("done"))
}

/// The calls that change the text, or look at it.
fn edit<const N: usize>(
    text: &mut InlineStringN<N>,
    call: &Call,
    given: &mut Given,
) -> Result<Answer, Fault>
    requires { N ≤ 300 }
{
    edited!(text, call, given, "full", change(text, call, given))
}

/// The calls of `String` that the traits lack, and those of this type alone.
fn change<const N: usize>(
    text: &mut InlineStringN<N>,
    call: &Call,
    given: &mut Given,
) -> Result<Answer, Fault>
    requires { N ≤ 300 }
{
    let string = call.text.as_str();
    changed!(
        text,
        call,
        given,
        "full",
        match call.word {
            "split_off" => given.text(text.split_off(call.number).as_str()),
            "drain" => {
                let (from, to) = (call.number, call.end);
                if to < from || !text.is_char_boundary(from) || !text.is_char_boundary(to) {
                    return given.own(Answer::Word("bad place"));
                }
                given.text(text.drain(from..to).as_str())
            }
            "remaining_capacity" => Ok(number(text.remaining_capacity())),
            "is_full" => Ok(truth(text.is_full())),
            "extend_chars" => done_or(text.extend_chars(string.chars()), "full"),
            "extend_strs" => done_or(text.extend_strs(given.strs.iter().copied()), "full"),
            "add" if N - text.len() < string.len() => given.own(Answer::Word("full")),
            "add" => {
                *text += string;
                Ok(Answer::Word("done"))
            }
            "capacity" => given.own(number(N)),
            "into_bytes" => {
                let bytes = text.copy().into_bytes();
                text.clear();
                given.bytes(&bytes[..])
            }
            _ => view(text, call, given),
        }
    )
}
