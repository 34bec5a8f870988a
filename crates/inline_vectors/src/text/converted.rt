//! Texts that become one of another type.

use crate::answer::Answer;
use crate::call::Call;
use crate::fault::{Fault, NOT_THERE};
use crate::text::Text;
use inlinable_string::{BoxableString, InlineStringN};
use std::mem;

/// Makes a text one of another type, by the call's word. After a fault there is no text to go on
/// with.
pub fn convert(text: &mut Text, call: &Call) -> Result<Answer, Fault> {
    let taken = mem::replace(text, Text::Array0(InlineStringN::new()));
    let (moved, refused) = match call.word {
        "with_limit" => (limited(taken, call.number)?, "no memory"),
        "into_array" => (in_array(taken)?, "full"),
        _ => (boxed(taken)?, "no memory"),
    };
    let (moved, word) = match moved {
        Ok(moved) => (moved, "done"),
        Err(same) => (same, refused),
    };
    *text = moved;
    Ok(Answer::Word(word))
}

/// The text in its new type, or in the old one if the conversion fails.
type Moved = Result<Text, Text>;

/// The same of a conversion between these variants.
macro_rules! moved {
    ($old:ident, $new:ident, $moved:expr) => {
        match $moved {
            Ok(moved) => Ok(Text::$new(moved)),
            Err(same) => Err(Text::$old(same)),
        }
    };
}

/// `with_limit`, between the capacities that rows use.
fn limited(text: Text, limit: usize) -> Result<Moved, Fault> {
    Ok(match (text, limit) {
        (Text::Inlinable48(text), 8) => moved!(Inlinable48, Inlinable8, text.with_limit()),
        (Text::Inlinable30(text), 8) => moved!(Inlinable30, Inlinable8, text.with_limit()),
        (Text::Inlinable30(text), 1) => moved!(Inlinable30, Inlinable1, text.with_limit()),
        (Text::Inlinable30(text), 0) => moved!(Inlinable30, Inlinable0, text.with_limit()),
        (Text::Inlinable8(text), 30) => moved!(Inlinable8, Inlinable30, text.with_limit()),
        _ => return Err(NOT_THERE),
    })
}

/// `try_from` of an `InlinableStringN`, in an array of the same capacity.
fn in_array(text: Text) -> Result<Moved, Fault> {
    Ok(match text {
        Text::Inlinable0(text) => moved!(Inlinable0, Array0, InlineStringN::try_from(text)),
        Text::Inlinable4(text) => moved!(Inlinable4, Array4, InlineStringN::try_from(text)),
        Text::Inlinable8(text) => moved!(Inlinable8, Array8, InlineStringN::try_from(text)),
        Text::Inlinable30(text) => moved!(Inlinable30, Array30, InlineStringN::try_from(text)),
        Text::Inlinable300(text) => moved!(Inlinable300, Array300, InlineStringN::try_from(text)),
        _ => return Err(NOT_THERE),
    })
}

fn boxed(text: Text) -> Result<Moved, Fault> {
    match text {
        Text::Inlinable30(text) => Ok(Ok(Text::Boxable(BoxableString::from(text)))),
        _ => Err(NOT_THERE),
    }
}
