//! The items of an iterator, one by one, at the end of any text.
ghost use Rattle.std.specs.Prelude.{◌≤◌, OnOk, OnErr, IsOk};
ghost use Rattle.std.specs.Iterator.{IsFinite};
ghost use Rattle.std.specs.Iterator.Runs.{SomeRun, WholeRun, EachRunFrom};
ghost use Rattle.inlinable_string.specs.Text.{size};
ghost use Rattle.inlinable_string.specs.State.{HasRoom};
ghost use Rattle.inlinable_string.specs.Joins.{text_of_chars, text_of_strs, IsExtended, IsRefusedLast};

use crate::string_ext::StringExt;
use crate::well_formed::utf8_param;
use std::alloc::AllocError;

/// Appends the characters of an iterator that ends, one by one. Its `size_hint` is not used.
///
/// Fails only at a character with which the text would exceed the capacity that it had at the call.
/// Then the characters before that one have been appended, and it is lost.
pub fn extend_chars<S: StringExt, I: Iterator<Item = char>>(
    text: &mut S,
    items: I,
) -> Result<(), AllocError>
    requires can { I.can_next items }
    requires ends { IsFinite (I.remaining items) }
    ensures ok { OnOk result (WholeRun I.next_gives items
        (λ run. IsExtended (S.state text.old) run.items (S.state text.new))) }
    ensures err { OnErr result (SomeRun I.next_gives items (λ run. IsRefusedLast text_of_chars
        (S.state text.old) run.items (S.state text.new))) }

    // What fits cannot fail, and the capacity does not shrink.
    ensures granted { EachRunFrom I.next_gives items
        (λ run. HasRoom (S.state text.old) (size run.items)) → IsOk result }
    ensures room { OnOk result ((S.state text.old).capacity ≤ (S.state text.new).capacity) }
{
    // `len` states the laws of the value.
    let _ = text.len();
    for ch in items {
        text.push(ch)?;
    }
    Ok(())
}

/// Appends the strings of an iterator that ends, one by one. Its `size_hint` is not used.
///
/// Fails only at a string with which the text would exceed the capacity that it had at the call.
/// Then the strings before that one have been appended, and nothing of it.
pub fn extend_strs<'a, S: StringExt, I: Iterator<Item = &'a str>>(
    text: &mut S,
    items: I,
) -> Result<(), AllocError>
    requires can { I.can_next items }
    requires ends { IsFinite (I.remaining items) }
    ensures ok { OnOk result (WholeRun I.next_gives items
        (λ run. IsExtended (S.state text.old) (text_of_strs run.items) (S.state text.new))) }
    ensures err { OnErr result (SomeRun I.next_gives items (λ run. IsRefusedLast text_of_strs
        (S.state text.old) run.items (S.state text.new))) }

    // What fits cannot fail, and the capacity does not shrink.
    ensures granted { EachRunFrom I.next_gives items
        (λ run. HasRoom (S.state text.old) (size (text_of_strs run.items))) → IsOk result }
    ensures room { OnOk result ((S.state text.old).capacity ≤ (S.state text.new).capacity) }
{
    // `len` states the laws of the value.
    let _ = text.len();
    for string in items {
        text.push_str(utf8_param(string))?;
    }
    Ok(())
}
