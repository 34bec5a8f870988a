//! Growths, also within capacity that is reserved first: pushes directly after it cannot fail, so
//! their results need not be returned. A growth of several parts that fails can leave the text
//! unchanged.
ghost use Rattle.std.specs.Prelude.{◌≡◌, ◌+◌, ◌≤◌, ◌<◌, ◌↔◌, ◌++◌, [], ◌∷◌, length, IsOk, OnOk, OnErr};
ghost use Rattle.std.specs.Str.{chars};
ghost use Rattle.inlinable_string.specs.Text.{size};
ghost use Rattle.inlinable_string.specs.State.{IsSameText, HasRoom, storage_with_room};
ghost use Rattle.inlinable_string.specs.Values.{inlinable_state};

use inlinable_string::inline_string::NotEnoughSpaceError;
use inlinable_string::laws::{parts_are_told_by_their_size, splices_at_the_ends};
use inlinable_string::{InlinableStringN, InlineString, InlineStringN, Storage, StringExt};
use std::alloc::AllocError;

/// Sets a token of at most thirty bytes. It does not allocate.
pub fn set_token(buffer: &mut InlineString, token: &str)
    requires { length token.now ≤ 30 }
    ensures { buffer.new ≡ chars token.now }
{
    buffer.clear();
    let Ok(()) = buffer.push_str(token) else {
        unreachable!();
    };
}

/// Shrinks the capacity of a text: a short one is inline then, and this cannot fail.
pub fn release<const N: usize>(text: &mut InlinableStringN<N>)
    ensures text { (inlinable_state N text.new).text ≡ [] }
    ensures storage { (inlinable_state N text.new).storage ≡ Storage.Inline }
{
    text.clear();
    let Ok(()) = text.shrink_to_fit() else {
        unreachable!();
    };
}

/// Puts a text between quotation marks.
pub fn quote<S: StringExt>(text: &mut S) -> Result<(), AllocError>
    ensures { OnOk result
        ((S.state text.new).text ≡ 34 ∷ ((S.state text.old).text ++ 34 ∷ [])) }
{
    splices_at_the_ends();
    text.insert(0, '"')?;
    text.push('"')
}

/// Adds a character to a text in an array, which is refused exactly where it does not fit.
pub fn add_if_it_fits<const N: usize>(
    text: &mut InlineStringN<N>,
    ch: char,
) -> Result<(), NotEnoughSpaceError>
    ensures ok { OnOk result (text.new ≡ text.old ++ ch ∷ []) }
    ensures err { OnErr result ((text.new ≡ text.old) × (N < size text.old + size (ch ∷ []))) }
{
    text.push(ch)
}

/// A character has at most four bytes.
pub fn add_character(text: &mut dyn StringExt, ch: char) -> Result<(), AllocError>
    ensures ok { OnOk result ((state text.new).text ≡ (state text.old).text ++ ch ∷ []) }
    ensures err { OnErr result (IsSameText (state text.old) (state text.new)) }
{
    text.reserve_exact(4)?;
    let Ok(()) = text.push(ch) else {
        unreachable!();
    };
    Ok(())
}

/// A push where the caller knows of room.
pub fn push_into_room<S: StringExt>(text: &mut S, word: &str)
    requires { HasRoom (S.state text.old) (length word.now) }
    ensures text { (S.state text.new).text ≡ (S.state text.old).text ++ chars word.now }
    ensures room { (S.state text.old).capacity ≤ (S.state text.new).capacity }
{
    let Ok(()) = text.push_str(word) else {
        unreachable!();
    };
}

/// Adds `key=value`, or nothing.
pub fn add_pair<S: StringExt>(text: &mut S, key: &str, value: &str) -> Result<(), AllocError>
    ensures ok { OnOk result ((S.state text.new).text
        ≡ (S.state text.old).text ++ chars key.now ++ 61 ∷ chars value.now) }
    ensures err { OnErr result ((S.state text.new).text ≡ (S.state text.old).text) }
{
    text.reserve(key.len() + 1 + value.len())?;
    text.push_str(key)?;
    text.push('=')?;
    text.push_str(value)
}

/// Adds `key=value` to a text in an array, or nothing.
pub fn add_inline_pair<const N: usize>(
    text: &mut InlineStringN<N>,
    key: &str,
    value: &str,
) -> Result<(), NotEnoughSpaceError>
    ensures fits { IsOk result ↔ (size text.old + length key.now + 1 + length value.now ≤ N) }
    ensures ok { OnOk result (text.new ≡ text.old ++ chars key.now ++ 61 ∷ chars value.now) }
    ensures err { OnErr result (text.new ≡ text.old) }
{
    if N - text.len() < key.len() + 1 + value.len() {
        return Err(NotEnoughSpaceError);
    }
    text.push_str(key)?;
    text.push('=')?;
    text.push_str(value)
}

/// Adds a text and takes it back by a cut at the old length: the room that it took stays.
pub fn add_and_take_back<S: StringExt>(text: &mut S, part: &str) -> Result<(), AllocError>
    ensures text { (S.state text.new).text ≡ (S.state text.old).text }
    ensures storage { OnOk result ((S.state text.new).storage
        ≡ storage_with_room (S.state text.old) (length part.now)) }
    ensures err { OnErr result (IsSameText (S.state text.old) (S.state text.new)) }
{
    parts_are_told_by_their_size();
    let end = text.len();
    text.push_str(part)?;
    text.truncate(end);
    Ok(())
}
