//! Cuts and insertions at places, which `is_char_boundary` tests.
ghost use Rattle.std.specs.Prelude.{◌≡◌, ◌+◌, ◌≤◌, ◌<◌, ◌↔◌, ◌++◌, [], ◌∷◌, IsTrue, IfOk, OnErr, length, IsSome, IfNone, IfSome};
ghost use Rattle.std.specs.Str.{chars};
ghost use Rattle.inlinable_string.specs.Text.{size, IsPlace, IsSplice, IsRemoval};
ghost use Rattle.inlinable_string.specs.State.{IsSameText};

use inlinable_string::laws::{
    edits_leave_places, places_are_boundaries, steps_are_over_characters,
};
use inlinable_string::{InlineStringN, StringExt, StringMake};
use std::alloc::{AllocError, Global};

/// Puts a text in at a place, or does nothing where there is none.
pub fn insert_at<S: StringExt>(text: &mut S, place: usize, part: &str) -> Result<bool, AllocError>
    ensures when { IfOk result (λ done. IsTrue done ↔ IsPlace (S.state text.old).text place) }
    ensures put { IfOk result (λ done. IsTrue done
        → IsSplice (S.state text.old).text place (chars part.now) (S.state text.new).text) }
    ensures err { OnErr result (IsSameText (S.state text.old) (S.state text.new)) }
{
    if !text.is_char_boundary(place) {
        return Ok(false);
    }
    text.insert_str(place, part)?;
    Ok(true)
}

/// Takes out the character at a place, if one begins there.
pub fn remove_at<S: StringExt>(text: &mut S, place: usize) -> Option<char>
    ensures taken { IfSome result
        (λ c. IsRemoval (S.state text.old).text place c (S.state text.new).text) }
    ensures when { IsSome result ↔ (IsPlace (S.state text.old).text place
        × (place < size (S.state text.old).text)) }
    ensures none { IfNone result (IsSameText (S.state text.old) (S.state text.new)) }
{
    if place < text.len() && text.is_char_boundary(place) {
        return Some(text.remove(place));
    }
    None
}

/// Puts a dash in a text in an array, if there is a place and room.
pub fn dash_at(text: &mut InlineStringN<16>, place: usize) -> bool
    ensures done { IsTrue result → IsSplice text.old place (45 ∷ []) text.new }
    ensures room { IsPlace text.old place → size text.old ≤ 15 → IsTrue result }
{
    text.is_char_boundary(place) && text.insert(place, '-').is_ok()
}

/// Puts a completion in at a cursor, which stays a place, or does nothing where it doesn't fit.
pub fn complete<const N: usize>(text: &mut InlineStringN<N>, cursor: usize, part: &str) -> bool
    requires { IsPlace text.old cursor }
    ensures place { IsPlace text.new cursor }
    ensures done { IsTrue result → IsSplice text.old cursor (chars part.now) text.new }
    ensures fits { IsTrue result ↔ (size text.old + length part.now ≤ N) }
{
    edits_leave_places();
    text.insert_str(cursor, part).is_ok()
}

/// Splits the text off after a place, into a text of its own.
pub fn split_off<S: StringMake + Drop>(
    alloc: Global,
    text: &mut S,
    at: usize,
) -> Result<S, AllocError>
    requires { IsPlace (S.state text.old).text at }
    ensures ok { IfOk result (λ tail.
        (S.state text.old).text ≡ (S.state text.new).text ++ (S.state tail).text) }
    ensures place { IfOk result (λ _. size (S.state text.new).text ≡ at) }
    ensures err { OnErr result (IsSameText (S.state text.old) (S.state text.new)) }
{
    places_are_boundaries();
    let mut tail = S::new(alloc);
    tail.push_str(&text.as_str()[at..])?;
    text.truncate(at);
    Ok(tail)
}

/// The last character, and the text before it.
pub fn split_last<S: StringExt>(text: &S) -> Option<(&str, char)>
    ensures { IfSome result (λ parts.
        (S.state text.now).text ≡ chars parts.0.now ++ parts.1 ∷ []) }
{
    steps_are_over_characters();
    let mut front = text.as_str().chars();
    let last = front.next_back()?;
    Some((front.as_str(), last))
}
