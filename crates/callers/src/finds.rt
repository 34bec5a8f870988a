//! What std's searches find in `as_str()` is a place of the text, so that it can be cut there.
ghost use Rattle.std.specs.Prelude.{◌≡◌, ◌⊎◌, ◌==◌, ℕ, ◌+◌, ◌<◌, ◌≤◌, List, ◌++◌, drop, codes, slice_index, IfSome};
ghost use Rattle.std.specs.Str.{chars, trim_end, IsCharBoundary, NoCharPasses};
ghost use Rattle.inlinable_string.specs.Text.{bytes_of, size};

use inlinable_string::laws::{cuts_are_cuts_of_bytes, fronts_end_at_places, fronts_have_rests};
use inlinable_string::{InlineStringN, StringExt};

/// Removes the extension of a file's name, through a `dyn`.
pub fn strip_extension(name: &mut dyn StringExt)
    ensures size { size (state name.new).text ≤ size (state name.old).text }
    ensures storage { (state name.new).storage ≡ (state name.old).storage }
    ensures front { (rest : List ℕ) × ((state name.old).text ≡ (state name.new).text ++ rest) }
    ensures found { ¬ (NoCharPasses (λ c. c == 46) (bytes_of (state name.old).text))
        → slice_index (bytes_of (state name.old).text) (size (state name.new).text) ≡ 46 }
    ensures last { size (state name.new).text < size (state name.old).text
        → NoCharPasses (λ c. c == 46)
        (drop (size (state name.new).text + 1) (bytes_of (state name.old).text)) }
    ensures none { (state name.new).text ≡ (state name.old).text
        ⊎ (slice_index (bytes_of (state name.old).text) (size (state name.new).text) ≡ 46) }
{
    if let Some(idx) = name.as_str().rfind('.') {
        name.truncate(idx);
    }
}

/// Keeps at most `most` bytes, and no part of a character.
pub fn shorten<S: StringExt>(text: &mut S, most: usize)
    ensures short { size (S.state text.new).text ≤ most }
    ensures front { (rest : List ℕ) × ((S.state text.old).text ≡ (S.state text.new).text ++ rest) }
    ensures longest { (p : ℕ) → size (S.state text.new).text < p → p ≤ most
        → ¬ (IsCharBoundary (bytes_of (S.state text.old).text) p) }
{
    let end = text.as_str().floor_char_boundary(most);
    text.truncate(end);
}

/// Takes white space off the end.
pub fn trim_end<S: StringExt>(text: &mut S)
    ensures size { size (S.state text.new).text ≤ size (S.state text.old).text }
    ensures front { (rest : List ℕ) × ((S.state text.old).text ≡ (S.state text.new).text ++ rest) }
    ensures trimmed { (S.state text.new).text
        ≡ chars (trim_end (bytes_of (S.state text.old).text)) }
{
    fronts_end_at_places();
    cuts_are_cuts_of_bytes();
    let end = text.as_str().trim_end().len();
    text.truncate(end);
}

/// The key of a line such as `key=value`.
pub fn key_of(line: &str) -> Option<&str>
    ensures rest { IfSome result (λ key. (value : List ℕ)
        × (line.now ≡ key.now ++ codes "=" ++ value)) }
    ensures first { IfSome result (λ key. NoCharPasses (λ c. c == 61) key.now) }
{
    fronts_have_rests();
    let (key, _) = line.split_once('=')?;
    Some(key)
}

/// Removes a comment, and its sign.
pub fn strip_comment(line: &mut InlineStringN<64>)
    ensures { NoCharPasses (λ c. c == 35) (bytes_of line.new) }
{
    fronts_have_rests();
    if let Some(idx) = line.as_str().find('#') {
        line.truncate(idx);
    }
}
