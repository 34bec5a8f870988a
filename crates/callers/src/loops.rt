//! Loops over characters and strings: a call, and one of std's adapters for what the loop does.
ghost use Rattle.std.specs.Prelude.{◌≡◌, ◌≤◌, ◌++◌, ◌==◌, if◌then◌else◌, map, filter, replicate, reverse, IfOk, IsOk, OnOk};
ghost use Rattle.std.specs.Char.{is_ascii_digit};
ghost use Rattle.std.specs.Str.{chars};
ghost use Rattle.inlinable_string.specs.Text.{size};
ghost use Rattle.inlinable_string.specs.Joins.{text_of_strs};

use inlinable_string::inline_string::NotEnoughSpaceError;
use inlinable_string::laws::{items_are_the_characters, sizes_are_sums};
use inlinable_string::{InlineStringN, StringExt, string_ext};
use std::alloc::AllocError;

/// Appends `n` spaces.
pub fn pad(text: &mut InlineStringN<32>, n: usize) -> Result<(), NotEnoughSpaceError>
    ensures { OnOk result (text.new ≡ text.old ++ replicate n 32) }
{
    text.extend_chars(std::iter::repeat_n(' ', n))
}

/// A name with `_` instead of each `-`.
pub fn as_name(string: &str) -> Result<InlineStringN<16>, NotEnoughSpaceError>
    ensures { IfOk result (λ made. made ≡ map (λ c. if c == 45 then 95 else c) (chars string.now)) }
{
    InlineStringN::from_chars(string.chars().map(|ch| underscored(ch)))
}

/// What the closure does: in a function, so that a contract says it.
fn underscored(ch: char) -> char
    ensures { result ≡ (if ch == 45 then 95 else ch) }
{
    if ch == '-' { '_' } else { ch }
}

/// Letters the other way round.
pub fn reversed(letters: &[char]) -> Result<InlineStringN<32>, NotEnoughSpaceError>
    ensures { IfOk result (λ made. made ≡ reverse letters.now) }
{
    InlineStringN::from_chars(letters.iter().rev().copied())
}

/// Adds the digits of a string to the end of any text.
pub fn add_digits<S: StringExt>(text: &mut S, string: &str) -> Result<(), AllocError>
    ensures { OnOk result ((S.state text.new).text
        ≡ (S.state text.old).text ++ filter is_ascii_digit (chars string.now)) }
{
    items_are_the_characters();
    string_ext::extend_chars(text, string.chars().filter(|ch| ch.is_ascii_digit()))
}

/// A line of stars, which fits up to its limit.
pub fn stars(n: usize) -> Result<InlineStringN<16>, NotEnoughSpaceError>
    ensures text { IfOk result (λ made. made ≡ replicate n 42) }
    ensures fits { n ≤ 16 → IsOk result }
{
    sizes_are_sums();
    InlineStringN::from_chars(std::iter::repeat_n('*', n))
}

/// Words of a list, joined where they fit.
pub fn fitted(words: &[&str]) -> Result<InlineStringN<64>, NotEnoughSpaceError>
    ensures { size (text_of_strs words.now) ≤ 64 → IsOk result }
{
    sizes_are_sums();
    InlineStringN::from_strs(words.iter().copied())
}
