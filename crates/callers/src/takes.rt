//! Characters that are taken off and out, and those that pass a test.
ghost use Rattle.std.specs.Prelude.{◌≡◌, ◌≤◌, ◌<◌, ◌==◌, ◌++◌, [], ◌∷◌, length, filter, not, IfOk, OnOk, OnErr, IfNone, IfSome};
ghost use Rattle.std.specs.Char.{is_ascii_digit};
ghost use Rattle.inlinable_string.specs.Text.{size};
ghost use Rattle.inlinable_string.specs.Values.{inlinable_state};

use inlinable_string::{InlinableString, InlinableStringN, InlineStringN, StringExt};
use std::alloc::AllocError;
use std::mem;

/// Takes off two characters, the last first.
pub fn take_two(text: &mut dyn StringExt) -> Option<(char, char)>
    ensures size { size (state text.new).text ≤ size (state text.old).text }
    ensures storage { (state text.new).storage ≡ (state text.old).storage }
    ensures taken { IfSome result (λ pair.
        (state text.old).text ≡ (state text.new).text ++ pair.1 ∷ pair.0 ∷ []) }
    ensures few { IfNone result (length (state text.old).text < 2) }
    ensures emptied { IfNone result ((state text.new).text ≡ []) }
{
    let last = text.pop()?;
    let before = text.pop()?;
    Some((last, before))
}

/// Takes a line out of its buffer, where an empty one is left.
pub fn take_line<const N: usize>(
    buffer: &mut InlinableStringN<N>,
) -> Result<InlinableStringN<N>, AllocError>
    ensures taken { IfOk result (λ line. line ≡ buffer.old) }
    ensures left { OnOk result ((inlinable_state N buffer.new).text ≡ []) }
    ensures err { OnErr result (buffer.new ≡ buffer.old) }
{
    mem::try_take(buffer)
}

/// Keeps the digits of a text in an array.
pub fn only_digits(text: &mut InlineStringN<16>)
    ensures digits { text.new ≡ filter is_ascii_digit text.old }
    ensures len { size text.new ≤ size text.old }
{
    text.retain(|c| c.is_ascii_digit());
}

/// Removes a character wherever it is, from a text in either storage, which stays.
pub fn without(text: &mut InlinableString, gone: char)
    ensures text { (inlinable_state 30 text.new).text
        ≡ filter (λ c. not (c == gone)) (inlinable_state 30 text.old).text }
    ensures storage { (inlinable_state 30 text.new).storage
        ≡ (inlinable_state 30 text.old).storage }
{
    text.retain(|c| c != gone);
}
