//! Ranges of a text replaced or removed, between offsets that are character boundaries, and texts
//! overwritten with bytes of the same length.
ghost use Rattle.std.specs.Prelude.{◌≡◌, ◌≢◌, ◌+◌, ◌-◌, ◌≤◌, ◌↔◌, length, drop, map, codes, IsTrue, IfOk, OnOk, OnErr, IsUtf8};
ghost use Rattle.std.specs.Char.{to_ascii_uppercase};
ghost use Rattle.std.specs.Str.{chars};
ghost use Rattle.inlinable_string.specs.Text.{bytes_of, size, IsPlace};
ghost use Rattle.inlinable_string.specs.State.{IsSameText};
ghost use Rattle.inlinable_string.specs.Ranges.{IsRangeReplaced};
ghost use Rattle.inlinable_string.specs.Values.{inlinable_state};

use inlinable_string::inline_string::ReplaceError;
use inlinable_string::{InlinableString, InlinableStringN, InlineStringN, StringExt};
use std::alloc::{AllocError, Global};

/// Drops the oldest bytes of a line of a log, up to the end of a character. It cannot fail.
pub fn drop_oldest(line: &mut InlineStringN<64>, n: usize)
    requires { IsPlace line.old n }
    ensures bytes { bytes_of line.new ≡ drop n (bytes_of line.old) }
    ensures len { size line.new + n ≡ size line.old }
{
    let _ = line.len();
    let Ok(()) = line.replace_range(0..n, "") else {
        unreachable!();
    };
}

/// The same of a line in either storage.
pub fn drop_oldest_of(line: &mut InlinableStringN<64>, n: usize)
    requires { IsPlace (inlinable_state 64 line.old).text n }
    ensures bytes { bytes_of (inlinable_state 64 line.new).text
        ≡ drop n (bytes_of (inlinable_state 64 line.old).text) }
    ensures storage { (inlinable_state 64 line.new).storage
        ≡ (inlinable_state 64 line.old).storage }
{
    let _ = line.len();
    let Ok(()) = line.replace_range(0..n, "") else {
        unreachable!();
    };
}

/// Replaces a secret by stars, if there is one from `from` to `to`.
pub fn mask(text: &mut InlinableString, from: usize, to: usize) -> Result<bool, AllocError>
    ensures done { IfOk result (λ done. IsTrue done → IsRangeReplaced
        (inlinable_state 30 text.old).text from to (codes "***")
        (inlinable_state 30 text.new).text) }
    ensures err { OnErr result
        (IsSameText (inlinable_state 30 text.old) (inlinable_state 30 text.new)) }
{
    if to < from || !text.is_char_boundary(from) || !text.is_char_boundary(to) {
        return Ok(false);
    }
    text.replace_range(from..to, "***")?;
    Ok(true)
}

/// Sets the value in a line, or does nothing where it doesn't fit.
pub fn set_value<const N: usize>(
    line: &mut InlineStringN<N>,
    from: usize,
    to: usize,
    value: &str,
) -> bool
    requires from { IsPlace line.old from }
    requires to { IsPlace line.old to }
    requires order { from ≤ to }
    ensures fits { IsTrue result ↔ (size line.old + length value.now ≤ N + (to - from)) }
    ensures done { IsTrue result → IsRangeReplaced line.old from to (chars value.now) line.new }
{
    line.replace_range(from..to, value).is_ok()
}

/// Replaces small letters with capital ones.
pub fn uppercase<S: StringExt>(alloc: Global, text: &mut S) -> Result<(), AllocError>
    ensures size { size (S.state text.new).text ≡ size (S.state text.old).text }
    ensures ok { OnOk result (bytes_of (S.state text.new).text
        ≡ map to_ascii_uppercase (bytes_of (S.state text.old).text)) }
    ensures err { OnErr result (IsSameText (S.state text.old) (S.state text.new)) }
{
    let capitals = text.as_str().to_ascii_uppercase(alloc)?;
    let Ok(()) = text.replace_bytes(capitals.as_str().as_bytes()) else {
        unreachable!();
    };
    Ok(())
}

/// Takes the bytes, or says why not.
pub fn replaced<S: StringExt>(text: &mut S, bytes: &[u8]) -> &'static str
    ensures same { size (S.state text.new).text ≡ size (S.state text.old).text }
    ensures taken { length bytes.now ≡ size (S.state text.old).text → IsUtf8 bytes.now
        → (result.now ≡ codes "taken") × (bytes_of (S.state text.new).text ≡ bytes.now) }
    ensures wrong_length { length bytes.now ≢ size (S.state text.old).text
        → (result.now ≡ codes "another length") × IsSameText (S.state text.old) (S.state text.new) }
    ensures not_utf8 { length bytes.now ≡ size (S.state text.old).text → ¬ (IsUtf8 bytes.now)
        → (result.now ≡ codes "no text") × IsSameText (S.state text.old) (S.state text.new) }
{
    match text.replace_bytes(bytes) {
        Ok(()) => "taken",
        Err(ReplaceError::WrongLength) => "another length",
        Err(ReplaceError::NotUtf8) => "no text",
    }
}
