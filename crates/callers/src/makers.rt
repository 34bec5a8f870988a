//! Texts from bytes and from UTF-16, and taken apart again.
ghost use Rattle.std.specs.Prelude.{◌≡◌, ℕ, ◌≤◌, ◌<◌, ◌↔◌, List, ◌∷◌, ◌++◌, length, drop, IfOk, IfErr, IfSome, IsOk, Err, IsUtf8, IsSome};
ghost use Rattle.std.specs.Char.{IsScalar, encode_utf8};
ghost use Rattle.std.specs.Str.{chars, StartsWithNoChar};
ghost use Rattle.std.specs.String.{string_bytes};
ghost use Rattle.std.specs.Cow.{cow_str_bytes, IsBorrowedStr};
ghost use Rattle.inlinable_string.specs.Text.{bytes_of, size};
ghost use Rattle.inlinable_string.specs.Utf16.{units_of, HasUnpaired, lossy_utf16};
ghost use Rattle.inlinable_string.specs.Lossy.{subpart_len, lossy_utf8};
ghost use Rattle.inlinable_string.specs.State.{storage_when_made};
ghost use Rattle.inlinable_string.specs.Values.{inlinable_policy, inlinable_state};

use inlinable_string::laws::{
    bytes_give_the_text_back, bytes_of_parts, lossy_reading_is_by_parts, paired_units_are_texts,
    utf16_is_read_as_it_is,
};
use inlinable_string::{
    InlinableString, InlinableStringN, InlineStringN, Storage, StringMake, Utf16Error,
};
use std::alloc::{AllocError, Global};
use std::borrow::CowStr;

/// A line of a log, whatever its units are, to be printed. A short one is on the heap too. Where no
/// unit is unpaired, they are those of the line.
pub fn log_line(alloc: Global, units: &[u16]) -> Result<InlinableStringN<16>, AllocError>
    ensures text { IfOk result (λ line. (inlinable_state 16 line).text ≡ lossy_utf16 units.now) }
    ensures paired { ¬ (HasUnpaired units.now)
        → IfOk result (λ line. units_of (inlinable_state 16 line).text ≡ units.now) }
    ensures storage { IfOk result (λ line. (inlinable_state 16 line).storage ≡ Storage.Heap) }
{
    paired_units_are_texts();
    InlinableStringN::from_utf16_lossy(alloc, units)
}

/// The units of a text that is known are read as that text, and those of no text are an error.
pub fn same_name<S: StringMake + Drop>(
    alloc: Global,
    name: &S,
    units: &[u16],
) -> Result<S, Utf16Error>
    ensures text { units.now ≡ units_of (S.state name.now).text
        → IfOk result (λ made. (S.state made).text ≡ (S.state name.now).text) }
    ensures paired { units.now ≡ units_of (S.state name.now).text
        → ¬ (result ≡ Err Utf16Error.Unpaired) }
    ensures unpaired { HasUnpaired units.now → result ≡ Err Utf16Error.Unpaired }
{
    paired_units_are_texts();
    utf16_is_read_as_it_is();
    let _ = name.len();
    S::from_utf16(alloc, units)
}

/// A body that is a text, or the bytes as they came. It is not copied.
pub fn body(alloc: Global, bytes: Vec<u8>) -> Result<InlinableStringN<16>, Vec<u8>>
    ensures ok { IfOk result (λ made. bytes_of (inlinable_state 16 made).text ≡ bytes.items) }
    ensures err { IfErr result (λ back. back ≡ bytes) }
    ensures utf8 { IsOk result ↔ IsUtf8 bytes.items }
{
    match InlinableStringN::from_utf8(alloc, bytes) {
        Ok(made) => Ok(made),
        Err(error) => Err(error.into_bytes()),
    }
}

/// Converts a text to its bytes and back, or returns it unchanged if an allocation fails.
pub fn through_bytes<S: StringMake + Drop>(alloc: Global, text: S) -> Result<S, S>
    ensures ok { IfOk result (λ made. (S.state made).text ≡ (S.state text).text) }
    ensures heap { IfOk result (λ made. (S.state made).storage ≡ Storage.Heap) }
    ensures err { IfErr result (λ kept. S.state kept ≡ S.state text) }
{
    bytes_give_the_text_back();
    let _ = text.len();
    let bytes = text.into_bytes()?;
    Ok(unsafe { S::from_utf8_unchecked(alloc, bytes) })
}

/// Bytes to be printed: they are copied only where they are not UTF-8. A character that they begin
/// with is read, and U+FFFD where there is none; then the bytes after it.
pub fn shown<'a>(alloc: Global, bytes: &'a [u8]) -> Result<CowStr<'a>, AllocError>
    ensures text { IfOk result (λ read. cow_str_bytes read ≡ bytes_of (lossy_utf8 bytes.now)) }
    ensures borrowed { IfOk result (λ read. IsBorrowedStr read ↔ IsUtf8 bytes.now) }
    ensures utf8 { IsUtf8 bytes.now → IfOk result (λ read. cow_str_bytes read ≡ bytes.now) }
    ensures granted { IsUtf8 bytes.now → IsOk result }
    ensures character { (c : ℕ) (rest : List ℕ) → IsScalar c → bytes.now ≡ encode_utf8 c ++ rest
        → IfOk result (λ read. cow_str_bytes read ≡ bytes_of (c ∷ lossy_utf8 rest)) }
    ensures fault { 0 < length bytes.now → StartsWithNoChar bytes.now → IfOk result
        (λ read. cow_str_bytes read
        ≡ bytes_of (0xFFFD ∷ lossy_utf8 (drop (subpart_len bytes.now) bytes.now))) }
{
    lossy_reading_is_by_parts();
    bytes_of_parts();
    InlinableString::from_utf8_lossy(alloc, bytes)
}

/// A key, which takes no memory where it is short.
pub fn key(alloc: Global, name: &str) -> Result<InlinableStringN<24>, AllocError>
    ensures text { IfOk result (λ made. (inlinable_state 24 made).text ≡ chars name.now) }
    ensures granted { length name.now ≤ 24 → IsOk result }
{
    InlinableStringN::from(alloc, name)
}

/// A `String` is kept where it is long, and put inline where it is not: neither takes memory.
pub fn interned(alloc: Global, name: String) -> InlinableStringN<24>
    ensures text { (inlinable_state 24 result).text ≡ chars (string_bytes name) }
    ensures storage { (inlinable_state 24 result).storage
        ≡ storage_when_made (inlinable_policy 24) (length (string_bytes name)) }
{
    InlinableStringN::from_string(alloc, name)
}

/// A word of a command line, in an array; none where it is too long.
pub fn word<const N: usize>(word: &str) -> Option<InlineStringN<N>>
    ensures some { IfSome result (λ made. made ≡ chars word.now) }
    ensures fits { IsSome result ↔ (length word.now ≤ N) }
{
    match word.parse::<InlineStringN<N>>() {
        Ok(made) => Some(made),
        Err(_) => None,
    }
}

/// A text that has become short goes into an array; a longer one comes back unchanged.
pub fn settled<const N: usize>(
    text: InlinableStringN<N>,
) -> Result<InlineStringN<N>, InlinableStringN<N>>
    ensures ok { IfOk result (λ made. made ≡ (inlinable_state N text.entry).text) }
    ensures err { IfErr result (λ back. back ≡ text.entry) }
    ensures fits { IsOk result ↔ (size (inlinable_state N text.entry).text ≤ N) }
{
    InlineStringN::try_from(text)
}
