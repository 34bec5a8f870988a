//! Texts split in two, in the other case, copied, moved to another capacity, and handed over as a
//! `String`.
ghost use Rattle.std.specs.Prelude.{◌≡◌, ◌≤◌, ◌<◌, ◌++◌, map, IfOk, IfErr, IfNone, IfSome, IsOk, OnOk, OnErr, slice_index};
ghost use Rattle.std.specs.Char.{to_ascii_lowercase, to_ascii_uppercase};
ghost use Rattle.std.specs.Ordering.{nat_cmp};
ghost use Rattle.std.specs.Cmp.Lexicographic.{slice_cmp};
ghost use Rattle.std.specs.BTreeMap.{get};
ghost use Rattle.inlinable_string.specs.Text.{bytes_of, size};
ghost use Rattle.inlinable_string.specs.State.{IsSameText};
ghost use Rattle.inlinable_string.specs.StringValues.{string_state};
ghost use Rattle.inlinable_string.specs.Values.{inlinable_state};

use inlinable_string::laws::strings_convert;
use inlinable_string::{InlinableString, InlinableStringN, InlineStringN, Storage, StringExt};
use std::alloc::AllocError;
use std::collections::BTreeMap;

/// The price of an article, of which any case may be typed: the keys are in lower case.
pub fn price_of(prices: &BTreeMap<InlineStringN<16>, u32>, name: &InlineStringN<16>) -> Option<u32>
    ensures { result ≡ get (λ s t. slice_cmp nat_cmp (bytes_of s) (bytes_of t)) prices.now
        (map to_ascii_lowercase name.now) }
{
    let mut key = name.copy();
    key.make_ascii_lowercase();
    prices.get(&key).copied()
}

/// A heading in capitals, where it is stored: it stays of the same size.
pub fn capitals<const N: usize>(heading: &mut InlinableStringN<N>)
    ensures text { (inlinable_state N heading.new).text
        ≡ map to_ascii_uppercase (inlinable_state N heading.old).text }
    ensures size { size (inlinable_state N heading.new).text
        ≡ size (inlinable_state N heading.old).text }
    ensures storage { (inlinable_state N heading.new).storage
        ≡ (inlinable_state N heading.old).storage }
{
    heading.make_ascii_uppercase();
}

/// Takes the value off `key=value`, with the sign before it.
pub fn take_value<const N: usize>(pair: &mut InlineStringN<N>) -> Option<InlineStringN<N>>
    ensures parts { IfSome result (λ value. pair.old ≡ pair.new ++ value) }
    ensures sign { IfSome result (λ value. slice_index (bytes_of value) 0 ≡ 61) }
    ensures none { IfNone result (pair.new ≡ pair.old) }
{
    let at = pair.as_str().find('=')?;
    Some(pair.split_off(at))
}

/// Keeps at most `most` bytes of a line, and no part of a character, and returns the rest.
pub fn wrap<const N: usize>(
    line: &mut InlinableStringN<N>,
    most: usize,
) -> Result<InlinableStringN<N>, AllocError>
    ensures parts { IfOk result (λ rest. (inlinable_state N line.old).text
        ≡ (inlinable_state N line.new).text ++ (inlinable_state N rest).text) }
    ensures short { OnOk result (size (inlinable_state N line.new).text ≤ most) }
    ensures err { OnErr result (IsSameText (inlinable_state N line.old)
        (inlinable_state N line.new)) }
    ensures granted { size (inlinable_state N line.old).text ≤ N → IsOk result }
    ensures inline { (inlinable_state N line.old).storage ≡ Storage.Inline → IsOk result }
{
    let at = line.as_str().floor_char_boundary(most);
    line.split_off(at)
}

/// A name for a library that takes a `String`; a long one goes as it is.
pub fn handed_over<const N: usize>(name: InlinableStringN<N>) -> Result<String, InlinableStringN<N>>
    ensures text { IfOk result
        (λ string. (string_state string).text ≡ (inlinable_state N name.entry).text) }
    ensures err { IfErr result (λ same. same ≡ name.entry) }
    ensures granted { (inlinable_state N name.entry).storage ≡ Storage.Heap → IsOk result }
{
    name.into_string()
}

/// A key of a table out of a `String`, or the `String` back.
pub fn key_of(name: String) -> Result<InlineStringN<16>, String>
    ensures ok { IfOk result (λ key. key ≡ (string_state name).text) }
    ensures err { IfErr result (λ back. back ≡ name) }
    ensures fits { size (string_state name).text ≤ 16 → IsOk result }
{
    strings_convert::<16>();
    InlineStringN::try_from(name)
}

/// A key of a table, in less room; or the name as it came, which then has more than 8 bytes.
pub fn as_key(name: InlinableString) -> Result<InlinableStringN<8>, InlinableString>
    ensures text { IfOk result
        (λ key. (inlinable_state 8 key).text ≡ (inlinable_state 30 name).text) }
    ensures err { IfErr result (λ back. back ≡ name) }
    ensures long { IfErr result (λ back. 8 < size (inlinable_state 30 back).text) }
{
    name.with_limit::<8>()
}

/// A name that was cut goes back inline, into a larger value: that takes no memory.
pub fn widened(name: InlinableStringN<8>) -> InlinableStringN<64>
    requires { size (inlinable_state 8 name).text ≤ 64 }
    ensures text { (inlinable_state 64 result).text ≡ (inlinable_state 8 name).text }
    ensures storage { (inlinable_state 64 result).storage ≡ Storage.Inline }
{
    let Ok(wide) = name.with_limit::<64>() else {
        unreachable!();
    };
    wide
}
