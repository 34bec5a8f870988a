//! Texts compared and copied, as keys of maps and sets, and in a struct of one's own.
ghost use Rattle.std.specs.Prelude.{◌≡◌, ◌≤◌, ◌<◌, ◌↔◌, ◌⊎◌, length, IsTrue, IfOk, IsOk, None, nat_eq};
ghost use Rattle.std.specs.Ordering.{nat_cmp};
ghost use Rattle.std.specs.Cmp.Lexicographic.{pointwise, slice_cmp};
ghost use Rattle.std.specs.Str.{chars};
ghost use Rattle.std.specs.BTreeMap.{get};
ghost use Rattle.std.specs.HashSet.{contains_by};
ghost use Rattle.inlinable_string.specs.Text.{bytes_of};
ghost use Rattle.inlinable_string.specs.State.{IsSameText};
ghost use Rattle.inlinable_string.specs.Values.{inlinable_state};

use inlinable_string::laws::{equality_is_that_of_texts, order_is_that_of_the_bytes};
use inlinable_string::{InlinableString, InlinableStringN, InlineStringN, Storage, StringExt};
use std::alloc::AllocError;
use std::cmp::Ordering;
use std::collections::{BTreeMap, HashSet};

/// Whether two texts have the same characters, whatever their storage.
pub fn is_same<const N: usize>(a: &InlinableStringN<N>, b: &InlinableStringN<N>) -> bool
    ensures { IsTrue result ↔ ((inlinable_state N a.now).text ≡ (inlinable_state N b.now).text) }
{
    equality_is_that_of_texts::<N>();
    let _ = a.len();
    a == b
}

/// The later of two texts.
pub fn later<const N: usize>(a: InlinableStringN<N>, b: InlinableStringN<N>) -> InlinableStringN<N>
    ensures one { (result ≡ a.entry) ⊎ (result ≡ b.entry) }
    ensures first { ¬ (slice_cmp nat_cmp (bytes_of (inlinable_state N a.entry).text)
        (bytes_of (inlinable_state N result).text) ≡ Ordering.Greater) }
    ensures second { ¬ (slice_cmp nat_cmp (bytes_of (inlinable_state N b.entry).text)
        (bytes_of (inlinable_state N result).text) ≡ Ordering.Greater) }
{
    order_is_that_of_the_bytes::<N>();
    a.max(b)
}

/// A copy, with the storage of the text.
pub fn copied<const N: usize>(text: &InlinableStringN<N>) -> Result<InlinableStringN<N>, AllocError>
    ensures same { IfOk result (λ copy. IsSameText (inlinable_state N text.now)
        (inlinable_state N copy)) }
    ensures granted { (inlinable_state N text.now).storage ≡ Storage.Inline → IsOk result }
{
    text.clone()
}

/// The price of what has this name. The key is made on the stack, so it does not allocate.
pub fn price_of(prices: &BTreeMap<InlineStringN<16>, u32>, name: &str) -> Option<u32>
    ensures too_long { 16 < length name.now → result ≡ None }
    ensures value { length name.now ≤ 16 → result
        ≡ get (λ s t. slice_cmp nat_cmp (bytes_of s) (bytes_of t)) prices.now (chars name.now) }
{
    if 16 < name.len() {
        return None;
    }
    prices.get(&InlineStringN::from(name)).copied()
}

/// Whether a name is among those seen, whatever the storage of each.
pub fn is_seen(seen: &HashSet<InlinableString>, name: &InlinableString) -> bool
    ensures { result ≡ contains_by (λ key. pointwise nat_eq
        (bytes_of (inlinable_state 30 name.now).text) (bytes_of (inlinable_state 30 key).text))
        seen.now }
{
    seen.contains(name)
}

/// A name with a short code, which is compared, hashed, printed and copied by what it holds.
#[derive(Clone, Debug, PartialEq, Eq, PartialOrd, Ord, Hash, Drop)]
pub struct Entry {
    /// A name of any length.
    pub name: InlinableString,
    /// A code of at most eight bytes.
    pub code: InlineStringN<8>,
}

/// Whether two entries are the same.
pub fn is_same_entry(a: &Entry, b: &Entry) -> bool
    ensures { IsTrue result ↔ ((bytes_of (inlinable_state 30 a.now.name).text
        ≡ bytes_of (inlinable_state 30 b.now.name).text)
        × (bytes_of a.now.code ≡ bytes_of b.now.code)) }
{
    a == b
}
