//! Texts that are made by any type: empty ones, their capacity, storage and policy, and what
//! conversions make.
ghost use Rattle.std.specs.Prelude.{◌≡◌, ◌≤◌, ◌↔◌, ◌++◌, [], ◌∷◌, IfOk, IfSome, IsSome, OnOk};
ghost use Rattle.inlinable_string.specs.Text.{size};
ghost use Rattle.inlinable_string.specs.State.{HasRoom, storage_when_made};
ghost use Rattle.inlinable_string.specs.Values.{inlinable_policy, inlinable_state};
ghost use Rattle.inlinable_string.specs.BoxableValues.{boxable_state};
ghost use Rattle.inlinable_string.specs.StringValues.{string_state};

use inlinable_string::{
    BoxableString, InlinableString, InlinableStringN, InlineStringN, Storage, StringExt, StringMake,
};
use std::alloc::{AllocError, Global};

/// The empty text, of a type of the caller's choice.
pub fn empty<S: StringMake + Drop>(alloc: Global) -> S
    ensures text { (S.state result).text ≡ [] }
    ensures storage { (S.state result).storage ≡ storage_when_made S.policy 0 }
    ensures policy { (S.state result).policy ≡ S.policy }
{
    S::new(alloc)
}

/// A text with room for `room` bytes.
pub fn with_room<S: StringMake + Drop>(alloc: Global, room: usize) -> Result<S, AllocError>
    ensures room { IfOk result (λ made. HasRoom (S.state made) room) }
    ensures policy { IfOk result (λ made. (S.state made).policy ≡ S.policy) }
{
    S::with_capacity(alloc, room)
}

/// Capacity within the limit is inline, and this cannot fail.
pub fn inline_with_room<const N: usize>(alloc: Global) -> InlinableStringN<N>
    ensures text { (inlinable_state N result).text ≡ [] }
    ensures storage { (inlinable_state N result).storage ≡ Storage.Inline }
    ensures policy { (inlinable_state N result).policy ≡ inlinable_policy N }
{
    let Ok(made) = InlinableStringN::with_capacity(alloc, N) else {
        unreachable!();
    };
    made
}

/// Names of at most `N` bytes each.
#[derive(Drop)]
pub struct Names<const N: usize> {
    /// All of them.
    pub all: Vec<InlineStringN<N>>,
}

impl<const N: usize> Names<N> {
    /// Adds a name. The caller makes it: a method of a type that is generic over `N` knows the size
    /// of what it makes where a parameter or the result is of that type.
    pub fn add(&mut self, name: InlineStringN<N>) -> Result<(), AllocError>
        ensures { OnOk result (self.new.all.items ≡ self.old.all.items ++ name.entry ∷ []) }
    {
        match self.all.push(name) {
            Ok(()) => Ok(()),
            Err(_) => Err(AllocError),
        }
    }
}

/// The empty text, as `derive(Default)` makes it.
pub fn blank<const N: usize>() -> InlineStringN<N>
    ensures { result ≡ [] }
{
    InlineStringN::default()
}

/// A character as a text, or none where the array is too small.
pub fn initial<const N: usize>(ch: char) -> Option<InlineStringN<N>>
    ensures some { IfSome result (λ made. made ≡ ch ∷ []) }
    ensures fits { IsSome result ↔ (size (ch ∷ []) ≤ N) }
{
    InlineStringN::try_from(ch).ok()
}

/// A text for a box of a `dyn`; its storage is unchanged.
pub fn boxable(text: InlinableString) -> BoxableString
    ensures { boxable_state result ≡ inlinable_state 30 text }
{
    BoxableString::from(text)
}

/// A copy of a `dyn StringExt` in std's `String`.
pub fn string_of(alloc: Global, text: &dyn StringExt) -> Result<String, AllocError>
    ensures { IfOk result (λ copy. (string_state copy).text ≡ (state text.now).text) }
{
    let mut copy: String = StringMake::new(alloc);
    StringExt::push_str(&mut copy, text.as_str())?;
    Ok(copy)
}
