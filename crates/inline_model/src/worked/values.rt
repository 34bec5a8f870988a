//! What contracts see of the values of each type.
ghost use Rattle.std.specs.Prelude.{◌≡◌, true, false};
ghost use Rattle.std.specs.Str.{chars};
ghost use Rattle.std.specs.String.{string_bytes, string_capacity};
ghost use Rattle.inlinable_string.specs.StringValues.{string_state};
ghost use Rattle.inlinable_string.specs.Values.{inlinable_state};
ghost use Rattle.inlinable_string.specs.BoxableValues.{boxable_state};
ghost use Rattle.inline_model.specs.Worked.{inline_text};

use inlinable_string::{BoxableString, InlinableStringN, InlineStringN, Storage};
use std::alloc::Global;

/// A value that is `Inline` is its text, with the capacity of its parameter, which is the limit; in
/// the type without a parameter that is 30.
pub fn inline_values(
    text: &InlineStringN<30>,
    none: &InlineStringN<0>,
    boxable: &BoxableString,
    alloc: Global,
)
    ensures thirty { inlinable_state 30 (InlinableStringN.Inline text.now alloc)
        ≡ inline_text text.now 30 }
    ensures zero { inlinable_state 0 (InlinableStringN.Inline none.now alloc)
        ≡ inline_text none.now 0 }
    ensures boxable { boxable.now.0 ≡ InlinableStringN.Inline text.now alloc
        → boxable_state boxable.now ≡ inline_text text.now 30 }
{}

/// A value that is `Heap` is its `String`, with the capacity of that; its limit is the parameter.
pub fn heap_value(string: &String, alloc: Global)
    ensures text { (inlinable_state 30 (InlinableStringN.Heap string.now alloc)).text
        ≡ chars (string_bytes string.now) }
    ensures storage { (inlinable_state 30 (InlinableStringN.Heap string.now alloc)).storage
        ≡ Storage.Heap }
    ensures capacity { (inlinable_state 30 (InlinableStringN.Heap string.now alloc)).capacity
        ≡ string_capacity string.now }
    ensures demotes { (inlinable_state 30 (InlinableStringN.Heap string.now alloc)).policy.demotes
        ≡ true }
    ensures limit { (inlinable_state 30 (InlinableStringN.Heap string.now alloc)).policy.limit
        ≡ 30 }
{}

/// A `String` is its text, in its own room on the heap, and never comes back from there.
pub fn string_value(string: &String)
    ensures text { (string_state string.now).text ≡ chars (string_bytes string.now) }
    ensures storage { (string_state string.now).storage ≡ Storage.Heap }
    ensures capacity { (string_state string.now).capacity ≡ string_capacity string.now }
    ensures demotes { (string_state string.now).policy.demotes ≡ false }
{}
