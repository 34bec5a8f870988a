//! Lemmas on printing, and on writing into a text.
ghost use Rattle.std.specs.Prelude.{◌≡◌, ◌↔◌, ℕ, List, ◌++◌, Some};
ghost use Rattle.std.specs.Fmt.{styled_text, debug_str, WritesInCalls};
ghost use Rattle.inlinable_string.specs.Text.{bytes_of};
ghost use Rattle.inlinable_string.specs.Values.{inlinable_state};
ghost use Rattle.inlinable_string.specs.declared.inlinable_string.InlinableStringN.{InlinableStringN};

use crate::inlinable_string::InlinableStringN;
use crate::inline_string::InlineStringN;
use std::fmt;

/// A text is printed as its `str` is, also padded, whatever its storage; so it is between quotes,
/// which std states of ASCII.
pub fn printing_is_that_of_the_str<const N: usize>()
    ensures inline_plain { (s : List ℕ) → ⟦<InlineStringN<N> as fmt::Display>⟧.output s
        ≡ Some (bytes_of s) }
    ensures inline_styled { (s : List ℕ) (spec : _)
        → ⟦<InlineStringN<N> as fmt::Display>⟧.styled_output s spec
        ≡ Some (styled_text spec (bytes_of s)) }
    ensures inline_debug { (s : List ℕ) → ⟦<InlineStringN<N> as fmt::Debug>⟧.debug_output s
        ≡ debug_str (bytes_of s) }
    ensures plain { (s : InlinableStringN N)
        → ⟦<InlinableStringN<N> as fmt::Display>⟧.output s
        ≡ Some (bytes_of (inlinable_state N s).text) }
    ensures styled { (s : InlinableStringN N) (spec : _)
        → ⟦<InlinableStringN<N> as fmt::Display>⟧.styled_output s spec
        ≡ Some (styled_text spec (bytes_of (inlinable_state N s).text)) }
    ensures debug { (s : InlinableStringN N)
        → ⟦<InlinableStringN<N> as fmt::Debug>⟧.debug_output s
        ≡ debug_str (bytes_of (inlinable_state N s).text) }
{}

/// Writing into a text appends to its bytes. What `write!` writes in several calls is appended as
/// one string.
pub fn writing_appends<const N: usize>()
    ensures inline { (s : List ℕ) (bytes : List ℕ) (t : List ℕ)
        → ⟦<InlineStringN<N> as fmt::Write>⟧.write_str_gives s bytes t
        ↔ (bytes_of t ≡ bytes_of s ++ bytes) }
    ensures any { (s : InlinableStringN N) (bytes : List ℕ) (t : InlinableStringN N)
        → ⟦<InlinableStringN<N> as fmt::Write>⟧.write_str_gives s bytes t
        ↔ (bytes_of (inlinable_state N t).text ≡ bytes_of (inlinable_state N s).text ++ bytes) }
    ensures inline_in_calls { (s : List ℕ) (bytes : List ℕ) (t : List ℕ)
        → WritesInCalls ⟦<InlineStringN<N> as fmt::Write>⟧.write_str_gives s bytes t
        → bytes_of t ≡ bytes_of s ++ bytes }
    ensures any_in_calls { (s : InlinableStringN N) (bytes : List ℕ) (t : InlinableStringN N)
        → WritesInCalls ⟦<InlinableStringN<N> as fmt::Write>⟧.write_str_gives s bytes t
        → bytes_of (inlinable_state N t).text ≡ bytes_of (inlinable_state N s).text ++ bytes }
{}
