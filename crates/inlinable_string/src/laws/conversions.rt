//! Lemmas on the conversions that need no allocator, and on when each fails.
ghost use Rattle.std.specs.Prelude.{◌≡◌, ◌↔◌, ◌≤◌, ◌<◌, ℕ, List, [], ◌∷◌, Ok, Err, String, length};
ghost use Rattle.std.specs.Borrow.{Bor};
ghost use Rattle.std.specs.Str.{chars};
ghost use Rattle.inlinable_string.specs.Text.{size};
ghost use Rattle.inlinable_string.specs.declared.inline_string.TheConstants.{INLINE_STRING_CAPACITY};
ghost use Rattle.inlinable_string.specs.State.{storage_when_made};
ghost use Rattle.inlinable_string.specs.StringValues.{string_state};
ghost use Rattle.inlinable_string.specs.Values.{inlinable_policy, inlinable_state};
ghost use Rattle.inlinable_string.specs.declared.string_ext.Storage.TheVariants.{Heap, Inline};

use crate::boxable_string::BoxableString;
use crate::inlinable_string::{InlinableString, InlinableStringN};
use crate::inline_json::JsonError;
use crate::inline_string::{InlineStringN, NotEnoughSpaceError};
use crate::string_ext::Utf16Error;
use std::alloc::{AllocError, Global};
use std::str::FromStr;

/// `parse`, and `try_from` of a `&str`, a character or a text of any storage, make a text in an
/// array exactly if the bytes fit. The last returns its text if they do not.
#[tactic(auto, using(crate::proofs::Text::ascii_chars))]
pub fn conversions_succeed_where_it_fits<'a, const N: usize>()
    ensures parsed { (bytes t : List ℕ)
        → ⟦<InlineStringN<N> as FromStr>⟧.from_str_gives bytes (Ok t)
        ↔ ((t ≡ chars bytes) × (length bytes ≤ N)) }
    ensures parse_fails { (bytes : List ℕ) (error : NotEnoughSpaceError)
        → ⟦<InlineStringN<N> as FromStr>⟧.from_str_gives bytes (Err error) ↔ (N < length bytes) }
    ensures str_taken { (string : Bor (List ℕ)) (t : List ℕ)
        → ⟦<InlineStringN<N> as TryFrom<&'a str>>⟧.try_from_gives string (Ok t)
        ↔ ((t ≡ chars string.now) × (length string.now ≤ N)) }
    ensures str_fails { (string : Bor (List ℕ)) (error : NotEnoughSpaceError)
        → ⟦<InlineStringN<N> as TryFrom<&'a str>>⟧.try_from_gives string (Err error)
        ↔ (N < length string.now) }
    ensures char_taken { (c : ℕ) (t : List ℕ)
        → ⟦<InlineStringN<N> as TryFrom<char>>⟧.try_from_gives c (Ok t)
        ↔ ((t ≡ c ∷ []) × (size (c ∷ []) ≤ N)) }
    ensures char_fails { (c : ℕ) (error : NotEnoughSpaceError)
        → ⟦<InlineStringN<N> as TryFrom<char>>⟧.try_from_gives c (Err error) ↔ (N < size (c ∷ [])) }
    ensures text_taken { (text : InlinableStringN N) (t : List ℕ)
        → ⟦<InlineStringN<N> as TryFrom<InlinableStringN<N>>>⟧.try_from_gives text (Ok t)
        ↔ ((t ≡ (inlinable_state N text).text) × (size (inlinable_state N text).text ≤ N)) }
    ensures text_fails { (text back : InlinableStringN N)
        → ⟦<InlineStringN<N> as TryFrom<InlinableStringN<N>>>⟧.try_from_gives text (Err back)
        ↔ ((back ≡ text) × (N < size (inlinable_state N text).text)) }
{}

/// What the conversions from and to a `String` give, and when the two that may fail do.
pub fn strings_convert<const N: usize>()
    ensures taken { (string : String Global) (t : List ℕ)
        → ⟦<InlineStringN<N> as TryFrom<String>>⟧.try_from_gives string (Ok t)
        ↔ ((t ≡ (string_state string).text) × (size (string_state string).text ≤ N)) }
    ensures fails { (string back : String Global)
        → ⟦<InlineStringN<N> as TryFrom<String>>⟧.try_from_gives string (Err back)
        ↔ ((back ≡ string) × (N < size (string_state string).text)) }
    ensures from_string { (string : String Global) (made : InlinableStringN N)
        → ⟦<InlinableStringN<N> as From<String>>⟧.from_gives string made
        ↔ (((inlinable_state N made).text ≡ (string_state string).text)
        × ((inlinable_state N made).storage
        ≡ storage_when_made (inlinable_policy N) (size (string_state string).text))
        × ((inlinable_state N made).storage ≡ Heap
        → (inlinable_state N made).capacity ≡ (string_state string).capacity)) }
    ensures into_string { (text : InlinableStringN N) (string : String Global)
        → ⟦<String as TryFrom<InlinableStringN<N>>>⟧.try_from_gives text (Ok string)
        ↔ ((string_state string).text ≡ (inlinable_state N text).text) }
    ensures into_fails { (text back : InlinableStringN N)
        → ⟦<String as TryFrom<InlinableStringN<N>>>⟧.try_from_gives text (Err back)
        ↔ ((back ≡ text) × ((inlinable_state N text).storage ≡ Inline)) }
{}

/// A text goes into a box as it is.
pub fn boxed_as_it_is()
    ensures { (text : InlinableStringN INLINE_STRING_CAPACITY) (made : BoxableString)
        → ⟦<BoxableString as From<InlinableString>>⟧.from_gives text made ↔ (made.0 ≡ text) }
{}

/// A failed allocation is the error's `NoMemory`, as `?` converts it.
pub fn alloc_errors_are_no_memory()
    ensures utf16 { (failed : AllocError) (error : Utf16Error)
        → ⟦<Utf16Error as From<AllocError>>⟧.from_gives failed error
        ↔ (error ≡ Utf16Error.NoMemory) }
    ensures json { (failed : AllocError) (error : JsonError)
        → ⟦<JsonError as From<AllocError>>⟧.from_gives failed error
        ↔ (error ≡ JsonError.NoMemory) }
{}
