//! Printing, which is that of the text as a `str` whatever its storage, and writing into a text.
ghost use Rattle.std.specs.Prelude.{◌≡◌, ◌+◌, ◌≤◌, ◌++◌, length, true, Some, IsOk, OnOk, OnErr};
ghost use Rattle.std.specs.Char.{is_ascii};
ghost use Rattle.std.specs.Fmt.{styled_text, debug_str};
ghost use Rattle.std.specs.List.{list_all};
ghost use Rattle.std.specs.Str.{chars};
ghost use Rattle.inlinable_string.specs.Text.{bytes_of, size};
ghost use Rattle.inlinable_string.specs.State.{IsSameText, HasRoom, HasInlineRoom, storage_with_room};
ghost use Rattle.inlinable_string.specs.Values.{inlinable_state};

use crate::inlinable_string::InlinableStringN;
use crate::string_ext::StringExt;
use std::fmt;

/// The text, padded as its `str` is: by width, fill and alignment, counted in characters.
impl<const N: usize> fmt::Display for InlinableStringN<N> {
    ghost output = { λ s. Some (bytes_of (inlinable_state N s).text) };

    ghost styled_output = { λ s spec.
        Some (styled_text spec (bytes_of (inlinable_state N s).text)) };

    fn fmt<W: fmt::Write>(&self, f: &mut fmt::Formatter<W>) -> fmt::Result {
        f.pad(self.as_str())
    }
}

/// The text between quotes, as its `str` is printed.
impl<const N: usize> fmt::Debug for InlinableStringN<N> {
    ghost debug_output = { λ s. debug_str (bytes_of (inlinable_state N s).text) };

    fn fmt<W: fmt::Write>(&self, f: &mut fmt::Formatter<W>) -> fmt::Result {
        fmt::Debug::fmt(&self.as_str(), f)
    }
}

/// Appends what is written. If the allocation fails, nothing of the string is appended; a string
/// that fits in the capacity cannot fail.
impl<const N: usize> fmt::Write for InlinableStringN<N> {
    ghost write_str_gives = { λ s bytes t.
        bytes_of (inlinable_state N t).text ≡ bytes_of (inlinable_state N s).text ++ bytes };

    fn write_str(&mut self, s: &str) -> fmt::Result
        ensures bytes { IsOk result → bytes_of (inlinable_state N self.new).text
            ≡ bytes_of (inlinable_state N self.old).text ++ s.now }
        ensures text { OnOk result
            ((inlinable_state N self.new).text ≡ (inlinable_state N self.old).text ++ chars s.now) }
        ensures ascii { list_all is_ascii s.now ≡ true → OnOk result
            ((inlinable_state N self.new).text ≡ (inlinable_state N self.old).text ++ s.now) }
        ensures len { OnOk result (size (inlinable_state N self.new).text
            ≡ size (inlinable_state N self.old).text + length s.now) }
        ensures storage { OnOk result ((inlinable_state N self.new).storage
            ≡ storage_with_room (inlinable_state N self.old) (length s.now)) }
        ensures err { OnErr result
            (IsSameText (inlinable_state N self.old) (inlinable_state N self.new)) }

        // What fits cannot fail, and the capacity does not shrink.
        ensures granted { HasRoom (inlinable_state N self.old) (length s.now) → IsOk result }
        ensures inline_granted { HasInlineRoom (inlinable_state N self.old) (length s.now)
            → IsOk result }
        ensures room { OnOk result
            ((inlinable_state N self.old).capacity ≤ (inlinable_state N self.new).capacity) }
        ensures policy { (inlinable_state N self.new).policy ≡ (inlinable_state N self.old).policy }
    {
        match self.push_str(s) {
            Ok(()) => Ok(()),
            Err(_) => Err(fmt::Error),
        }
    }
}
