//! White space taken off the ends of a text.
ghost use Rattle.std.specs.Prelude.{◌≡◌, ◌≤◌};
ghost use Rattle.std.specs.Str.{chars, trim, trim_start, trim_end};
ghost use Rattle.inlinable_string.specs.Text.{bytes_of};
ghost use Rattle.inlinable_string.specs.Values.{inlinable_state};

use super::InlinableStringN;
use super::replaced::remove_on_heap;

impl<const N: usize> InlinableStringN<N> {
    /// Removes the white space at the start and at the end: what is left is what `str::trim`
    /// returns. The text stays where it is stored, a heap text with its capacity. Cannot fail.
    pub fn trim_in_place(&mut self)
        ensures text { (inlinable_state N self.new).text
            ≡ chars (trim (bytes_of (inlinable_state N self.old).text)) }
        ensures bytes { bytes_of (inlinable_state N self.new).text
            ≡ trim (bytes_of (inlinable_state N self.old).text) }
        ensures storage { (inlinable_state N self.new).storage
            ≡ (inlinable_state N self.old).storage }
        ensures capacity { (inlinable_state N self.old).capacity
            ≤ (inlinable_state N self.new).capacity }
        ensures policy { (inlinable_state N self.new).policy
            ≡ (inlinable_state N self.old).policy }
    {
        self.trim_start_in_place();
        self.trim_end_in_place();
    }

    /// Removes the white space at the start: what is left is what `str::trim_start` returns. The
    /// text stays where it is stored, a heap text with its capacity. Cannot fail.
    pub fn trim_start_in_place(&mut self)
        ensures text { (inlinable_state N self.new).text
            ≡ chars (trim_start (bytes_of (inlinable_state N self.old).text)) }
        ensures bytes { bytes_of (inlinable_state N self.new).text
            ≡ trim_start (bytes_of (inlinable_state N self.old).text) }
        ensures storage { (inlinable_state N self.new).storage
            ≡ (inlinable_state N self.old).storage }
        ensures capacity { (inlinable_state N self.old).capacity
            ≤ (inlinable_state N self.new).capacity }
        ensures policy { (inlinable_state N self.new).policy
            ≡ (inlinable_state N self.old).policy }
    {
        match self {
            InlinableStringN::Heap(text, _) => {
                let string = text.as_str();
                let white = string.len() - string.trim_start().len();
                remove_on_heap(text, 0, white);
            }
            InlinableStringN::Inline(text, _) => text.trim_start_in_place(),
        }
    }

    /// Removes the white space at the end: what is left is what `str::trim_end` returns. The text
    /// stays where it is stored, a heap text with its capacity. Cannot fail.
    pub fn trim_end_in_place(&mut self)
        ensures text { (inlinable_state N self.new).text
            ≡ chars (trim_end (bytes_of (inlinable_state N self.old).text)) }
        ensures bytes { bytes_of (inlinable_state N self.new).text
            ≡ trim_end (bytes_of (inlinable_state N self.old).text) }
        ensures storage { (inlinable_state N self.new).storage
            ≡ (inlinable_state N self.old).storage }
        ensures capacity { (inlinable_state N self.old).capacity
            ≤ (inlinable_state N self.new).capacity }
        ensures policy { (inlinable_state N self.new).policy
            ≡ (inlinable_state N self.old).policy }
    {
        match self {
            InlinableStringN::Heap(text, _) => {
                let end = text.as_str().trim_end().len();
                text.truncate(end);
            }
            InlinableStringN::Inline(text, _) => text.trim_end_in_place(),
        }
    }
}
