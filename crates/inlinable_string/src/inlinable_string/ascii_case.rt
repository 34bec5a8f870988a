//! ASCII letters of a text, changed to the other case in place.
ghost use Rattle.std.specs.Prelude.{◌≡◌, map};
ghost use Rattle.std.specs.Char.{to_ascii_lowercase, to_ascii_uppercase};
ghost use Rattle.inlinable_string.specs.Text.{bytes_of, size};
ghost use Rattle.inlinable_string.specs.Values.{inlinable_policy, inlinable_state};

use super::InlinableStringN;

impl<const N: usize> InlinableStringN<N> {
    /// Converts the ASCII letters 'a' to 'z' to 'A' to 'Z', in place. All other characters, the
    /// storage and the capacity are unchanged.
    pub fn make_ascii_uppercase(&mut self)
        ensures text { (inlinable_state N self.new).text
            ≡ map to_ascii_uppercase (inlinable_state N self.old).text }
        ensures bytes { bytes_of (inlinable_state N self.new).text
            ≡ map to_ascii_uppercase (bytes_of (inlinable_state N self.old).text) }
        ensures len { size (inlinable_state N self.new).text
            ≡ size (inlinable_state N self.old).text }
        ensures storage { (inlinable_state N self.new).storage
            ≡ (inlinable_state N self.old).storage }
        ensures capacity { (inlinable_state N self.new).capacity
            ≡ (inlinable_state N self.old).capacity }
        ensures policy { (inlinable_state N self.new).policy
            ≡ (inlinable_state N self.old).policy }
    {
        match self {
            InlinableStringN::Heap(text, _) => text.make_ascii_uppercase(),
            InlinableStringN::Inline(text, _) => text.make_ascii_uppercase(),
        }
    }

    /// Converts the ASCII letters 'A' to 'Z' to 'a' to 'z', in place. All other characters, the
    /// storage and the capacity are unchanged.
    pub fn make_ascii_lowercase(&mut self)
        ensures text { (inlinable_state N self.new).text
            ≡ map to_ascii_lowercase (inlinable_state N self.old).text }
        ensures bytes { bytes_of (inlinable_state N self.new).text
            ≡ map to_ascii_lowercase (bytes_of (inlinable_state N self.old).text) }
        ensures len { size (inlinable_state N self.new).text
            ≡ size (inlinable_state N self.old).text }
        ensures storage { (inlinable_state N self.new).storage
            ≡ (inlinable_state N self.old).storage }
        ensures capacity { (inlinable_state N self.new).capacity
            ≡ (inlinable_state N self.old).capacity }
        ensures policy { (inlinable_state N self.new).policy
            ≡ (inlinable_state N self.old).policy }
    {
        match self {
            InlinableStringN::Heap(text, _) => text.make_ascii_lowercase(),
            InlinableStringN::Inline(text, _) => text.make_ascii_lowercase(),
        }
    }
}
