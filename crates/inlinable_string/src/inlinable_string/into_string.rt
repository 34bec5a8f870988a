//! Texts as a `String`, and back.
ghost use Rattle.std.specs.Prelude.{◌≡◌, IfOk, IfErr, IsOk};
ghost use Rattle.std.specs.String.{string_bytes, string_capacity};
ghost use Rattle.inlinable_string.specs.StringValues.{string_state};
ghost use Rattle.inlinable_string.specs.Text.{bytes_of};
ghost use Rattle.inlinable_string.specs.Values.{inlinable_state};

use super::InlinableStringN;
use crate::string_ext::Storage;

impl<const N: usize> InlinableStringN<N> {
    /// Converts the text into a `String`.
    ///
    /// A heap text is that `String`, with its capacity: this does not allocate, and cannot fail. An
    /// inline text allocates once and exactly. If that fails, the text is returned unchanged.
    #[tactic(auto, using(crate::proofs::Makers::made))]
    pub fn into_string(self) -> Result<String, Self>
        ensures text { IfOk result
            (λ string. (string_state string).text ≡ (inlinable_state N self.entry).text) }
        ensures bytes { IfOk result
            (λ string. string_bytes string ≡ bytes_of (inlinable_state N self.entry).text) }
        ensures err { IfErr result (λ same. same ≡ self.entry) }

        // What is on the heap is handed over as it is.
        ensures heap_granted { (inlinable_state N self.entry).storage ≡ Storage.Heap
            → IsOk result }
        ensures capacity { IfOk result (λ string.
            (inlinable_state N self.entry).storage ≡ Storage.Heap
            → string_capacity string ≡ (inlinable_state N self.entry).capacity) }
    {
        match self {
            InlinableStringN::Heap(text, _) => Ok(text),
            InlinableStringN::Inline(text, alloc) => {
                match String::from_str(alloc, text.as_str()) {
                    Ok(string) => Ok(string),
                    Err(_) => Err(InlinableStringN::Inline(text, alloc)),
                }
            }
        }
    }
}
