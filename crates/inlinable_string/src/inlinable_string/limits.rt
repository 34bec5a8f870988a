//! Texts that move from one capacity to another.
ghost use Rattle.std.specs.Prelude.{◌≡◌, ◌≤◌, IfOk, IfErr, IsOk};
ghost use Rattle.inlinable_string.specs.Text.{size};
ghost use Rattle.inlinable_string.specs.State.{storage_when_made};
ghost use Rattle.inlinable_string.specs.Values.{inlinable_policy, inlinable_state};

use super::InlinableStringN;
use crate::string_ext::Storage;

impl<const N: usize> InlinableStringN<N> {
    /// Converts the text to an inline capacity of `M` bytes: it is stored inline exactly if it has
    /// at most `M` bytes. If the allocation fails, the text is returned unchanged.
    ///
    /// Only an inline text of more than `M` bytes allocates, once and exactly. A heap text of more
    /// than `M` bytes keeps its allocation and its capacity.
    #[tactic(auto, using(crate::proofs::Text::sizes))]
    pub fn with_limit<const M: usize>(self) -> Result<InlinableStringN<M>, InlinableStringN<N>>
        ensures text { IfOk result (λ moved.
            (inlinable_state M moved).text ≡ (inlinable_state N self.entry).text) }
        ensures storage { IfOk result (λ moved. (inlinable_state M moved).storage
            ≡ storage_when_made (inlinable_policy M) (size (inlinable_state N self.entry).text)) }
        ensures policy { IfOk result
            (λ moved. (inlinable_state M moved).policy ≡ inlinable_policy M) }
        ensures err { IfErr result (λ same. same ≡ self.entry) }

        // Cannot fail if the text fits inline or is on the heap; there the capacity is kept.
        ensures granted { size (inlinable_state N self.entry).text ≤ M → IsOk result }
        ensures heap_granted { (inlinable_state N self.entry).storage ≡ Storage.Heap
            → IsOk result }
        ensures room { IfOk result (λ moved. (inlinable_state N self.entry).storage ≡ Storage.Heap
            → (inlinable_state M moved).storage ≡ Storage.Heap
            → (inlinable_state M moved).capacity ≡ (inlinable_state N self.entry).capacity) }
    {
        match self {
            InlinableStringN::Heap(text, alloc) => Ok(InlinableStringN::from_string(alloc, text)),
            InlinableStringN::Inline(text, alloc) => {
                match InlinableStringN::from(alloc, text.as_str()) {
                    Ok(moved) => Ok(moved),
                    Err(_) => Err(InlinableStringN::Inline(text, alloc)),
                }
            }
        }
    }
}
